//! Whole runs over real files, in the folder in which the test runs; and the real folder and streams by themselves.
use document_examples::{push, wrong_in};
use hash_key::HashKey;
use rel_io::{Folder, Got, NoMemory, Opened, Sink};
use rel_os::{DiskFolder, StdSink};
use release_chain::{Ended, release};
use std::alloc::Global;
use std::test::Fail;
use std::{fs, io};

/// The names of input and output, and how the run ends: its status, and the text of the output where it was written. The
/// file `a.obo` has frames out of order and a parent that is said twice, and `d.obo` is a folder.
const RUNS: &str = "\
a.obo b.obo => 0 format-version: 1.4|ontology: ex||[Term]|id: EX:0000001|name: part||[Term]|id: EX:0000002|name: wheel|is_a: EX:0000001 ! part|
b.obo c.obo => 0 format-version: 1.4|ontology: ex||[Term]|id: EX:0000001|name: part||[Term]|id: EX:0000002|name: wheel|is_a: EX:0000001 ! part|
none.obo e.obo => 1 no text
d.obo e.obo => 3 no text
a.obo d.obo => 3 no text
a.obo none/b.obo => 3 no text";

#[test]
fn real_files_are_written_or_refused(rt: HostRuntime) -> Result<(), Fail> {
    make_files(&rt)?;
    let wrong = wrong_in(
        rt.alloc(),
        RUNS,
        |alloc, names| ending_of(&rt, alloc, names),
    )?;
    assert_eq!(rt; wrong.as_str(), "");
    Ok(())
}

/// Makes the files of the table.
fn make_files(rt: &HostRuntime) -> io::Result<()> {
    fs::create_dir(rt, "d.obo")?;
    let text =
        "ontology: ex\n\n[Term]\nid: EX:0000002\nname: wheel\nis_a: EX:0000001\nis_a: EX:0000001\n\n[Term]\nid: EX:0000001\nname: part\n";
    fs::write(rt, "a.obo", text)
}

/// How the run with these two names ends.
fn ending_of(rt: &HostRuntime, alloc: Global, names: &str) -> Result<Vec<u8>, NoMemory> {
    let (input, output) = names.split_once(' ').unwrap_or((names, ""));
    let ended = run(rt, alloc, input, output)?;
    let mut shown = format!(in alloc; "{} ", ended.status)?.into_bytes();
    drop(ended);
    match fs::read_to_string(rt, output) {
        Ok(text) => push(&mut shown, text.as_bytes())?,
        Err(_) => push(&mut shown, b"no text")?,
    }
    Ok(shown)
}

/// Does what the program does with the words `merge --input INPUT convert --output OUTPUT`.
fn run(rt: &HostRuntime, alloc: Global, input: &str, output: &str) -> Result<Ended, NoMemory> {
    let mut words = Vec::new(alloc);
    for word in ["merge", "--input", input, "convert", "--output", output] {
        words.push(String::from_str(alloc, word)?)?;
    }
    let mut folder = DiskFolder::new(rt);
    let mut out = StdSink::output(rt);
    let mut err = StdSink::error(rt);
    Ok(release(
        alloc,
        HashKey::new(7),
        &words,
        &mut folder,
        &mut out,
        &mut err,
    ))
}

#[test]
fn a_real_file_is_read_in_pieces(rt: HostRuntime) -> Result<(), Fail> {
    fs::write(&rt, "pieces", "12345")?;
    let mut folder = DiskFolder::new(&rt);
    let mut buffer = [0u8; 4];
    let is_right = folder.open_file(b"missing") == Opened::Missing
        && folder.open_file(b"\xff") == Opened::Missing
        && folder.open_file(b"pieces\0") == Opened::Missing
        && folder.open_file(b"pieces") == Opened::Ready
        && folder.read(&mut buffer) == Got::Bytes(4)
        && folder.read(&mut buffer) == Got::Bytes(1)
        && folder.read(&mut buffer) == Got::AtEnd;
    assert!(rt; is_right);
    Ok(())
}

#[test]
fn the_streams_take_bytes(rt: HostRuntime) {
    let is_right = StdSink::output(&rt).write_all(b"out\n") == Ok(())
        && StdSink::error(&rt).write_all(b"err\n") == Ok(());
    assert!(rt; is_right);
}
