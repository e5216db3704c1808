//! The files of a run over a folder in memory: the inputs, what they import, and what is refused first, with answers worked
//! out by hand from the rules.
ghost use Rattle.std.specs.Prelude.{◌<◌, ◌+◌, ◌^◌};

use super::ground::{folder_with, names_in, next_word, shown_fault};
use document_examples::{push, wrong_in};
use import_closure::{SourceFile, read_files};
use rel_io::{Bytes, Limits, MemFolder, NoMemory};
use std::alloc::Global;
use std::test::Fail;

/// How many files and how many bytes there may be, how many bytes a read is given, the call that fails, from 0, the inputs,
/// the catalog, and behind each `; ` a file; and the files in the order in which they are read, or the fault. In pieces of
/// five bytes a file of 28 takes the open, six reads, and one that meets the end.
const LISTS: &str = "\
9 999 9 99 a.obo -; a.obo=import: b.obo|; b.obo=import: a.obo| => a.obo b.obo
9 999 9 99 a.obo -; a.obo=import: a.obo| => a.obo
9 999 9 99 a.obo,a.obo -; a.obo= => a.obo
9 999 9 99 a.obo,b.obo -; a.obo=import: c.obo|; b.obo=import: d.obo|import: c.obo|; c.obo=; d.obo= => a.obo b.obo c.obo d.obo
9 999 9 99 edit.obo -; edit.obo=ontology: ex|import: ro.obo| => MissingImport edit.obo 2 ro.obo
9 999 9 99 edit.obo -; ro.obo= => MissingInput edit.obo
9 999 9 99 a.obo,b.obo -; a.obo=import: c.obo|; b.obo=import: c.obo| => MissingImport a.obo 1 c.obo
9 999 9 99 a.obo,b.obo -; a.obo=import: b.obo| => MissingInput b.obo
9 999 9 99 e.obo c; e.obo=import: http://x.org/ro.owl|; c=http://x.org/ro.owl@09@ro.obo|; ro.obo= => e.obo ro.obo
9 999 9 99 d/e.obo c; d/e.obo=import: http://x.org/ro.owl|; c=http://x.org/ro.owl@09@ro.obo|; ro.obo= => d/e.obo ro.obo
9 999 9 99 e.obo -; e.obo=import: http://x.org/ro.owl|; ro.owl= => e.obo ro.owl
9 999 9 99 d/e.obo -; d/e.obo=import: http://x.org/ro.owl|; d/ro.owl= => d/e.obo d/ro.owl
9 999 9 99 a/e.obo,b/f.obo -; a/e.obo=; b/f.obo=import: x/g.obo|; b/x/g.obo=import: h|; b/x/h= => a/e.obo b/f.obo b/x/g.obo b/x/h
9 999 9 99 a.obo -; a.obo=import: http://x.org/| => MissingImport a.obo 1 http://x.org/
9 999 9 99 d/a.obo -; d/a.obo=import: https://x.org/y/|; https://x.org/y/= => d/a.obo https://x.org/y/
9 999 9 99 d/a.obo -; d/a.obo=import: /b.obo|; /b.obo= => d/a.obo /b.obo
9 999 9 99 a.obo -; a.obo=import: ./b.obo|import: b.obo|; b.obo=; ./b.obo= => a.obo ./b.obo b.obo
9 999 9 99 a.obo -; a.obo=import: b.obo {x=\"y\"} ! b|; b.obo= => a.obo b.obo
9 999 9 99 a.obo -; a.obo=[Term]|id: X:1|import: b.obo| => a.obo
9 999 9 99 a.obo c; a.obo=import: b|; c=b x|b y|; x=; y= => a.obo x
9 999 9 99 a.obo c; a.obo=import: b|; c= @09@ b  x @09@# y z@0D@|; x= => a.obo x
9 999 9 99 a.obo c; a.obo=import: b|; c=b x#y; x#y= => a.obo x#y
9 999 9 99 a.obo c; a.obo=import: b|; c=b@0D@c x|; x= => MissingImport a.obo 1 b
9 999 9 99 a.obo c; a.obo=import: b|; c=@EF@@BB@@BF@b x|; x= => MissingImport a.obo 1 b
9 999 9 99 a.obo c; a.obo=; c=b| => CatalogLine c 1
9 999 9 99 a.obo c; a.obo=; c=# all||b x # more|b x y| => CatalogLine c 4
9 999 9 99 a.obo c; a.obo=; c=b x|# @FF@| => CatalogLine c 2
9 1999999 99999 99 a.obo c; a.obo=; c=|#@1048575*x@| => a.obo
9 1999999 99999 99 a.obo c; a.obo=; c=|#@1048576*x@| => CatalogLine c 2
9 999 9 99 a.obo c; a.obo= => MissingInput c
9 999 9 99 b.obo c; c=b| => CatalogLine c 1
9 999 9 99 a.obo,b.obo -; a.obo=bad| => Syntax a.obo 1 NoColon
9 999 9 99 b.obo,a.obo -; a.obo=bad| => MissingInput b.obo
9 999 9 99 a.obo -; a.obo=import: b.obo|bad| => Syntax a.obo 2 NoColon
9 999 9 99 a.obo -; a.obo=import: b.obo|; b.obo=|[Term]|name: x| => NoId b.obo 2
9 999 9 99 a.obo -; a.obo=@FF@| => NotUtf8 a.obo 1
2 999 9 99 a,b,c -; a=; b=; c= => TooManyFiles 2
2 999 9 99 a,b -; a=; b=import: b| => a b
1 999 9 99 a -; a=import: b| => TooManyFiles 1
0 999 9 99 a -; a= => TooManyFiles 0
9 5 9 99 a -; a=!abcde => TooManyBytes a 5
9 5 9 99 a -; a=!abcd => a
9 5 2 99 a -; a=bad no => TooManyBytes a 5
9 15 9 99 a -; a=import: b|; b=!bbbb => a b
9 14 9 99 a -; a=import: b|; b=!bbbb => TooManyBytes b 14
9 10 9 99 a c; a=import: b|; c=b d||||||||; d= => TooManyBytes c 10
9 10 9 99 a c; a=import: b|; c=b d|||||||; d= => a d
9 999 5 0 a.obo -; a.obo=import: b.obo|import: c.obo|; b.obo=!bbbb; c.obo=!c => ReadFault a.obo
9 999 5 7 a.obo -; a.obo=import: b.obo|import: c.obo|; b.obo=!bbbb; c.obo=!c => ReadFault a.obo
9 999 5 8 a.obo -; a.obo=import: b.obo|import: c.obo|; b.obo=!bbbb; c.obo=!c => ReadFault b.obo
9 999 5 10 a.obo -; a.obo=import: b.obo|import: c.obo|; b.obo=!bbbb; c.obo=!c => ReadFault b.obo
9 999 5 11 a.obo -; a.obo=import: b.obo|import: c.obo|; b.obo=!bbbb; c.obo=!c => ReadFault c.obo
9 999 5 13 a.obo -; a.obo=import: b.obo|import: c.obo|; b.obo=!bbbb; c.obo=!c => ReadFault c.obo
9 999 5 14 a.obo -; a.obo=import: b.obo|import: c.obo|; b.obo=!bbbb; c.obo=!c => a.obo b.obo c.obo
9 999 1 99 a.obo -; a.obo=@EF@@BB@@BF@import: é.obo@0D@|; é.obo= => a.obo é.obo
9 999 5 99 a.obo -; a.obo=x: y|bad|name@FF@| => Syntax a.obo 2 NoColon
9 999 5 99 a.obo -; a.obo=x: y@C3@|@A9@bad| => NotUtf8 a.obo 1
9 999 5 3 a.obo -; a.obo=bad|!bbbb|!bbbb => ReadFault a.obo
9 999 5 99 a.obo -; a.obo=bad|!bbbb|!bbbb => Syntax a.obo 1 NoColon
9 999 5 0 a.obo c; a.obo=; c= => ReadFault c
9 999 5 1 a.obo c; a.obo=; c= => ReadFault c
9 999 5 2 a.obo c; a.obo=; c= => ReadFault a.obo";

#[test]
fn files_are_listed_or_refused(rt: HostRuntime) -> Result<(), Fail> {
    let wrong = wrong_in(rt.alloc(), LISTS, listed)?;
    assert_eq!(rt; wrong.as_str(), "");
    Ok(())
}

/// The files of an example, or its fault.
fn listed(alloc: Global, example: &str) -> Result<Vec<u8>, NoMemory> {
    let (head, rest) = example.split_once("; ").unwrap_or((example, ""));
    let (files, head) = next_word(head);
    let (bytes, head) = next_word(head);
    let (piece, head) = next_word(head);
    let (call, head) = next_word(head);
    let (inputs, catalog) = next_word(head);
    let limits = Limits {
        files: files.parse::<u32>().unwrap_or(0),
        bytes: u64::from(bytes.parse::<u32>().unwrap_or(0).min(1_999_999)),
        line: Limits::release().line,
        seed_lines: 0,
        facts: 0,
    };
    let piece = piece.parse::<usize>().unwrap_or(1).max(1);
    let mut folder = folder_with(alloc, rest, piece, call.parse::<u64>().unwrap_or(0))?;
    read(alloc, &mut folder, inputs, catalog, &limits)
}

/// What reading these inputs gives.
fn read(
    alloc: Global,
    folder: &mut MemFolder,
    inputs: &str,
    catalog: &str,
    limits: &Limits,
) -> Result<Vec<u8>, NoMemory>
    requires { limits.now.bytes + 1 < 2 ^ 32 }
{
    let names = names_in(alloc, inputs)?;
    let catalog_name = Bytes::from_slice(alloc, catalog.as_bytes())?;
    let catalog = if catalog == "-" {
        None
    } else {
        Some(&catalog_name)
    };
    match read_files(alloc, folder, names.as_slice(), catalog, limits) {
        Ok(sources) => shown(alloc, sources.as_slice()),
        Err(fault) => shown_fault(alloc, &fault),
    }
}

/// The names of the files.
fn shown(alloc: Global, sources: &[SourceFile]) -> Result<Vec<u8>, NoMemory> {
    let mut text = Vec::new(alloc);
    for source in sources {
        if !text.is_empty() {
            push(&mut text, b" ")?;
        }
        push(&mut text, source.name.as_slice())?;
    }
    Ok(text)
}

/// How many files import each other in a row; and how many are read then, or the fault.
const CHAINS: &str = "\
256 => 256
257 => TooManyFiles 256";

#[test]
fn so_many_files_are_read(rt: HostRuntime) -> Result<(), Fail> {
    let wrong = wrong_in(rt.alloc(), CHAINS, chained)?;
    assert_eq!(rt; wrong.as_str(), "");
    Ok(())
}

/// How many files of a chain of so many are read.
fn chained(alloc: Global, count: &str) -> Result<Vec<u8>, NoMemory> {
    let limits = Limits {
        files: Limits::release().files,
        bytes: 9999,
        line: Limits::release().line,
        seed_lines: 0,
        facts: 0,
    };
    let files = chain(alloc, count.parse::<u32>().unwrap_or(0))?;
    let mut folder = folder_with(alloc, files.as_str(), 65_536, 99_999)?;
    let names = names_in(alloc, "f0")?;
    match read_files(alloc, &mut folder, names.as_slice(), None, &limits) {
        Ok(sources) => Ok(format!(in alloc; "{}", sources.as_slice().len())?.into_bytes()),
        Err(fault) => shown_fault(alloc, &fault),
    }
}

/// So many files, as a row has them, each of which imports the next one.
fn chain(alloc: Global, count: u32) -> Result<String, NoMemory> {
    let mut files = String::new(alloc);
    let mut last: u32 = 0;
    for next in 1..count {
        files.push_str(format!(in alloc; "f{last}=import: f{next}|; ")?.as_str())?;
        last = next;
    }
    files.push_str(format!(in alloc; "f{last}=")?.as_str())?;
    Ok(files)
}
