//! The seeds of term files at the limit of their lines, and one behind it.
use document_examples::{bytes_of, push, wrong_in};
use hash_key::HashKey;
use rel_io::{Bytes, NoMemory};
use seed_list::{Seed, read_seed};
use std::alloc::Global;
use std::test::Fail;

/// How many lines there may be, and a term file; and the IRIs of its seed, or why there is none. Each line counts.
const FILES: &str = "\
2 http://x/b|http://x/a => http://x/a http://x/b
2 http://x/b|http://x/a| => http://x/a http://x/b
1 http://x/b|http://x/a => SeedLine { line: 2 }
3 http://x/a||# none => http://x/a
2 http://x/a||# none => SeedLine { line: 3 }
0 http://x/a => SeedLine { line: 1 }
0  => EmptySeed
1 # none => EmptySeed";

#[test]
fn so_many_lines_are_taken(rt: HostRuntime) -> Result<(), Fail> {
    let wrong = wrong_in(rt.alloc(), FILES, seed_of)?;
    assert_eq!(rt; wrong.as_str(), "");
    Ok(())
}

/// What a row comes to.
fn seed_of(alloc: Global, row: &str) -> Result<Vec<u8>, NoMemory> {
    let (lines, file) = row.split_once(' ').unwrap_or((row, ""));
    let file = Bytes::from_vec(bytes_of(alloc, file)?);
    let ontology = Bytes::from_slice(alloc, b"ex")?;
    if file.as_slice().len() > 1000 {
        return Ok(file.into_vec());
    }
    match read_seed(
        alloc,
        HashKey::new(7),
        &file,
        &ontology,
        lines.parse::<u32>().unwrap_or(0),
    ) {
        Ok(seed) => iris_in(alloc, &seed),
        Err(fault) => Ok(format!(in alloc; "{fault:?}")?.into_bytes()),
    }
}

/// The IRIs of a seed.
fn iris_in(alloc: Global, seed: &Seed) -> Result<Vec<u8>, NoMemory> {
    let mut text = Vec::new(alloc);
    for iri in seed.iris.as_slice() {
        if !text.is_empty() {
            push(&mut text, b" ")?;
        }
        push(&mut text, iri.as_slice())?;
    }
    Ok(text)
}
