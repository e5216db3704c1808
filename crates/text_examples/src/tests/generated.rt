//! Sizes, and what is generated of them.
ghost use Rattle.std.specs.Prelude.{◌≤◌};

use document_examples::wrong_in;
use obo_gen::{generate, generate_seed};
use rel_io::{Bytes, NoMemory};
use std::alloc::Global;
use std::test::Fail;

/// What is asked, and of which size: the text of the document, its length, or that of the seed. The table writes `|` for LF.
const ANSWERS: &str = "\
text 10 => format-version: 1.4|ontology: gen||[Term]|id: GEN:0000000|name: n0000000||[Term]|id: GEN:0000001|name: n0000001|is_a: GEN:0000000||[Term]|id: GEN:0000002|name: n0000002|is_a: GEN:0000000||[Term]|id: GEN:0000003|name: n0000003|is_a: GEN:0000000||[Term]|id: GEN:0000004|name: n0000004|is_a: GEN:0000000||[Term]|id: GEN:0000005|name: n0000005|is_a: GEN:0000000||[Term]|id: GEN:0000006|name: n0000006|is_a: GEN:0000000||[Term]|id: GEN:0000007|name: n0000007|is_a: GEN:0000000||[Term]|id: GEN:0000008|name: n0000008|is_a: GEN:0000000||[Term]|id: GEN:0000009|name: n0000009|is_a: GEN:0000000||[Term]|id: GEN:0000010|name: n0000010|is_a: GEN:0000000||[Term]|id: GEN:3000001|name: n3000001|is_a: GEN:0000010|relationship: part_of GEN:4000001||[Term]|id: GEN:4000001|name: n4000001|relationship: part_of GEN:5000001||[Term]|id: GEN:5000001|name: n5000001||[Term]|id: GEN:6000001|name: n6000001|intersection_of: GEN:0000010|intersection_of: part_of GEN:5000001||[Typedef]|id: part_of|name: part of|is_transitive: true|
text 11 => format-version: 1.4|ontology: gen||[Term]|id: GEN:0000000|name: n0000000||[Term]|id: GEN:0000001|name: n0000001|is_a: GEN:0000000||[Term]|id: GEN:0000002|name: n0000002|is_a: GEN:0000000||[Term]|id: GEN:0000003|name: n0000003|is_a: GEN:0000000||[Term]|id: GEN:0000004|name: n0000004|is_a: GEN:0000000||[Term]|id: GEN:0000005|name: n0000005|is_a: GEN:0000000||[Term]|id: GEN:0000006|name: n0000006|is_a: GEN:0000000||[Term]|id: GEN:0000007|name: n0000007|is_a: GEN:0000000||[Term]|id: GEN:0000008|name: n0000008|is_a: GEN:0000000||[Term]|id: GEN:0000009|name: n0000009|is_a: GEN:0000000||[Term]|id: GEN:0000010|name: n0000010|is_a: GEN:0000000||[Term]|id: GEN:0000011|name: n0000011|is_a: GEN:0000010||[Term]|id: GEN:3000001|name: n3000001|is_a: GEN:0000010|relationship: part_of GEN:4000001||[Term]|id: GEN:4000001|name: n4000001|relationship: part_of GEN:5000001||[Term]|id: GEN:5000001|name: n5000001||[Term]|id: GEN:6000001|name: n6000001|intersection_of: GEN:0000010|intersection_of: part_of GEN:5000001||[Typedef]|id: part_of|name: part of|is_transitive: true|
seed 10 => GEN:3000001|GEN:6000001|
seed 19 => GEN:3000001|GEN:6000001|
seed 25 => GEN:3000001|GEN:6000001|GEN:3000002|GEN:6000002|
length 10 => 1008
length 20000 => 1828094";

#[test]
fn documents_and_seeds_are_generated(rt: HostRuntime) -> Result<(), Fail> {
    let wrong = wrong_in(rt.alloc(), ANSWERS, answer_to)?;
    assert_eq!(rt; wrong.as_str(), "");
    Ok(())
}

/// The answer to an example.
fn answer_to(alloc: Global, input: &str) -> Result<Vec<u8>, NoMemory> {
    let (asked, size) = input.split_once(' ').unwrap_or((input, ""));
    let size = size.parse::<u32>().unwrap_or(0);
    if size < 10 || size > 1_000_000 {
        return Ok(Vec::new(alloc));
    }
    match asked {
        "seed" => generate_seed(alloc, size).map(Bytes::into_vec),
        "text" => generate(alloc, size).map(Bytes::into_vec),
        _ => length_of(alloc, size),
    }
}

/// The length of a document.
fn length_of(alloc: Global, size: u32) -> Result<Vec<u8>, NoMemory>
    requires { (10 ≤ size) × (size ≤ 1000000) }
{
    let text = generate(alloc, size)?.into_vec();
    Ok(format!(in alloc; "{}", text.len())?.into_bytes())
}
