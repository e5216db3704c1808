//! The terms of a file, line by line.
ghost use Rattle.std.specs.Prelude.{◌≡◌, ◌+◌, ◌^◌, ◌<◌, [], ◌∷◌, length};
ghost use Rattle.rel_io.specs.Limits as limits;
ghost use Rattle.text_columns.specs.Columns.{columns_of};
ghost use Rattle.seed_list.specs.Terms.{columns_say, line_says};
ghost use Rattle.seed_list.specs.inner.Reading.{Adds, ReadsIris};

use crate::SeedFault;
use iri_map::iri_of;
use rel_io::{Bytes, Iri, Items, Limits};
use std::alloc::Global;
use text_columns::{cut_line, is_plain, next_column, without_return};

/// The IRIs of the terms of a file with at most so many lines, in their order, or the least line that is refused.
pub fn read_iris(
    alloc: Global,
    bytes: &[u8],
    ontology: &Bytes,
    lines: u32,
) -> Result<Items<Iri>, SeedFault>
    requires { length bytes.now + 1 < 2 ^ 32 }
    ensures { ReadsIris ontology.now lines bytes.now result }
{
    let mut iris = Vec::new(alloc);
    let mut left = bytes;
    let mut number = 1;
    while !left.is_empty() {
        let (line, rest) = cut_line(left);
        read_line(
            alloc,
            &mut iris,
            without_return(line),
            ontology,
            lines,
            number,
        )?;
        left = rest;
        number += 1;
    }
    Ok(Items::from_vec(iris))
}

/// Reads one line behind those before it.
#[tactic(auto, unfolding(crate::specs::Terms::line_says))]
fn read_line(
    alloc: Global,
    iris: &mut Vec<Iri>,
    line: &[u8],
    ontology: &Bytes,
    lines: u32,
    number: u32,
) -> Result<(), SeedFault>
    ensures { Adds number (line_says ontology.now lines number line.now) iris.old.items result iris.new.items }
{
    if !(number <= lines && is_plain(line, line_limit())) {
        return Err(SeedFault::SeedLine { line: number });
    }
    match next_column(line) {
        Some((term, rest)) => read_term(alloc, iris, term, rest, ontology, number),
        None => Ok(()),
    }
}

/// How many bytes a line may have.
fn line_limit() -> u32
    ensures { result ≡ limits.line }
{
    Limits::release().line
}

/// Reads what stands behind a term: nothing.
fn read_term(
    alloc: Global,
    iris: &mut Vec<Iri>,
    term: &[u8],
    rest: &[u8],
    ontology: &Bytes,
    number: u32,
) -> Result<(), SeedFault>
    ensures { Adds number (columns_say ontology.now (term.now ∷ columns_of rest.now)) iris.old.items result iris.new.items }
{
    match next_column(rest) {
        Some(_) => Err(SeedFault::SeedLine { line: number }),
        None => push_term(alloc, iris, term, ontology, number),
    }
}

/// Adds the IRI of a term.
fn push_term(
    alloc: Global,
    iris: &mut Vec<Iri>,
    term: &[u8],
    ontology: &Bytes,
    number: u32,
) -> Result<(), SeedFault>
    ensures { Adds number (columns_say ontology.now (term.now ∷ [])) iris.old.items result iris.new.items }
{
    let term = Bytes::from_slice(alloc, term)?;
    iris.push(iri_of(alloc, &term, ontology)?)?;
    Ok(())
}
