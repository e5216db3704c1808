//! Clauses of statements, and the clauses that spell their axioms in the frame of an entity, worked out by hand.
use clause_printer::{push_block, push_value};
use document_examples::{bytes_of, push, wrong_in};
use obo_clause::Clause;
use obo_frames::read_document;
use obo_statements::{clause_of_statement, statement_of};
use obo_tags::FrameKind;
use owl_axioms::Axiom;
use rel_io::{Bytes, Iri, NoMemory};
use std::alloc::Global;
use std::test::Fail;

/// The sign of a frame, the number of an entity, and a clause in the frame of EX:9; the clause that states the same in the
/// frame of that entity. The ontology is `ex`.
const STATEMENTS: &str = r#"T 9 is_a: EX:2 => is_a: EX:2
T 2 is_a: EX:2 => no clause
T 9 relationship: EX:1 EX:2 {k=v} => relationship: EX:1 EX:2 {k="v"}
T 9 equivalent_to: EX:2 => equivalent_to: EX:2
T 2 equivalent_to: EX:2 => equivalent_to: EX:9
T 2 disjoint_from: EX:2 => disjoint_from: EX:9
T 3 disjoint_from: EX:2 => no clause
T 9 is_a: http://www.w3.org/2002/07/owl#Thing => is_a: http://www.w3.org/2002/07/owl#Thing
T 9 name: x => no axiom
Y 9 transitive_over: EX:1 => transitive_over: EX:1
Y 9 holds_over_chain: EX:9 EX:1 => transitive_over: EX:1
Y 9 holds_over_chain: EX:1 EX:2 => holds_over_chain: EX:1 EX:2
Y 1 holds_over_chain: EX:1 EX:2 => no clause
Y 9 is_transitive: true => is_transitive: true
Y 1 inverse_of: EX:1 => inverse_of: EX:9
Y 9 domain: EX:1 => domain: EX:1
I 9 instance_of: EX:1 => instance_of: EX:1
I 9 relationship: EX:1 EX:2 => relationship: EX:1 EX:2
I 2 relationship: EX:1 EX:2 => no clause"#;

#[test]
fn statements_have_clauses(rt: HostRuntime) -> Result<(), Fail> {
    let wrong = wrong_in(rt.alloc(), STATEMENTS, spelled_again)?;
    assert_eq!(rt; wrong.as_str(), "");
    Ok(())
}

/// The clause that spells the axiom of the last clause of an example.
fn spelled_again(alloc: Global, input: &str) -> Result<Vec<u8>, NoMemory> {
    let (frame, rest) = input.split_once(' ').unwrap_or(("T", input));
    let (number, line) = rest.split_once(' ').unwrap_or(("9", rest));
    let file = file_of(alloc, frame, line)?;
    if file.len() > 1000 {
        return Ok(file);
    }
    let read = read_document(alloc, file.as_slice(), 1000);
    let answer = match &read {
        Ok(document) if document.len() > 0 => {
            answer_of(
                alloc,
                kind_of(frame),
                number,
                &document.get(document.len() - 1).clause,
            )
        }
        _ => Ok(Vec::new(alloc)),
    };
    drop(read);
    answer
}

/// The kind of the frame that a sign is for.
fn kind_of(frame: &str) -> FrameKind {
    match frame {
        "Y" => FrameKind::Typedef,
        "I" => FrameKind::Instance,
        _ => FrameKind::Term,
    }
}

/// A file with the line of an example in its frame.
fn file_of(alloc: Global, frame: &str, line: &str) -> Result<Vec<u8>, NoMemory> {
    let begin = match frame {
        "Y" => "[Typedef]|id: EX:9|",
        "I" => "[Instance]|id: EX:9|",
        _ => "[Term]|id: EX:9|",
    };
    let mut file = bytes_of(alloc, begin)?;
    push(&mut file, line.as_bytes())?;
    Ok(file)
}

/// The IRI of the entity with this number.
fn entity(alloc: Global, number: &str) -> Result<Iri, NoMemory> {
    let mut iri = Vec::from_slice(alloc, b"http://purl.obolibrary.org/obo/EX_")?;
    push(&mut iri, number.as_bytes())?;
    Ok(Iri::from_vec(iri))
}

/// The clause that spells the axiom of a clause in the frame of the entity with this number.
fn answer_of(
    alloc: Global,
    kind: FrameKind,
    number: &str,
    clause: &Clause,
) -> Result<Vec<u8>, NoMemory> {
    let space = Bytes::from_slice(alloc, b"ex")?;
    let own = entity(alloc, "9")?;
    let other = entity(alloc, number)?;
    let stated = statement_of(alloc, &space, kind, &own, clause)?;
    match &stated {
        Some(stated) => spelling_of(alloc, &space, kind, &other, stated),
        None => bytes_of(alloc, "no axiom"),
    }
}

/// The clause that spells an axiom, as it is printed.
fn spelling_of(
    alloc: Global,
    space: &Bytes,
    kind: FrameKind,
    x: &Iri,
    stated: &Axiom,
) -> Result<Vec<u8>, NoMemory> {
    let mut out = Vec::new(alloc);
    match clause_of_statement(alloc, space, kind, x, stated)? {
        Some(clause) => push_clause(&clause, &mut out)?,
        None => push(&mut out, b"no clause")?,
    }
    Ok(out)
}

/// Appends a clause as it is printed.
fn push_clause(clause: &Clause, out: &mut Vec<u8>) -> Result<(), NoMemory> {
    push(out, clause.tag.as_slice())?;
    push(out, b": ")?;
    push_value(out, &clause.value)?;
    if !clause.qualifiers.as_slice().is_empty() {
        push(out, b" ")?;
    }
    push_block(out, clause.qualifiers.as_slice())
}
