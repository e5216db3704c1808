//! Clauses, the notes that they are, and the clauses that spell these notes, worked out by hand.
use clause_printer::{push_block, push_value};
use document_examples::{bytes_of, is_copied, push, wrong_in};
use obo_clause::Clause;
use obo_frames::read_document;
use obo_notes::{Note, clause_of, note_of};
use obo_tags::FrameKind;
use owl_axioms::{NoteValue, Side};
use rel_io::{Bytes, Iri, Items, NoMemory};
use std::alloc::Global;
use std::test::Fail;

/// Where the properties of a few spaces stand, and how the table writes them.
const SPACES: [(&str, &str); 5] = [
    ("http://www.geneontology.org/formats/oboInOwl#", "O:"),
    ("http://purl.obolibrary.org/obo/", "B:"),
    ("http://www.w3.org/2000/01/rdf-schema#", "R:"),
    ("http://www.w3.org/2001/XMLSchema#", "X:"),
    ("http://www.w3.org/2002/07/owl#", "W:"),
];

/// A clause, its note, and the clause that spells the note in a frame of the same kind. The first sign says in which frame
/// it stands: H in the header, T in a Term, Y in a Typedef, I in an Instance. A note is a property, a value and its
/// annotations in brackets. The ontology is `ex`.
const NOTES: &str = r#"H data-version: 1 => O:data-version "1"|data-version: 1
H date: 1 => O:date "1"|date: 1
H saved-by: x => O:saved-by "x"|saved-by: x
H auto-generated-by: x => O:auto-generated-by "x"|auto-generated-by: x
H default-namespace: x => O:default-namespace "x"|default-namespace: x
H idspace: EX http://a.b/ => O:idspace "EX http://a.b/"|idspace: EX http://a.b/
H remark: x {k=v} => O:remark "x" (O:k "v")|remark: x {k="v"}
H subsetdef: slim "A slim" => O:subsetdef <B:ex#slim> (R:comment "A slim")|subsetdef: slim "A slim"
H synonymtypedef: lay "Lay" => O:synonymtypedef <B:ex#lay> (R:comment "Lay")|synonymtypedef: lay "Lay"
H synonymtypedef: lay "Lay" BROAD => O:synonymtypedef <B:ex#lay> (O:hasScope "BROAD") (R:comment "Lay")|synonymtypedef: lay "Lay" BROAD
H property_value: EX:1 EX:2 => B:EX_1 <B:EX_2>|property_value: EX:1 EX:2
H format-version: 1.4 => no note
H ontology: ex => no note
H import: x => no note
T name: a wheel => R:label "a wheel"|name: a wheel
T namespace: x => O:hasOBONamespace "x"|namespace: x
T alt_id: EX:2 => O:hasAlternativeId "EX:2"|alt_id: EX:2
T def: "x" [] => B:IAO_0000115 "x"|def: "x" []
T comment: x => R:comment "x"|comment: x
T subset: slim => O:inSubset <B:ex#slim>|subset: slim
T synonym: "x" EXACT [] => O:hasExactSynonym "x"|synonym: "x" EXACT []
T synonym: "x" BROAD [] => O:hasBroadSynonym "x"|synonym: "x" BROAD []
T synonym: "x" NARROW [] => O:hasNarrowSynonym "x"|synonym: "x" NARROW []
T synonym: "x" [] => O:hasRelatedSynonym "x"|synonym: "x" RELATED []
T xref: EX:1 => O:hasDbXref "EX:1"|xref: EX:1
T is_anonymous: true => O:is_anonymous "true"^^X:boolean|is_anonymous: true
T is_anonymous: false => no note
T builtin: true => O:builtin "true"^^X:boolean|builtin: true
T created_by: x => O:created_by "x"|created_by: x
T creation_date: x => O:creation_date "x"|creation_date: x
T is_obsolete: true => W:deprecated "true"^^X:boolean|is_obsolete: true
T replaced_by: EX:2 => B:IAO_0100001 <B:EX_2>|replaced_by: EX:2
T consider: EX:2 => O:consider <B:EX_2>|consider: EX:2
T is_a: EX:2 => no note
T date: 1 => no note
Y is_anti_symmetric: true => O:is_anti_symmetric "true"^^X:boolean|is_anti_symmetric: true
Y is_cyclic: true => O:is_cyclic "true"^^X:boolean|is_cyclic: true
Y is_class_level: true => O:is_class_level "true"^^X:boolean|is_class_level: true
Y is_metadata_tag: true => no note
I property_value: EX:1 "x" xsd:int => B:EX_1 "x"^^X:int|property_value: EX:1 "x" xsd:int
T def: "x" [B:1, A:1 "l"] => B:IAO_0000115 "x" (O:hasDbXref "B:1") (O:hasDbXref "A:1" "l")|def: "x" [A:1 "l", B:1]
T def: "x" [A:1 "l"] {hasDbXref=""} => B:IAO_0000115 "x" (O:hasDbXref "") (O:hasDbXref "A:1" "l")|def: "x" [A:1 "l"] {hasDbXref=""}
T def: "x" [] {hasDbXref="A:1"} => B:IAO_0000115 "x" (O:hasDbXref "A:1")|def: "x" [A:1]
T synonym: "x" EXACT lay [A:1] {k=v} => O:hasExactSynonym "x" (O:hasDbXref "A:1") (O:hasSynonymType <B:ex#lay>) (O:k "v")|synonym: "x" EXACT lay [A:1] {k="v"}
T synonym: "x" EXACT lay [] {hasSynonymType=b} => O:hasExactSynonym "x" (O:hasSynonymType "b") (O:hasSynonymType <B:ex#lay>)|synonym: "x" EXACT lay [] {hasSynonymType="b"}
T xref: A:1 "l" {http://www.w3.org/2000/01/rdf-schema#label="k"} => O:hasDbXref "A:1" (R:label "k") (R:label "l")|xref: A:1 "k" {http://www.w3.org/2000/01/rdf-schema#label="l"}
H property_value: http://www.geneontology.org/formats/oboInOwl#subsetdef slim => O:subsetdef <B:ex#slim>|property_value: http://www.geneontology.org/formats/oboInOwl#subsetdef slim
H subsetdef: slim "b" {http://www.w3.org/2000/01/rdf-schema#comment="a"} => O:subsetdef <B:ex#slim> (R:comment "a") (R:comment "b")|subsetdef: slim "a" {http://www.w3.org/2000/01/rdf-schema#comment="b"}
T name: x {http://www.geneontology.org/formats/oboInOwl#k=v} => R:label "x" (O:k "v")|name: x {k="v"}
T name: x {a:b=v} => R:label "x" (O:a%3Ab "v")|name: x {a:b="v"}
T name: x {http://www.geneontology.org/formats/oboInOwl#a%3Ab=v} => R:label "x" (O:a%3Ab "v")|name: x {a:b="v"}
T name: x {http://www.geneontology.org/formats/oboInOwl#a%3ab=v} => R:label "x" (O:a%3ab "v")|name: x {http://www.geneontology.org/formats/oboInOwl#a%3ab="v"}
T name: x {http://www.geneontology.org/formats/oboInOwl#a%20b=v} => R:label "x" (O:a%20b "v")|name: x {http://www.geneontology.org/formats/oboInOwl#a%20b="v"}
T name: x {http://www.geneontology.org/formats/oboInOwl#all_onl%79=v} => R:label "x" (O:all_onl%79 "v")|name: x {http://www.geneontology.org/formats/oboInOwl#all_onl%79="v"}
T name: x {http://www.geneontology.org/formats/oboInOwl#all_only=v} => R:label "x" (O:all_only "v")|name: x {http://www.geneontology.org/formats/oboInOwl#all_only="v"}
T name: x {k=v,http://www.geneontology.org/formats/oboInOwl#k=v} => R:label "x" (O:k "v")|name: x {k="v"}
T property_value: EX:1 "x" => B:EX_1 "x"|property_value: EX:1 "x" xsd:string
T property_value: EX:1 "x" http://www.w3.org/2001/XMLSchema#int => B:EX_1 "x"^^X:int|property_value: EX:1 "x" xsd:int
T property_value: EX:1 "x" EX:7 => B:EX_1 "x"^^B:EX_7|property_value: EX:1 "x" EX:7
T property_value: EX:1 "x" http://purl.obolibrary.org/obo/xsd#_foo => B:EX_1 "x"^^B:xsd#_foo|property_value: EX:1 "x" http://purl.obolibrary.org/obo/xsd#_foo
T property_value: EX:1 "x" http://www.w3.org/2001/XMLSchema#a%62 => B:EX_1 "x"^^X:a%62|property_value: EX:1 "x" http://www.w3.org/2001/XMLSchema#a%62
T property_value: http://www.geneontology.org/formats/oboInOwl#hasDbXref "" => O:hasDbXref ""|property_value: http://www.geneontology.org/formats/oboInOwl#hasDbXref "" xsd:string
T property_value: http://www.geneontology.org/formats/oboInOwl#hasOBONamespace "x" => O:hasOBONamespace "x"|namespace: x
H property_value: http://www.geneontology.org/formats/oboInOwl#default-namespace "x" => O:default-namespace "x"|default-namespace: x
T property_value: http://www.geneontology.org/formats/oboInOwl#default-namespace "x" => O:default-namespace "x"|property_value: http://www.geneontology.org/formats/oboInOwl#default-namespace "x" xsd:string
T property_value: http://www.w3.org/2000/01/rdf-schema#label "x" => R:label "x"|name: x
H property_value: http://www.w3.org/2000/01/rdf-schema#label "x" => R:label "x"|property_value: http://www.w3.org/2000/01/rdf-schema#label "x" xsd:string
T property_value: http://www.w3.org/2002/07/owl#deprecated "true" xsd:boolean => W:deprecated "true"^^X:boolean|is_obsolete: true
T property_value: http://www.w3.org/2002/07/owl#deprecated "1" xsd:boolean => W:deprecated "1"^^X:boolean|property_value: http://www.w3.org/2002/07/owl#deprecated "1" xsd:boolean"#;

/// Notes that no clause spells, as no line has a place for some part: a property, the sign of the value (`T` a text, `L` a
/// link, `S` a text of xsd:string), the value, and the properties, signs and values of annotations.
const PLACELESS: [(&str, &str, &str, &[(&str, &str, &str)]); 6] = [
    (
        "http://www.w3.org/2000/01/rdf-schema#label",
        "T",
        "a\rb",
        &[],
    ),
    ("http://purl.obolibrary.org/obo/EX_1", "T", "a\rb", &[]),
    ("http://purl.obolibrary.org/obo/EX_1", "S", "a", &[]),
    ("urn:x", "T", "a", &[]),
    (
        "http://www.w3.org/2000/01/rdf-schema#label",
        "T",
        "a",
        &[("urn:x", "T", "b")],
    ),
    (
        "http://www.geneontology.org/formats/oboInOwl#hasExactSynonym",
        "T",
        "a",
        &[
            (
                "http://www.geneontology.org/formats/oboInOwl#hasSynonymType",
                "L",
                "http://a.b/",
            ),
            (
                "http://www.geneontology.org/formats/oboInOwl#hasSynonymType",
                "L",
                "http://a.c/",
            ),
        ],
    ),
];

#[test]
fn notes_without_a_place_have_no_clause(rt: HostRuntime) -> Result<(), Fail> {
    let alloc = rt.alloc();
    let space = Bytes::from_slice(alloc, b"ex")?;
    for (property, sign, text, sides) in PLACELESS {
        let note = note_with(alloc, property, sign, text, sides)?;
        let is_copied = is_copied(alloc, &note)?;
        let clause = clause_of(alloc, &space, FrameKind::Term, &note)?;
        assert!(rt; is_copied && clause.is_none());
    }
    Ok(())
}

/// A note of the table.
fn note_with(
    alloc: Global,
    property: &str,
    sign: &str,
    text: &str,
    sides: &[(&str, &str, &str)],
) -> Result<Note, NoMemory> {
    let property = Iri::from_slice(alloc, property.as_bytes())?;
    let value = value_with(alloc, sign, text)?;
    let sides = sides_with(alloc, sides)?;
    Ok(Note {
        property,
        value,
        sides: Items::from_vec(sides),
    })
}

/// The annotations of a note of the table.
fn sides_with(alloc: Global, sides: &[(&str, &str, &str)]) -> Result<Vec<Side>, NoMemory> {
    let mut made = Vec::new(alloc);
    for (property, sign, text) in sides {
        let property = Iri::from_slice(alloc, property.as_bytes())?;
        let value = value_with(alloc, sign, text)?;
        made.push(Side {
            property,
            value,
            label: None,
        })?;
    }
    Ok(made)
}

/// A value of the table.
fn value_with(alloc: Global, sign: &str, text: &str) -> Result<NoteValue, NoMemory> {
    match sign {
        "L" => Ok(NoteValue::Link(Iri::from_slice(alloc, text.as_bytes())?)),
        "S" => {
            let text = Bytes::from_slice(alloc, text.as_bytes())?;
            let datatype = Iri::from_slice(alloc, b"http://www.w3.org/2001/XMLSchema#string")?;
            Ok(NoteValue::Typed(text, datatype))
        }
        _ => Ok(NoteValue::Text(Bytes::from_slice(alloc, text.as_bytes())?)),
    }
}

#[test]
fn clauses_have_notes(rt: HostRuntime) -> Result<(), Fail> {
    let wrong = wrong_in(rt.alloc(), NOTES, note_and_clause)?;
    assert_eq!(rt; wrong.as_str(), "");
    Ok(())
}

/// The note of the last clause of an example, and the clause that spells it.
fn note_and_clause(alloc: Global, input: &str) -> Result<Vec<u8>, NoMemory> {
    let (frame, line) = input.split_once(' ').unwrap_or(("H", input));
    let file = file_of(alloc, frame, line)?;
    if file.len() > 1000 {
        return Ok(file);
    }
    let read = read_document(alloc, file.as_slice(), 1000);
    let answer = match &read {
        Ok(document) if document.len() > 0 => {
            answer_of(
                alloc,
                kind_of(frame),
                &document.get(document.len() - 1).clause,
            )
        }
        _ => Ok(Vec::new(alloc)),
    };
    drop(read);
    answer
}

/// The kind of the frame that a sign is for.
fn kind_of(frame: &str) -> FrameKind {
    match frame {
        "T" => FrameKind::Term,
        "Y" => FrameKind::Typedef,
        "I" => FrameKind::Instance,
        _ => FrameKind::Header,
    }
}

/// A file with the line of an example in its frame.
fn file_of(alloc: Global, frame: &str, line: &str) -> Result<Vec<u8>, NoMemory> {
    let begin = match frame {
        "T" => "[Term]|id: EX:9|",
        "Y" => "[Typedef]|id: EX:9|",
        "I" => "[Instance]|id: EX:9|",
        _ => "",
    };
    let mut file = bytes_of(alloc, begin)?;
    push(&mut file, line.as_bytes())?;
    Ok(file)
}

/// The note of a clause, and the clause that spells it.
fn answer_of(alloc: Global, kind: FrameKind, clause: &Clause) -> Result<Vec<u8>, NoMemory> {
    let mut out = Vec::new(alloc);
    let space = Bytes::from_slice(alloc, b"ex")?;
    match note_of(alloc, &space, clause)? {
        Some(note) => {
            push_note(&mut out, &note)?;
            out.push(b'\n')?;
            push_spelling(alloc, &space, kind, &note, &mut out)?;
        }
        None => push(&mut out, b"no note")?,
    }
    Ok(out)
}

/// Appends the clause that spells a note.
fn push_spelling(
    alloc: Global,
    space: &Bytes,
    kind: FrameKind,
    note: &Note,
    out: &mut Vec<u8>,
) -> Result<(), NoMemory> {
    match clause_of(alloc, space, kind, note)? {
        Some(clause) => push_clause(&clause, out),
        None => push(out, b"no clause"),
    }
}

/// Appends a clause as it is printed.
fn push_clause(clause: &Clause, out: &mut Vec<u8>) -> Result<(), NoMemory> {
    push(out, clause.tag.as_slice())?;
    push(out, b": ")?;
    push_value(out, &clause.value)?;
    if !clause.qualifiers.as_slice().is_empty() {
        push(out, b" ")?;
    }
    push_block(out, clause.qualifiers.as_slice())
}

/// Appends a note.
fn push_note(out: &mut Vec<u8>, note: &Note) -> Result<(), NoMemory> {
    push_iri(out, &note.property)?;
    push(out, b" ")?;
    push_note_value(out, &note.value)?;
    for side in note.sides.as_slice() {
        push_side(out, side)?;
    }
    Ok(())
}

/// Appends an annotation.
fn push_side(out: &mut Vec<u8>, side: &Side) -> Result<(), NoMemory> {
    push(out, b" (")?;
    push_iri(out, &side.property)?;
    push(out, b" ")?;
    push_note_value(out, &side.value)?;
    if let Some(label) = &side.label {
        push(out, b" ")?;
        push_quoted(out, label)?;
    }
    push(out, b")")
}

/// Appends a value.
fn push_note_value(out: &mut Vec<u8>, value: &NoteValue) -> Result<(), NoMemory> {
    match value {
        NoteValue::Text(text) => push_quoted(out, text),
        NoteValue::Typed(text, datatype) => {
            push_quoted(out, text)?;
            push(out, b"^^")?;
            push_iri(out, datatype)
        }
        NoteValue::Link(iri) => {
            push(out, b"<")?;
            push_iri(out, iri)?;
            push(out, b">")
        }
    }
}

/// Appends a text in quotes.
fn push_quoted(out: &mut Vec<u8>, text: &Bytes) -> Result<(), NoMemory> {
    push(out, b"\"")?;
    push(out, text.as_slice())?;
    push(out, b"\"")
}

/// Appends an IRI, with a sign for what it begins with.
fn push_iri(out: &mut Vec<u8>, iri: &Iri) -> Result<(), NoMemory> {
    for (space, sign) in SPACES {
        if let Some(rest) = iri.as_slice().strip_prefix(space.as_bytes()) {
            push(out, sign.as_bytes())?;
            return push(out, rest);
        }
    }
    push(out, iri.as_slice())
}
