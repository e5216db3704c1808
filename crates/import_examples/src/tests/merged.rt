//! The ontology of a run's files over a folder in memory: its name, its axioms with the places from which they come, and
//! what is noted of each file, worked out by hand from the rules.
ghost use Rattle.std.specs.Prelude.{◌+◌, ◌<◌, ◌^◌};

use super::ground::{folder_with, names_in, next_word, shown_fault};
use document_examples::{is_copied, push, wrong_in};
use hash_key::HashKey;
use import_merge::{FileNote, Merged, load};
use owl_axioms::axiom_text;
use owl_ontology::Ontology;
use rel_io::{Bytes, Dup, Limits, MemFolder, NoMemory};
use std::alloc::Global;
use std::test::Fail;

/// What the IRIs of most ids begin with; the table has `B:` in its place.
const BASE: &str = "http://purl.obolibrary.org/obo/";

/// How many files and how many bytes there may be, the inputs, the catalog, and behind each `; ` a file; and the name of the
/// ontology, or `-`, its axioms by file, line and text, and each file with the number of its frames and the clauses that
/// are not translated, each as its line behind `-` and its tag; or the fault.
const MERGED: &str = r#"9 999 a -; a= => -|a 0
9 999 a.obo -; a.obo=ontology: a|import: b.obo|[Term]|id: EX:1|; b.obo=ontology: b|import: a.obo|[Term]|id: EX:2| => a|0:4 Declaration(Class(<B:EX_1>))|1:4 Declaration(Class(<B:EX_2>))|a.obo 1|b.obo 1
9 999 a.obo,b.obo -; a.obo=import: b.obo|[Term]|id: EX:1|; b.obo=[Term]|id: EX:2|is_a: EX:1| => -|0:3 Declaration(Class(<B:EX_1>))|1:2 Declaration(Class(<B:EX_2>))|1:3 SubClassOf(<B:EX_2> <B:EX_1>)|a.obo 1|b.obo 1
9 999 a.obo,b.obo -; a.obo=ontology: a|remark: x|; b.obo=ontology: b|remark: y|remark: x|[Term]|id: EX:1| => a|0:2 Annotation(<http://www.geneontology.org/formats/oboInOwl#remark> "x")|1:5 Declaration(Class(<B:EX_1>))|a.obo 0|b.obo 1
9 999 b.obo,a.obo -; a.obo=ontology: a|remark: x|; b.obo=ontology: b|remark: y|remark: x|[Term]|id: EX:1| => b|0:2 Annotation(<http://www.geneontology.org/formats/oboInOwl#remark> "y")|0:3 Annotation(<http://www.geneontology.org/formats/oboInOwl#remark> "x")|0:5 Declaration(Class(<B:EX_1>))|b.obo 1|a.obo 0
9 999 a.obo,b.obo -; a.obo=[Term]|id: EX:1|; b.obo=ontology: b|[Term]|id: x| => -|0:2 Declaration(Class(<B:EX_1>))|1:3 Declaration(Class(<B:b#x>))|a.obo 1|b.obo 1
9 999 a.obo,b.obo -; a.obo=[Term]|id: EX:1|is_a: EX:2|; b.obo=[Term]|id: EX:2|[Term]|id: EX:1|is_a: EX:2|is_a: EX:3| => -|0:2 Declaration(Class(<B:EX_1>))|0:3 SubClassOf(<B:EX_1> <B:EX_2>)|1:2 Declaration(Class(<B:EX_2>))|1:6 SubClassOf(<B:EX_1> <B:EX_3>)|a.obo 1|b.obo 2
9 999 b.obo,a.obo -; a.obo=[Term]|id: EX:1|is_a: EX:2|; b.obo=[Term]|id: EX:2|[Term]|id: EX:1|is_a: EX:2|is_a: EX:3| => -|0:2 Declaration(Class(<B:EX_2>))|0:4 Declaration(Class(<B:EX_1>))|0:5 SubClassOf(<B:EX_1> <B:EX_2>)|0:6 SubClassOf(<B:EX_1> <B:EX_3>)|b.obo 2|a.obo 1
9 999 a.obo,b.obo -; a.obo=; b.obo=[Term]|id: EX:1|is_a: EX:2|[Term]|id: EX:1|is_a: EX:2| => -|1:2 Declaration(Class(<B:EX_1>))|1:3 SubClassOf(<B:EX_1> <B:EX_2>)|a.obo 0|b.obo 1
9 999 a.obo,b.obo -; a.obo=default-namespace: d|[Term]|id: EX:1|; b.obo=default-namespace: e|[Term]|id: EX:2|[Term]|id: EX:1| => -|0:1 Annotation(<http://www.geneontology.org/formats/oboInOwl#default-namespace> "d")|0:3 AnnotationAssertion(<http://www.geneontology.org/formats/oboInOwl#hasOBONamespace> <B:EX_1> "d")|0:3 Declaration(Class(<B:EX_1>))|1:3 AnnotationAssertion(<http://www.geneontology.org/formats/oboInOwl#hasOBONamespace> <B:EX_2> "e")|1:3 Declaration(Class(<B:EX_2>))|1:5 AnnotationAssertion(<http://www.geneontology.org/formats/oboInOwl#hasOBONamespace> <B:EX_1> "e")|a.obo 1|b.obo 2
9 999 e.obo c; e.obo=ontology: ex|import: http://x.org/ro.owl|; c=http://x.org/ro.owl@09@ro.obo|; ro.obo=[Typedef]|id: EX:7| => ex|1:2 Declaration(ObjectProperty(<B:EX_7>))|e.obo 0|ro.obo 1
9 999 e.obo -; e.obo=ontology: ex|import: http://x.org/ro.owl|; ro.owl=[Typedef]|id: EX:7| => ex|1:2 Declaration(ObjectProperty(<B:EX_7>))|e.obo 0|ro.owl 1
9 999 a.obo,b.obo -; a.obo=foo: x|[Term]|id: EX:1|is_a: EX:2 {cardinality="1"}|bar: y|; b.obo=ontology: b|ontology: a| => -|0:3 Declaration(Class(<B:EX_1>))|a.obo 1 -1 foo -4 is_a -5 bar|b.obo 0 -1 ontology
9 999 a.obo -; a.obo=[Term]|id: EX:1|[Typedef]|id: EX:1|[Instance]|id: EX:1|[Term]|id: EX:1|[Term]|id: http://purl.obolibrary.org/obo/EX_1|[Typedef]|id: EX:1|is_metadata_tag: true| => -|0:2 Declaration(Class(<B:EX_1>))|0:4 Declaration(AnnotationProperty(<B:EX_1>))|0:6 Declaration(NamedIndividual(<B:EX_1>))|a.obo 3
9 999 edit.obo -; edit.obo=ontology: ex|import: ro.obo| => MissingImport edit.obo 2 ro.obo
2 999 a,b,c -; a=; b=; c= => TooManyFiles 2
9 5 a -; a=!abcde => TooManyBytes a 5
9 5 a -; a=!abcd => -|a 0"#;

#[test]
fn files_are_merged(rt: HostRuntime) -> Result<(), Fail> {
    let wrong = wrong_in(rt.alloc(), MERGED, merged)?;
    assert_eq!(rt; wrong.as_str(), "");
    Ok(())
}

/// What the files of an example come to, or the fault.
fn merged(alloc: Global, example: &str) -> Result<Vec<u8>, NoMemory> {
    let (head, rest) = example.split_once("; ").unwrap_or((example, ""));
    let (files, head) = next_word(head);
    let (bytes, head) = next_word(head);
    let (inputs, catalog) = next_word(head);
    let limits = Limits {
        files: files.parse::<u32>().unwrap_or(0),
        bytes: u64::from(bytes.parse::<u32>().unwrap_or(0).min(999)),
        line: Limits::release().line,
        seed_lines: 0,
        facts: 0,
    };
    let mut folder = folder_with(alloc, rest, 9, 9999)?;
    loaded(alloc, &mut folder, inputs, catalog, &limits)
}

/// What these inputs come to.
fn loaded(
    alloc: Global,
    folder: &mut MemFolder,
    inputs: &str,
    catalog: &str,
    limits: &Limits,
) -> Result<Vec<u8>, NoMemory>
    requires { limits.now.bytes + 1 < 2 ^ 32 }
{
    let names = names_in(alloc, inputs)?;
    let catalog_name = Bytes::from_slice(alloc, catalog.as_bytes())?;
    let catalog = if catalog == "-" {
        None
    } else {
        Some(&catalog_name)
    };
    match load(
        alloc,
        HashKey::new(7),
        folder,
        names.as_slice(),
        catalog,
        limits,
    ) {
        Ok(merged) => shown(alloc, &merged.copy(alloc)?),
        Err(fault) => shown_fault(alloc, &fault),
    }
}

/// The name, the axioms and the files.
fn shown(alloc: Global, merged: &Merged) -> Result<Vec<u8>, NoMemory> {
    let mut out = Vec::new(alloc);
    match merged.ontology.name() {
        Some(name) => push(&mut out, name.as_slice())?,
        None => push(&mut out, b"-")?,
    }
    push_axioms(alloc, &mut out, &merged.ontology)?;
    for note in merged.files.as_slice() {
        push_note(alloc, &mut out, note)?;
    }
    Ok(out)
}

/// Appends the axioms by file, line and text.
fn push_axioms(alloc: Global, out: &mut Vec<u8>, ontology: &Ontology) -> Result<(), NoMemory> {
    let mut lines = Vec::new(alloc);
    for at in 0..ontology.len() {
        let mut text = Vec::new(alloc);
        axiom_text(alloc, ontology.get(at), &mut text)?;
        lines.push((ontology.origin(at), text))?;
    }
    lines.sort_by(|one, other| (one.0, one.1.as_slice()).cmp(&(other.0, other.1.as_slice())))?;
    for (origin, text) in lines {
        let text = String::from_utf8_lossy(alloc, text.as_slice())?;
        push(
            out,
            format!(in alloc; "\n{}:{} ", origin.file, origin.line)?.as_bytes(),
        )?;
        push_short(out, text.as_str())?;
    }
    Ok(())
}

/// Appends a text, with a sign for what most IRIs begin with.
fn push_short(out: &mut Vec<u8>, text: &str) -> Result<(), NoMemory> {
    for (place, piece) in text.split(BASE).enumerate() {
        if place > 0 {
            push(out, b"B:")?;
        }
        push(out, piece.as_bytes())?;
    }
    Ok(())
}

/// Appends a file, its frames and what of it is not translated, where a copy is equal to it.
fn push_note(alloc: Global, out: &mut Vec<u8>, note: &FileNote) -> Result<(), NoMemory> {
    if !is_copied(alloc, note)? {
        return Ok(());
    }
    push(out, b"\n")?;
    push(out, note.name.as_slice())?;
    push(out, format!(in alloc; " {}", note.frames)?.as_bytes())?;
    for report in note.dropped.as_slice() {
        push(out, format!(in alloc; " -{} ", report.line)?.as_bytes())?;
        push(out, report.tag.as_slice())?;
    }
    Ok(())
}
