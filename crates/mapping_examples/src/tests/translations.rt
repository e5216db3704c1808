//! Documents, their axioms with the lines that these come from, and the clauses that have none, worked out by hand.
use document_examples::{bytes_of, push, wrong_in};
use hash_key::HashKey;
use obo_frames::read_document;
use obo_to_owl::{Translated, translate};
use owl_axioms::axiom_text;
use owl_ontology::Ontology;
use rel_io::NoMemory;
use std::alloc::Global;
use std::test::Fail;

/// Where the names of a few spaces stand, and how the table writes them.
const SPACES: [(&str, &str); 4] = [
    ("<http://www.geneontology.org/formats/oboInOwl#", "<O:"),
    ("<http://purl.obolibrary.org/obo/", "<B:"),
    ("<http://www.w3.org/2000/01/rdf-schema#", "<R:"),
    ("<http://www.w3.org/2002/07/owl#", "<W:"),
];

/// A document; the name of its ontology, or `-`; its axioms by line and text, each behind its line; and the clauses that
/// are not translated, each as its line behind `-` and its tag.
const TRANSLATIONS: &str =
    r#"ontology: ex|[Term]|id: EX:1|is_a: EX:2 => ex|3 Declaration(Class(<B:EX_1>))|4 SubClassOf(<B:EX_1> <B:EX_2>)
[Term]|id: a => -|2 Declaration(Class(<B:TEMP#a>))
[Term]|id: EX:1|is_a: http://www.w3.org/2002/07/owl#Thing => -|2 Declaration(Class(<B:EX_1>))|3 SubClassOf(<B:EX_1> <W:Thing>)
[Term]|id: EX:1|relationship: EX:7 EX:2 => -|2 Declaration(Class(<B:EX_1>))|3 SubClassOf(<B:EX_1> ObjectSomeValuesFrom(<B:EX_7> <B:EX_2>))
[Term]|id: EX:1|intersection_of: EX:3|[Term]|id: EX:1|intersection_of: EX:7 EX:2 {s="x"} => -|2 Declaration(Class(<B:EX_1>))|3 EquivalentClasses(Annotation(<O:s> "x") <B:EX_1> ObjectIntersectionOf(<B:EX_3> ObjectSomeValuesFrom(<B:EX_7> <B:EX_2>)))
[Term]|id: EX:1|union_of: EX:3|union_of: EX:2 => -|2 Declaration(Class(<B:EX_1>))|3 EquivalentClasses(<B:EX_1> ObjectUnionOf(<B:EX_2> <B:EX_3>))
[Term]|id: EX:1|intersection_of: EX:2|intersection_of: EX:3 {cardinality="1"}|union_of: EX:4|union_of: EX:5 => -|2 Declaration(Class(<B:EX_1>))|5 EquivalentClasses(<B:EX_1> ObjectUnionOf(<B:EX_4> <B:EX_5>))|-3 intersection_of|-4 intersection_of
[Term]|id: EX:1|intersection_of: EX:2|[Term]|id: EX:4|intersection_of: EX:2|intersection_of: EX:3|[Term]|id: EX:1|intersection_of: EX:3 {gci_filler="x"} => -|2 Declaration(Class(<B:EX_1>))|5 Declaration(Class(<B:EX_4>))|6 EquivalentClasses(<B:EX_4> ObjectIntersectionOf(<B:EX_2> <B:EX_3>))|-3 intersection_of|-10 intersection_of
[Term]|id: EX:1|is_a: EX:2 {all_only="true"}|foo: bar => -|2 Declaration(Class(<B:EX_1>))|-3 is_a|-4 foo
[Term]|id: EX:2|equivalent_to: EX:1 {source="b",source="a"} => -|2 Declaration(Class(<B:EX_2>))|3 EquivalentClasses(Annotation(<O:source> "a") Annotation(<O:source> "b") <B:EX_1> <B:EX_2>)
[Term]|id: EX:2|disjoint_from: EX:1|[Term]|id: EX:1|disjoint_from: EX:2 => -|2 Declaration(Class(<B:EX_2>))|3 DisjointClasses(<B:EX_1> <B:EX_2>)|5 Declaration(Class(<B:EX_1>))
[Term]|id: EX:1|name: a|is_a: EX:2|[Term]|id: EX:1|is_a: EX:2 => -|2 Declaration(Class(<B:EX_1>))|3 AnnotationAssertion(<R:label> <B:EX_1> "a")|4 SubClassOf(<B:EX_1> <B:EX_2>)
[Typedef]|id: EX:7|domain: EX:1|range: EX:2|inverse_of: EX:8|holds_over_chain: EX:8 EX:9 => -|2 Declaration(ObjectProperty(<B:EX_7>))|3 ObjectPropertyDomain(<B:EX_7> <B:EX_1>)|4 ObjectPropertyRange(<B:EX_7> <B:EX_2>)|5 InverseObjectProperties(<B:EX_7> <B:EX_8>)|6 SubObjectPropertyOf(ObjectPropertyChain(<B:EX_8> <B:EX_9>) <B:EX_7>)
[Typedef]|id: EX:7|transitive_over: EX:8|is_a: EX:8|equivalent_to: EX:6|disjoint_from: EX:8 => -|2 Declaration(ObjectProperty(<B:EX_7>))|3 SubObjectPropertyOf(ObjectPropertyChain(<B:EX_7> <B:EX_8>) <B:EX_7>)|4 SubObjectPropertyOf(<B:EX_7> <B:EX_8>)|5 EquivalentObjectProperties(<B:EX_6> <B:EX_7>)|6 DisjointObjectProperties(<B:EX_7> <B:EX_8>)
[Typedef]|id: EX:7|is_reflexive: true|is_symmetric: true|is_asymmetric: true => -|2 Declaration(ObjectProperty(<B:EX_7>))|3 ReflexiveObjectProperty(<B:EX_7>)|4 SymmetricObjectProperty(<B:EX_7>)|5 AsymmetricObjectProperty(<B:EX_7>)
[Typedef]|id: EX:7|is_transitive: true|is_functional: true|is_inverse_functional: true => -|2 Declaration(ObjectProperty(<B:EX_7>))|3 TransitiveObjectProperty(<B:EX_7>)|4 FunctionalObjectProperty(<B:EX_7>)|5 InverseFunctionalObjectProperty(<B:EX_7>)
[Typedef]|id: EX:7|is_metadata_tag: true|is_a: EX:8|name: n|is_transitive: false => -|2 Declaration(AnnotationProperty(<B:EX_7>))|5 AnnotationAssertion(<R:label> <B:EX_7> "n")|-4 is_a
[Instance]|id: EX:5|instance_of: EX:1|relationship: EX:7 EX:6 => -|2 Declaration(NamedIndividual(<B:EX_5>))|3 ClassAssertion(<B:EX_1> <B:EX_5>)|4 ObjectPropertyAssertion(<B:EX_7> <B:EX_5> <B:EX_6>)
ontology: b|ontology: a => a|-1 ontology
ontology: ex|import: x {cardinality="1"} => ex
default-namespace: d|[Term]|id: EX:1|[Term]|id: EX:2|namespace: n => -|1 Annotation(<O:default-namespace> "d")|3 AnnotationAssertion(<O:hasOBONamespace> <B:EX_1> "d")|3 Declaration(Class(<B:EX_1>))|5 Declaration(Class(<B:EX_2>))|6 AnnotationAssertion(<O:hasOBONamespace> <B:EX_2> "n")
default-namespace: d|[Term]|id: EX:1|[Term]|id: EX:1 => -|1 Annotation(<O:default-namespace> "d")|3 AnnotationAssertion(<O:hasOBONamespace> <B:EX_1> "d")|3 Declaration(Class(<B:EX_1>))
default-namespace: e|default-namespace: d {gci_filler="x"}|[Term]|id: EX:1 => -|1 Annotation(<O:default-namespace> "e")|4 AnnotationAssertion(<O:hasOBONamespace> <B:EX_1> "d")|4 Declaration(Class(<B:EX_1>))|-2 default-namespace
default-namespace: d|[Term]|id: EX:1|namespace: n {cardinality="1"} => -|1 Annotation(<O:default-namespace> "d")|3 Declaration(Class(<B:EX_1>))|-4 namespace
"#;

#[test]
fn documents_have_axioms(rt: HostRuntime) -> Result<(), Fail> {
    let wrong = wrong_in(rt.alloc(), TRANSLATIONS, translation)?;
    assert_eq!(rt; wrong.as_str(), "");
    Ok(())
}

/// What the translation of the document of an example gives.
fn translation(alloc: Global, input: &str) -> Result<Vec<u8>, NoMemory> {
    let file = bytes_of(alloc, input)?;
    if file.len() > 1000 {
        return Ok(file);
    }
    match read_document(alloc, file.as_slice(), 1000) {
        Ok(document) => {
            let translated = translate(alloc, HashKey::new(7), &document, 5)?;
            answer_of(alloc, &translated)
        }
        Err(fault) => {
            drop(fault);
            bytes_of(alloc, "no document")
        }
    }
}

/// The name, the axioms and the reports.
fn answer_of(alloc: Global, translated: &Translated) -> Result<Vec<u8>, NoMemory> {
    let mut out = Vec::new(alloc);
    match translated.ontology.name() {
        Some(name) => push(&mut out, name.as_slice())?,
        None => push(&mut out, b"-")?,
    }
    push_axioms(alloc, &mut out, &translated.ontology)?;
    for report in translated.dropped.as_slice() {
        let line = report.line;
        push(&mut out, format!(in alloc; "\n-{line} ")?.as_bytes())?;
        push(&mut out, report.tag.as_slice())?;
    }
    Ok(out)
}

/// Appends the axioms by line and text.
fn push_axioms(alloc: Global, out: &mut Vec<u8>, ontology: &Ontology) -> Result<(), NoMemory> {
    let mut lines = Vec::new(alloc);
    for at in 0..ontology.len() {
        let mut text = Vec::new(alloc);
        axiom_text(alloc, ontology.get(at), &mut text)?;
        lines.push((ontology.origin(at).line, text))?;
    }
    lines.sort_by(|one, other| (one.0, one.1.as_slice()).cmp(&(other.0, other.1.as_slice())))?;
    for (line, text) in lines {
        push(out, format!(in alloc; "\n{line} ")?.as_bytes())?;
        push_short(out, text.as_slice())?;
    }
    Ok(())
}

/// Appends a text, with a sign for what its IRIs begin with.
fn push_short(out: &mut Vec<u8>, text: &[u8]) -> Result<(), NoMemory> {
    let mut rest = text;
    for _ in 0..text.len() {
        let (piece, left) = first_piece(rest);
        push(out, piece)?;
        rest = left;
    }
    Ok(())
}

/// The sign for what the text begins with, or else its first byte; and what is left.
fn first_piece(text: &[u8]) -> (&[u8], &[u8]) {
    for (space, sign) in SPACES {
        if let Some(rest) = text.strip_prefix(space.as_bytes()) {
            return (sign.as_bytes(), rest);
        }
    }
    text.split_at(text.len().min(1))
}
