//! Documents with their canonical texts, worked out by hand: whole ones, and each rule of the normal form before and after.
use document_examples::{bytes_of, wrong_in};
use hash_key::HashKey;
use obo_canonical::canonical;
use obo_frames::{Document, read_document};
use rel_io::NoMemory;
use std::alloc::Global;
use std::test::Fail;

/// Files, and their canonical texts. The first sign says of what: D a whole document, H what stands behind the first line of a
/// header, T, Y and I the clauses of a Term, a Typedef and an Instance with the id `EX:1`, P the frames, and S the frames
/// where the header has two default namespaces.
const TEXTS: &str = r#"D  => format-version: 1.4|
D format-version: 1.2@0D@|data-version: releases/2024-01-17@0D@|default-namespace: bike@0D@|subsetdef: slim "Short list"@0D@|synonymtypedef: trade "Trade name" EXACT@0D@|ontology: bike@0D@|remark: kept by hand@0D@|@0D@|[Term]@0D@|id: BIKE:0000002@0D@|name: wheel ! a comment@0D@|def: "A round part, with a hub." [BIKE:kc, ISBN:123 "book"]@0D@|synonym: "rim set" BROAD trade [BIKE:kc]@0D@|synonym: "roller"@0D@|subset: slim@0D@|xref: WD:Q446 "wheel"@0D@|is_a: BIKE:0000001 {source="BIKE:kc", checked=yes} ! part@0D@|@0D@|[Term]@0D@|id: BIKE:0000001@0D@|name: part@0D@|namespace: base@0D@| => format-version: 1.4|data-version: releases/2024-01-17|subsetdef: slim "Short list"|synonymtypedef: trade "Trade name" EXACT|default-namespace: bike|remark: kept by hand|ontology: bike||[Term]|id: BIKE:0000001|name: part|namespace: base||[Term]|id: BIKE:0000002|name: wheel|namespace: bike|def: "A round part, with a hub." [BIKE:kc, ISBN:123 "book"]|subset: slim|synonym: "rim set" BROAD trade [BIKE:kc]|synonym: "roller" RELATED []|xref: WD:Q446 "wheel"|is_a: BIKE:0000001 {checked="yes", source="BIKE:kc"} ! part|
D remark: kept by hand|ontology: bike|synonymtypedef: trade "Trade name" EXACT|subsetdef: slim "Short list"|default-namespace: bike|data-version: releases/2024-01-17|format-version: 1.2||[Term]|id: BIKE:0000001|name: part|namespace: base||[Term]|id: BIKE:0000002|name: wheel ! a comment|def: "A round part, with a hub." [BIKE:kc, ISBN:123 "book"]|name: wheel|subset: slim|xref: WD:Q446 "wheel"|is_a: BIKE:0000001 {source="BIKE:kc", checked=yes} ! part||[Term]|id: BIKE:0000002|synonym: "rim set" BROAD trade [BIKE:kc]|synonym: "roller"| => format-version: 1.4|data-version: releases/2024-01-17|subsetdef: slim "Short list"|synonymtypedef: trade "Trade name" EXACT|default-namespace: bike|remark: kept by hand|ontology: bike||[Term]|id: BIKE:0000001|name: part|namespace: base||[Term]|id: BIKE:0000002|name: wheel|namespace: bike|def: "A round part, with a hub." [BIKE:kc, ISBN:123 "book"]|subset: slim|synonym: "rim set" BROAD trade [BIKE:kc]|synonym: "roller" RELATED []|xref: WD:Q446 "wheel"|is_a: BIKE:0000001 {checked="yes", source="BIKE:kc"} ! part|
D format-version: 1.4|data-version: releases/2024-01-17|subsetdef: slim "Short list"|synonymtypedef: trade "Trade name" EXACT|default-namespace: bike|remark: kept by hand|ontology: bike||[Term]|id: BIKE:0000001|name: part|namespace: base||[Term]|id: BIKE:0000002|name: wheel|namespace: bike|def: "A round part, with a hub." [BIKE:kc, ISBN:123 "book"]|subset: slim|synonym: "rim set" BROAD trade [BIKE:kc]|synonym: "roller" RELATED []|xref: WD:Q446 "wheel"|is_a: BIKE:0000001 {checked="yes", source="BIKE:kc"} ! part| => format-version: 1.4|data-version: releases/2024-01-17|subsetdef: slim "Short list"|synonymtypedef: trade "Trade name" EXACT|default-namespace: bike|remark: kept by hand|ontology: bike||[Term]|id: BIKE:0000001|name: part|namespace: base||[Term]|id: BIKE:0000002|name: wheel|namespace: bike|def: "A round part, with a hub." [BIKE:kc, ISBN:123 "book"]|subset: slim|synonym: "rim set" BROAD trade [BIKE:kc]|synonym: "roller" RELATED []|xref: WD:Q446 "wheel"|is_a: BIKE:0000001 {checked="yes", source="BIKE:kc"} ! part|
D ontology: ex||[Term]|id: EX:0000002|name: wheel|is_a: EX:0000001|is_a: EX:0000001||[Term]|id: EX:0000001|name: part| => format-version: 1.4|ontology: ex||[Term]|id: EX:0000001|name: part||[Term]|id: EX:0000002|name: wheel|is_a: EX:0000001 ! part|
D [Term]|id: EX:1|is_obsolete: false|xref: B "x"|xref: A|foo: bar {baz| => format-version: 1.4||[Term]|id: EX:1|xref: A|xref: B "x"|foo: bar {baz|
H format-version: 1.2|format-version: 1.4 {k="v"} => 
H ontology: http://purl.obolibrary.org/obo/ex.owl {k="v"} => ontology: ex|
H ontology: b|ontology: a => ontology: a|ontology: b|
H ontology: ex|subsetdef: http://purl.obolibrary.org/obo/ex#slim "s" => subsetdef: slim "s"|ontology: ex|
H ontology: ex|synonymtypedef: http://purl.obolibrary.org/obo/ex#lay "s" BROAD => synonymtypedef: lay "s" BROAD|ontology: ex|
H import: http://purl.obolibrary.org/obo/EX_2 => import: http://purl.obolibrary.org/obo/EX_2|
H import: b.obo {b=1,all_only=true} => import: b.obo {all_only="true", b="1"}|
H remark: x {b=1,a=2,b=1} => remark: x {a="2", b="1"}|
H treat-xrefs-as-is_a: X Y => treat-xrefs-as-is_a: X Y|
H property_value: http://www.geneontology.org/formats/oboInOwl#remark "x" => remark: x|
H default-namespace: b|default-namespace: a {k=v}|remark: x|remark: x => default-namespace: a {k="v"}|default-namespace: b|remark: x|
T is_a: http://purl.obolibrary.org/obo/EX_2 => is_a: EX:2|
T relationship: http://purl.obolibrary.org/obo/BFO_0000050 http://purl.obolibrary.org/obo/EX_2 => relationship: BFO:0000050 EX:2|
T is_a: http://www.w3.org/2002/07/owl#Thing => is_a: http://www.w3.org/2002/07/owl#Thing|
T property_value: http://purl.obolibrary.org/obo/EX_7 http://purl.obolibrary.org/obo/EX_8 => property_value: EX:7 EX:8|
T property_value: EX:7 "1" http://www.w3.org/2001/XMLSchema#int => property_value: EX:7 "1" xsd:int|
T synonym: "x" EXACT http://purl.obolibrary.org/obo/EX_7 [B,A] => synonym: "x" EXACT EX:7 [A, B]|
T alt_id: http://purl.obolibrary.org/obo/EX_2 => alt_id: http://purl.obolibrary.org/obo/EX_2|
T xref: http://purl.obolibrary.org/obo/EX_2 => xref: http://purl.obolibrary.org/obo/EX_2|
T foo: http://purl.obolibrary.org/obo/EX_2 => foo: http://purl.obolibrary.org/obo/EX_2|
T name: x {http://www.geneontology.org/formats/oboInOwl#k=v} => name: x {k="v"}|
T name: x {http://www.geneontology.org/formats/oboInOwl#all_only=v} => name: x {http://www.geneontology.org/formats/oboInOwl#all_only="v"}|
T is_anonymous: false|builtin: true => builtin: true|
T is_obsolete: false {all_only=true} => 
Y is_transitive: false|is_symmetric: true => is_symmetric: true|
Y holds_over_chain: EX:1 EX:2 {k=v} => transitive_over: EX:2 {k="v"}|
Y holds_over_chain: EX:2 EX:1 => holds_over_chain: EX:2 EX:1|
Y holds_over_chain: EX:1 EX:2 {all_only=true} => holds_over_chain: EX:1 EX:2 {all_only="true"}|
T property_value: http://www.w3.org/2000/01/rdf-schema#label "x" => name: x|
T def: "x" [A] {hasDbXref=B} => def: "x" [A, B]|
T def: "x" [B,A "l",B] => def: "x" [A "l", B]|
T is_a: EX:2 {b=1,a=2,b=1} => is_a: EX:2 {a="2", b="1"}|
T is_a: EX:2 {all_only=true,a=1} => is_a: EX:2 {a="1", all_only="true"}|
T is_a: http://purl.obolibrary.org/obo/EX_2 {all_only=true} => is_a: EX:2 {all_only="true"}|
T relationship: http://purl.obolibrary.org/obo/EX_3 EX:2 {cardinality=1} => relationship: EX:3 EX:2 {cardinality="1"}|
T def: "x" [B,A,B] {all_only=true} => def: "x" [A, B] {all_only="true"}|
T property_value: EX:7 "1" http://www.w3.org/2001/XMLSchema#int {all_only=true} => property_value: EX:7 "1" xsd:int {all_only="true"}|
T name: x {all_only=true,http://www.geneontology.org/formats/oboInOwl#k=v} => name: x {all_only="true", k="v"}|
T alt_id: http://purl.obolibrary.org/obo/EX_2 {all_only=true} => alt_id: http://purl.obolibrary.org/obo/EX_2 {all_only="true"}|
T intersection_of: EX:3 {b=1}|intersection_of: EX:2 {a=1}|intersection_of: EX:3 => intersection_of: EX:2 {a="1", b="1"}|intersection_of: EX:3|
T union_of: EX:3 {b=1}|union_of: EX:2 => union_of: EX:2 {b="1"}|union_of: EX:3|
T intersection_of: EX:2|intersection_of: EX:3 EX:4 {cardinality=1} => intersection_of: EX:2|intersection_of: EX:3 EX:4 {cardinality="1"}|
T comment: x|comment: x|foo: y|foo: y => comment: x|foo: y|
T disjoint_from: EX:1 => disjoint_from: EX:1|
T disjoint_from: EX:0|equivalent_to: EX:0 => equivalent_to: EX:0|disjoint_from: EX:0|
Y is_metadata_tag: true {k=v}|domain: EX:2|name: x => name: x|domain: EX:2|is_metadata_tag: true|
Y is_metadata_tag: true {all_only=true}|is_metadata_tag: false => is_metadata_tag: true|
Y range: EX:2|domain: EX:3|is_a: EX:4|inverse_of: EX:5 => domain: EX:3|range: EX:2|is_a: EX:4|inverse_of: EX:5|
I relationship: EX:3 EX:2|instance_of: EX:4 => instance_of: EX:4|relationship: EX:3 EX:2|
P [Term]|id: EX:2|disjoint_from: EX:1 => [Term]|id: EX:2|disjoint_from: EX:1|
P [Term]|id: EX:2|disjoint_from: EX:1||[Term]|id: EX:1 => [Term]|id: EX:1|disjoint_from: EX:2||[Term]|id: EX:2|
P [Term]|id: EX:2|equivalent_to: EX:1||[Term]|id: EX:1|equivalent_to: EX:2 => [Term]|id: EX:1|equivalent_to: EX:2||[Term]|id: EX:2|
P [Term]|id: EX:2|disjoint_from: EX:1 {k=v}||[Term]|id: EX:1|disjoint_from: EX:2 => [Term]|id: EX:1|disjoint_from: EX:2|disjoint_from: EX:2 {k="v"}||[Term]|id: EX:2|
P [Term]|id: EX:2|disjoint_from: EX:1 {all_only=true}||[Term]|id: EX:1 => [Term]|id: EX:1||[Term]|id: EX:2|disjoint_from: EX:1 {all_only="true"}|
P [Typedef]|id: EX:2|disjoint_from: EX:1||[Term]|id: EX:1 => [Term]|id: EX:1||[Typedef]|id: EX:2|disjoint_from: EX:1|
P [Typedef]|id: s|inverse_of: r||[Typedef]|id: r => [Typedef]|id: r|inverse_of: s||[Typedef]|id: s|
P [Typedef]|id: x|holds_over_chain: x r||[Typedef]|id: r => [Typedef]|id: r||[Typedef]|id: x|transitive_over: r|
P [Term]|id: http://purl.obolibrary.org/obo/GO_0000001|name: a||[Term]|id: GO:0000001|comment: c => [Term]|id: GO:0000001|name: a|comment: c|
P [Term]|id: http://purl.obolibrary.org/obo/GO_0000001|foo: a||[Term]|id: GO:0000001 => [Term]|id: GO:0000001|foo: a|
P [Term]|id: EX:1|is_a: EX:2||[Term]|id: http://purl.obolibrary.org/obo/EX_2|name: n => [Term]|id: EX:1|is_a: EX:2 ! n||[Term]|id: EX:2|name: n|
P [Term]|id: EX:1|is_a: EX:2||[Term]|id: EX:2|name: m|property_value: http://www.w3.org/2000/01/rdf-schema#label "n" => [Term]|id: EX:1|is_a: EX:2||[Term]|id: EX:2|name: m|name: n|
S [Term]|id: EX:1||[Term]|id: EX:2|namespace: c => [Term]|id: EX:1|namespace: a||[Term]|id: EX:2|namespace: c|
S [Typedef]|id: r||[Instance]|id: i => [Typedef]|id: r|namespace: a||[Instance]|id: i|namespace: a|
S [Term]|id: EX:1|property_value: http://www.geneontology.org/formats/oboInOwl#hasOBONamespace "c" => [Term]|id: EX:1|namespace: c|
S [Term]|id: EX:1|namespace: c {all_only=true} => [Term]|id: EX:1|namespace: c {all_only="true"}|
S [Term]|id: EX:1|namespace: c {k=v} => [Term]|id: EX:1|namespace: c {k="v"}|"#;

#[test]
fn documents_have_canonical_texts(rt: HostRuntime) -> Result<(), Fail> {
    let wrong = wrong_in(rt.alloc(), TEXTS, text_of)?;
    assert_eq!(rt; wrong.as_str(), "");
    Ok(())
}

/// The canonical text of an example, without what stands in all texts of its sign.
fn text_of(alloc: Global, input: &str) -> Result<Vec<u8>, NoMemory> {
    let (sign, lines) = input.split_once(' ').unwrap_or(("D", input));
    let (before, begin) = match sign {
        "H" => ("", "format-version: 1.4|"),
        "T" => ("[Term]|id: EX:1|", "format-version: 1.4||[Term]|id: EX:1|"),
        "Y" => (
            "[Typedef]|id: EX:1|",
            "format-version: 1.4||[Typedef]|id: EX:1|",
        ),
        "I" => (
            "[Instance]|id: EX:1|",
            "format-version: 1.4||[Instance]|id: EX:1|",
        ),
        "P" => ("", "format-version: 1.4||"),
        "S" => (
            "default-namespace: b|default-namespace: a|",
            "format-version: 1.4|default-namespace: a|default-namespace: b||",
        ),
        _ => ("", ""),
    };
    text_behind(alloc, before, lines, begin)
}

/// The canonical text of a file that begins with these lines, without its own beginning; the whole text where that is another.
fn text_behind(alloc: Global, before: &str, lines: &str, begin: &str) -> Result<Vec<u8>, NoMemory> {
    let mut file = bytes_of(alloc, before)?;
    let rest = bytes_of(alloc, lines)?;
    file.extend_from_slice(rest.as_slice())?;
    let text = canonical_of(alloc, file.as_slice())?;
    let begin = bytes_of(alloc, begin)?;
    if !text.as_slice().starts_with(begin.as_slice()) {
        return Ok(text);
    }
    let mut rest = Vec::new(alloc);
    for at in begin.len()..text.len() {
        rest.push(text[at])?;
    }
    Ok(rest)
}

/// The canonical text of a file.
fn canonical_of(alloc: Global, file: &[u8]) -> Result<Vec<u8>, NoMemory> {
    if file.len() > 2000 {
        return Ok(Vec::new(alloc));
    }
    let read = read_document(alloc, file, 1000);
    let text = match &read {
        Ok(document) => text_of_document(alloc, document),
        Err(_) => Ok(Vec::new(alloc)),
    };
    drop(read);
    text
}

/// The canonical text of a document.
fn text_of_document(alloc: Global, document: &Document) -> Result<Vec<u8>, NoMemory> {
    let text = canonical(alloc, HashKey::new(7), document)?;
    Ok(text.into_vec())
}
