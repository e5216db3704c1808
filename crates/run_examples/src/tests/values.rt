//! Whole runs whose axioms a frame of OBO cannot spell, as `rows` plays them, with endings worked out by hand.
use super::rows::ending_of;
use document_examples::wrong_in;
use std::test::Fail;

/// Two values of one tag: what is refused, what is written without the check, and what is no refusal in OFN.
const VALUES: &str =
    r#"- 9 - -; merge --input a.obo --input b.obo convert --output r.obo; a.obo=[Term]|id: EX:0000001|name: wheel|; b.obo=[Term]|id: EX:0000001|name: roller| => 1; ; robot: <http://purl.obolibrary.org/obo/EX_0000001>: name has roller (b.obo:3) and wheel (a.obo:3)|; r.obo missing
- 9 - -; merge --input a.obo --input b.obo convert --output r.ofn; a.obo=[Term]|id: EX:0000001|name: wheel|; b.obo=[Term]|id: EX:0000001|name: roller| => 0; read a.obo: 1 frames, 0 clauses not translated|read b.obo: 1 frames, 0 clauses not translated|merge: 0 logical, 1 declarations, 2 notes|write r.ofn: 313 bytes|; ; r.ofn=Ontology(|AnnotationAssertion(<http://www.w3.org/2000/01/rdf-schema#label> <http://purl.obolibrary.org/obo/EX_0000001> "roller")|AnnotationAssertion(<http://www.w3.org/2000/01/rdf-schema#label> <http://purl.obolibrary.org/obo/EX_0000001> "wheel")|Declaration(Class(<http://purl.obolibrary.org/obo/EX_0000001>))|)|
- 9 - -; merge --input a.obo --input b.obo convert --check false --output r.obo; a.obo=[Term]|id: EX:0000001|name: wheel|; b.obo=[Term]|id: EX:0000001|name: roller| => 0; read a.obo: 1 frames, 0 clauses not translated|read b.obo: 1 frames, 0 clauses not translated|merge: 0 logical, 1 declarations, 2 notes|write r.obo: 68 bytes|; ; r.obo=format-version: 1.4||[Term]|id: EX:0000001|name: roller|name: wheel|
- 9 - -; merge --input a.obo convert --output r.obo; a.obo=[Term]|id: EX:1|name: z|name: y|name: x| => 1; ; robot: <http://purl.obolibrary.org/obo/EX_1>: name has x (a.obo:5) and y (a.obo:4)|; r.obo missing
- 9 - -; merge --input a.obo convert --output r.obo; a.obo=[Term]|id: EX:1|name: x {a="b"}|name: x| => 1; ; robot: <http://purl.obolibrary.org/obo/EX_1>: name has x (a.obo:4) and x {a="b"} (a.obo:3)|; r.obo missing
- 9 - -; merge --input a.obo --input b.obo convert --output r.obo; a.obo=[Term]|id: EX:1|name: y|; b.obo=[Term]|id: EX:1|name: x|name: y| => 1; ; robot: <http://purl.obolibrary.org/obo/EX_1>: name has x (b.obo:3) and y (a.obo:3)|; r.obo missing
- 9 - -; merge --input a.obo --input b.obo convert --output r.obo; a.obo=default-namespace: d|[Term]|id: EX:1|; b.obo=default-namespace: e|[Term]|id: EX:1| => 1; ; robot: <http://purl.obolibrary.org/obo/EX_1>: namespace has d (a.obo:3) and e (b.obo:3)|; r.obo missing
- 9 - -; merge --input a.obo convert --output r.obo; a.obo=[Term]|id: EX:1|def: "x" []|def: "x" [A:1 "l"]| => 1; ; robot: <http://purl.obolibrary.org/obo/EX_1>: def has "x" [A:1 "l"] (a.obo:4) and "x" [] (a.obo:3)|; r.obo missing
- 9 - -; merge --input a.obo convert --output r.obo; a.obo=[Term]|id: EX:1|comment: y|comment: x| => 1; ; robot: <http://purl.obolibrary.org/obo/EX_1>: comment has x (a.obo:4) and y (a.obo:3)|; r.obo missing
- 9 - -; merge --input a.obo convert --output r.obo; a.obo=[Typedef]|id: RO:1|created_by: x|created_by: y| => 1; ; robot: <http://purl.obolibrary.org/obo/RO_1>: created_by has x (a.obo:3) and y (a.obo:4)|; r.obo missing
- 9 - -; merge --input a.obo convert --output r.obo; a.obo=[Instance]|id: EX:1|creation_date: x|creation_date: y| => 1; ; robot: <http://purl.obolibrary.org/obo/EX_1>: creation_date has x (a.obo:3) and y (a.obo:4)|; r.obo missing
- 9 - -; merge --input a.obo convert --output r.obo; a.obo=[Term]|id: EX:1|creation_date: x|creation_date: y|comment: x|comment: y| => 1; ; robot: <http://purl.obolibrary.org/obo/EX_1>: comment has x (a.obo:5) and y (a.obo:6)|; r.obo missing
- 9 - -; merge --input a.obo convert --output r.obo; a.obo=[Instance]|id: A:1|name: x|name: y|[Typedef]|id: B:1|name: x|name: y|[Term]|id: D:1|name: x|name: y|[Term]|id: C:1|name: x|name: y| => 1; ; robot: <http://purl.obolibrary.org/obo/C_1>: name has x (a.obo:15) and y (a.obo:16)|; r.obo missing
- 9 - -; merge --input a.obo --input b.obo convert --output r.obo; a.obo=[Term]|id: EX:1|intersection_of: EX:2|intersection_of: EX:3|; b.obo=[Term]|id: EX:1|intersection_of: EX:4|intersection_of: EX:2| => 1; ; robot: <http://purl.obolibrary.org/obo/EX_1>: intersection_of has EX:2, EX:3 (a.obo:3) and EX:2, EX:4 (b.obo:3)|; r.obo missing
- 9 - -; merge --input a.obo --input b.obo convert --check false --output r.obo; a.obo=[Term]|id: EX:1|intersection_of: EX:2|intersection_of: EX:3|; b.obo=[Term]|id: EX:1|intersection_of: EX:4|intersection_of: EX:2| => 1; ; robot: <http://purl.obolibrary.org/obo/EX_1>: intersection_of has EX:2, EX:3 (a.obo:3) and EX:2, EX:4 (b.obo:3)|; r.obo missing
- 9 - -; merge --input a.obo --input b.obo convert --check false --output r.obo; a.obo=[Term]|id: EX:1|union_of: EX:2|union_of: EX:4|; b.obo=[Term]|id: EX:1|union_of: EX:2|union_of: EX:3| => 1; ; robot: <http://purl.obolibrary.org/obo/EX_1>: union_of has EX:2, EX:3 (b.obo:3) and EX:2, EX:4 (a.obo:3)|; r.obo missing
- 9 - -; merge --input a.obo --input b.obo convert --check false --output r.obo; a.obo=[Term]|id: EX:1|intersection_of: EX:2|intersection_of: EX:3|; b.obo=[Term]|id: EX:1|intersection_of: EX:2|intersection_of: EX:3 {source="x"}| => 1; ; robot: <http://purl.obolibrary.org/obo/EX_1>: intersection_of has EX:2 {source="x"}, EX:3 (b.obo:3) and EX:2, EX:3 (a.obo:3)|; r.obo missing
- 9 - -; merge --input a.obo --input b.obo convert --check false --output r.obo; a.obo=[Term]|id: http://www.w3.org/2002/07/owl#Thing|intersection_of: EX:1|intersection_of: EX:2|; b.obo=[Term]|id: http://www.w3.org/2002/07/owl#Thing|intersection_of: EX:1|intersection_of: EX:3| => 1; ; robot: <http://www.w3.org/2002/07/owl#Thing>: intersection_of has EX:1, EX:2 (a.obo:3) and EX:1, EX:3 (b.obo:3)|; r.obo missing
- 9 - -; merge --input a.obo --input b.obo convert --output r.obo; a.obo=[Typedef]|id: RO:1|is_metadata_tag: true|; b.obo=|[Typedef]|id: RO:1| => 1; ; robot: <http://purl.obolibrary.org/obo/RO_1>: is_metadata_tag has false (b.obo:3) and true (a.obo:2)|; r.obo missing
- 9 - -; merge --input a.obo --input b.obo convert --check false --output r.obo; a.obo=[Typedef]|id: RO:1|is_metadata_tag: true|; b.obo=|[Typedef]|id: RO:1| => 1; ; robot: <http://purl.obolibrary.org/obo/RO_1>: is_metadata_tag has false (b.obo:3) and true (a.obo:2)|; r.obo missing"#;

#[test]
fn two_values_are_refused_by_their_places(rt: HostRuntime) -> Result<(), Fail> {
    let wrong = wrong_in(rt.alloc(), VALUES, ending_of)?;
    assert_eq!(rt; wrong.as_str(), "");
    Ok(())
}
