//! Documents of small files, with answers worked out by hand from the rules.
use super::pieces::is_same_in_pieces;
use crate::{bytes_of, push, wrong_in};
use obo_frames::{Document, Placed, read_document};
use rel_io::{Dup, NoMemory};
use std::alloc::Global;
use std::test::Fail;

/// The limit of bytes of a line in the table.
const LIMIT: u32 = 60;

/// A file, and its fault, or how many clauses its document has and each of them: the kind and the id of its frame, its
/// line, its tag and the number of its qualifiers; the same however the file is cut.
const FILES: &str = " => 0
|| ! nothing| => 0
format-version: 1.2|ontology: ex||[Term]|id: EX:2|name: wheel|is_a part => Syntax { line: 7, kind: NoColon }
format-version: 1.2|ontology: ex|name: x|name|[Term]|id: EX:2|is_a part => Syntax { line: 4, kind: NoColon }
format-version: 1.2|ontology: ex||[Term]|id: EX:2|name: wheel|is_a EX:0000001 => Syntax { line: 7, kind: BadTag }
ontology: ex|[Term]|@FF@|name: x => NotUtf8 { line: 3 }
ontology: ex|[Term]|name: x => NoId { line: 2 }
[Thing]|@FF@ => Syntax { line: 1, kind: BadFrame }
@FF@|[Thing] => NotUtf8 { line: 1 }
name: @FF@ 3456789 123456789 123456789 123456789 123456789 123456789 => NotUtf8 { line: 1 }
name: 789 123456789 123456789 123456789 123456789 123456789 1 => LineTooLong { line: 1 }
name  789 123456789 123456789 123456789 123456789 123456789 1 => LineTooLong { line: 1 }
name: 789 123456789 123456789 123456789 123456789 123456789 => 1|Header - 1 name 0
x|name: 789 123456789 123456789 123456789 123456789 123456789 1 => Syntax { line: 1, kind: NoColon }
[Term]|id: A B => Syntax { line: 2, kind: Trailing }
[Term]|name: x|id: A:1|is_a: => Syntax { line: 4, kind: NoValue }
[Term]|name: x|[Term]|id: A:1|def: x => Syntax { line: 5, kind: NoQuote }
[Term]|id: A:1|union_of: A:2|is_obsolete: yes => Syntax { line: 4, kind: BadBool }
[Term]|id: A:1|name: x => 2|Term A:1 2 id 0|Term A:1 3 name 0
[Term]||! a comment|id: A:1 => 1|Term A:1 4 id 0
[Term]|id: A:1 {a=\"b\"} ! c|name: x {a=\"b\", c=\"d\"} => 2|Term A:1 2 id 0|Term A:1 3 name 2
[Term]|id: a\\Wb => 1|Term a b 2 id 0
[Term]|id: A:1|id: A:1|id: A:2 {a=\"b\"} => 3|Term A:1 2 id 0|Term A:1 3 id 0|Term A:1 4 id 0
id: A:1|name: x|[Instance]|id: i|instance_of: A:1 => 4|Header - 1 id 0|Header - 2 name 0|Instance i 4 id 0|Instance i 5 instance_of 0
[Typedef]|id: A:1|[Term]|id: A:1|xref: x {a=\"b\"} => 3|Typedef A:1 2 id 0|Term A:1 4 id 0|Term A:1 5 xref 1
[Term]|id: B:1|name: x|[Term]|id: A:1|[Term]|id: B:1|comment: y => 5|Term B:1 2 id 0|Term B:1 3 name 0|Term A:1 5 id 0|Term B:1 7 id 0|Term B:1 8 comment 0
format-version: 1.4|import: x|subsetdef: s \"t\"|[Term]|id: A:1|def: \"x\" [B:1 \"l\"]|synonym: \"y\" EXACT []|xref: C:1|is_a: A:2 ! b|relationship: r A:3|is_obsolete: true|treat: as it is => 11|Header - 1 format-version 0|Header - 2 import 0|Header - 3 subsetdef 0|Term A:1 5 id 0|Term A:1 6 def 0|Term A:1 7 synonym 0|Term A:1 8 xref 0|Term A:1 9 is_a 0|Term A:1 10 relationship 0|Term A:1 11 is_obsolete 0|Term A:1 12 treat 0
[Typedef]|id: r|holds_over_chain: a b|[Instance]|id: i|property_value: p \"v\" xsd:int|property_value: p q => 5|Typedef r 2 id 0|Typedef r 3 holds_over_chain 0|Instance i 5 id 0|Instance i 6 property_value 0|Instance i 7 property_value 0
[Term] => NoId { line: 1 }
[Term]|id: A:1|[Term] => NoId { line: 3 }
[Term]|id: A:1|[Typedef]|! x||[Term]|id: A:2 => NoId { line: 3 }
[Term]|[Term]|id: A:1 => NoId { line: 1 }
[Term]|alt_id: A:1|id: A:1 => NoId { line: 1 }
[Term]|id: A:1|[Instance]|foo: x|[Term]|name: x => NoId { line: 3 }
[Term]|id: A:1|union_of: A:2 => ShortGroup { line: 3 }
[Term]|id: A:1|intersection_of: A:2|intersection_of: A:2 => ShortGroup { line: 3 }
[Term]|id: A:1|intersection_of: A:2|intersection_of: A:3 => 3|Term A:1 2 id 0|Term A:1 3 intersection_of 0|Term A:1 4 intersection_of 0
[Term]|id: A:1|intersection_of: A:2|union_of: A:3 => ShortGroup { line: 3 }
[Term]|id: A:1|union_of: A:2|intersection_of: A:2|union_of: A:3 => ShortGroup { line: 4 }
[Term]|id: A:1|intersection_of: r A:2|intersection_of: r A:2 => ShortGroup { line: 3 }
[Term]|id: A:1|intersection_of: r A:2|intersection_of: A:2 => 3|Term A:1 2 id 0|Term A:1 3 intersection_of 0|Term A:1 4 intersection_of 0
[Term]|id: A:1|intersection_of: r A:2|intersection_of: s A:2 => 3|Term A:1 2 id 0|Term A:1 3 intersection_of 0|Term A:1 4 intersection_of 0
[Term]|id: A:1|intersection_of: r A:2|intersection_of: r A:3 => 3|Term A:1 2 id 0|Term A:1 3 intersection_of 0|Term A:1 4 intersection_of 0
[Term]|id: A:1|union_of: A:2 {cardinality=\"1\"}|union_of: A:2 => ShortGroup { line: 3 }
[Typedef]|id: A:1|union_of: A:2|[Instance]|id: A:1|intersection_of: A:2 => 4|Typedef A:1 2 id 0|Typedef A:1 3 union_of 0|Instance A:1 5 id 0|Instance A:1 6 intersection_of 0
[Term]|id: A:1|name: x|union_of: A:2|[Term]|id: A:2|union_of: A:3 => ShortGroup { line: 4 }
[Term]|id: A:1|union_of: A:2|[Term]|id: A:2|[Term]|id: A:1|union_of: A:3 => 5|Term A:1 2 id 0|Term A:1 3 union_of 0|Term A:2 5 id 0|Term A:1 7 id 0|Term A:1 8 union_of 0
[Term]|id: A:1|union_of: A:2|[Term]|id: A:1|union_of: A:2 => ShortGroup { line: 3 }
[Term]|name: x|[Term]|id: A:1|union_of: A:2 => NoId { line: 1 }
[Term]|id: A:1|union_of: A:2|[Term]|name: x => ShortGroup { line: 3 }
[Term]|id: A:1|[Term]|name: x|[Term]|id: A:1|union_of: A:2 => NoId { line: 3 }
[Term]|name: x|union_of: A:2|[Term]|id: A:1|union_of: A:2 => NoId { line: 1 }
ontology: ex|[Term]|id: x|union_of: A:1|[Term]|id: http://purl.obolibrary.org/obo/ex#x|union_of: A:2 => 5|Header - 1 ontology 0|Term x 3 id 0|Term x 4 union_of 0|Term http://purl.obolibrary.org/obo/ex#x 6 id 0|Term http://purl.obolibrary.org/obo/ex#x 7 union_of 0
ontology: ey|[Term]|id: x|union_of: A:1|[Term]|id: http://purl.obolibrary.org/obo/ex#x|union_of: A:2 => ShortGroup { line: 4 }
ontology: ex|[Term]|id: A:1|union_of: x|union_of: http://purl.obolibrary.org/obo/ex#x => ShortGroup { line: 4 }
ontology: ey|ontology: ex|ontology: ez|[Term]|id: A:1|union_of: x|union_of: http://purl.obolibrary.org/obo/ex#x => ShortGroup { line: 6 }
ontology: http://purl.obolibrary.org/obo/ex.owl|[Term]|id: A:1|union_of: x|union_of: http://purl.obolibrary.org/obo/ex#x => ShortGroup { line: 4 }
[Term]|id: A:1|union_of: x|union_of: http://purl.obolibrary.org/obo/TEMP#x => ShortGroup { line: 3 }
[Term]|id: A:1|ontology: ex|union_of: x|union_of: http://purl.obolibrary.org/obo/TEMP#x => ShortGroup { line: 4 }
[Term]|id: A:1|union_of: owl:Thing|union_of: http://purl.obolibrary.org/obo/owl#_Thing => ShortGroup { line: 3 }
format-version: 1.2@0D@|data-version: releases/2024-01-17@0D@|default-namespace: bike@0D@|subsetdef: slim \"Short list\"@0D@|synonymtypedef: trade \"Trade name\" EXACT@0D@|ontology: bike@0D@|remark: kept by hand@0D@|@0D@|[Term]@0D@|id: BIKE:0000002@0D@|name: wheel ! a comment@0D@|def: \"A round part, with a hub.\" [BIKE:kc, ISBN:123 \"book\"]@0D@|synonym: \"rim set\" BROAD trade [BIKE:kc]@0D@|synonym: \"roller\"@0D@|subset: slim@0D@|xref: WD:Q446 \"wheel\"@0D@|is_a: BIKE:0000001 {source=\"BIKE:kc\", checked=yes} ! part@0D@|@0D@|[Term]@0D@|id: BIKE:0000001@0D@|name: part@0D@|namespace: base@0D@| => 18|Header - 1 format-version 0|Header - 2 data-version 0|Header - 3 default-namespace 0|Header - 4 subsetdef 0|Header - 5 synonymtypedef 0|Header - 6 ontology 0|Header - 7 remark 0|Term BIKE:0000002 10 id 0|Term BIKE:0000002 11 name 0|Term BIKE:0000002 12 def 0|Term BIKE:0000002 13 synonym 0|Term BIKE:0000002 14 synonym 0|Term BIKE:0000002 15 subset 0|Term BIKE:0000002 16 xref 0|Term BIKE:0000002 17 is_a 2|Term BIKE:0000001 20 id 0|Term BIKE:0000001 21 name 0|Term BIKE:0000001 22 namespace 0
@EF@@BB@@BF@ontology: ex@0D@||[Term]@0D@|id: @C3@@A9@@0D@|name: @C3@@A9@ => 3|Header - 1 ontology 0|Term @C3@@A9@ 4 id 0|Term @C3@@A9@ 5 name 0
ontology: ex|name: x@C3@|@A9@name: x => NotUtf8 { line: 2 }
ontology: ex|[Term]|name@FF@|@FE@| => NotUtf8 { line: 3 }";

#[test]
fn files_are_documents_or_faults(rt: HostRuntime) -> Result<(), Fail> {
    let wrong = wrong_in(rt.alloc(), FILES, told)?;
    assert_eq!(rt; wrong.as_str(), "");
    Ok(())
}

/// What a file is, as the table has it, where it is the same in pieces.
fn told(alloc: Global, file: &str) -> Result<Vec<u8>, NoMemory> {
    let file = bytes_of(alloc, file)?;
    if file.len() > 1000 {
        return Ok(file);
    }
    let read = read_document(alloc, file.as_slice(), LIMIT);
    let is_same = is_same_in_pieces(alloc, file.as_slice(), LIMIT, &read);
    let told = match &read {
        _ if !is_same => Ok(Vec::from_slice(alloc, b"another in pieces")?),
        Ok(document) => shown(alloc, document),
        Err(fault) => Ok(format!(in alloc; "{:?}", fault.copy(alloc)?)?.into_bytes()),
    };
    drop(read);
    told
}

/// How many clauses a copy of the document has, and each of them.
fn shown(alloc: Global, document: &Document) -> Result<Vec<u8>, NoMemory> {
    let mut text = format!(in alloc; "{}", document.len())?.into_bytes();
    let twin = document.copy(alloc)?;
    for at in 0..twin.len() {
        push_placed(alloc, &mut text, twin.get(at))?;
    }
    Ok(text)
}

/// Appends a placed clause.
fn push_placed(alloc: Global, text: &mut Vec<u8>, one: &Placed) -> Result<(), NoMemory> {
    let id = one.id.as_slice();
    push(text, format!(in alloc; "\n{:?} ", one.frame)?.as_bytes())?;
    push(text, if id.is_empty() { b"-" } else { id })?;
    push(text, format!(in alloc; " {} ", one.line)?.as_bytes())?;
    push(text, one.clause.tag.as_slice())?;
    let count = one.clause.qualifiers.as_slice().len();
    push(text, format!(in alloc; " {count}")?.as_bytes())
}
