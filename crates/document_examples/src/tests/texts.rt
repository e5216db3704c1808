//! Documents with their canonical texts, worked out by hand.
use crate::{bytes_of, wrong_in};
use obo_frames::read_document;
use obo_text::canonical_text;
use rel_io::NoMemory;
use std::alloc::Global;
use std::test::Fail;

/// Files, and the canonical texts of their documents.
const TEXTS: &str = r#" => 
zed: 1|remark: r|format-version: 1.4|id: x => format-version: 1.4|remark: r|id: x|zed: 1|
[Instance]|id: i|[Typedef]|id: r|[Term]|id: t => |[Term]|id: t||[Typedef]|id: r||[Instance]|id: i|
format-version: 1.4|ontology: ex||[Term]|id: EX:2|name: b|[Term]|id: EX:1|is_a: EX:2 => format-version: 1.4|ontology: ex||[Term]|id: EX:1|is_a: EX:2 ! b||[Term]|id: EX:2|name: b|
[Term]|id: t|name: b|[Term]|id: t|name: b|comment: c => |[Term]|id: t|name: b|comment: c|
[Term]|id: a|is_a: b|[Term]|id: b|name: x|name: y => |[Term]|id: a|is_a: b||[Term]|id: b|name: x|name: y|
[Term]|id: a|is_a: b|[Term]|id: b|name: x|name: x => |[Term]|id: a|is_a: b ! x||[Term]|id: b|name: x|
[Term]|id: a|is_a: b|[Term]|id: b|name: x|name: x {k="v"} => |[Term]|id: a|is_a: b||[Term]|id: b|name: x|name: x {k="v"}|
[Term]|id: t|id: u|zed: 1|is_obsolete: true => |[Term]|id: t|is_obsolete: true|id: u|zed: 1|
[Term]|id: t|comment: a b|comment: a {x="1"}|comment: a => |[Term]|id: t|comment: a|comment: a {x="1"}|comment: a b|
[Term]|id: t|name: wheel|relationship: r t|[Typedef]|id: r|name: part of|domain: t|is_a: r|[Instance]|id: i|name: mine|instance_of: t|relationship: r i => |[Term]|id: t|name: wheel|relationship: r t ! wheel||[Typedef]|id: r|name: part of|domain: t ! wheel|is_a: r ! part of||[Instance]|id: i|name: mine|instance_of: t ! wheel|relationship: r i ! mine|
[Term]|id: a|is_a: b|[Term]|id: b|name: a \! b => |[Term]|id: a|is_a: b ! a \! b||[Term]|id: b|name: a \! b|
[Term]|id: a\!x|[Term]|id: a\Wb => |[Term]|id: a\Wb||[Term]|id: a\!x|
[Term]|id: a|name: x|replaced_by: a|consider: a => |[Term]|id: a|name: x|replaced_by: a|consider: a|
[Term]|id: a|name: x|is_a: a {k="v"} => |[Term]|id: a|name: x|is_a: a {k="v"} ! x|
[Term]|id: a|union_of: b|union_of: a|[Term]|id: b|name: n => |[Term]|id: a|union_of: a|union_of: b ! n||[Term]|id: b|name: n|
[Typedef]|id: r|name: n|[Term]|id: a|is_a: r => |[Term]|id: a|is_a: r||[Typedef]|id: r|name: n|
[Term]|id: b|name:|is_a: b => |[Term]|id: b|name:|is_a: b ! |"#;

#[test]
fn texts_are_canonical(rt: HostRuntime) -> Result<(), Fail> {
    let wrong = wrong_in(rt.alloc(), TEXTS, text_of)?;
    assert_eq!(rt; wrong.as_str(), "");
    Ok(())
}

/// The canonical text of the document that the input is.
fn text_of(alloc: Global, input: &str) -> Result<Vec<u8>, NoMemory> {
    let file = bytes_of(alloc, input)?;
    if file.len() > 1000 {
        return Ok(file);
    }
    let read = read_document(alloc, file.as_slice(), 1000);
    let text = match &read {
        Ok(document) => canonical_text(alloc, document),
        Err(_) => Ok(Vec::new(alloc)),
    };
    drop(read);
    text
}
