//! Tags, with their ranks and shapes counted by hand.
use crate::{is_copied, push, wrong_in};
use obo_tags::{FrameKind, Tag, rank, shape, tag_of};
use rel_io::NoMemory;
use std::alloc::Global;
use std::test::Fail;

/// A name, and what it is in the header, a Term, a Typedef and an Instance: its rank, or `None` where such a frame has
/// no such tag, and the shape of its value.
const TAGS: &str = "\
format-version => Some(0) Text, None Raw, None Raw, None Raw, 
idspace => Some(9) Text, None Raw, None Raw, None Raw, 
ontology => Some(11) Id, None Raw, None Raw, None Raw, 
subsetdef => Some(6) SubsetDef, None Raw, None Raw, None Raw, 
synonymtypedef => Some(7) SynonymDef, None Raw, None Raw, None Raw, 
property_value => Some(12) Property, Some(11) Property, Some(11) Property, Some(10) Property, 
id => None Raw, Some(0) Id, Some(0) Id, Some(0) Id, 
def => None Raw, Some(5) Def, Some(5) Def, Some(5) Def, 
synonym => None Raw, Some(8) Synonym, Some(8) Synonym, Some(8) Synonym, 
xref => None Raw, Some(9) XrefShape, Some(9) XrefShape, Some(9) XrefShape, 
builtin => None Raw, Some(10) Bool, Some(10) Bool, None Raw, 
is_a => None Raw, Some(12) Id, Some(22) Id, None Raw, 
intersection_of => None Raw, Some(13) IdOrPair, None Raw, None Raw, 
relationship => None Raw, Some(17) Pair, None Raw, Some(12) Pair, 
domain => None Raw, None Raw, Some(12) Id, None Raw, 
holds_over_chain => None Raw, None Raw, Some(23) Pair, None Raw, 
is_metadata_tag => None Raw, None Raw, Some(28) Bool, None Raw, 
is_class_level => None Raw, None Raw, Some(29) Bool, None Raw, 
instance_of => None Raw, None Raw, None Raw, Some(11) Id, 
is_obsolete => None Raw, Some(20) Bool, Some(32) Bool, Some(15) Bool, 
consider => None Raw, Some(22) Id, Some(34) Id, Some(17) Id, 
 => no tag, Raw
i => no tag, Raw
ids => no tag, Raw
ID => no tag, Raw
is_ => no tag, Raw
namespace-id-rule => no tag, Raw
owl-axioms => no tag, Raw
treat-xrefs-as-is_a => no tag, Raw
expand_expression_to => no tag, Raw";

#[test]
fn names_are_tags_of_their_frames(rt: HostRuntime) -> Result<(), Fail> {
    let wrong = wrong_in(rt.alloc(), TAGS, shown)?;
    assert_eq!(rt; wrong.as_str(), "");
    Ok(())
}

/// What a name is, as the table has it.
fn shown(alloc: Global, name: &str) -> Result<Vec<u8>, NoMemory> {
    let tag = tag_of(name.as_bytes());
    let Some(tag) = tag else {
        return Ok(format!(in alloc; "no tag, {:?}", shape(FrameKind::Term, tag))?.into_bytes());
    };
    let mut out = Vec::new(alloc);
    for kind in KINDS {
        push_shown(alloc, &mut out, kind, tag)?;
    }
    Ok(out)
}

/// The kinds in the order of the table.
const KINDS: [FrameKind; 4] = [
    FrameKind::Header,
    FrameKind::Term,
    FrameKind::Typedef,
    FrameKind::Instance,
];

/// Appends what a tag is in a frame.
fn push_shown(alloc: Global, out: &mut Vec<u8>, kind: FrameKind, tag: Tag) -> Result<(), NoMemory> {
    let shape = shape(kind, Some(tag));
    if is_copied(alloc, &kind)? && is_copied(alloc, &tag)? && is_copied(alloc, &shape)? {
        let rank = rank(kind, tag);
        let shown = format!(in alloc; "{rank:?} {shape:?}, ")?;
        push(out, shown.as_bytes())?;
    }
    Ok(())
}
