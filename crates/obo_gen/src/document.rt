//! The whole document.
ghost use Rattle.std.specs.Prelude.{◌≡◌, ◌<◌, ◌≤◌, ◌+◌, ◌/◌, ◌^◌, ◌++◌, IfOk, OnOk, flat_map, length};
ghost use Rattle.std.specs.List.{range_with_len};
ghost use Rattle.obo_gen.specs.Generated as spec;

use crate::digits::push_bytes;
use crate::frames::{push_group, push_tree_term};
use rel_io::{Bytes, NoMemory};
use std::alloc::Global;

/// The document of a size from 10 to 1000000. It takes time in proportion to the size.
pub fn generate(alloc: Global, n: u32) -> Result<Bytes, NoMemory>
    requires { (10 ≤ n) × (n ≤ 1000000) }
    ensures text { IfOk result (λ text. text ≡ spec.generated n) }
    ensures small { IfOk result (λ text. length text < 2 ^ 32) }
{
    document(alloc, n)
}

/// The header, the tree, the groups and the property.
#[tactic(auto, unfolding(crate::specs::Generated::generated))]
fn document(alloc: Global, n: u32) -> Result<Bytes, NoMemory>
    requires { n ≤ 1000000 }
    ensures { IfOk result (λ text. text ≡ spec.generated n) }
{
    let mut text = Vec::new(alloc);
    push_header(&mut text)?;
    push_tree(&mut text, n)?;
    push_groups(&mut text, n / 10)?;
    push_property(&mut text)?;
    Ok(Bytes::from_vec(text))
}

/// Appends the header.
#[tactic(auto, unfolding(crate::specs::Generated::header))]
fn push_header(out: &mut Vec<u8>) -> Result<(), NoMemory>
    ensures { OnOk result (out.new.items ≡ out.old.items ++ spec.header) }
{
    push_bytes(out, b"format-version: 1.4\nontology: gen\n")
}

/// Appends the Terms from 0 to the last one.
fn push_tree(out: &mut Vec<u8>, last: u32) -> Result<(), NoMemory>
    requires { last ≤ 1000000 }
    ensures { OnOk result (out.new.items ≡ out.old.items ++ flat_map spec.tree_term (range_with_len 0 (last + 1))) }
{
    for number in 0..last + 1 {
        push_tree_term(out, number)?;
    }
    Ok(())
}

/// Appends so many groups, from the first on.
fn push_groups(out: &mut Vec<u8>, count: u32) -> Result<(), NoMemory>
    requires { count ≤ 100000 }
    ensures { OnOk result (out.new.items ≡ out.old.items ++ flat_map spec.group (range_with_len 1 count)) }
{
    for k in 1..count + 1 {
        push_group(out, k)?;
    }
    Ok(())
}

/// Appends the property.
#[tactic(auto, unfolding(crate::specs::Generated::property))]
fn push_property(out: &mut Vec<u8>) -> Result<(), NoMemory>
    ensures { OnOk result (out.new.items ≡ out.old.items ++ spec.property) }
{
    push_bytes(
        out,
        b"\n[Typedef]\nid: part_of\nname: part of\nis_transitive: true\n",
    )
}
