//! The frames of the document, one after another.
ghost use Rattle.std.specs.Prelude.{◌≡◌, ◌≤◌, ◌++◌, OnOk, flat_map};
ghost use Rattle.obo_gen.specs.Generated as spec;

use crate::digits::{push_bytes, push_digits};
use rel_io::NoMemory;

/// Appends a Term of the tree.
#[tactic(auto, unfolding(crate::specs::Generated::tree_term))]
pub fn push_tree_term(out: &mut Vec<u8>, number: u32) -> Result<(), NoMemory>
    ensures { OnOk result (out.new.items ≡ out.old.items ++ spec.tree_term number) }
{
    push_term(out, number)?;
    push_parents(out, number)
}

/// Appends the parents of a Term of the tree.
fn push_parents(out: &mut Vec<u8>, number: u32) -> Result<(), NoMemory>
    ensures { OnOk result (out.new.items ≡ out.old.items ++ flat_map spec.is_a (spec.parents number)) }
{
    if number == 0 {
        return Ok(());
    }
    push_clause(out, b"is_a: ", first_parent(number))?;
    if has_second_parent(number) {
        push_clause(out, b"is_a: ", 0)?;
    }
    Ok(())
}

/// The first parent of a Term of the tree.
fn first_parent(number: u32) -> u32
    ensures { result ≡ spec.first_parent number }
{
    if number % 10 == 0 || number < 10 {
        0
    } else {
        10 * (number / 10)
    }
}

/// Whether a Term of the tree has the root as a second parent.
fn has_second_parent(number: u32) -> bool
    ensures { result ≡ spec.has_second_parent number }
{
    10 < number && number % 4 == 0 && number % 10 != 0
}

/// Appends the four Terms of a group.
#[tactic(auto, unfolding(crate::specs::Generated::group))]
pub fn push_group(out: &mut Vec<u8>, k: u32) -> Result<(), NoMemory>
    requires { k ≤ 100000 }
    ensures { OnOk result (out.new.items ≡ out.old.items ++ spec.group k) }
{
    push_part(out, k)?;
    push_term(out, 4_000_000 + k)?;
    push_clause(out, b"relationship: part_of ", 5_000_000 + k)?;
    push_term(out, 5_000_000 + k)?;
    push_defined(out, k)
}

/// Appends the first Term of a group.
fn push_part(out: &mut Vec<u8>, k: u32) -> Result<(), NoMemory>
    requires { k ≤ 100000 }
    ensures { OnOk result (out.new.items ≡ out.old.items ++ spec.first_of_group k) }
{
    push_term(out, 3_000_000 + k)?;
    push_clause(out, b"is_a: ", 10 * k)?;
    push_clause(out, b"relationship: part_of ", 4_000_000 + k)
}

/// Appends the last Term of a group.
fn push_defined(out: &mut Vec<u8>, k: u32) -> Result<(), NoMemory>
    requires { k ≤ 100000 }
    ensures { OnOk result (out.new.items ≡ out.old.items ++ spec.last_of_group k) }
{
    push_term(out, 6_000_000 + k)?;
    push_definition(out, 10 * k, 5_000_000 + k)
}

/// Appends the two parts of a definition.
fn push_definition(out: &mut Vec<u8>, class: u32, whole: u32) -> Result<(), NoMemory>
    ensures { OnOk result (out.new.items ≡ out.old.items ++ spec.defined_as class whole) }
{
    push_clause(out, b"intersection_of: ", class)?;
    push_clause(out, b"intersection_of: part_of ", whole)?;
    Ok(())
}

/// Appends what a Term begins with: an empty line, its head, its id and its name.
#[tactic(auto, unfolding(crate::specs::Generated::term_front))]
fn push_term(out: &mut Vec<u8>, number: u32) -> Result<(), NoMemory>
    ensures { OnOk result (out.new.items ≡ out.old.items ++ spec.term_front number) }
{
    push_bytes(out, b"\n[Term]\n")?;
    push_clause(out, b"id: ", number)?;
    push_name(out, number)
}

/// Appends the line of a Term's name.
#[tactic(auto, unfolding(crate::specs::Generated::name_line))]
fn push_name(out: &mut Vec<u8>, number: u32) -> Result<(), NoMemory>
    ensures { OnOk result (out.new.items ≡ out.old.items ++ spec.name_line number) }
{
    push_bytes(out, b"name: n")?;
    push_digits(out, number)?;
    push_bytes(out, b"\n")
}

/// Appends a clause that ends in the number of a Term.
#[tactic(auto, unfolding(crate::specs::Generated::clause))]
fn push_clause(out: &mut Vec<u8>, front: &[u8], number: u32) -> Result<(), NoMemory>
    ensures { OnOk result (out.new.items ≡ out.old.items ++ spec.clause front.now number) }
{
    push_bytes(out, front)?;
    push_bytes(out, b"GEN:")?;
    push_digits(out, number)?;
    push_bytes(out, b"\n")
}
