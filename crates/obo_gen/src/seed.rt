//! The seed of an extract of the document.
ghost use Rattle.std.specs.Prelude.{◌≡◌, ◌≤◌, ◌/◌, ◌++◌, IfOk, OnOk, flat_map, length};
ghost use Rattle.std.specs.List.{range_with_len};
ghost use Rattle.rel_io.specs.Limits;
ghost use Rattle.obo_gen.specs.Seed as spec;

use crate::digits::{push_bytes, push_digits};
use rel_io::{Bytes, NoMemory};
use std::alloc::Global;

/// The seed for the document of a size from 10 to 1000000, as the text of a term file: the first and the last Term of each
/// group. It takes time in proportion to the size.
pub fn generate_seed(alloc: Global, n: u32) -> Result<Bytes, NoMemory>
    requires { (10 ≤ n) × (n ≤ 1000000) }
    ensures text { IfOk result (λ text. text ≡ spec.generated_seed n) }
    ensures small { IfOk result (λ text. length text ≤ Limits.bytes) }
{
    seed_text(alloc, n)
}

/// The lines of all groups.
#[tactic(auto, unfolding(crate::specs::Seed::generated_seed))]
fn seed_text(alloc: Global, n: u32) -> Result<Bytes, NoMemory>
    requires { n ≤ 1000000 }
    ensures { IfOk result (λ text. text ≡ spec.generated_seed n) }
{
    let mut text = Vec::new(alloc);
    push_groups(&mut text, n / 10)?;
    Ok(Bytes::from_vec(text))
}

/// Appends the lines of so many groups, from the first on.
fn push_groups(out: &mut Vec<u8>, count: u32) -> Result<(), NoMemory>
    requires { count ≤ 100000 }
    ensures { OnOk result (out.new.items ≡ out.old.items ++ flat_map spec.seed_of_group (range_with_len 1 count)) }
{
    for k in 1..count + 1 {
        push_group(out, k)?;
    }
    Ok(())
}

/// Appends the lines of a group.
fn push_group(out: &mut Vec<u8>, k: u32) -> Result<(), NoMemory>
    requires { k ≤ 100000 }
    ensures { OnOk result (out.new.items ≡ out.old.items ++ spec.seed_of_group k) }
{
    push_line(out, 3_000_000 + k)?;
    push_line(out, 6_000_000 + k)
}

/// Appends a line.
#[tactic(auto, unfolding(crate::specs::Seed::seed_line))]
fn push_line(out: &mut Vec<u8>, number: u32) -> Result<(), NoMemory>
    ensures { OnOk result (out.new.items ≡ out.old.items ++ spec.seed_line number) }
{
    push_bytes(out, b"GEN:")?;
    push_digits(out, number)?;
    push_bytes(out, b"\n")
}
