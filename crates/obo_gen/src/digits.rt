//! What lines are made of: numbers of seven digits, and bytes as they stand.
ghost use Rattle.std.specs.Prelude.{◌≡◌, ◌++◌, ◌∷◌, [], OnOk};
ghost use Rattle.obo_gen.specs.Digits as spec;

use rel_io::NoMemory;

/// Appends the last seven digits of a number.
#[tactic(auto, unfolding(crate::specs::Digits::seven_digits))]
pub fn push_digits(out: &mut Vec<u8>, number: u32) -> Result<(), NoMemory>
    ensures { OnOk result (out.new.items ≡ out.old.items ++ spec.seven_digits number) }
{
    push_digit(out, number / 1_000_000)?;
    push_digit(out, number / 100_000)?;
    push_digit(out, number / 10_000)?;
    push_digit(out, number / 1_000)?;
    push_digit(out, number / 100)?;
    push_digit(out, number / 10)?;
    push_digit(out, number)
}

/// Appends the last digit of a number.
fn push_digit(out: &mut Vec<u8>, number: u32) -> Result<(), NoMemory>
    ensures { OnOk result (out.new.items ≡ out.old.items ++ spec.last_digit number ∷ []) }
{
    out.push(b'0' + (number % 10) as u8)?;
    Ok(())
}

/// Appends bytes as they stand.
pub fn push_bytes(out: &mut Vec<u8>, bytes: &[u8]) -> Result<(), NoMemory>
    ensures { OnOk result (out.new.items ≡ out.old.items ++ bytes.now) }
{
    out.extend_from_slice(bytes)?;
    Ok(())
}
