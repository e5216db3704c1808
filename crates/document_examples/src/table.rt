//! Tables of examples, a line each: an input, an arrow and the wanted answer.
ghost use Rattle.std.specs.Prelude.{◌≡◌, ◌++◌, codes};
ghost use Rattle.std.specs.Option.{ForSome};

use crate::bytes_of;
use rel_io::NoMemory;
use std::alloc::Global;

/// The input of an example and the wanted answer: what stands before the first ` => ` of the line, and behind it.
pub fn parts_of(line: &str) -> Option<(&str, &str)>
    ensures { ForSome result (λ parts. line.now ≡ parts.0.now ++ codes " => " ++ parts.1.now) }
{
    line.split_once(" => ")
}

/// The examples of a table whose answers are not the wanted ones, each with its answer.
pub fn wrong_in<F: Fn(Global, &str) -> Result<Vec<u8>, NoMemory>>(
    alloc: Global,
    table: &str,
    answer: F,
) -> Result<String, NoMemory>
    requires { F.IsAlwaysCallable answer }
{
    let mut wrong = String::new(alloc);
    for example in table.lines() {
        let (input, wanted) = parts_of(example).unwrap_or((example, "an arrow"));
        let given = answer(alloc, input)?;
        push_wrong(alloc, &mut wrong, example, wanted, given.as_slice())?;
    }
    Ok(wrong)
}

/// Appends an example and its answer, where that is not the wanted one.
fn push_wrong(
    alloc: Global,
    wrong: &mut String,
    example: &str,
    wanted: &str,
    given: &[u8],
) -> Result<(), NoMemory> {
    let wanted = bytes_of(alloc, wanted)?;
    if wanted.as_slice() != given {
        let given = String::from_utf8_lossy(alloc, given)?;
        wrong.push_str(format!(in alloc; "{example}, but the answer is {given}\n")?.as_str())?;
    }
    Ok(())
}
