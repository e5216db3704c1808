//! That a wrong answer is told, and what the signs of a table stand for.
use crate::{bytes_of, wrong_in};
use std::test::Fail;

/// Texts, and the bytes that they stand for; in the third line a wrong answer is wanted.
const TEXTS: &str = "\
a|b@0A@ => a|b@0A@
@3*ab@@C3@ => ababab@C3@
ab => ac";

#[test]
fn wrong_answers_are_told(rt: HostRuntime) -> Result<(), Fail> {
    let wrong = wrong_in(rt.alloc(), TEXTS, bytes_of)?;
    assert_eq!(rt; wrong.as_str(), "ab => ac, but the answer is ab\n");
    let bytes = bytes_of(rt.alloc(), "a|@2*bc@@00@")?;
    assert_eq!(rt; bytes.as_slice(), b"a\nbcbc\0".as_slice());
    Ok(())
}
