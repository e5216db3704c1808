//! Whole runs at the limits of words and steps, and one behind them.
use super::refused::ending_of_words;
use document_examples::wrong_in;
use std::test::Fail;

/// There are 1,024 words at most, and 64 commands. Words are written as in `refused`.
const WORDS: &str = "\
merge --input*1022 reason => 1; ; robot: --input: missing|
merge --input*1022 reason*2 => 2; ; robot: word 1024: too many|
merge --input a.obo relax*62 convert --output r.obo => 0; read a.obo: 0 frames, 0 clauses not translated|merge: 0 logical, 0 declarations, 0 notes|@62*relax: 0 added|@write r.obo: 20 bytes|; ; r.obo=format-version: 1.4|
merge --input a.obo relax*63 convert --output r.obo => 2; ; robot: word 66: too many|; r.obo missing";

#[test]
fn so_many_words_are_taken(rt: HostRuntime) -> Result<(), Fail> {
    let wrong = wrong_in(rt.alloc(), WORDS, ending_of_words)?;
    assert_eq!(rt; wrong.as_str(), "");
    Ok(())
}
