//! Whole runs whose words are refused: nothing is read or written then.
use super::rows::ending_of;
use document_examples::wrong_in;
use rel_io::NoMemory;
use std::alloc::Global;
use std::test::Fail;

/// Words, and how their run over an empty file `a.obo` ends. Two blanks have an empty word between them, and `w*3` is the word
/// `w` three times.
const WORDS: &str = r#" => 2; ; robot: word 0: no command|
reason => 2; ; robot: word 0: no command|
merge --output x.obo => 2; ; robot: word 0: missing option|; x.obo missing
generate => 2; ; robot: word 0: missing option|
merge --input => 2; ; robot: word 1: no value|
merge --input a convert --output b => 2; ; robot: word 5: no format|; b missing
merge --input a merge => 2; ; robot: word 3: not here|
merge --input a.obo generate 10 => 2; ; robot: word 3: not here|
merge --input a extract --method MID => 2; ; robot: word 5: bad value|
merge --input  => 2; ; robot: word 2: bad value|
merge --input a.obo convert --output a.obo => 2; ; robot: word 5: output is input|; a.obo=
merge --input a --output b.obo convert --output b.obo => 2; ; robot: word 7: output twice|; b.obo missing; b.obo missing
generate 9 => 2; ; robot: word 1: bad value|
generate 10 relax => 2; ; robot: word 2: unknown word|
merge --input a explode => 2; ; robot: word 3: unknown word|
merge --input a --catalog c --catalog d => 2; ; robot: word 5: repeated|
merge --input a reason*64 => 2; ; robot: word 66: too many|
explode*1025 => 2; ; robot: word 1024: too many|
merge --input a.obo reason merge => 2; ; robot: word 4: not here|"#;

#[test]
fn words_are_refused_before_all(rt: HostRuntime) -> Result<(), Fail> {
    let wrong = wrong_in(rt.alloc(), WORDS, ending_of_words)?;
    assert_eq!(rt; wrong.as_str(), "");
    Ok(())
}

/// How a run of these words ends.
pub fn ending_of_words(alloc: Global, words: &str) -> Result<Vec<u8>, NoMemory> {
    let row = format!(in alloc; "- 9 - -; {words}; a.obo=")?;
    ending_of(alloc, row.as_str())
}
