//! A run over files whose calls fail one by one, as `rows` plays it: each call is told, what was written before it stands, and
//! what it was to write over is as it was.
use super::rows::ending_of;
use document_examples::wrong_in;
use std::test::Fail;

/// The chain reads its input by an open and two reads, writes it, reads the terms by as many, and writes the module. Of its nine
/// calls none fails in the last row but one; in the last one nobody takes the fault's text.
const CALLS: &str =
    r#"0 99 - -; merge --input e.obo --output a.obo extract --method BOT --term-file t convert --output b.obo; e.obo=[Term]|id: EX:1|; t=EX:1; a.obo=old; b.obo=old => 3; ; robot: e.obo: read fault|; a.obo=old; b.obo=old
1 99 - -; merge --input e.obo --output a.obo extract --method BOT --term-file t convert --output b.obo; e.obo=[Term]|id: EX:1|; t=EX:1; a.obo=old; b.obo=old => 3; ; robot: e.obo: read fault|; a.obo=old; b.obo=old
2 99 - -; merge --input e.obo --output a.obo extract --method BOT --term-file t convert --output b.obo; e.obo=[Term]|id: EX:1|; t=EX:1; a.obo=old; b.obo=old => 3; ; robot: e.obo: read fault|; a.obo=old; b.obo=old
3 99 - -; merge --input e.obo --output a.obo extract --method BOT --term-file t convert --output b.obo; e.obo=[Term]|id: EX:1|; t=EX:1; a.obo=old; b.obo=old => 3; ; robot: a.obo: write fault|; a.obo=old; b.obo=old
4 99 - -; merge --input e.obo --output a.obo extract --method BOT --term-file t convert --output b.obo; e.obo=[Term]|id: EX:1|; t=EX:1; a.obo=old; b.obo=old => 3; ; robot: t: read fault|; a.obo=format-version: 1.4||[Term]|id: EX:1|; b.obo=old; a.obo changed
5 99 - -; merge --input e.obo --output a.obo extract --method BOT --term-file t convert --output b.obo; e.obo=[Term]|id: EX:1|; t=EX:1; a.obo=old; b.obo=old => 3; ; robot: t: read fault|; a.obo=format-version: 1.4||[Term]|id: EX:1|; b.obo=old; a.obo changed
6 99 - -; merge --input e.obo --output a.obo extract --method BOT --term-file t convert --output b.obo; e.obo=[Term]|id: EX:1|; t=EX:1; a.obo=old; b.obo=old => 3; ; robot: t: read fault|; a.obo=format-version: 1.4||[Term]|id: EX:1|; b.obo=old; a.obo changed
7 99 - -; merge --input e.obo --output a.obo extract --method BOT --term-file t convert --output b.obo; e.obo=[Term]|id: EX:1|; t=EX:1; a.obo=old; b.obo=old => 3; ; robot: b.obo: write fault|; a.obo=format-version: 1.4||[Term]|id: EX:1|; b.obo=old; a.obo changed
8 99 - -; merge --input e.obo --output a.obo extract --method BOT --term-file t convert --output b.obo; e.obo=[Term]|id: EX:1|; t=EX:1; a.obo=old; b.obo=old => 0; read e.obo: 1 frames, 0 clauses not translated|merge: 0 logical, 1 declarations, 0 notes|write a.obo: 37 bytes|extract BOT: 0 logical, 1 declarations, 0 notes, 0 unknown terms, 1 rounds|write b.obo: 37 bytes|; ; a.obo=format-version: 1.4||[Term]|id: EX:1|; b.obo=format-version: 1.4||[Term]|id: EX:1|; a.obo changed; b.obo changed
- 99 - 0; merge --input e.obo explode --output a.obo; e.obo=; a.obo=old => 2; ; ; a.obo=old"#;

#[test]
fn each_call_fails_in_turn(rt: HostRuntime) -> Result<(), Fail> {
    let wrong = wrong_in(rt.alloc(), CALLS, ending_of)?;
    assert_eq!(rt; wrong.as_str(), "");
    Ok(())
}
