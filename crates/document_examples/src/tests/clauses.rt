//! Lines with what they say, or what is wrong with them, worked out by hand.
use crate::{bytes_of, is_copied, push, wrong_in};
use clause_reader::read_line;
use obo_clause::{Clause, Line, LineFault, Qualifier, Scope, SyntaxKind, Value, Xref};
use obo_tags::FrameKind;
use rel_io::{Bytes, NoMemory};
use std::alloc::Global;
use std::test::Fail;

/// A line in its frame, and the answer to it. Two signs say where the line stands: H in the header, T in a Term, Y in a
/// Typedef, I in an Instance, and `+` as the first clause of its frame, `-` later. An answer is the tag, the shape of the
/// value and its texts in `<>`, its scope, its xrefs in `[]`, and the qualifiers in `{}`; or the fault.
const LINES: &str = r#"T- name: a \{b\} {x=1, y="2"} ! c => name Text <a {b}> {<x>=<1><y>=<2>}
T- name: a {b => name Text <a {b>
T- name: => name Text <>
T- name:  => name Text <>
T- name:! c => name Text <>
T- name: {x=1} => name Text <> {<x>=<1>}
T- name:a => name Text <a>
T- @09@name@09@:@09@a@09@b@09@ => name Text <a@09@b>
T- name: a ! b ! c => name Text <a>
T- name: a! b => name Text <a>
T- name: a\! b => name Text <a! b>
T- name: a\\! b => name Text <a\>
T- name: \Wa\W => name Text < a >
T- name: \W \W => name Text <   >
T- name: a\nb\tc\d => name Text <a|b@09@cd>
T- name: a\ => name Text <a\>
T- name: a\  => name Text <a >
T- name: a {x=1} b => name Text <a {x=1} b>
T- name: a {x=1} {y=2} => name Text <a {x=1}> {<y>=<2>}
T- name: a {x=1}{y=2} => name Text <a {x=1}> {<y>=<2>}
T- name: a {x=1} {y=2} b => name Text <a {x=1} {y=2} b>
T- name: a {} => name Text <a {}>
T- name: a {x} => name Text <a {x}>
T- name: a {x=} => name Text <a> {<x>=<>}
T- name: a {x= } => name Text <a> {<x>=<>}
T- name: a {x=""} => name Text <a> {<x>=<>}
T- name: a {x=1,} => name Text <a {x=1,}>
T- name: a {x=1,,y=2} => name Text <a {x=1,,y=2}>
T- name: a {,x=1} => name Text <a {,x=1}>
T- name: a { x = 1 , y = "2" } => name Text <a> {<x>=<1><y>=<2>}
T- name: a {@09@x@09@=@09@1@09@,@09@y@09@=@09@"2"@09@}@09@! => name Text <a> {<x>=<1><y>=<2>}
T- name: a {x=1 2} => name Text <a> {<x>=<1 2>}
T- name: a {x=\Wb\W} => name Text <a> {<x>=< b >}
T- name: a {x=a\}b} => name Text <a> {<x>=<a}b>}
T- name: a {x=a\,b} => name Text <a> {<x>=<a,b>}
T- name: a {x=a=b!c[d]:e} => name Text <a> {<x>=<a=b!c[d]:e>}
T- name: a {x=b{c} => name Text <a {x=b{c}>
T- name: a {x=b{c=d} => name Text <a {x=b> {<c>=<d>}
T- name: a {x=b"c} => name Text <a {x=b"c}>
T- name: a {x="b"c} => name Text <a {x="b"c}>
T- name: a {x="b} => name Text <a {x="b}>
T- name: a {x="b\"c"} => name Text <a> {<x>=<b"c>}
T- name: a {x="b\\"} => name Text <a> {<x>=<b\>}
T- name: a {x="b\\"c"} => name Text <a {x="b\"c"}>
T- name: a {x="}"} ! b => name Text <a> {<x>=<}>}
T- name: a {x="{y=1}"} => name Text <a> {<x>=<{y=1}>}
T- name: a {x!y=1} => name Text <a {x>
T- name: a {x y=1} => name Text <a {x y=1}>
T- name: a {x\W=1} => name Text <a {x =1}>
T- name: a {é=1} => name Text <a> {<é>=<1>}
T- name: a \{x=1} => name Text <a {x=1}>
T- name: a {x=1\} => name Text <a {x=1}>
T- name: a {x=1, x=1} => name Text <a> {<x>=<1><x>=<1>}
T- name: "a" [b] c:d => name Text <"a" [b] c:d>
T- name :: a => name Text <: a>
T- comment: say "no ! never" {x=1} => comment Text <say "no>
T- created_by: J. Doe ! who => created_by Text <J. Doe>
H- date: 01:02:2003 04:05 => date Text <01:02:2003 04:05>
H- format-version: 1.2 => format-version Text <1.2>
H- name: a {b} ! c => name Raw <a {b} ! c>
T+ name: A B => name Text <A B>
T- is_a: EX:0000002 {is_inferred="true"} ! x => is_a Id <EX:0000002> {<is_inferred>=<true>}
T- is_a:A => is_a Id <A>
T- is_a: A! b => is_a Id <A>
T- is_a: A{x=1} => is_a Id <A> {<x>=<1>}
T- is_a: A {} => Syntax(Trailing)
T- is_a: A {a="b} => Syntax(Trailing)
T- is_a: A {x=1} b => Syntax(Trailing)
T- is_a: A {x=1}{y=2} => Syntax(Trailing)
T- is_a: A:1 B:2 => Syntax(Trailing)
T- is_a: A "b" => Syntax(Trailing)
T- is_a: A [b] => Syntax(Trailing)
T- is_a: A[b => Syntax(Trailing)
T- is_a: => Syntax(NoValue)
T- is_a: ! A => Syntax(NoValue)
T- is_a: {x=1} => Syntax(NoValue)
T- is_a: "A" => Syntax(NoValue)
T- is_a: [A] => Syntax(NoValue)
T- is_a: A\WB\!\{ => is_a Id <A B!{>
T- is_a: A\ => is_a Id <A\>
T- is_a: \A => is_a Id <A>
T- is_a: A\\ ! c => is_a Id <A\>
T- is_a: A,B]}=: => is_a Id <A,B]}=:>
T- is_a:@09@A@09@!@09@b => is_a Id <A>
T- is_a: A\"b => is_a Id <A"b>
T+ id: A => id Id <A>
T+ id: A B => Syntax(Trailing)
T- id: A B => id Raw <A B>
T- id: => id Raw <>
T+ id: => Syntax(NoValue)
H+ id: A => id Raw <A>
Y+ id: A {x=1} => id Id <A> {<x>=<1>}
I+ id: A ! b => id Id <A>
T- relationship: part_of EX:1 => relationship Pair <part_of> <EX:1>
T- relationship: part_of@09@EX:1 {x=1} ! y => relationship Pair <part_of> <EX:1> {<x>=<1>}
T- relationship: part_of => Syntax(NoValue)
T- relationship: part_of ! EX:1 => Syntax(NoValue)
T- relationship: part_of {x=1} => Syntax(NoValue)
T- relationship: part_of "EX:1" => Syntax(NoValue)
T- relationship: part_of\WEX:1 => Syntax(NoValue)
T- relationship: part_of A B => Syntax(Trailing)
T- relationship: a b[c => Syntax(Trailing)
T- relationship: => Syntax(NoValue)
Y- relationship: a => relationship Raw <a>
Y- holds_over_chain: a b ! c => holds_over_chain Pair <a> <b>
T- intersection_of: A => intersection_of Id <A>
T- intersection_of: p A => intersection_of Pair <p> <A>
T- intersection_of: p A {x=1} => intersection_of Pair <p> <A> {<x>=<1>}
T- intersection_of: p {x=1} => intersection_of Id <p> {<x>=<1>}
T- intersection_of: p A B => Syntax(Trailing)
T- intersection_of: p "A" => Syntax(Trailing)
T- intersection_of: => Syntax(NoValue)
T- intersection_of: p!A => intersection_of Id <p>
T- is_obsolete: true => is_obsolete Bool <true>
T- is_obsolete: false {x=1} ! y => is_obsolete Bool <false> {<x>=<1>}
T- is_obsolete: tru\e => is_obsolete Bool <true>
T- is_obsolete: yes => Syntax(BadBool)
T- is_obsolete: True => Syntax(BadBool)
T- is_obsolete: true\W => Syntax(BadBool)
T- is_obsolete: => Syntax(NoValue)
T- is_obsolete: "true" => Syntax(NoValue)
T- is_obsolete: yes no => Syntax(BadBool)
T- is_obsolete: true false => Syntax(Trailing)
T- is_obsolete: true" => Syntax(Trailing)
T- builtin: false => builtin Bool <false>
Y- is_transitive: true => is_transitive Bool <true>
T- is_transitive: true => is_transitive Raw <true>
T- def: "x" [http://a.b/c?d=1, EX:k] => def Def <x> [<http://a.b/c?d=1><EX:k>]
T- def: "x" => def Def <x> []
T- def: "" [] => def Def <> []
T- def: "x"[] => def Def <x> []
T- def: x => Syntax(NoQuote)
T- def: => Syntax(NoQuote)
T- def: [A] => Syntax(NoQuote)
T- def: ! "x" => Syntax(NoQuote)
T- def: x [A => Syntax(NoQuote)
T- def: "x => Syntax(OpenQuote)
T- def: "x\" => Syntax(OpenQuote)
T- def: "x\\" [A] => def Def <x\> [<A>]
T- def: "a \"b\" c" [A "l", B] => def Def <a "b" c> [<A>=<l><B>]
T- def: "x" [A "l" => Syntax(XrefList)
T- def: "x" [A "l => Syntax(OpenQuote)
T- def: "x" [A "l], B => Syntax(OpenQuote)
T- def: "x" [A "l ", B "m => Syntax(OpenQuote)
T- def: "x" ["l"] => Syntax(XrefList)
T- def: "x" ["l => Syntax(XrefList)
T- def: "x" [ "l"] => Syntax(XrefList)
T- def: "x" [A, "l"] => Syntax(XrefList)
T- def: "x" [A => Syntax(XrefList)
T- def: "x" [ => Syntax(XrefList)
T- def: "x" [A, => Syntax(XrefList)
T- def: "x" [A "l" b] => Syntax(XrefList)
T- def: "x" [A "l" "m"] => Syntax(XrefList)
T- def: "x" [A "l"b] => Syntax(XrefList)
T- def: "x" [A, , B] => def Def <x> [<A><B>]
T- def: "x" [,] => def Def <x> []
T- def: "x" [,,A,] => def Def <x> [<A>]
T- def: "x" [ ] => def Def <x> []
T- def: "x" [A] b => Syntax(Trailing)
T- def: "x [A "l => Syntax(Trailing)
T- def: "x" [A] [B] => Syntax(Trailing)
T- def: "x" "y" => Syntax(Trailing)
T- def: "x" b => Syntax(Trailing)
T- def: "x" {x=1} [A] => Syntax(Trailing)
T- def: "x" [A] {x=1} ! c => def Def <x> [<A>] {<x>=<1>}
T- def: "x" [A]! c => def Def <x> [<A>]
T- def: "x" {x=1} => def Def <x> [] {<x>=<1>}
T- def: "x" [A b "l m" , C] => def Def <x> [<A b>=<l m><C>]
T- def: "x" [A\, B\] "l\"m"] => def Def <x> [<A, B]>=<l"m>]
T- def: "x" [A ! b {c} [d] => def Def <x> [<A ! b {c} [d>]
T- def: "x" [\WA\W] => def Def <x> [< A >]
T- def: "x" [@09@A@09@"l"@09@,@09@B@09@] => def Def <x> [<A>=<l><B>]
T- def: "x" [A ""] => def Def <x> [<A>=<>]
T- synonym: "x" => synonym Synonym <x> Related []
T- synonym: "x" EXACT => synonym Synonym <x> Exact []
T- synonym: "x" BROAD [] => synonym Synonym <x> Broad []
T- synonym: "x" NARROW [A] => synonym Synonym <x> Narrow [<A>]
T- synonym: "x" RELATED => synonym Synonym <x> Related []
T- synonym: "x" EXACT lay [A "l"] {x=1} ! c => synonym Synonym <x> <lay> Exact [<A>=<l>] {<x>=<1>}
T- synonym: "x" lay [A] => synonym Synonym <x> <lay> Related [<A>]
T- synonym: "x" exact => synonym Synonym <x> <exact> Related []
T- synonym: "x" EXA\CT => synonym Synonym <x> Exact []
T- synonym: "x"EXACT[A] => synonym Synonym <x> Exact [<A>]
T- synonym: "x" EXACT EXACT => synonym Synonym <x> <EXACT> Exact []
T- synonym: "x" {x=1} => synonym Synonym <x> Related [] {<x>=<1>}
T- synonym: "x" lay EXACT => Syntax(Trailing)
T- synonym: "x" EXACT lay more => Syntax(Trailing)
T- synonym: "x" EXACT "y" => Syntax(Trailing)
T- synonym: "x" [A] EXACT => Syntax(Trailing)
T- synonym: "x" EXACT [A => Syntax(XrefList)
T- synonym: "x" [A "l => Syntax(OpenQuote)
T- synonym: "x EXACT => Syntax(OpenQuote)
T- synonym: x EXACT => Syntax(NoQuote)
T- synonym: => Syntax(NoQuote)
T- xref: http://a.b/c {source="EX:k"} => xref Xref <http://a.b/c> {<source>=<EX:k>}
T- xref: A => xref Xref <A>
T- xref: A "l" => xref Xref <A> <l>
T- xref: A b "l m" {x=1} ! c => xref Xref <A b> <l m> {<x>=<1>}
T- xref: => Syntax(NoValue)
T- xref: "l" => Syntax(NoValue)
T- xref: "l => Syntax(NoValue)
T- xref: ! A => Syntax(NoValue)
T- xref: {x=1} => Syntax(NoValue)
T- xref: {x => xref Xref <{x>
T- xref: A {x="y"} b => Syntax(Trailing)
T- xref: A "l" b => Syntax(Trailing)
T- xref: A "l => Syntax(OpenQuote)
T- xref: A {x="y => Syntax(OpenQuote)
T- xref: A"l" => xref Xref <A> <l>
T- xref: A "" => xref Xref <A> <>
T- xref: A\W "l" => xref Xref <A > <l>
T- xref: A\"b => xref Xref <A"b>
T- xref: A ! "l" => xref Xref <A>
T- xref: A {x="y"} => xref Xref <A> {<x>=<y>}
T- xref: A {x=1} "l" => xref Xref <A {x=1}> <l>
T- xref: A [b] {c => xref Xref <A [b] {c>
T- xref: @09@A@09@"l"@09@ => xref Xref <A> <l>
T- property_value: IAO:0000117 "J. Doe" xsd:string => property_value Literal <IAO:0000117> <J. Doe> <xsd:string>
T- property_value: IAO:0000117 "J. Doe" => property_value Literal <IAO:0000117> <J. Doe> <xsd:string>
T- property_value: R "1" xsd:integer {x=1} ! c => property_value Literal <R> <1> <xsd:integer> {<x>=<1>}
T- property_value: R A => property_value Link <R> <A>
T- property_value: R"t" => property_value Literal <R> <t> <xsd:string>
T- property_value: R ""d => property_value Literal <R> <> <d>
T- property_value: R \"t => property_value Link <R> <"t>
H- property_value: R A ! b => property_value Link <R> <A>
T- property_value: R => Syntax(NoValue)
T- property_value: => Syntax(NoValue)
T- property_value: "t" => Syntax(NoValue)
T- property_value: R {x=1} => Syntax(NoValue)
T- property_value: R [a] => Syntax(NoValue)
T- property_value: R ! A => Syntax(NoValue)
T- property_value: R "t => Syntax(OpenQuote)
T- property_value: R A B => Syntax(Trailing)
T- property_value: R "t" d e => Syntax(Trailing)
T- property_value: R A "t" => Syntax(Trailing)
T- property_value: R "t" "u" => Syntax(Trailing)
T- property_value: R "t" [A] => Syntax(Trailing)
H- subsetdef: slim "A small part" => subsetdef SubsetDef <slim> <A small part>
H- subsetdef: slim"x" {a=b} ! c => subsetdef SubsetDef <slim> <x> {<a>=<b>}
H- subsetdef: slim => Syntax(NoQuote)
H- subsetdef: slim x => Syntax(NoQuote)
H- subsetdef: "x" => Syntax(NoValue)
H- subsetdef: => Syntax(NoValue)
H- subsetdef: slim "x => Syntax(OpenQuote)
H- subsetdef: slim "x" y => Syntax(Trailing)
T- subsetdef: slim => subsetdef Raw <slim>
H- synonymtypedef: lay "A plain word" BROAD => synonymtypedef SynonymDef <lay> <A plain word> Broad
H- synonymtypedef: lay "x" => synonymtypedef SynonymDef <lay> <x>
H- synonymtypedef: lay "x"EXACT{a=b} => synonymtypedef SynonymDef <lay> <x> Exact {<a>=<b>}
H- synonymtypedef: lay "x" more => Syntax(Trailing)
H- synonymtypedef: lay "x" BROAD more => Syntax(Trailing)
H- synonymtypedef: lay "x" [A] => Syntax(Trailing)
H- synonymtypedef: lay BROAD => Syntax(NoQuote)
H- synonymtypedef: lay "x => Syntax(OpenQuote)
H- synonymtypedef: "x" => Syntax(NoValue)
T-  => blank
T-    => blank
H- @09@ @09@ => blank
T- ! c => blank
T-   ! [Term] => blank
T- !name: a => blank
T- [Term] => frame Term
H- [Typedef] => frame Typedef
Y- [Instance] => frame Instance
T-  @09@[Term]@09@ ! c => frame Term
T- [Term]! c => frame Term
T- [term] => Syntax(BadFrame)
T- [Term] x => Syntax(BadFrame)
T- [ Term] => Syntax(BadFrame)
T- [Term ] => Syntax(BadFrame)
T- [Term => Syntax(BadFrame)
T- [] => Syntax(BadFrame)
T- [ => Syntax(BadFrame)
T- [Header] => Syntax(BadFrame)
T- [Term] [Term] => Syntax(BadFrame)
T- [Terms] => Syntax(BadFrame)
T- [name: a => Syntax(BadFrame)
T- name => Syntax(NoColon)
T- name a => Syntax(NoColon)
T- "name" a ! b => Syntax(NoColon)
T- {x=1} => Syntax(NoColon)
T- : a => Syntax(BadTag)
T-  @09@: a => Syntax(BadTag)
T- na me: a => Syntax(BadTag)
T- a.b: c => Syntax(BadTag)
T- foo \: x => Syntax(BadTag)
T- "a": b => Syntax(BadTag)
T- name! a: b => Syntax(BadTag)
T- é: a => Syntax(BadTag)
T-   name @09@ : a => name Text <a>
T- Name: a => Name Raw <a>
T- -_0: a => -_0 Raw <a>
T- xref_analog: A:1 => xref_analog Raw <A:1>
T- foo:@09@ a {b ! c "d \n @09@ => foo Raw <a {b ! c "d \n>
T- foo: => foo Raw <>
T- foo:a:b => foo Raw <a:b>
H- namespace-id-rule: x ! y => namespace-id-rule Raw <x ! y>
T- equivalent_to_chain: a b => equivalent_to_chain Raw <a b>
T- name: @2000*{@ => name Text <@2000*{@>
T- name: @2000*"@ => name Text <@2000*"@>
T- name: @2000*\\@ => name Text <@2000*\@>
T- name: @2000*{k=v@ => name Text <@2000*{k=v@>
T- name: @2000*{k="@ => name Text <@2000*{k="@>
T- xref: a@2000*{k="v"}@ => Syntax(Trailing)
T- def: "x" [@2000*a,@ => Syntax(XrefList)
T- is_a: A {@2000*k=v,@ => Syntax(Trailing)"#;

#[test]
fn lines_say_what_they_say(rt: HostRuntime) -> Result<(), Fail> {
    let wrong = wrong_in(rt.alloc(), LINES, shown)?;
    assert_eq!(rt; wrong.as_str(), "");
    Ok(())
}

/// The answer to the line of an example, where it stands.
fn shown(alloc: Global, input: &str) -> Result<Vec<u8>, NoMemory> {
    let input = bytes_of(alloc, input)?;
    let [frame, first, b' ', line @ ..] = input.as_slice() else {
        return Ok(Vec::new(alloc));
    };
    let line = Bytes::from_slice(alloc, line)?;
    let answer = read_line(alloc, kind_of(*frame), *first == b'+', &line);
    let shown = show(alloc, &answer);
    drop(answer);
    shown
}

#[test]
fn small_values_are_copied(rt: HostRuntime) -> Result<(), Fail> {
    let scope = is_copied(rt.alloc(), &Scope::Exact)?;
    assert!(rt; is_copied(rt.alloc(), &SyntaxKind::BadTag)? && scope);
    Ok(())
}

/// The frame kind of a case.
fn kind_of(letter: u8) -> FrameKind {
    match letter {
        b'H' => FrameKind::Header,
        b'Y' => FrameKind::Typedef,
        b'I' => FrameKind::Instance,
        _ => FrameKind::Term,
    }
}

/// An answer as the table has it, where a copy of it is equal to it.
fn show(alloc: Global, answer: &Result<Line, LineFault>) -> Result<Vec<u8>, NoMemory> {
    match answer {
        Ok(line) if is_copied(alloc, line)? => show_line(alloc, line),
        Err(fault) if is_copied(alloc, fault)? => Ok(format!(in alloc; "{fault:?}")?.into_bytes()),
        _ => Ok(Vec::new(alloc)),
    }
}

fn show_line(alloc: Global, line: &Line) -> Result<Vec<u8>, NoMemory> {
    match line {
        Line::Blank => Ok(Vec::from_slice(alloc, b"blank")?),
        Line::Frame(kind) => Ok(format!(in alloc; "frame {kind:?}")?.into_bytes()),
        Line::Content(clause) => show_clause(alloc, clause),
    }
}

fn show_clause(alloc: Global, clause: &Clause) -> Result<Vec<u8>, NoMemory> {
    let mut out = Vec::from_slice(alloc, clause.tag.as_slice())?;
    push_value(alloc, &mut out, &clause.value)?;
    if !clause.qualifiers.as_slice().is_empty() {
        push(&mut out, b" {")?;
        push_qualifiers(&mut out, clause.qualifiers.as_slice())?;
        push(&mut out, b"}")?;
    }
    Ok(out)
}

/// Appends a part in `<>`, behind this beginning.
fn push_part(out: &mut Vec<u8>, start: &[u8], part: &Bytes) -> Result<(), NoMemory> {
    push(out, start)?;
    push(out, part.as_slice())?;
    push(out, b">")
}

fn push_qualifiers(out: &mut Vec<u8>, qualifiers: &[Qualifier]) -> Result<(), NoMemory> {
    for qualifier in qualifiers {
        push_part(out, b"<", &qualifier.key)?;
        push_part(out, b"=<", &qualifier.value)?;
    }
    Ok(())
}

/// Appends the shape of a value, its texts, its scope and its xrefs.
fn push_value(alloc: Global, out: &mut Vec<u8>, value: &Value) -> Result<(), NoMemory> {
    let (shape, texts) = texts_of(value);
    push(out, shape)?;
    for text in texts.into_iter().flatten() {
        push_part(out, b" <", text)?;
    }
    if let Some(scope) = scope_of(value) {
        push(out, format!(in alloc; " {scope:?}")?.as_bytes())?;
    }
    if let Some(xrefs) = xrefs_of(value) {
        push_list(out, xrefs)?;
    }
    Ok(())
}

/// The shape of a value, and its texts.
fn texts_of(value: &Value) -> (&'static [u8], [Option<&Bytes>; 3]) {
    match value {
        Value::Text(text) => (b" Text", [Some(text), None, None]),
        Value::Id(id) => (b" Id", [Some(id), None, None]),
        Value::Pair(one, two) => (b" Pair", [Some(one), Some(two), None]),
        Value::Bool(true) => (b" Bool <true>", [None, None, None]),
        Value::Bool(false) => (b" Bool <false>", [None, None, None]),
        Value::Def { text, .. } => (b" Def", [Some(text), None, None]),
        Value::Synonym { text, kind, .. } => (b" Synonym", [Some(text), kind.as_ref(), None]),
        Value::XrefValue(xref) => (b" Xref", [Some(&xref.id), xref.label.as_ref(), None]),
        Value::Literal {
            relation,
            text,
            datatype,
        } => (b" Literal", [Some(relation), Some(text), Some(datatype)]),
        Value::Link { relation, target } => (b" Link", [Some(relation), Some(target), None]),
        Value::SubsetDef { id, text } => (b" SubsetDef", [Some(id), Some(text), None]),
        Value::SynonymDef { id, text, .. } => (b" SynonymDef", [Some(id), Some(text), None]),
        Value::Raw(text) => (b" Raw", [Some(text), None, None]),
    }
}

fn scope_of(value: &Value) -> Option<Scope> {
    match value {
        Value::Synonym { scope, .. } => Some(*scope),
        Value::SynonymDef { scope, .. } => *scope,
        _ => None,
    }
}

fn xrefs_of(value: &Value) -> Option<&[Xref]> {
    match value {
        Value::Def { xrefs, .. } | Value::Synonym { xrefs, .. } => Some(xrefs.as_slice()),
        _ => None,
    }
}

fn push_list(out: &mut Vec<u8>, xrefs: &[Xref]) -> Result<(), NoMemory> {
    push(out, b" [")?;
    for xref in xrefs {
        push_part(out, b"<", &xref.id)?;
        if let Some(label) = &xref.label {
            push_part(out, b"=<", label)?;
        }
    }
    push(out, b"]")
}
