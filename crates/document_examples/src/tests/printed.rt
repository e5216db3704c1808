//! Clauses with the lines that are printed of them, worked out by hand.
use crate::{bytes_of, wrong_in};
use clause_printer::print_clause;
use obo_frames::{Document, read_document};
use rel_io::NoMemory;
use std::alloc::Global;
use std::test::Fail;

/// Lines that spell clauses, and the lines that are printed of these. The first sign says in which frame they stand: H in
/// the header, T in a Term, Y in a Typedef.
const CLAUSES: &str = r#"T name: a \{b\} {x=1,y="2"} ! c => name: a \{b} {x="1", y="2"}
T name:a wheel => name: a wheel
T name: => name:
T name: {x=1} => name: {x="1"}
T name: \W => name: \W
T name: \W\W => name: \W\W
T name: \W\W\W\W => name: \W  \W
T name: \Wa  b\W => name: \Wa  b\W
T name: \Wa\W {x=1} => name: \Wa\W {x="1"}
T name: \ta@09@b\t => name: \ta\tb\t
T name: \na\nb\n => name: \na\nb\n
T name: \W\t\W => name: \W\t\W
T name: \\a\\\\n\\ => name: \\a\\\\n\\
T name: \!a\! b\! => name: \!a\! b\!
T name: a \{x="1"\} => name: a \{x="1"}
T name: "a", [b] c:d }' => name: "a", [b] c:d }'
T name: \Wé\W => name: \Wé\W
T is_a:EX:0000001 ! part => is_a: EX:0000001
T is_a: EX:1 {is_inferred="true"} => is_a: EX:1 {is_inferred="true"}
T is_a: a\Wb\tc\nd\\e\"f\,g\[h\]i\{j\}k\!l => is_a: a\Wb\tc\nd\\e\"f\,g\[h\]i\{j\}k\!l
T is_a: \Wa\W => is_a: \Wa\W
T is_a: \(é)=:#'nW => is_a: (é)=:#'nW
T relationship: part_of  EX:1 => relationship: part_of EX:1
T relationship: part\Wof a\"b {x=} => relationship: part\Wof a\"b {x=""}
T intersection_of: EX:1|intersection_of: a\! b\, => intersection_of: EX:1|intersection_of: a\! b\,
T is_obsolete: tru\e => is_obsolete: true
T is_obsolete: false {x=1} => is_obsolete: false {x="1"}
T def: "A round thing." => def: "A round thing." []
T def: "" [,] => def: "" []
T def: " a \"b\" \\c\{d\}\!\,\[e\]@09@\n " [] => def: " a \"b\" \\c{d}!,[e]\t\n " []
T def: "a" [PMID:1 "a paper",EX:2] => def: "a" [PMID:1 "a paper", EX:2]
T def: "a"[EX:1,EX:2 ,EX:3] {x=1} => def: "a" [EX:1, EX:2, EX:3] {x="1"}
T def: "a" [A b\,c\]\"d] => def: "a" [A\Wb\,c\]\"d]
T def: "a" [A "", B " \"l\" \\!@09@\n "] => def: "a" [A "", B " \"l\" \\!\t\n "]
T synonym: "a" EXACT => synonym: "a" EXACT []
T synonym: "a" BROAD [] => synonym: "a" BROAD []
T synonym: "a" NARROW lay\Wperson [EX:1] {x=1} => synonym: "a" NARROW lay\Wperson [EX:1] {x="1"}
T synonym: "a \"b\"" [EX:1 "l", EX:2] => synonym: "a \"b\"" RELATED [EX:1 "l", EX:2]
T synonym: "a" RELATED EXACT => synonym: "a" RELATED EXACT []
T synonym: "a" EXACT EXACT [] => synonym: "a" EXACT EXACT []
T xref:PMID:1 ! x => xref: PMID:1
T xref: PMID:1 "a paper" {x=1} => xref: PMID:1 "a paper" {x="1"}
T xref: a b\"c\{d "l!" => xref: a\Wb\"c\{d "l!"
T property_value: IAO:1 "J. \"D\"" => property_value: IAO:1 "J. \"D\"" xsd:string
T property_value: a\Wb "" c\! => property_value: a\Wb "" c\!
T property_value: IAO:1 a\Wb {x=1} => property_value: IAO:1 a\Wb {x="1"}
Y holds_over_chain: a@09@b => holds_over_chain: a b
H subsetdef: a\,b "A \"small\" part" => subsetdef: a\,b "A \"small\" part"
H synonymtypedef: lay "A plain word" => synonymtypedef: lay "A plain word"
H synonymtypedef: l\Wy "A\\b" BROAD {x=1} => synonymtypedef: l\Wy "A\\b" BROAD {x="1"}
T foreign-tag_1:a {b} ! \c "d", [e] => foreign-tag_1: a {b} ! \c "d", [e]
T foreign: => foreign:
T name: a {http://a.b/é#c="a \"b\" \\\t\n{d}!=, ",x="2"} => name: a {http://a.b/é#c="a \"b\" \\\t\n{d}!=, ", x="2"}"#;

#[test]
fn clauses_are_printed(rt: HostRuntime) -> Result<(), Fail> {
    let wrong = wrong_in(rt.alloc(), CLAUSES, printed_of)?;
    assert_eq!(rt; wrong.as_str(), "");
    Ok(())
}

/// What is printed of the lines of an example.
fn printed_of(alloc: Global, input: &str) -> Result<Vec<u8>, NoMemory> {
    let file = file_of(alloc, input)?;
    if file.len() > 1000 {
        return Ok(file);
    }
    let read = read_document(alloc, file.as_slice(), 1000);
    let printed = match &read {
        Ok(document) => all_lines(alloc, document),
        Err(_) => Ok(Vec::new(alloc)),
    };
    drop(read);
    printed
}

/// A file with the lines of an example in their frame.
fn file_of(alloc: Global, input: &str) -> Result<Vec<u8>, NoMemory> {
    let (frame, lines) = input.split_once(' ').unwrap_or(("H", input));
    let mut file = bytes_of(
        alloc,
        match frame {
            "T" => "[Term]|id: A|",
            "Y" => "[Typedef]|id: A|",
            _ => "",
        },
    )?;
    let lines = bytes_of(alloc, lines)?;
    file.extend_from_slice(lines.as_slice())?;
    Ok(file)
}

/// The lines of all clauses but the `id` of a frame.
fn all_lines(alloc: Global, document: &Document) -> Result<Vec<u8>, NoMemory> {
    let mut out = Vec::new(alloc);
    for at in 0..document.len() {
        if document.get(at).clause.tag.as_slice() != b"id".as_slice() {
            push_line(alloc, document, at, &mut out)?;
        }
    }
    Ok(out)
}

/// Appends the line of the clause at a place, behind LF where it is not the first.
fn push_line(
    alloc: Global,
    document: &Document,
    at: usize,
    out: &mut Vec<u8>,
) -> Result<(), NoMemory> {
    if at >= document.len() {
        return Ok(());
    }
    if !out.is_empty() {
        out.push(b'\n')?;
    }
    print_clause(alloc, &document.get(at).clause, out)
}
