//! `print_clause`: the line of a clause. Each part is appended by a function of its own; those of the parts by which clauses
//! are sorted and compared are public. Where no memory is left a part may be appended in part.
ghost use Rattle.std.specs.Prelude.{◌≡◌, ◌++◌, IfOk, OnErr, OnOk, codes, true};
ghost use Rattle.std.specs.List.{flat_map};
ghost use Rattle.clause_printer.specs.Laws.{AppendsLine};
ghost use Rattle.clause_printer.specs.Printing as spec;
ghost use Rattle.obo_clause.specs.Spelled.{CanBeSpelled};
ghost use Rattle.obo_clause.specs.Spelling.{bool_word, scope_word};

use obo_clause::{Clause, Qualifier, Scope, Value, Xref};
use rel_io::{Bytes, Items, NoMemory};
use std::alloc::Global;

/// Appends the line of a clause, without its end. The line is made whole before, so that `out` stays as it was where no
/// memory is left. It takes time in proportion to the line.
pub fn print_clause(alloc: Global, clause: &Clause, out: &mut Vec<u8>) -> Result<(), NoMemory>
    requires spelled { CanBeSpelled clause.now }
    ensures text { OnOk result (out.new.items ≡ out.old.items ++ spec.clause_text clause.now) }
    ensures line { OnOk result (AppendsLine clause.now out.old.items out.new.items) }
    ensures unchanged { OnErr result (out.new.items ≡ out.old.items) }
{
    let line = clause_text(alloc, clause)?;
    out.extend_from_slice(line.as_slice())?;
    Ok(())
}

/// The line of a clause.
#[tactic(auto, unfolding(crate::specs::Printing::clause_text))]
fn clause_text(alloc: Global, clause: &Clause) -> Result<Vec<u8>, NoMemory>
    ensures { IfOk result (λ line. line.items ≡ spec.clause_text clause.now) }
{
    let mut value = Vec::new(alloc);
    push_value(&mut value, &clause.value)?;
    let mut block = Vec::new(alloc);
    push_block(&mut block, clause.qualifiers.as_slice())?;
    let mut line = Vec::from_slice(alloc, clause.tag.as_slice())?;
    line.push(b':')?;
    push_behind_space(&mut line, value.as_slice())?;
    push_behind_space(&mut line, block.as_slice())?;
    Ok(line)
}

/// Appends a space and a text, where the text is not empty.
fn push_behind_space(out: &mut Vec<u8>, text: &[u8]) -> Result<(), NoMemory>
    ensures { OnOk result (out.new.items ≡ out.old.items ++ spec.behind_space text.now) }
{
    if !text.is_empty() {
        out.push(b' ')?;
        out.extend_from_slice(text)?;
    }
    Ok(())
}

/// Appends a text as it stands.
fn push_text(out: &mut Vec<u8>, text: &[u8]) -> Result<(), NoMemory>
    ensures { OnOk result (out.new.items ≡ out.old.items ++ text.now) }
{
    out.extend_from_slice(text)?;
    Ok(())
}

/// Appends the text of a value, as it stands behind the tag and its colon.
pub fn push_value(out: &mut Vec<u8>, value: &Value) -> Result<(), NoMemory>
    ensures { OnOk result (out.new.items ≡ out.old.items ++ spec.value_text value.now) }
{
    match value {
        Value::Text(text) => push_run(out, text.as_slice()),
        Value::Id(word) => push_word(out, word.as_slice()),
        Value::Pair(first, second) => push_pair(out, first, second),
        Value::Bool(truth) => push_bool(out, *truth),
        Value::Def { text, xrefs } => push_def(out, text, xrefs),
        Value::Synonym {
            text,
            scope,
            kind,
            xrefs,
        } => push_synonym(out, text, *scope, kind, xrefs),
        Value::XrefValue(xref) => push_xref(out, xref),
        Value::Literal {
            relation,
            text,
            datatype,
        } => push_literal(out, relation, text, datatype),
        Value::Link { relation, target } => push_pair(out, relation, target),
        Value::SubsetDef { id, text } => push_described(out, id, text),
        Value::SynonymDef { id, text, scope } => push_synonym_def(out, id, text, *scope),
        Value::Raw(text) => push_text(out, text.as_slice()),
    }
}

/// Appends two words.
fn push_pair(out: &mut Vec<u8>, first: &Bytes, second: &Bytes) -> Result<(), NoMemory>
    ensures { OnOk result (out.new.items ≡ out.old.items
        ++ (spec.word_text first.now ++ spec.space ++ spec.word_text second.now)) }
{
    push_word(out, first.as_slice())?;
    out.push(b' ')?;
    push_word(out, second.as_slice())
}

/// Appends a truth value.
fn push_bool(out: &mut Vec<u8>, truth: bool) -> Result<(), NoMemory>
    ensures { OnOk result (out.new.items ≡ out.old.items ++ bool_word truth) }
{
    if truth {
        push_text(out, b"true")
    } else {
        push_text(out, b"false")
    }
}

/// Appends a definition.
fn push_def(out: &mut Vec<u8>, text: &Bytes, xrefs: &Items<Xref>) -> Result<(), NoMemory>
    ensures { OnOk result (out.new.items ≡ out.old.items
        ++ (spec.quoted_text text.now ++ (spec.space ++ spec.list_text xrefs.now))) }
{
    push_quoted(out, text.as_slice())?;
    out.push(b' ')?;
    push_list(out, xrefs.as_slice())
}

/// Appends a synonym.
fn push_synonym(
    out: &mut Vec<u8>,
    text: &Bytes,
    scope: Scope,
    kind: &Option<Bytes>,
    xrefs: &Items<Xref>,
) -> Result<(), NoMemory>
    ensures { OnOk result (out.new.items ≡ out.old.items ++ (spec.quoted_text text.now
        ++ (spec.space ++ scope_word scope ++ spec.type_text kind.now) ++ (spec.space ++ spec.list_text xrefs.now))) }
{
    push_quoted(out, text.as_slice())?;
    push_scope(out, scope)?;
    push_type(out, kind)?;
    out.push(b' ')?;
    push_list(out, xrefs.as_slice())
}

/// Appends a space and a scope.
fn push_scope(out: &mut Vec<u8>, scope: Scope) -> Result<(), NoMemory>
    ensures { OnOk result (out.new.items ≡ out.old.items ++ (spec.space ++ scope_word scope)) }
{
    match scope {
        Scope::Exact => push_text(out, b" EXACT"),
        Scope::Broad => push_text(out, b" BROAD"),
        Scope::Narrow => push_text(out, b" NARROW"),
        Scope::Related => push_text(out, b" RELATED"),
    }
}

/// Appends a space and the type of a synonym, if it has one.
fn push_type(out: &mut Vec<u8>, kind: &Option<Bytes>) -> Result<(), NoMemory>
    ensures { OnOk result (out.new.items ≡ out.old.items ++ spec.type_text kind.now) }
{
    match kind {
        Some(word) => {
            out.push(b' ')?;
            push_word(out, word.as_slice())
        }
        None => Ok(()),
    }
}

/// Appends a property, a text and its datatype.
fn push_literal(
    out: &mut Vec<u8>,
    relation: &Bytes,
    text: &Bytes,
    datatype: &Bytes,
) -> Result<(), NoMemory>
    ensures { OnOk result (out.new.items ≡ out.old.items
        ++ (spec.word_text relation.now ++ spec.space ++ spec.quoted_text text.now
        ++ (spec.space ++ spec.word_text datatype.now))) }
{
    push_described(out, relation, text)?;
    out.push(b' ')?;
    push_word(out, datatype.as_slice())
}

/// Appends an id and a quoted text.
fn push_described(out: &mut Vec<u8>, id: &Bytes, text: &Bytes) -> Result<(), NoMemory>
    ensures { OnOk result (out.new.items ≡ out.old.items
        ++ (spec.word_text id.now ++ spec.space ++ spec.quoted_text text.now)) }
{
    push_word(out, id.as_slice())?;
    out.push(b' ')?;
    push_quoted(out, text.as_slice())
}

/// Appends a synonym type, with the scope that it implies.
fn push_synonym_def(
    out: &mut Vec<u8>,
    id: &Bytes,
    text: &Bytes,
    scope: Option<Scope>,
) -> Result<(), NoMemory>
    ensures { OnOk result (out.new.items ≡ out.old.items
        ++ (spec.word_text id.now ++ spec.space ++ spec.quoted_text text.now ++ spec.scope_text scope)) }
{
    push_described(out, id, text)?;
    match scope {
        Some(scope) => push_scope(out, scope),
        None => Ok(()),
    }
}

/// Appends an xref list.
fn push_list(out: &mut Vec<u8>, xrefs: &[Xref]) -> Result<(), NoMemory>
    ensures { OnOk result (out.new.items ≡ out.old.items ++ spec.list_text xrefs.now) }
{
    out.push(b'[')?;
    if let Some((first, others)) = xrefs.split_first() {
        push_xref(out, first)?;
        push_other_xrefs(out, others)?;
    }
    out.push(b']')?;
    Ok(())
}

/// Appends the entries of an xref list behind its first one, each with a comma before it.
fn push_other_xrefs(out: &mut Vec<u8>, xrefs: &[Xref]) -> Result<(), NoMemory>
    ensures { OnOk result (out.new.items ≡ out.old.items
        ++ flat_map (λ xref. codes ", " ++ spec.xref_text xref) xrefs.now) }
{
    for xref in xrefs {
        push_other_xref(out, xref)?;
    }
    Ok(())
}

/// Appends an entry behind another one.
fn push_other_xref(out: &mut Vec<u8>, xref: &Xref) -> Result<(), NoMemory>
    ensures { OnOk result (out.new.items ≡ out.old.items ++ (codes ", " ++ spec.xref_text xref.now)) }
{
    out.extend_from_slice(b", ")?;
    push_xref(out, xref)
}

/// Appends the text of an xref.
pub fn push_xref(out: &mut Vec<u8>, xref: &Xref) -> Result<(), NoMemory>
    ensures { OnOk result (out.new.items ≡ out.old.items ++ spec.xref_text xref.now) }
{
    push_word(out, xref.id.as_slice())?;
    match &xref.label {
        Some(label) => {
            out.push(b' ')?;
            push_quoted(out, label.as_slice())
        }
        None => Ok(()),
    }
}

/// Appends the block of the qualifiers: nothing where there is none.
pub fn push_block(out: &mut Vec<u8>, qualifiers: &[Qualifier]) -> Result<(), NoMemory>
    ensures { OnOk result (out.new.items ≡ out.old.items ++ spec.block_text qualifiers.now) }
{
    if let Some((first, others)) = qualifiers.split_first() {
        out.push(b'{')?;
        push_qualifier(out, first)?;
        push_other_qualifiers(out, others)?;
        out.push(b'}')?;
    }
    Ok(())
}

/// Appends the qualifiers behind the first one, each with a comma before it.
fn push_other_qualifiers(out: &mut Vec<u8>, qualifiers: &[Qualifier]) -> Result<(), NoMemory>
    ensures { OnOk result (out.new.items ≡ out.old.items
        ++ flat_map (λ qualifier. codes ", " ++ spec.qualifier_text qualifier) qualifiers.now) }
{
    for qualifier in qualifiers {
        push_other_qualifier(out, qualifier)?;
    }
    Ok(())
}

/// Appends a qualifier behind another one.
fn push_other_qualifier(out: &mut Vec<u8>, qualifier: &Qualifier) -> Result<(), NoMemory>
    ensures { OnOk result (out.new.items ≡ out.old.items ++ (codes ", " ++ spec.qualifier_text qualifier.now)) }
{
    out.extend_from_slice(b", ")?;
    push_qualifier(out, qualifier)
}

/// Appends the text of a qualifier, its value in quotes.
pub fn push_qualifier(out: &mut Vec<u8>, qualifier: &Qualifier) -> Result<(), NoMemory>
    ensures { OnOk result (out.new.items ≡ out.old.items ++ spec.qualifier_text qualifier.now) }
{
    out.extend_from_slice(qualifier.key.as_slice())?;
    out.push(b'=')?;
    push_quoted(out, qualifier.value.as_slice())
}

/// Appends a name in a comment, as it may stand behind a line.
pub fn push_comment(out: &mut Vec<u8>, name: &[u8]) -> Result<(), NoMemory>
    ensures { OnOk result (out.new.items ≡ out.old.items ++ spec.comment_text name.now) }
{
    out.extend_from_slice(b" ! ")?;
    push_run(out, name)
}

/// Appends a quoted text.
fn push_quoted(out: &mut Vec<u8>, text: &[u8]) -> Result<(), NoMemory>
    ensures { OnOk result (out.new.items ≡ out.old.items ++ spec.quoted_text text.now) }
{
    out.push(b'"')?;
    push_inside_quotes(out, text)?;
    out.push(b'"')?;
    Ok(())
}

/// Appends what stands between the quotes of a quoted text.
fn push_inside_quotes(out: &mut Vec<u8>, text: &[u8]) -> Result<(), NoMemory>
    ensures { OnOk result (out.new.items ≡ out.old.items
        ++ flat_map (λ byte. spec.spelled_byte (spec.is_escaped_in_quotes byte) byte) text.now) }
{
    for byte in text {
        push_byte(out, is_escaped_in_quotes(*byte), *byte)?;
    }
    Ok(())
}

/// Appends a word or an id.
fn push_word(out: &mut Vec<u8>, word: &[u8]) -> Result<(), NoMemory>
    ensures { OnOk result (out.new.items ≡ out.old.items ++ spec.word_text word.now) }
{
    for byte in word {
        push_byte(out, is_escaped_in_word(*byte), *byte)?;
    }
    Ok(())
}

/// Appends a run of characters.
fn push_run(out: &mut Vec<u8>, text: &[u8]) -> Result<(), NoMemory>
    ensures { OnOk result (out.new.items ≡ out.old.items ++ spec.run_text true text.now) }
{
    for (index, byte) in text.iter().enumerate() {
        let is_outer = index == 0 || index + 1 == text.len();
        push_byte(out, is_escaped_in_run(is_outer, *byte), *byte)?;
    }
    Ok(())
}

/// Appends a byte, with a backslash before it or without one.
fn push_byte(out: &mut Vec<u8>, is_escaped: bool, byte: u8) -> Result<(), NoMemory>
    ensures { OnOk result (out.new.items ≡ out.old.items ++ spec.spelled_byte is_escaped byte) }
{
    if is_escaped {
        out.push(b'\\')?;
        out.push(letter_of(byte))?;
    } else {
        out.push(byte)?;
    }
    Ok(())
}

/// What stands behind a backslash for a byte.
fn letter_of(byte: u8) -> u8
    ensures { result ≡ spec.letter_of byte }
{
    match byte {
        b'\n' => b'n',
        b'\t' => b't',
        b' ' => b'W',
        _ => byte,
    }
}

/// Whether a backslash stands before the byte in a word.
#[tactic(auto, unfolding(crate::specs::Printing::is_escaped_in_word))]
fn is_escaped_in_word(byte: u8) -> bool
    ensures { result ≡ spec.is_escaped_in_word byte }
{
    matches!(
        byte,
        b'\n' | b'\t' | b' ' | b'\\' | b'"' | b',' | b'[' | b']' | b'{' | b'}' | b'!'
    )
}

/// Whether a backslash stands before the byte in a quoted text.
#[tactic(auto, unfolding(crate::specs::Printing::is_escaped_in_quotes))]
fn is_escaped_in_quotes(byte: u8) -> bool
    ensures { result ≡ spec.is_escaped_in_quotes byte }
{
    matches!(byte, b'\n' | b'\t' | b'\\' | b'"')
}

/// Whether a backslash stands before the byte in a run of characters, where it is the first or the last byte of the run
/// or another one.
#[tactic(auto, unfolding(crate::specs::Printing::is_escaped_in_run))]
fn is_escaped_in_run(is_outer: bool, byte: u8) -> bool
    ensures { result ≡ spec.is_escaped_in_run is_outer byte }
{
    matches!(byte, b'\n' | b'\t' | b'\\' | b'{' | b'!') || (is_outer && byte == b' ')
}
