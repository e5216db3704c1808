//! `canonical_text`: the text of a document.
ghost use Rattle.std.specs.Prelude.{◌≡◌, ◌++◌, IfOk, OnOk, map};
ghost use Rattle.std.specs.Option.{option_copied};
ghost use Rattle.clause_printer.specs.Printing.{behind_space};
ghost use Rattle.obo_frames.specs.Framed.{unlined};
ghost use Rattle.obo_text.specs.Text.{canonical_text, frame_line};
ghost use Rattle.obo_text.specs.inner.Names.{look_in, text_of_rows};
ghost use Rattle.obo_text.specs.inner.Rows.{head_before, head_text, printed_comment, row_text, rows_text};

use crate::names::{Names, name_behind, names_of};
use crate::rows::{Row, rows_in, sorted_rows};
use obo_frames::Document;
use obo_tags::FrameKind;
use rel_io::{Bytes, NoMemory};
use std::alloc::Global;

/// The canonical text of the document: the header, the Terms, the Typedefs and the Instances, each kind by id, the clauses
/// of a frame in the order of their tags, values and blocks, each once, and the names of frames behind the ids that lead to
/// them. It takes the time of a sort.
pub fn canonical_text(alloc: Global, document: &Document) -> Result<Vec<u8>, NoMemory>
    ensures { IfOk result (λ text. text.items ≡ canonical_text (map unlined document.now)) }
{
    // The length tells what every document keeps.
    let _count = document.len();
    let placed = document.as_slice();
    let header = sorted_rows(rows_in(alloc, FrameKind::Header, placed)?);
    let terms = sorted_rows(rows_in(alloc, FrameKind::Term, placed)?);
    let typedefs = sorted_rows(rows_in(alloc, FrameKind::Typedef, placed)?);
    let instances = sorted_rows(rows_in(alloc, FrameKind::Instance, placed)?);
    written(
        alloc,
        header.as_slice(),
        terms.as_slice(),
        typedefs.as_slice(),
        instances.as_slice(),
    )
}

/// The text of the rows of all kinds.
fn written(
    alloc: Global,
    header: &[Row],
    terms: &[Row],
    typedefs: &[Row],
    instances: &[Row],
) -> Result<Vec<u8>, NoMemory>
    ensures { IfOk result (λ text. text.items ≡ text_of_rows header.now terms.now typedefs.now instances.now) }
{
    let names = Names {
        terms: names_of(alloc, terms)?,
        typedefs: names_of(alloc, typedefs)?,
        instances: names_of(alloc, instances)?,
    };
    let mut out = Vec::new(alloc);
    push_rows(&mut out, &names, FrameKind::Header, header)?;
    push_rows(&mut out, &names, FrameKind::Term, terms)?;
    push_rows(&mut out, &names, FrameKind::Typedef, typedefs)?;
    push_rows(&mut out, &names, FrameKind::Instance, instances)?;
    Ok(out)
}

/// Appends the lines of the rows of a kind.
fn push_rows(
    out: &mut Vec<u8>,
    names: &Names,
    kind: FrameKind,
    rows: &[Row],
) -> Result<(), NoMemory>
    ensures { OnOk result (out.new.items ≡ out.old.items ++ rows_text (look_in names.now) kind rows.now) }
{
    for row in rows {
        push_row(out, names, kind, row)?;
    }
    Ok(())
}

/// Appends the line of a row, and before it the head of its frame where the row is the first one there.
fn push_row(out: &mut Vec<u8>, names: &Names, kind: FrameKind, row: &Row) -> Result<(), NoMemory>
    ensures { OnOk result (out.new.items ≡ out.old.items ++ row_text (look_in names.now) kind row.now) }
{
    push_head_before(out, kind, row)?;
    push_bytes(out, row.tag.as_slice())?;
    out.push(b':')?;
    push_behind_space(out, row.value.as_slice())?;
    push_behind_space(out, row.block.as_slice())?;
    push_printed_comment(out, name_behind(names, kind, row))?;
    out.push(b'\n')?;
    Ok(())
}

/// Appends the head of a frame before its first row.
fn push_head_before(out: &mut Vec<u8>, kind: FrameKind, row: &Row) -> Result<(), NoMemory>
    ensures { OnOk result (out.new.items ≡ out.old.items ++ head_before kind row.now) }
{
    if row.place == 0 {
        push_head(out, kind)
    } else {
        Ok(())
    }
}

/// Appends an empty line and the frame line.
fn push_head(out: &mut Vec<u8>, kind: FrameKind) -> Result<(), NoMemory>
    ensures { OnOk result (out.new.items ≡ out.old.items ++ head_text kind) }
{
    match kind {
        FrameKind::Header => Ok(()),
        FrameKind::Term => push_bytes(out, b"\n[Term]\n"),
        FrameKind::Typedef => push_bytes(out, b"\n[Typedef]\n"),
        FrameKind::Instance => push_bytes(out, b"\n[Instance]\n"),
    }
}

/// Appends a printed name as a comment, where there is one.
fn push_printed_comment(out: &mut Vec<u8>, name: Option<&Bytes>) -> Result<(), NoMemory>
    ensures { OnOk result (out.new.items ≡ out.old.items ++ printed_comment (option_copied name.entry)) }
{
    match name {
        Some(name) => {
            out.extend_from_slice(b" ! ")?;
            push_bytes(out, name.as_slice())
        }
        None => Ok(()),
    }
}

/// Appends a space and a text, where the text is not empty.
fn push_behind_space(out: &mut Vec<u8>, text: &[u8]) -> Result<(), NoMemory>
    ensures { OnOk result (out.new.items ≡ out.old.items ++ behind_space text.now) }
{
    if !text.is_empty() {
        out.push(b' ')?;
        out.extend_from_slice(text)?;
    }
    Ok(())
}

/// Appends a text as it stands.
fn push_bytes(out: &mut Vec<u8>, text: &[u8]) -> Result<(), NoMemory>
    ensures { OnOk result (out.new.items ≡ out.old.items ++ text.now) }
{
    out.extend_from_slice(text)?;
    Ok(())
}
