//! `import_name`: in which file an import is found.
ghost use Rattle.std.specs.Prelude.{◌≡◌, ◌++◌, IfOk, OnOk};
ghost use Rattle.iri_map.specs.Split.{parts_lent, split_at_last};
ghost use Rattle.catalog_file.specs.Names as spec;
ghost use Rattle.catalog_file.specs.inner.Reading.{AddsName};

use crate::CatalogLine;
use iri_map::is_url;
use memchr::memrchr;
use rel_io::{Bytes, Dup, NoMemory};
use std::alloc::Global;
use std::collections::BTreeMap;

/// What stands behind a folder.
const SLASH: u8 = b'/';

/// The names of a catalog: of several lines for one value the first counts.
pub fn name_table(
    alloc: Global,
    lines: Vec<CatalogLine>,
) -> Result<BTreeMap<Bytes, Bytes>, NoMemory>
    ensures { IfOk result (spec.TellsNames lines.items) }
{
    let mut names = BTreeMap::new(alloc);
    for line in lines {
        add_line(&mut names, line)?;
    }
    Ok(names)
}

/// One line more.
fn add_line(names: &mut BTreeMap<Bytes, Bytes>, line: CatalogLine) -> Result<(), NoMemory>
    ensures { OnOk result (AddsName names.old names.new line) }
{
    let CatalogLine { value, name } = line;
    if names.contains_key(&value) {
        return Ok(());
    }
    drop(names.insert(value, name)?);
    Ok(())
}

/// The name of the file in which an import with this value is found, where the clause stands in that file: the one that the
/// catalog has, or else the value as a name in the folder of the file, or of a web address the part behind the last `/`.
pub fn import_name(
    alloc: Global,
    names: &BTreeMap<Bytes, Bytes>,
    file: &Bytes,
    value: &Bytes,
) -> Result<Bytes, NoMemory>
    ensures { IfOk result (spec.IsNamed names.now file.now value.now) }
{
    match names.get(value) {
        Some(name) => name.copy(alloc),
        None => name_in_folder(alloc, file.as_slice(), plain_name(value.as_slice())),
    }
}

/// What a value is by itself, without a folder.
#[tactic(auto, unfolding(crate::specs::Names::plain_name))]
fn plain_name(value: &[u8]) -> &[u8]
    ensures { result.now ≡ spec.plain_name value.now }
{
    if !is_url(value) {
        return value;
    }
    match split_at_last_slash(value) {
        Some((_, name)) if !name.is_empty() => name,
        _ => value,
    }
}

/// The name in the folder of a file, unless it stands by itself.
#[tactic(auto, unfolding(crate::specs::Names::in_folder_of))]
fn name_in_folder(alloc: Global, file: &[u8], name: &[u8]) -> Result<Bytes, NoMemory>
    ensures { IfOk result (λ found. found ≡ spec.in_folder_of file.now name.now) }
{
    if is_rooted(name) || is_url(name) {
        return Bytes::from_slice(alloc, name);
    }
    joined(alloc, folder_of(file), name)
}

/// Whether the name begins with `/`.
fn is_rooted(name: &[u8]) -> bool
    ensures { result ≡ spec.is_rooted name.now }
{
    match name {
        [] => false,
        [first, ..] => *first == SLASH,
    }
}

/// The two texts one after the other.
fn joined(alloc: Global, folder: &[u8], name: &[u8]) -> Result<Bytes, NoMemory>
    ensures { IfOk result (λ found. found ≡ folder.now ++ name.now) }
{
    let mut bytes = Vec::from_slice(alloc, folder)?;
    bytes.extend_from_slice(name)?;
    Ok(Bytes::from_vec(bytes))
}

/// The name of a file up to and with its last `/`.
fn folder_of(file: &[u8]) -> &[u8]
    ensures { result.now ≡ spec.folder_of file.now }
{
    match memrchr(SLASH, file) {
        Some(at) => &file[..at + 1],
        None => &file[..0],
    }
}

/// What stands before and behind the last `/`.
fn split_at_last_slash(text: &[u8]) -> Option<(&[u8], &[u8])>
    ensures { parts_lent result ≡ split_at_last spec.slash text.now }
{
    let at = memrchr(SLASH, text)?;
    Some((&text[..at], &text[at + 1..]))
}
