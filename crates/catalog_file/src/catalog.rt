//! `read_catalog`: the lines of a catalog, or the least that is refused.
ghost use Rattle.std.specs.Prelude.{◌≡◌, ◌+◌, ◌^◌, ◌<◌, [], ◌∷◌, length};
ghost use Rattle.obo_lexer.specs.Lines.{without_return};
ghost use Rattle.catalog_file.specs.Catalog.{ReadsCatalog, columns_say, line_says};
ghost use Rattle.text_columns.specs.Columns.{columns_of};
ghost use Rattle.catalog_file.specs.inner.Reading.{Adds};
ghost use Rattle.catalog_file.specs.declared.catalog.CatalogFault.TheVariants as fault;

use rel_io::{Bytes, Dup, Items, NoMemory};
use std::alloc::{AllocFailed, Global};
use text_columns::{cut_line, is_plain, next_column, without_return};

/// A line of two columns: imports of the value are found in the file of the name.
#[derive(PartialEq, Eq, Drop)]
pub struct CatalogLine {
    /// What an `import` clause says.
    pub value: Bytes,
    /// The name of the file.
    pub name: Bytes,
}

/// Why a catalog is not read.
#[derive(Clone, Copy, Debug, PartialEq, Eq)]
pub enum CatalogFault {
    /// The least line, from 1, that is none of a catalog.
    Refused { line: u32 },
    /// Memory ran out.
    NoMemory,
}

impl Dup for CatalogLine {
    fn copy(&self, alloc: Global) -> Result<CatalogLine, NoMemory> {
        let value = self.value.copy(alloc)?;
        let name = self.name.copy(alloc)?;
        Ok(CatalogLine { value, name })
    }
}

impl Dup for CatalogFault {
    fn copy(&self, _alloc: Global) -> Result<CatalogFault, NoMemory> {
        Ok(*self)
    }
}

impl From<NoMemory> for CatalogFault {
    ghost from_gives = { λ _ made. made ≡ fault.NoMemory };

    fn from(_: NoMemory) -> CatalogFault {
        CatalogFault::NoMemory
    }
}

impl<T: Drop> From<AllocFailed<T>> for CatalogFault {
    ghost from_gives = { λ _ made. made ≡ fault.NoMemory };

    fn from(_: AllocFailed<T>) -> CatalogFault {
        CatalogFault::NoMemory
    }
}

/// The lines of a catalog with lines of at most `line_limit` bytes, or the least line that is refused.
pub fn read_catalog(
    alloc: Global,
    bytes: &[u8],
    line_limit: u32,
) -> Result<Items<CatalogLine>, CatalogFault>
    requires { length bytes.now + 1 < 2 ^ 32 }
    ensures { ReadsCatalog line_limit bytes.now result }
{
    let mut lines = Vec::new(alloc);
    let mut left = bytes;
    let mut number = 1;
    while !left.is_empty() {
        let (line, rest) = cut_line(left);
        read_line(alloc, &mut lines, without_return(line), line_limit, number)?;
        left = rest;
        number += 1;
    }
    Ok(Items::from_vec(lines))
}

/// Reads one line behind those before it.
#[tactic(auto, unfolding(crate::specs::Catalog::line_says))]
fn read_line(
    alloc: Global,
    lines: &mut Vec<CatalogLine>,
    line: &[u8],
    limit: u32,
    number: u32,
) -> Result<(), CatalogFault>
    ensures { Adds number (line_says limit line.now) lines.old.items result lines.new.items }
{
    if !is_plain(line, limit) {
        return Err(CatalogFault::Refused { line: number });
    }
    match next_column(line) {
        Some((value, rest)) => read_name(alloc, lines, value, rest, number),
        None => Ok(()),
    }
}

/// Reads what stands behind the first column.
fn read_name(
    alloc: Global,
    lines: &mut Vec<CatalogLine>,
    value: &[u8],
    rest: &[u8],
    number: u32,
) -> Result<(), CatalogFault>
    ensures { Adds number (columns_say (value.now ∷ columns_of rest.now)) lines.old.items result lines.new.items }
{
    match next_column(rest) {
        Some((name, rest)) => match next_column(rest) {
            Some(_) => Err(CatalogFault::Refused { line: number }),
            None => push_line(alloc, lines, value, name, number),
        },
        None => Err(CatalogFault::Refused { line: number }),
    }
}

/// Adds a line of these columns.
fn push_line(
    alloc: Global,
    lines: &mut Vec<CatalogLine>,
    value: &[u8],
    name: &[u8],
    number: u32,
) -> Result<(), CatalogFault>
    ensures { Adds number (columns_say (value.now ∷ name.now ∷ [])) lines.old.items result lines.new.items }
{
    let value = Bytes::from_slice(alloc, value)?;
    let name = Bytes::from_slice(alloc, name)?;
    lines.push(CatalogLine { value, name })?;
    Ok(())
}
