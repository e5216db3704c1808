//! What loading amounts to. The law is the contract of a function that does nothing.
ghost use Rattle.std.specs.Prelude.{List};
ghost use Rattle.rel_io.specs.FolderState.{Files};
ghost use Rattle.catalog_file.specs.declared.catalog.CatalogLine.{CatalogLine};
ghost use Rattle.import_closure.specs.Closure.{setting};
ghost use Rattle.import_closure.specs.Laws.{EachIsReadOnce};

use rel_io::{Bytes, Limits};

/// Each file is read once: one that imports itself, too, and files that import each other.
pub fn each_is_read_once(inputs: &[Bytes], limits: &Limits)
    ensures { (files : Files) (catalog : List CatalogLine) → EachIsReadOnce (setting files catalog limits.now) inputs.now }
{}
