//! Words of the command line, and the values that it calls by a word.
ghost use Rattle.std.specs.Prelude.{◌≡◌, List, ℕ, IfOk};
ghost use Rattle.chain_words.specs.Word.{is_name, name_of, named};

use rel_io::{Bytes, NoMemory};
use std::alloc::Global;

/// A value with a word of its own: a command, an option, or one of the words that an option may have.
pub trait Named: Copy {
    ghost word: { Self → List ℕ };

    /// The word that stands for this value.
    fn word(self) -> &'static [u8]
        ensures { result.now ≡ word self };
}

/// The value that a word stands for: the first of these that has this very word.
pub fn find_named<T: Named>(all: &[T], word: &[u8]) -> Option<T>
    ensures { result ≡ named T.word all.now word.now }
{
    all.iter().copied().find(|value| value.word() == word)
}

/// Whether a word is a name.
fn is_name(word: &[u8]) -> bool
    ensures { result ≡ is_name word.now }
{
    !word.is_empty()
}

/// The name that a word is, if it is one.
pub fn name_of(alloc: Global, word: &[u8]) -> Result<Option<Bytes>, NoMemory>
    ensures { IfOk result (λ name. name ≡ name_of word.now) }
{
    if !is_name(word) {
        return Ok(None);
    }
    let name = Bytes::from_slice(alloc, word)?;
    Ok(Some(name))
}
