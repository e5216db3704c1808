//! The size of a generated ontology, read from a word.
ghost use Rattle.std.specs.Prelude.{◌≡◌};
ghost use Rattle.chain_words.specs.Number.{leads_with_zero, number_of, size_of};

/// Whether a word begins with the digit 0.
fn leads_with_zero(word: &[u8]) -> bool
    ensures { result ≡ leads_with_zero word.now }
{
    word.first() == Some(&b'0')
}

/// The number that a word of digits writes, where it is at most 1000000.
#[tactic(auto, using(crate::proofs::ListLemmas::list_all_drop, crate::proofs::NumberLemmas::number_from_drop, crate::proofs::NumberLemmas::number_from_grows))]
fn number_of(word: &[u8]) -> Option<u32>
    ensures { result ≡ number_of word.now }
{
    let mut number: u32 = 0;
    for byte in word {
        if !byte.is_ascii_digit() {
            return None;
        }
        number = 10 * number + u32::from(*byte - b'0');
        if number > 1_000_000 {
            return None;
        }
    }
    Some(number)
}

/// The size that a word writes: a decimal number from 10 to 1000000 without leading zeros.
pub fn size_of(word: &[u8]) -> Option<u32>
    ensures { result ≡ size_of word.now }
{
    if leads_with_zero(word) {
        return None;
    }
    match number_of(word) {
        Some(number) if number >= 10 => Some(number),
        _ => None,
    }
}
