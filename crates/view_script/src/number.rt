// Numbers in a script.
ghost use Rattle.std.specs.Prelude.{◌≡◌};
ghost use Rattle.std.specs.Char.{is_ascii_digit};
ghost use Rattle.std.specs.List.{list_all};
ghost use Rattle.view_script.specs.Number.{number_in};

use std::str;

const MOST_DIGITS: usize = 20;

/// The number that a word is, where it is one: 1 to 20 digits, and at most 2^64 - 1.
#[tactic(auto, using(crate::proofs::NumberLemmas::number_from_parse, crate::proofs::NumberLemmas::digits_are_text))]
pub fn number_of(word: &[u8]) -> Option<u64>
    ensures { result ≡ number_in word.now }
{
    if word.len() > MOST_DIGITS || !are_digits(word) {
        return None;
    }
    match str::from_utf8(word) {
        Ok(text) => text.parse().ok(),
        Err(_) => None,
    }
}

fn are_digits(word: &[u8]) -> bool
    ensures { result ≡ list_all is_ascii_digit word.now }
{
    word.iter().all(|byte| byte.is_ascii_digit())
}
