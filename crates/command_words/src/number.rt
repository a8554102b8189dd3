// Numbers among the command words.
ghost use Rattle.std.specs.Prelude.{◌≡◌, ◌-◌, ◌^◌};
ghost use Rattle.std.specs.Char.{is_ascii_digit};
ghost use Rattle.std.specs.List.{list_all};
ghost use Rattle.command_words.specs.Number.{number_in};

/// The number that a word is, where it has 1 to `longest` digits and is at most `most`. It may begin with zeros.
pub(crate) fn number_of(word: &str, longest: usize, most: u64) -> Option<u64>
    ensures { result ≡ number_in longest most word.now }
{
    match long_number_of(word, longest) {
        Some(number) if number <= most => Some(number),
        _ => None,
    }
}

#[tactic(auto, using(crate::proofs::NumberLemmas::number_from_parse))]
fn long_number_of(word: &str, longest: usize) -> Option<u64>
    ensures { result ≡ number_in longest (2 ^ 64 - 1) word.now }
{
    if word.len() > longest || !are_digits(word.as_bytes()) {
        return None;
    }
    word.parse().ok()
}

fn are_digits(word: &[u8]) -> bool
    ensures { result ≡ list_all is_ascii_digit word.now }
{
    word.iter().all(|byte| byte.is_ascii_digit())
}
