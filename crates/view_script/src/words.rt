// The words of a line, one after another.
ghost use Rattle.std.specs.Prelude.{◌≡◌, ◌≤◌, List, ℕ, length, not};
ghost use Rattle.std.specs.List.{position};
ghost use Rattle.std.specs.Option.{option_copied};
ghost use Rattle.view_script.specs.Lines.{first_place};
ghost use Rattle.view_script.specs.Words.{words_of, is_blank, TakesFirst};

use std::marker::Model;

/// The words of a line that are left. In contracts it is their list.
#[derive(Drop)]
pub struct Words<'a> {
    rest: &'a [u8],
}

impl<'a> Model for Words<'a> {
    ghost Value = { List (List ℕ) };

    ghost view = { λ w. words_of w.rest.now };
}

impl<'a> Words<'a> {
    pub fn new(line: &'a [u8]) -> Words<'a>
        ensures { result ≡ words_of line.now }
    {
        Words { rest: line }
    }

    /// The next word, where there is one.
    #[tactic(auto, using(crate::proofs::WordsLemmas::no_words, crate::proofs::WordsLemmas::first_of_words))]
    pub fn next(&mut self) -> Option<&'a [u8]>
        ensures { TakesFirst self.old self.new (option_copied result) }
    {
        let (_, rest) = self.rest.split_at(start_of_word(self.rest));
        let end = end_of_word(rest);
        if end == 0 {
            return None;
        }
        let (word, rest) = rest.split_at(end);
        self.rest = rest;
        Some(word)
    }
}

/// Where the first word of a line begins.
fn start_of_word(line: &[u8]) -> usize
    ensures place { result ≡ first_place (λ b. not (is_blank b)) line.now }
    ensures within { result ≤ length line.now }
{
    place_of_word(line).unwrap_or(line.len())
}

fn place_of_word(line: &[u8]) -> Option<usize>
    ensures { result ≡ position (λ b. not (is_blank b)) line.now }
{
    line.iter().position(|b| !is_blank_byte(*b))
}

/// Where a word at the front of a line ends.
fn end_of_word(line: &[u8]) -> usize
    ensures place { result ≡ first_place is_blank line.now }
    ensures within { result ≤ length line.now }
{
    place_of_blank(line).unwrap_or(line.len())
}

fn place_of_blank(line: &[u8]) -> Option<usize>
    ensures { result ≡ position is_blank line.now }
{
    line.iter().position(|b| is_blank_byte(*b))
}

/// A byte between words.
fn is_blank_byte(byte: u8) -> bool
    ensures { result ≡ is_blank byte }
{
    byte == b' ' || byte == b'\t'
}
