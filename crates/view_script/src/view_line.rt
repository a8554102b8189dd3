// The words of a view, read from left to right. An error is the first rule that they break.
ghost use Rattle.std.specs.Prelude.{◌≡◌, ◌^◌, ◌≤◌, true, Ok, IfOk};
ghost use Rattle.std.specs.List.{list_all};
ghost use Rattle.std.specs.Option.{option_copied};
ghost use Rattle.std.specs.Str.{bytes_eq};
ghost use Rattle.view_script.specs.Number.{number_in};
ghost use Rattle.view_script.specs.Reading.{Reads, word_as, at_most};
ghost use Rattle.view_script.specs.ViewLine.{name_in, side, level_in, strategy_words, strategy_in, budgeted, behind_minus, entry_in, matrix_row, map_words};
ghost use Rattle.whole_affine.specs.Affine.{are_small, is_small};

use crate::name::Name;
use crate::number::number_of;
use crate::reading::{MAX_LEVEL, next_number, next_number_between, next_word};
use crate::script_error::ScriptKind;
use crate::words::Words;
use scale_pick::Strategy;
use whole_affine::Affine;

/// The greatest side of a picture, in pixels.
const MAX_SIDE: u64 = 4096;

/// The greatest number of cells that a view may load.
const MAX_BUDGET: u64 = 1 << 20;

/// The greatest size of a matrix entry, and of a denominator.
const MAX_ENTRY: u64 = 1 << 31;

pub fn next_name(words: &mut Words) -> Result<Name, ScriptKind>
    ensures { Reads (word_as name_in) words.old words.new result }
{
    let word = next_word(words)?;
    Name::of(word).ok_or(ScriptKind::Limit)
}

pub fn next_side(words: &mut Words) -> Result<u32, ScriptKind>
    ensures { Reads side words.old words.new result }
{
    let side = next_number_between(words, 1, MAX_SIDE)?;
    Ok(side as u32)
}

/// A level, or none for `auto`.
pub fn next_level_of_view(words: &mut Words) -> Result<Option<u8>, ScriptKind>
    ensures { Reads (word_as level_in) words.old words.new result }
{
    let word = next_word(words)?;
    if matches!(word, b"auto") {
        return Ok(None);
    }
    let level = number_of(word).ok_or(ScriptKind::UnknownWord)?;
    if level > MAX_LEVEL {
        return Err(ScriptKind::Limit);
    }
    Ok(Some(level as u8))
}

#[tactic(auto, unfolding(crate::specs::ViewLine::strategy_words))]
pub fn next_strategy(words: &mut Words) -> Result<Strategy, ScriptKind>
    ensures { Reads strategy_words words.old words.new result }
{
    match next_plain_strategy(words)? {
        Some(strategy) => Ok(strategy),
        None => next_budget(words),
    }
}

/// A strategy, or none where its budget follows.
fn next_plain_strategy(words: &mut Words) -> Result<Option<Strategy>, ScriptKind>
    ensures { Reads (word_as strategy_in) words.old words.new result }
{
    let word = next_word(words)?;
    plain_strategy(word)
}

fn plain_strategy(word: &[u8]) -> Result<Option<Strategy>, ScriptKind>
    ensures { result ≡ strategy_in word.now }
{
    if is_word(word, b"blocking") {
        return Ok(Some(Strategy::Blocking));
    }
    if is_word(word, b"volatile") {
        return Ok(Some(Strategy::Volatile));
    }
    if is_word(word, b"dontload") {
        return Ok(Some(Strategy::DontLoad));
    }
    if is_word(word, b"budgeted") {
        return Ok(None);
    }
    Err(ScriptKind::UnknownWord)
}

fn is_word(word: &[u8], known: &[u8]) -> bool
    ensures { result ≡ bytes_eq word.now known.now }
{
    word == known
}

#[tactic(auto, unfolding(crate::specs::ViewLine::budgeted))]
fn next_budget(words: &mut Words) -> Result<Strategy, ScriptKind>
    ensures { Reads budgeted words.old words.new result }
{
    let cells = next_number(words, MAX_BUDGET)?;
    Ok(Strategy::Budgeted(cells as u32))
}

/// The denominator and the matrix of a map.
#[tactic(auto, unfolding(crate::specs::ViewLine::map_words))]
pub fn next_map(words: &mut Words) -> Result<Affine, ScriptKind>
    ensures { Reads map_words words.old words.new result }
{
    let q = next_number_between(words, 1, MAX_ENTRY)?;
    let x = next_row(words)?;
    let y = next_row(words)?;
    let z = next_row(words)?;
    map_of(q, [x, y, z])
}

fn map_of(q: u64, rows: [[i64; 3]; 3]) -> Result<Affine, ScriptKind>
    requires positive { 1 ≤ q }
    requires bounded { q ≤ 2 ^ 31 }
    requires small { are_small rows ≡ true }
    ensures { result ≡ Ok (record { q = q; rows = rows }) }
{
    match Affine::new(q, rows) {
        Ok(map) => Ok(map),
        Err(_) => Err(ScriptKind::Limit),
    }
}

#[tactic(auto, unfolding(crate::specs::ViewLine::matrix_row))]
fn next_row(words: &mut Words) -> Result<[i64; 3], ScriptKind>
    ensures reads { Reads matrix_row words.old words.new result }
    ensures small { IfOk result (λ row. list_all is_small row ≡ true) }
{
    let column = next_entry(words)?;
    let row = next_entry(words)?;
    let constant = next_entry(words)?;
    Ok([column, row, constant])
}

/// A matrix entry: a number that one `-` may begin.
fn next_entry(words: &mut Words) -> Result<i64, ScriptKind>
    ensures reads { Reads (word_as entry_in) words.old words.new result }
    ensures small { IfOk result (λ entry. is_small entry ≡ true) }
{
    let word = next_word(words)?;
    entry_of(word)
}

fn entry_of(word: &[u8]) -> Result<i64, ScriptKind>
    ensures form { result ≡ entry_in word.now }
    ensures small { IfOk result (λ entry. is_small entry ≡ true) }
{
    match behind_minus(word) {
        Some(digits) => {
            let size = size_of_entry(digits)?;
            Ok(-(size as i64))
        }
        None => {
            let size = size_of_entry(word)?;
            Ok(size as i64)
        }
    }
}

fn behind_minus(word: &[u8]) -> Option<&[u8]>
    ensures { option_copied result ≡ behind_minus word.now }
{
    match word {
        [b'-', digits @ ..] => Some(digits),
        _ => None,
    }
}

fn size_of_entry(digits: &[u8]) -> Result<u64, ScriptKind>
    ensures form { result ≡ at_most (2 ^ 31) (number_in digits.now) }
    ensures within { IfOk result (λ size. size ≤ 2 ^ 31) }
{
    let size = number_of(digits).ok_or(ScriptKind::BadNumber)?;
    if size > MAX_ENTRY {
        return Err(ScriptKind::Limit);
    }
    Ok(size)
}
