// The words of a line, read from left to right. An error is the first rule that they break.
ghost use Rattle.std.specs.Prelude.{◌≡◌, ◌-◌, ◌^◌, ◌<◌, ◌≤◌, IfOk};
ghost use Rattle.view_script.specs.Keyword.{keyword_in};
ghost use Rattle.view_script.specs.Line.{raw, open_root, range, get, set, view, fetch, behind};
ghost use Rattle.view_script.specs.Reading.{Reads, EndsWith, TakesWord, word_as, root_in, kind_in, number_word, number_above, number_between, three_words, any};

use crate::command::Command;
use crate::line::{Keyword, Line};
use crate::number::number_of;
use crate::root::Root;
use crate::script_error::ScriptKind;
use crate::view_line::{next_level_of_view, next_map, next_name, next_side, next_strategy};
use crate::words::Words;
use cell_grid::Kind;
use scale_pick::View;

/// The greatest number of a level.
pub const MAX_LEVEL: u64 = 7;

/// The greatest number of requests that a line serves.
const MAX_FETCH: u64 = 1 << 18;

/// The greatest value that a view shows where the script gives no range.
const GREATEST_SHOWN: u64 = 255;

impl Keyword {
    /// The first word that a word is, where it is one.
    pub fn of(word: &[u8]) -> Option<Keyword>
        ensures { result ≡ keyword_in word.now }
    {
        match word {
            b"raw" => Some(Keyword::Raw),
            b"open" => Some(Keyword::Open),
            b"range" => Some(Keyword::Range),
            b"phase" => Some(Keyword::Phase),
            b"actor" => Some(Keyword::Actor),
            b"get" => Some(Keyword::Get),
            b"set" => Some(Keyword::Set),
            b"view" => Some(Keyword::View),
            b"fetch" => Some(Keyword::Fetch),
            _ => None,
        }
    }
}

/// What a line says behind its first word.
pub fn line_behind<'a>(keyword: Keyword, words: &mut Words<'a>) -> Result<Line<'a>, ScriptKind>
    ensures { Reads (behind keyword) words.old words.new result }
{
    match keyword {
        Keyword::Raw => raw_line(words),
        Keyword::Open => open_line(words),
        Keyword::Range => range_line(words),
        Keyword::Phase => end(words).map(|()| Line::Phase),
        Keyword::Actor => end(words).map(|()| Line::Actor),
        Keyword::Get => get_line(words),
        Keyword::Set => set_line(words),
        Keyword::View => view_line(words),
        Keyword::Fetch => fetch_line(words),
    }
}

#[tactic(auto, unfolding(crate::specs::Line::raw))]
fn raw_line<'a>(words: &mut Words<'a>) -> Result<Line<'a>, ScriptKind>
    ensures { Reads raw words.old words.new result }
{
    let root = next_root(words)?;
    let kind = next_kind(words)?;
    let dims = next_three(words)?;
    let cell = next_three_small(words)?;
    end(words)?;
    Ok(Line::Raw {
        root,
        kind,
        dims,
        cell,
    })
}

#[tactic(auto, unfolding(crate::specs::Line::open_root))]
fn open_line<'a>(words: &mut Words<'a>) -> Result<Line<'a>, ScriptKind>
    ensures { Reads open_root words.old words.new result }
{
    let root = next_root(words)?;
    end(words)?;
    Ok(Line::Open { root })
}

#[tactic(auto, unfolding(crate::specs::Line::range))]
fn range_line<'a>(words: &mut Words<'a>) -> Result<Line<'a>, ScriptKind>
    ensures { Reads range words.old words.new result }
{
    let low = next_number(words, u64::MAX)?;
    let high = next_number_above(words, low)?;
    end(words)?;
    Ok(Line::Range([low, high]))
}

#[tactic(auto, unfolding(crate::specs::Line::get))]
fn get_line<'a>(words: &mut Words<'a>) -> Result<Line<'a>, ScriptKind>
    ensures { Reads get words.old words.new result }
{
    let level = next_level(words)?;
    let pos = next_three(words)?;
    end(words)?;
    Ok(Line::Command(Command::Get { level, pos }))
}

#[tactic(auto, unfolding(crate::specs::Line::set))]
fn set_line<'a>(words: &mut Words<'a>) -> Result<Line<'a>, ScriptKind>
    ensures { Reads set words.old words.new result }
{
    let level = next_level(words)?;
    let pos = next_three(words)?;
    let value = next_number(words, u64::MAX)?;
    end(words)?;
    Ok(Line::Command(Command::Set { level, pos, value }))
}

#[tactic(auto, unfolding(crate::specs::Line::view))]
fn view_line<'a>(words: &mut Words<'a>) -> Result<Line<'a>, ScriptKind>
    ensures { Reads view words.old words.new result }
{
    let name = next_name(words)?;
    let width = next_side(words)?;
    let height = next_side(words)?;
    let level = next_level_of_view(words)?;
    let strategy = next_strategy(words)?;
    let affine = next_map(words)?;
    end(words)?;
    let view = View {
        affine,
        width,
        height,
        level,
        strategy,
        low: 0,
        high: GREATEST_SHOWN,
    };
    Ok(Line::Command(Command::View { name, view }))
}

#[tactic(auto, unfolding(crate::specs::Line::fetch))]
fn fetch_line<'a>(words: &mut Words<'a>) -> Result<Line<'a>, ScriptKind>
    ensures { Reads fetch words.old words.new result }
{
    let count = next_number(words, MAX_FETCH)?;
    end(words)?;
    Ok(Line::Command(Command::Fetch {
        count: count as u32,
    }))
}

pub fn next_word<'a>(words: &mut Words<'a>) -> Result<&'a [u8], ScriptKind>
    ensures { TakesWord words.old words.new result }
{
    words.next().ok_or(ScriptKind::MissingWord)
}

fn next_root<'a>(words: &mut Words<'a>) -> Result<Root<'a>, ScriptKind>
    ensures { Reads (word_as root_in) words.old words.new result }
{
    let word = next_word(words)?;
    Root::of(word).ok_or(ScriptKind::Limit)
}

fn next_kind(words: &mut Words) -> Result<Kind, ScriptKind>
    ensures { Reads (word_as kind_in) words.old words.new result }
{
    match next_word(words)? {
        b"uint8" => Ok(Kind::U8),
        b"uint16" => Ok(Kind::U16),
        b"uint32" => Ok(Kind::U32),
        b"uint64" => Ok(Kind::U64),
        _ => Err(ScriptKind::UnknownWord),
    }
}

pub fn next_number(words: &mut Words, most: u64) -> Result<u64, ScriptKind>
    ensures reads { Reads (number_word most) words.old words.new result }
    ensures within { IfOk result (λ n. n ≤ most) }
{
    let word = next_word(words)?;
    let number = number_of(word).ok_or(ScriptKind::BadNumber)?;
    if number > most {
        return Err(ScriptKind::Limit);
    }
    Ok(number)
}

pub fn next_number_between(words: &mut Words, least: u64, most: u64) -> Result<u64, ScriptKind>
    ensures reads { Reads (number_between least most) words.old words.new result }
    ensures least { IfOk result (λ n. least ≤ n) }
    ensures most { IfOk result (λ n. n ≤ most) }
{
    let word = next_word(words)?;
    let number = number_of(word).ok_or(ScriptKind::BadNumber)?;
    if number < least || number > most {
        return Err(ScriptKind::Limit);
    }
    Ok(number)
}

fn next_number_above(words: &mut Words, low: u64) -> Result<u64, ScriptKind>
    ensures { Reads (number_above low) words.old words.new result }
{
    let word = next_word(words)?;
    let number = number_of(word).ok_or(ScriptKind::BadNumber)?;
    if number <= low {
        return Err(ScriptKind::Limit);
    }
    Ok(number)
}

fn next_level(words: &mut Words) -> Result<u8, ScriptKind>
    ensures { Reads (number_word 7) words.old words.new result }
{
    let level = next_number(words, MAX_LEVEL)?;
    Ok(level as u8)
}

#[tactic(auto, unfolding(crate::specs::Reading::three_words))]
fn next_three(words: &mut Words) -> Result<[u64; 3], ScriptKind>
    ensures { Reads (three_words any) words.old words.new result }
{
    let x = next_number(words, u64::MAX)?;
    let y = next_number(words, u64::MAX)?;
    let z = next_number(words, u64::MAX)?;
    Ok([x, y, z])
}

#[tactic(auto, unfolding(crate::specs::Reading::three_words))]
fn next_three_small(words: &mut Words) -> Result<[u32; 3], ScriptKind>
    ensures { Reads (three_words (2 ^ 32 - 1)) words.old words.new result }
{
    let x = next_number(words, u32::MAX as u64)?;
    let y = next_number(words, u32::MAX as u64)?;
    let z = next_number(words, u32::MAX as u64)?;
    Ok([x as u32, y as u32, z as u32])
}

/// No word is left.
fn end(words: &mut Words) -> Result<(), ScriptKind>
    ensures { EndsWith words.old words.new result }
{
    match words.next() {
        None => Ok(()),
        Some(_) => Err(ScriptKind::ExtraWord),
    }
}
