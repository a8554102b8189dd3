// What the command words ask for.
ghost use Rattle.std.specs.Prelude.{◌≡◌, ◌<◌, [], ◌∷◌, IfOk, Some, codes, drop, length, slice_get};
ghost use Rattle.clap.specs.Words.{first_of, found_of, rows_of};
ghost use Rattle.command_words.specs.Grammar.{given_in};
ghost use Rattle.command_words.specs.Request as asked;
ghost use Rattle.command_words.specs.Request.{of_command, request_in, texts};

use crate::command::{bare_command, both_command, matches_in, slots_command};
use crate::number::number_of;
use crate::word::Word;
use clap::ArgMatches;
use plain_data::is_root_name;
use std::alloc::{AllocError, Global};

/// The longest number of an option, in digits.
const OPTION_DIGITS: usize = 9;

/// The most that an option of so many digits can be.
const MOST_SLOTS: u64 = 1_000_000_000;

/// The most fetchers of a run.
const MOST_FETCHERS: u64 = 16;

/// The longest number of a demonstration, in digits.
const DEMO_DIGITS: usize = 20;

/// What the words after the program's name ask for. Its texts are borrowed from the words.
#[derive(Drop)]
pub enum Request<'w> {
    /// The levels of the pyramid under a root.
    Info {
        root: Word<'w>,
    },
    /// The run of a script on one thread, with so many slots.
    Solo {
        script: Word<'w>,
        slots: u64,
    },
    /// The run of a script on many threads, with so many slots and so many fetchers in each phase.
    Run {
        script: Word<'w>,
        slots: u64,
        fetchers: u64,
    },
    /// The demonstration that a number decides.
    Demo {
        number: u64,
    },
}

/// What the words ask for, or none where they aren't those of a command.
///
/// `info ROOT`, `solo SCRIPT --slots N`, `run SCRIPT --slots N --fetchers N` or `demo N`, where after the first word options and operands
/// stand in any order, an option's value is the next word or follows after `=`, and each word after `--` is an operand.
pub fn request_of<'w>(alloc: Global, words: &'w [String]) -> Result<Option<Request<'w>>, AllocError>
    ensures { IfOk result (λ request. request ≡ request_in (texts words.entry.now)) }
{
    match words.first() {
        Some(command) => request_for(alloc, command.as_str(), words),
        None => Ok(None),
    }
}

/// What the words of a command ask for, by the command's own word, which is their first.
fn request_for<'w>(
    alloc: Global,
    command: &str,
    words: &'w [String],
) -> Result<Option<Request<'w>>, AllocError>
    requires { slice_get (texts words.now) 0 ≡ Some command.now }
    ensures { IfOk result (λ request. request ≡ of_command command.now (drop 1 (texts words.entry.now))) }
{
    if command == "info" {
        info_of(alloc, words)
    } else if command == "solo" {
        solo_of(alloc, words)
    } else if command == "run" {
        run_of(alloc, words)
    } else if command == "demo" {
        demo_of(alloc, words)
    } else {
        Ok(None)
    }
}

/// `info ROOT`, where ROOT is a root name.
fn info_of<'w>(alloc: Global, words: &'w [String]) -> Result<Option<Request<'w>>, AllocError>
    requires { 0 < length words.now }
    ensures { IfOk result (λ request. request ≡ asked.asked asked.info_in (given_in [] (drop 1 (texts words.entry.now)))) }
{
    match matches_in(bare_command(alloc)?, words)? {
        Some(matches) => Ok(info_in(&matches)),
        None => Ok(None),
    }
}

/// `solo SCRIPT --slots N`.
fn solo_of<'w>(alloc: Global, words: &'w [String]) -> Result<Option<Request<'w>>, AllocError>
    requires { 0 < length words.now }
    ensures { IfOk result (λ request. request ≡ asked.asked asked.solo_in (given_in (codes "slots" ∷ []) (drop 1 (texts words.entry.now)))) }
{
    match matches_in(slots_command(alloc)?, words)? {
        Some(matches) => Ok(solo_in(&matches)),
        None => Ok(None),
    }
}

/// `run SCRIPT --slots N --fetchers N`.
fn run_of<'w>(alloc: Global, words: &'w [String]) -> Result<Option<Request<'w>>, AllocError>
    requires { 0 < length words.now }
    ensures { IfOk result (λ request. request ≡ asked.asked asked.run_in (given_in (codes "slots" ∷ codes "fetchers" ∷ []) (drop 1 (texts words.entry.now)))) }
{
    match matches_in(both_command(alloc)?, words)? {
        Some(matches) => Ok(run_in(&matches)),
        None => Ok(None),
    }
}

/// `demo N`.
fn demo_of<'w>(alloc: Global, words: &'w [String]) -> Result<Option<Request<'w>>, AllocError>
    requires { 0 < length words.now }
    ensures { IfOk result (λ request. request ≡ asked.asked asked.demo_in (given_in [] (drop 1 (texts words.entry.now)))) }
{
    match matches_in(bare_command(alloc)?, words)? {
        Some(matches) => Ok(demo_in(&matches)),
        None => Ok(None),
    }
}

fn info_in<'w>(matches: &ArgMatches<'w>) -> Option<Request<'w>>
    ensures { result ≡ asked.info_in (λ name. first_of name (rows_of (found_of matches.now))) }
{
    let root = value_in(matches, "operand")?;
    if !is_root_name(root.text().as_bytes()) {
        return None;
    }
    Some(Request::Info { root })
}

fn solo_in<'w>(matches: &ArgMatches<'w>) -> Option<Request<'w>>
    ensures { result ≡ asked.solo_in (λ name. first_of name (rows_of (found_of matches.now))) }
{
    let script = value_in(matches, "operand")?;
    let slots = option_in(matches, "slots", MOST_SLOTS)?;
    Some(Request::Solo { script, slots })
}

fn run_in<'w>(matches: &ArgMatches<'w>) -> Option<Request<'w>>
    ensures { result ≡ asked.run_in (λ name. first_of name (rows_of (found_of matches.now))) }
{
    let script = value_in(matches, "operand")?;
    let slots = option_in(matches, "slots", MOST_SLOTS)?;
    let fetchers = option_in(matches, "fetchers", MOST_FETCHERS)?;
    Some(Request::Run {
        script,
        slots,
        fetchers,
    })
}

fn demo_in<'w>(matches: &ArgMatches<'w>) -> Option<Request<'w>>
    ensures { result ≡ asked.demo_in (λ name. first_of name (rows_of (found_of matches.now))) }
{
    let number = value_in(matches, "operand")?;
    let number = number_of(number.text(), DEMO_DIGITS, u64::MAX)?;
    Some(Request::Demo { number })
}

/// The number of an option, where it has one.
fn option_in(matches: &ArgMatches, name: &str, most: u64) -> Option<u64>
    ensures { result ≡ asked.option_in (λ id. first_of id (rows_of (found_of matches.now))) name.now most }
{
    let number = value_in(matches, name)?;
    number_of(number.text(), OPTION_DIGITS, most)
}

/// The word that clap found for a name.
fn value_in<'w>(matches: &ArgMatches<'w>, name: &str) -> Option<Word<'w>>
    ensures { result ≡ first_of name.now (rows_of (found_of matches.now)) }
{
    match matches.get_str(name) {
        Some(text) => Some(Word::new(text)),
        None => None,
    }
}
