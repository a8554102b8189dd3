// What is asked for.
ghost use Rattle.std.specs.Prelude.{◌≤◌, IfSome};

/// Over which cells.
#[derive(Clone, Copy)]
pub enum Cache {
    /// Those that threads share.
    Cells,
    /// Those of one thread.
    Sole,
}

/// What is done in a round.
#[derive(Clone, Copy)]
pub enum What {
    /// A voxel of a live cell is got. Each thread has a cell of its own.
    Hit,
    /// The same, where all threads have one cell.
    Shared,
    /// A voxel of the next one of 1024 cells is got. Each thread has cells of its own.
    Load,
    /// A voxel of the next one is set, so that a cell that leaves is put first.
    Put,
}

/// How many threads there are.
#[derive(Clone, Copy)]
pub enum Hands {
    One,
    Two,
}

/// What is asked for, and how often in each thread.
#[derive(Clone, Copy)]
pub struct Request {
    pub cache: Cache,
    pub what: What,
    pub hands: Hands,
    pub slots: u32,
    pub rounds: u32,
}

/// How many cells each thread has.
const CELLS: u32 = 1024;

pub fn request_of(words: &[String]) -> Option<Request>
    ensures { IfSome result (λ request. (2 ≤ request.slots) × (request.slots ≤ 4096)) }
{
    let mut words = words.iter();
    let cache = cache_of(words.next()?.as_str())?;
    let what = what_of(words.next()?.as_str())?;
    let hands = hands_of(words.next()?.as_str())?;
    let slots = words.next()?.parse::<u32>().ok()?;
    let rounds = words.next()?.parse::<u32>().ok()?;
    if slots < 2 || 4096 < slots {
        return None;
    }
    Some(Request {
        cache,
        what,
        hands,
        slots,
        rounds,
    })
}

fn cache_of(word: &str) -> Option<Cache> {
    match word {
        "cells" => Some(Cache::Cells),
        "sole" => Some(Cache::Sole),
        _ => None,
    }
}

fn what_of(word: &str) -> Option<What> {
    match word {
        "hit" => Some(What::Hit),
        "shared" => Some(What::Shared),
        "load" => Some(What::Load),
        "put" => Some(What::Put),
        _ => None,
    }
}

fn hands_of(word: &str) -> Option<Hands> {
    match word {
        "one" => Some(Hands::One),
        "two" => Some(Hands::Two),
        _ => None,
    }
}

/// Which voxel a thread asks for in a round: the first one of a cell.
pub fn voxel_for(what: What, hand: u32, round: u32) -> [u64; 3] {
    let cell = match what {
        What::Shared => 0,
        What::Hit => u64::from(hand) * u64::from(CELLS),
        What::Load | What::Put => { u64::from(hand) * u64::from(CELLS) + u64::from(round % CELLS) }
    };
    [4 * cell, 0, 0]
}

/// Whether voxels are set; else they are got.
pub fn is_set(what: What) -> bool {
    matches!(what, What::Put)
}
