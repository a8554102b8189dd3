// What is asked for.

/// What is done in a round.
#[derive(Clone, Copy)]
pub enum What {
    /// A live cell is pinned and unpinned.
    Pin,
    /// A voxel of a pinned cell is read.
    Read,
    /// A voxel of a pinned cell is written.
    Write,
    /// The frame of a slot is filled for a claimed cell.
    Fill,
    /// A cell is loaded and turned out.
    Round,
    /// A cell is visited.
    Visit,
}

/// Who does it.
#[derive(Clone, Copy)]
pub enum Hands {
    /// One thread.
    One,
    /// Two threads with the same cell.
    Same,
    /// Two threads with one cell each.
    Other,
}

/// What is asked for, and how often in each thread.
#[derive(Clone, Copy)]
pub struct Request {
    pub what: What,
    pub hands: Hands,
    pub rounds: u32,
}

pub fn request_of(words: &[String]) -> Option<Request> {
    let mut words = words.iter();
    let what = what_of(words.next()?.as_str())?;
    let hands = hands_of(words.next()?.as_str())?;
    let rounds = words.next()?.parse::<u32>().ok()?;
    Some(Request {
        what,
        hands,
        rounds,
    })
}

/// Whether it needs a live cell.
pub fn is_for_live(what: What) -> bool {
    matches!(what, What::Pin | What::Read | What::Write)
}

/// What a second thread is asked for. A claim is one pass's alone: where the first one claims the cell, the second visits it.
pub fn beside(request: Request) -> Request {
    match (request.what, request.hands) {
        (What::Fill | What::Round, Hands::Same) => Request {
            what: What::Visit,
            ..request
        },
        _ => request,
    }
}

fn what_of(word: &str) -> Option<What> {
    match word {
        "pin" => Some(What::Pin),
        "read" => Some(What::Read),
        "write" => Some(What::Write),
        "fill" => Some(What::Fill),
        "round" => Some(What::Round),
        "visit" => Some(What::Visit),
        _ => None,
    }
}

fn hands_of(word: &str) -> Option<Hands> {
    match word {
        "one" => Some(Hands::One),
        "same" => Some(Hands::Same),
        "other" => Some(Hands::Other),
        _ => None,
    }
}
