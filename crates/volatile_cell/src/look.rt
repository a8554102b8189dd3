// What a look gives.
use arr_history::Seen;

/// A handle on a pinned cell, or where a cell is that isn't ready.
pub enum Look<H> {
    Ready(H),
    NotReady { state: Seen },
}
