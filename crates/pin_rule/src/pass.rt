// What a pass steps with.
ghost use Rattle.std.specs.Prelude.{◌≡◌, vec_len};

use crate::made::Made;
use atomic_table::Seat;
use pin_words::Doing;

/// What a pass knows and holds, as clauses see it.
pub(crate) type View<S> = Doing<S, Option<Made<S>>>;

/// One of the actors of a cache. It has no bytes but for an empty list: the first pass keeps in it the memory of the list
/// that the stores came in, since a `Vec<S>` in the table itself would be shared by threads.
pub struct Pass<S> {
    pub(crate) seat: Seat<Option<S>, View<S>>,
    pub(crate) list: Vec<S>,
    ghost empty: { vec_len list ≡ 0 },
}

/// A pass that is dropped is never joined, so its table can't be closed any more.
impl<S> Drop for Pass<S> {
    fn drop(self) {
        let Self { seat: _, list } = self;
        list.destroy_empty();
    }
}

impl<S> Pass<S> {
    pub(crate) fn into_seat(self) -> Seat<Option<S>, View<S>>
        ensures { result ≡ self.seat }
    {
        let Self { seat, list } = self;
        list.destroy_empty();
        seat
    }

    // The seat, and the list that the stores came in.
    pub(crate) fn into_parts(self) -> (Seat<Option<S>, View<S>>, Vec<S>)
        ensures seat { result.0 ≡ self.seat }
        ensures list { (result.1 ≡ self.list) × (vec_len result.1 ≡ 0) }
    {
        let Self { seat, list } = self;
        (seat, list)
    }
}
