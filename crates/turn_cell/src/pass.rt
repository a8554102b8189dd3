ghost use Rattle.std.specs.Prelude.{◌≡◌, length};
ghost use Rattle.turn_cell.specs.PassView.{stage_kind};

use crate::seq::Seq;
use crate::views::PassView;
use atomic_table::Seat;

/// The right to ask, and what was seen so far. It has no bound, so that a generic type can hold
/// one: `TurnPass<T>` is the pass of a `Turn<T>`.
pub struct Pass<T, C, R> {
    pub(crate) number: u32,
    pub(crate) drawn: u32,
    pub(crate) seat: Seat<Option<T>, PassView<T, C, R>>,
    ghost numbered: { (number ≡ seat.me.0.number) × (drawn ≡ seat.me.0.drawn) },
    ghost idle: { (stage_kind seat.me.0.stage ≡ 1) × (length seat.me.1 ≡ 0) },
}

/// A pass of a `Turn<T>`.
pub type TurnPass<T> = Pass<T, <T as Seq>::Call, <T as Seq>::Reply>;

/// A pass that is dropped is never joined, so its turn can't be closed any more.
impl<T, C, R> Drop for Pass<T, C, R> {
    fn drop(self) {
        let Self {
            number: _,
            drawn: _,
            seat: _,
        } = self;
    }
}

impl<T, C, R> Pass<T, C, R> {
    pub(crate) fn into_seat(self) -> Seat<Option<T>, PassView<T, C, R>>
        ensures { result ≡ self.seat }
    {
        let Self {
            number: _,
            drawn: _,
            seat,
        } = self;
        seat
    }
}
