// What holds of a turn for any object.
ghost use Rattle.turn_cell.specs.Entry.{EachCallIsAStep};

use crate::pass::TurnPass;
use crate::seq::Seq;
use crate::turn::Turn;

/// In a history that leads from one value to another each call did what the object does at its
/// place, and got the object's reply.
pub fn each_call_is_a_step<T: Seq>()
    ensures { EachCallIsAStep T.steps }
{}

fn can_be_sent<X: Send>() {}

fn can_be_shared<X: Sync>() {}

/// Threads can share a turn, and a pass can be moved to one, where the value can be moved.
pub fn turns_cross_threads<T: Seq + Send>() {
    can_be_sent::<Turn<T>>();
    can_be_shared::<Turn<T>>();
    can_be_sent::<TurnPass<T>>();
}
