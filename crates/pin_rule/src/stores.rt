// The stores on their way into the table and out of it.
ghost use Rattle.std.specs.Prelude.{◌≡◌, ℕ, ◌<◌, ◌≤◌, [], Some, false, length, map, slice_index_or, vec_len, vec_capacity};
ghost use Rattle.std.specs.Slots.{slots_items, slots_filled, slots_len, IsFull};
ghost use Rattle.pin_rule.specs.Calls.{AllSome};

use atomic_table::Closed;
use std::alloc::Global;

// Puts each store into an option, in order. The list that they came in stays, empty.
pub(crate) fn wrap<S>(stores: &mut Vec<S>, homes: &mut Vec<Option<S>>)
    requires { (homes.old.items ≡ []) × (vec_len stores.old ≤ vec_capacity homes.old) }
    ensures homes { homes.new.items ≡ map Some stores.old.items }
    ensures stores { (stores.new.items ≡ []) × (vec_capacity stores.new ≡ vec_capacity stores.old) }
{
    stores.as_mut_slice().reverse();
    while let Some(store) = stores.pop() {
        homes.push_reserved(Some(store));
    }
}

// Takes each store out of its option, in order.
pub(crate) fn unwrap_all<S>(list: &mut Vec<S>, homes: &mut Vec<Option<S>>)
    requires list { (list.old.items ≡ []) × (vec_len homes.old ≤ vec_capacity list.old) }
    requires some { AllSome homes.old.items }
    ensures list { map Some list.new.items ≡ homes.old.items }
    ensures homes { homes.new.items ≡ [] }
{
    homes.as_mut_slice().reverse();
    while let Some(home) = homes.pop() {
        list.push_reserved(home.unwrap());
    }
}

// Takes the stores out of a closed table into the list, in the order of the lanes.
pub(crate) fn drain<S>(closed: &mut Closed<Option<S>, Global>, list: &mut Vec<S>)
    requires closed { IsFull closed.old.slots × AllSome (slots_items closed.old.slots) × (slots_len closed.old.slots ≡ length (slots_items closed.old.slots)) }
    requires list { (list.old.items ≡ []) × (slots_len closed.old.slots ≤ vec_capacity list.old) }
    ensures list { map Some list.new.items ≡ slots_items closed.old.slots }
    ensures empty { (k : ℕ) → k < slots_len closed.new.slots → slice_index_or (slots_filled closed.new.slots) k false ≡ false }
{
    let n = closed.slot_count();
    for i in 0..n {
        list.push_reserved(closed.take(i).unwrap());
    }
}
