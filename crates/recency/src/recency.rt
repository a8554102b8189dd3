ghost use Rattle.std.specs.Prelude.{◌≡◌, ℕ, ◌<◌, ◌≤◌, ◌==◌, ◌&&◌, ◌||◌, true, false, not, List, [], length, IfOk, IfSome, IfNone, slice_index_or, find, take, ◌++◌};
ghost use Rattle.recency.specs.Order.{Order, opening_order, is_listed, admitted, without_slot, touched, victim_of, IsOrder, MayLeave};
ghost use Rattle.ix_links.specs.NodeList.{rest};
ghost use Rattle.ix_links.specs.NodeLists.{list_at, with_list, IsDisjoint};

use ix_links::Links;
use std::alloc::{AllocError, Global};
use std::marker::Model;

/// No memory was found.
pub type Memory = AllocError;

// The numbers of the two lists.
const COLD: u32 = 0;

const KEPT: u32 = 1;

/// The slots of a cache in the order in which they leave.
///
/// A slot that was used once is in `cold`, and one that was used again is in `kept`, which holds at most half of the
/// slots. Every call takes a fixed number of steps, but for `victim`, which walks past the pinned slots.
#[derive(Debug, Drop)]
pub struct Recency {
    links: Links,
    most_kept: u32,
    kept: u32,
}

// Clauses see the number of slots and the two lists.
impl Model for Recency {
    ghost use Rattle.recency.specs.Order.{Order};

    ghost Value = { Order };

    ghost use Rattle.recency.specs.Recency.{order_of, IsCounted};

    ghost view = { order_of };

    ghost invariant = { IsCounted };
}

impl Recency {
    /// Both lists are empty. Takes memory for the slots, and no later call takes any.
    pub fn new(alloc: Global, slots: u32) -> Result<Recency, Memory>
        requires some { 2 ≤ slots }
        requires few { slots ≤ 4096 }
        ensures made { IfOk result (λ recency. recency ≡ opening_order slots) }
        ensures sound { IfOk result IsOrder }
    {
        Ok(Recency {
            links: Links::new(alloc, slots, 2)?,
            most_kept: slots / 2,
            kept: 0,
        })
    }

    /// How many slots there are.
    pub fn slots(&self) -> u32
        ensures { result ≡ self.now.slots }
    {
        self.links.nodes()
    }

    /// Whether a slot is in one of the lists.
    pub fn is_listed(&self, slot: u32) -> bool
        requires { slot < self.now.slots }
        ensures { result ≡ is_listed self.now slot }
    {
        self.links.list_of(slot).is_some()
    }

    /// Puts a slot that is in neither list at the back of cold.
    pub fn admit(&mut self, slot: u32)
        requires in_range { slot < self.old.slots }
        requires free { is_listed self.old slot ≡ false }
        ensures admitted { self.new ≡ admitted self.old slot }
        ensures listed { (other : ℕ) → is_listed self.new other ≡ ((slot == other) || is_listed self.old other) }
        ensures sound { IsOrder self.new }
    {
        self.links.push_back(COLD, slot);
    }

    /// Moves a slot to the back of kept. Where kept is then longer than half the slots, its front goes to the back
    /// of cold.
    pub fn touch(&mut self, slot: u32)
        requires { is_listed self.old slot ≡ true }
        ensures touched { self.new ≡ touched self.old slot }
        ensures listed { (other : ℕ) → is_listed self.new other ≡ is_listed self.old other }
        ensures sound { IsOrder self.new }
    {
        self.leave(slot);
        self.links.push_back(KEPT, slot);
        self.kept += 1;
        if self.kept > self.most_kept {
            cool(&mut self.links);
            self.kept -= 1;
        }
    }

    /// Takes a slot out of its list.
    pub fn leave(&mut self, slot: u32)
        requires { is_listed self.old slot ≡ true }
        ensures left { self.new ≡ without_slot self.old slot }
        ensures listed { (other : ℕ) → is_listed self.new other ≡ (not (slot == other) && is_listed self.old other) }
        ensures within { slot < self.new.slots }
        ensures sound { IsOrder self.new }
    {
        let was_kept = self.links.list_of(slot) == Some(KEPT);
        self.links.remove(slot);
        if was_kept {
            self.kept -= 1;
        }
    }

    /// The first slot that isn't pinned, in cold and then in kept. None exactly where there is none. Walks past the
    /// pinned slots alone.
    pub fn victim(&self, pinned: &[bool]) -> Option<u32>
        requires { length pinned.now ≡ self.now.slots }
        ensures first { result ≡ victim_of self.now pinned.now }
        ensures found { IfSome result (λ slot. MayLeave self.now pinned.now slot) }
        ensures none { IfNone result ((slot : ℕ) → is_listed self.now slot ≡ true → slice_index_or pinned.now slot false ≡ true) }
    {
        let cold = first_unpinned(&self.links, COLD, pinned);
        if cold.is_some() {
            return cold;
        }
        first_unpinned(&self.links, KEPT, pinned)
    }
}

// Kept's front goes to cold's back.
fn cool(links: &mut Links)
    requires two { length links.old.lists ≡ 2 }
    requires disjoint { IsDisjoint links.old }
    ensures cooled { let front = take 1 (list_at links.old 1) in links.new ≡ with_list (with_list links.old 1 (rest (list_at links.old 1))) 0 (list_at links.old 0 ++ front) }
    ensures disjoint { IsDisjoint links.new }
{
    if let Some(oldest) = links.pop_front(KEPT) {
        links.push_back(COLD, oldest);
    }
}

// The first slot of a list that isn't pinned.
fn first_unpinned(links: &Links, list: u32, pinned: &[bool]) -> Option<u32>
    requires list_in_range { list < length links.now.lists }
    requires flags { length pinned.now ≡ links.now.nodes }
    requires disjoint { IsDisjoint links.now }
    ensures { result ≡ find (λ slot. not (slice_index_or pinned.now slot false)) (list_at links.now list) }
{
    let mut slot = links.front(list);
    while let Some(candidate) = slot {
        if !pinned[candidate as usize] {
            return Some(candidate);
        }
        slot = links.next(candidate);
    }
    None
}

#[cfg(test)]
mod tests {
    use super::*;
    use std::test::Fail;

    #[test]
    fn touched_slots_stay_longer(rt: HostRuntime) -> Result<(), Fail> {
        let mut recency = Recency::new(rt.alloc(), 2)?;
        assert_eq!(rt; recency.slots(), 2);
        recency.admit(0);
        recency.admit(1);
        recency.touch(0);
        recency.touch(1);
        let victims = [
            ([false, false], Some(0)),
            ([true, false], Some(1)),
            ([true, true], None),
        ];
        for (pinned, victim) in victims {
            assert_eq!(rt; recency.victim(&pinned), victim);
        }
        Ok(())
    }

    #[test]
    fn a_slot_that_left_is_no_victim(rt: HostRuntime) -> Result<(), Fail> {
        let mut recency = Recency::new(rt.alloc(), 2)?;
        assert!(rt; !recency.is_listed(0));
        recency.admit(0);
        assert!(rt; recency.is_listed(0));
        recency.leave(0);
        assert!(rt; !recency.is_listed(0));
        assert_eq!(rt; recency.victim(&[false, false]), None);
        Ok(())
    }
}
