ghost use Rattle.std.specs.Prelude.{◌≡◌, ℕ, ◌+◌, ◌*◌, ◌^◌, ◌<◌, ◌≤◌, List, length, IfOk, IfSome};
ghost use Rattle.fetch_queue.specs.Queue.{Queue, opening_queue, pair, put_request, next_request, without_next, of_viewer, cleared, IsRequest};

use crate::ranks::Ranks;
use crate::request::Request;
use std::alloc::{AllocError, Global};
use std::marker::Model;

/// No memory was found.
pub type Memory = AllocError;

/// What is fetched next: a list of requests for each priority, and the prefetch list behind them. No pair stands
/// in them twice.
///
/// The memory grows by 32 bytes for each pair of a viewer and a cell, whether it is asked for or not.
#[derive(Debug, Drop)]
pub struct Queues {
    ranks: Ranks,
    bound: u32,
    waiting: u32,
}

// Clauses see the lists of requests.
impl Model for Queues {
    ghost use Rattle.fetch_queue.specs.Queue.{Queue};

    ghost Value = { Queue };

    ghost use Rattle.fetch_queue.specs.Queues.{queue_of, IsBounded};

    ghost view = { queue_of };

    ghost invariant = { IsBounded };
}

impl Queues {
    /// All lists are empty. `prefetch` bounds the prefetch list. Takes memory for all pairs of a viewer and a cell,
    /// and no later call takes any.
    pub fn new(
        alloc: Global,
        viewers: u32,
        cells: u32,
        priorities: u8,
        prefetch: u32,
    ) -> Result<Queues, Memory>
        requires some_viewers { 1 ≤ viewers }
        requires few_viewers { viewers ≤ 16 }
        requires some_cells { 1 ≤ cells }
        requires few_cells { cells ≤ 2 ^ 18 }
        requires some_priorities { 1 ≤ priorities }
        requires few_priorities { priorities ≤ 8 }
        requires few_waiting { prefetch ≤ 4096 }
        ensures { IfOk result (λ queues. queues ≡ opening_queue viewers cells priorities prefetch) }
    {
        Ok(Queues {
            ranks: Ranks::new(alloc, viewers, cells, u32::from(priorities))?,
            bound: prefetch,
            waiting: 0,
        })
    }

    /// How many viewers there are.
    pub fn viewers(&self) -> u32
        ensures { result ≡ self.now.viewers }
    {
        self.ranks.viewers()
    }

    /// How many cells there are.
    pub fn cells(&self) -> u32
        ensures { result ≡ self.now.cells }
    {
        self.ranks.cells()
    }

    /// How many priorities there are.
    pub fn priorities(&self) -> u8
        ensures { result ≡ length self.now.lists }
    {
        self.ranks.priorities() as u8
    }

    /// Puts a pair at the front or at the back of a priority, and takes it out of wherever it stood. Takes a fixed
    /// number of steps.
    pub fn put(&mut self, viewer: u32, cell: u32, priority: u8, to_front: bool)
        requires viewer_in_range { viewer < self.old.viewers }
        requires cell_in_range { cell < self.old.cells }
        requires priority_in_range { priority < length self.old.lists }
        ensures { self.new ≡ put_request self.old (pair viewer cell) priority to_front }
    {
        let node = self.ranks.node(viewer, cell);
        self.waiting -= u32::from(self.ranks.is_waiting(node));
        self.ranks.put(u32::from(priority), node, to_front);
    }

    /// Takes the head of the first priority that isn't empty, then of the prefetch list. None exactly where all are
    /// empty. Takes a step for each priority.
    pub fn take(&mut self) -> Option<Request>
        ensures taken { result ≡ next_request self.old }
        ensures removed { self.new ≡ without_next self.old result }
        ensures in_range { IfSome result (IsRequest self.new) }
    {
        let node = self.ranks.first()?;
        self.waiting -= u32::from(self.ranks.is_waiting(node));
        self.ranks.remove(node);
        Some(self.ranks.request(node))
    }

    /// Moves a viewer's requests from the priorities to the back of the prefetch list, in order of priority and
    /// place, then drops the front of the prefetch list down to its bound. Answers how many it moved. Takes steps
    /// for each request that it moves, and none for those of other viewers.
    pub fn clear(&mut self, viewer: u32) -> u32
        requires { viewer < self.old.viewers }
        ensures moved { result ≡ length (of_viewer self.old viewer) }
        ensures cleared { self.new ≡ cleared self.old viewer }
    {
        let mut moved = 0;
        while self.ranks.move_first(viewer) {
            self.waiting += 1;
            moved += 1;
        }
        while self.waiting > self.bound {
            self.ranks.drop_first();
            self.waiting -= 1;
        }
        moved
    }
}

#[cfg(test)]
mod tests {
    use super::*;
    use std::test::Fail;

    // Of a prefetch list with so many places: what comes after another viewer's request.
    const ROWS: [(u32, bool, Option<Request>); 2] = [
        (4, false, Some(Request { viewer: 0, cell: 3 })),
        (0, true, None),
    ];

    #[test]
    fn a_cleared_request_comes_last_or_is_dropped(rt: HostRuntime) -> Result<(), Fail> {
        for (prefetch, to_front, last) in ROWS {
            let mut queues = Queues::new(rt.alloc(), 2, 8, 2, prefetch)?;
            queues.put(0, 3, 0, false);
            queues.put(1, 3, 1, to_front);
            assert_eq!(rt; queues.clear(0), 1);
            assert_eq!(rt; queues.take(), Some(Request { viewer: 1, cell: 3 }));
            assert_eq!(rt; queues.take(), last);
            assert_eq!(rt; queues.take(), None);
        }
        Ok(())
    }

    #[test]
    fn a_queue_tells_its_sizes(rt: HostRuntime) -> Result<(), Fail> {
        let queues = Queues::new(rt.alloc(), 2, 8, 3, 4)?;
        assert_eq!(rt; queues.viewers(), 2);
        assert_eq!(rt; queues.cells(), 8);
        assert_eq!(rt; queues.priorities(), 3);
        Ok(())
    }
}
