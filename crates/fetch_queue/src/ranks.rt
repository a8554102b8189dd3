ghost use Rattle.std.specs.Prelude.{◌≡◌, ℕ, ◌+◌, ◌*◌, ◌^◌, ◌<◌, ◌≤◌, true, false, List, [], ◌∷◌, ◌++◌, length, replicate, IsTrue, IfOk, IfSome, ◌↔◌, slice_get};
ghost use Rattle.ix_links.specs.NodeList.{contains, is_distinct, first};
ghost use Rattle.ix_links.specs.NodeLists.{NodeLists, list_at, with_list, without_node, is_linked, IsDisjoint};
ghost use Rattle.fetch_queue.specs.Ranking.{Ranking, own_of, ranked_nodes, waiting_nodes, all_nodes, with_order, joined_nodes, put_node, MovesNodes, DropsFirst};
ghost use Rattle.fetch_queue.specs.Requests.{request_of};

use crate::request::Request;
use ix_links::Links;
use std::alloc::{AllocError, Global};
use std::marker::Model;

/// The nodes of the queue in order: a list for each priority, and the prefetch list behind them.
///
/// Beside it each viewer has a list of its own for each priority, so that its nodes are found without a look at
/// those of others.
#[derive(Debug, Drop)]
pub(crate) struct Ranks {
    viewers: u32,
    cells: u32,
    priorities: u32,
    order: Links,
    own: Links,
}

// Clauses see the lists by priority.
impl Model for Ranks {
    ghost use Rattle.fetch_queue.specs.Ranking.{Ranking};

    ghost Value = { Ranking };

    ghost use Rattle.fetch_queue.specs.Ranks.{ranking_of, IsRanked};

    ghost view = { ranking_of };

    ghost invariant = { IsRanked };
}

impl Ranks {
    /// All lists are empty.
    pub(crate) fn new(
        alloc: Global,
        viewers: u32,
        cells: u32,
        priorities: u32,
    ) -> Result<Ranks, AllocError>
        requires few_viewers { viewers ≤ 16 }
        requires some_cells { 1 ≤ cells }
        requires few_cells { cells ≤ 2 ^ 18 }
        requires few_priorities { priorities ≤ 8 }
        ensures made { IfOk result (λ ranks. ranks ≡ record { viewers = viewers; cells = cells; priorities = priorities; order = record { nodes = viewers * cells; lists = replicate (priorities + 1) [] } }) }
    {
        let nodes = viewers * cells;
        Ok(Ranks {
            viewers,
            cells,
            priorities,
            order: Links::new(alloc, nodes, priorities + 1)?,
            own: Links::new(alloc, nodes, viewers * priorities)?,
        })
    }

    /// How many viewers there are.
    pub(crate) fn viewers(&self) -> u32
        ensures { result ≡ self.now.viewers }
    {
        self.viewers
    }

    /// How many cells there are.
    pub(crate) fn cells(&self) -> u32
        ensures { result ≡ self.now.cells }
    {
        self.cells
    }

    /// How many priorities there are. One list more stands in the order.
    pub(crate) fn priorities(&self) -> u32
        ensures count { result ≡ self.now.priorities }
        ensures few { result ≤ 8 }
        ensures lists { length self.now.order.lists ≡ result + 1 }
    {
        self.priorities
    }

    /// The node of a pair.
    pub(crate) fn node(&self, viewer: u32, cell: u32) -> u32
        requires viewer_in_range { viewer < self.now.viewers }
        requires cell_in_range { cell < self.now.cells }
        ensures node { result ≡ viewer * self.now.cells + cell }
        ensures in_range { result < self.now.order.nodes }
    {
        viewer * self.cells + cell
    }

    /// The pair of a node.
    pub(crate) fn request(&self, node: u32) -> Request
        requires { node < self.now.order.nodes }
        ensures request { result ≡ request_of self.now.cells node }
        ensures viewer_in_range { result.viewer < self.now.viewers }
        ensures cell_in_range { result.cell < self.now.cells }
    {
        Request {
            viewer: node / self.cells,
            cell: node % self.cells,
        }
    }

    /// Whether a node is in the prefetch list.
    pub(crate) fn is_waiting(&self, node: u32) -> bool
        requires { node < self.now.order.nodes }
        ensures waiting { result ≡ contains (waiting_nodes self.now) node }
        ensures once { is_distinct (waiting_nodes self.now) ≡ true }
    {
        self.order.list_of(node) == Some(self.priorities)
    }

    /// The first node of all, by priority and place; those of the prefetch list come last.
    pub(crate) fn first(&self) -> Option<u32>
        ensures first { result ≡ first (all_nodes self.now) }
        ensures in_range { IfSome result (λ node. node < self.now.order.nodes) }
    {
        for list in 0..self.priorities + 1 {
            let front = self.order.front(list);
            if front.is_some() {
                return front;
            }
        }
        None
    }

    /// The first node of a viewer, by priority and place.
    fn first_of(&self, viewer: u32) -> Option<u32>
        requires { viewer < self.now.viewers }
        ensures { result ≡ first (own_of self.now.cells viewer (ranked_nodes self.now)) }
    {
        for priority in 0..self.priorities {
            let front = self.own.front(viewer * self.priorities + priority);
            if front.is_some() {
                return front;
            }
        }
        None
    }

    /// Takes a node out of wherever it stands.
    pub(crate) fn remove(&mut self, node: u32)
        requires { node < self.old.order.nodes }
        ensures { self.new ≡ with_order self.old (without_node self.old.order node) }
    {
        take_out(&mut self.order, node);
        take_out(&mut self.own, node);
    }

    /// Takes a node out of wherever it stands, and puts it at the front or at the back of a priority.
    pub(crate) fn put(&mut self, priority: u32, node: u32, to_front: bool)
        requires priority_in_range { priority < self.old.priorities }
        requires node_in_range { node < self.old.order.nodes }
        ensures { self.new ≡ put_node self.old priority node to_front }
    {
        let own = node / self.cells * self.priorities + priority;
        put_into(&mut self.order, priority, node, to_front);
        put_into(&mut self.own, own, node, to_front);
    }

    /// Moves a viewer's first node to the back of the prefetch list. False where the viewer has none.
    pub(crate) fn move_first(&mut self, viewer: u32) -> bool
        requires { viewer < self.old.viewers }
        ensures { MovesNodes result self.old self.new viewer }
    {
        let Some(node) = self.first_of(viewer) else {
            return false;
        };
        put_into(&mut self.order, self.priorities, node, false);
        take_out(&mut self.own, node);
        true
    }

    /// Drops the first node of the prefetch list.
    pub(crate) fn drop_first(&mut self)
        ensures { DropsFirst self.old self.new }
    {
        self.order.pop_front(self.priorities);
    }
}

// Takes a node out of the list that it is in, if it is in one.
fn take_out(links: &mut Links, node: u32)
    requires node_in_range { node < links.old.nodes }
    requires disjoint { IsDisjoint links.old }
    ensures removed { links.new ≡ without_node links.old node }
    ensures free { is_linked links.new node ≡ false }
    ensures disjoint { IsDisjoint links.new }
{
    if links.list_of(node).is_some() {
        links.remove(node);
    }
}

// Takes a node out of the list that it is in, if it is in one, and puts it into a list.
fn put_into(links: &mut Links, list: u32, node: u32, to_front: bool)
    requires list_in_range { list < length links.old.lists }
    requires node_in_range { node < links.old.nodes }
    requires disjoint { IsDisjoint links.old }
    ensures put { links.new ≡ with_list (without_node links.old node) list (joined_nodes (list_at (without_node links.old node) list) node to_front) }
    ensures disjoint { IsDisjoint links.new }
{
    take_out(links, node);
    if to_front {
        links.push_front(list, node);
    } else {
        links.push_back(list, node);
    }
}
