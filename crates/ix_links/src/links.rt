ghost use Rattle.std.specs.Prelude.{◌≡◌, ℕ, ◌+◌, ◌^◌, ◌<◌, true, false, List, [], ◌∷◌, ◌++◌, length, replicate, IfOk, IfSome, nat_lt, if◌then◌else◌};
ghost use Rattle.ix_links.specs.NodeList.{first, rest};
ghost use Rattle.ix_links.specs.NodeLists.{NodeLists, list_at, with_list, without_node, is_linked, list_of_node, Follows, IsDisjoint};

use crate::rings::Rings;
use std::alloc::{AllocError, Global};
use std::marker::Model;

/// No memory was found.
pub type Memory = AllocError;

/// Disjoint lists of the node numbers `0..nodes`; the lists have the numbers `0..lists`.
///
/// Each node has the entry after it, the entry before it and its list, 16 bytes in all. Each list has one more
/// entry, its head, at `nodes + list`: after it stands the list's first node, and before it the last one. So a list
/// is a ring through its head, and its ends are no special case.
#[derive(Debug, Drop)]
pub struct Links {
    nodes: u32,
    lists: u32,
    rings: Rings,
    owners: Vec<Option<u32>>,
}

// Clauses see the number of nodes and the lists.
impl Model for Links {
    ghost use Rattle.ix_links.specs.NodeLists.{NodeLists};

    ghost Value = { NodeLists };

    ghost use Rattle.ix_links.specs.Links.{lists_of, IsWhole};

    ghost view = { lists_of };

    ghost invariant = { IsWhole };
}

impl Links {
    /// All lists are empty. Takes memory for `nodes` and `lists`, and no later call takes any.
    pub fn new(alloc: Global, nodes: u32, lists: u32) -> Result<Links, Memory>
        requires few_nodes { nodes < 2 ^ 31 }
        requires few_lists { lists < 2 ^ 31 }
        ensures made { IfOk result (λ links. links ≡ record { nodes = nodes; lists = replicate lists [] }) }
        ensures disjoint { IfOk result IsDisjoint }
    {
        Ok(Links {
            nodes,
            lists,
            rings: Rings::new(alloc, nodes + lists)?,
            owners: vec![in alloc; None; nodes as usize]?,
        })
    }

    /// Puts a node that is in no list at the front of a list.
    pub fn push_front(&mut self, list: u32, node: u32)
        requires list_in_range { list < length self.old.lists }
        requires node_in_range { node < self.old.nodes }
        requires free { is_linked self.old node ≡ false }
        ensures pushed { self.new ≡ with_list self.old list (node ∷ list_at self.old list) }
        ensures disjoint { IsDisjoint self.new }
    {
        self.rings.insert(self.nodes + list, node);
        self.owners[node as usize] = Some(list);
    }

    /// Puts a node that is in no list at the back of a list.
    pub fn push_back(&mut self, list: u32, node: u32)
        requires list_in_range { list < length self.old.lists }
        requires node_in_range { node < self.old.nodes }
        requires free { is_linked self.old node ≡ false }
        ensures pushed { self.new ≡ with_list self.old list (list_at self.old list ++ node ∷ []) }
        ensures disjoint { IsDisjoint self.new }
    {
        let last = self.rings.before[(self.nodes + list) as usize];
        self.rings.insert(last, node);
        self.owners[node as usize] = Some(list);
    }

    /// Takes a node out of the list that it is in.
    pub fn remove(&mut self, node: u32)
        requires { is_linked self.old node ≡ true }
        ensures removed { self.new ≡ without_node self.old node }
        ensures free { is_linked self.new node ≡ false }
        ensures disjoint { IsDisjoint self.new }
    {
        self.rings.remove(node);
        self.owners[node as usize] = None;
    }

    /// Takes out the first node of a list. None exactly where the list is empty.
    pub fn pop_front(&mut self, list: u32) -> Option<u32>
        requires { list < length self.old.lists }
        ensures popped { result ≡ first (list_at self.old list) }
        ensures kept { self.new ≡ with_list self.old list (rest (list_at self.old list)) }
        ensures node { IfSome result (λ node. node < self.new.nodes) }
        ensures free { IfSome result (λ node. is_linked self.new node ≡ false) }
        ensures disjoint { IsDisjoint self.new }
    {
        let node = self.front(list)?;
        self.remove(node);
        Some(node)
    }

    /// The first node of a list. None exactly where the list is empty.
    pub fn front(&self, list: u32) -> Option<u32>
        requires { list < length self.now.lists }
        ensures front { result ≡ first (list_at self.now list) }
        ensures disjoint { IsDisjoint self.now }
    {
        self.node_at(self.rings.after[(self.nodes + list) as usize])
    }

    /// The node behind a node in its list. None exactly at the list's end.
    pub fn next(&self, node: u32) -> Option<u32>
        requires { is_linked self.now node ≡ true }
        ensures { Follows self.now node result }
    {
        self.node_at(self.rings.after[node as usize])
    }

    /// How many nodes there are.
    pub fn nodes(&self) -> u32
        ensures { result ≡ self.now.nodes }
    {
        self.nodes
    }

    /// The list that a node is in. None exactly where it is in none.
    pub fn list_of(&self, node: u32) -> Option<u32>
        requires { node < self.now.nodes }
        ensures { result ≡ list_of_node self.now node }
    {
        let node = node as usize;
        self.owners[node]
    }

    // The node of an entry, and none of a head.
    fn node_at(&self, entry: u32) -> Option<u32>
        ensures { result ≡ (if nat_lt entry self.now.nodes then Some entry else None) }
    {
        if entry < self.nodes {
            Some(entry)
        } else {
            None
        }
    }
}
