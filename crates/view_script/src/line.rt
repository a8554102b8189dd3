// What a line says.
use crate::command::Command;
use crate::root::Root;
use cell_grid::Kind;

/// The first word of a line.
#[derive(Clone, Copy)]
pub enum Keyword {
    Raw,
    Open,
    Range,
    Phase,
    Actor,
    Get,
    Set,
    View,
    Fetch,
}

/// What a line says. Its root is borrowed from the line.
#[derive(Drop)]
pub enum Line<'a> {
    Raw {
        root: Root<'a>,
        kind: Kind,
        dims: [u64; 3],
        cell: [u32; 3],
    },
    Open {
        root: Root<'a>,
    },
    Range([u64; 2]),
    Phase,
    Actor,
    Command(Command),
}
