// What a table is told when it is made, as clauses see it.

use cell_file::Keys;
use cell_grid::Geometry;
use std::snapshot::Snapshot;

/// The geometry and the keys of a cache, how many slots it has, and the stores that it is made with.
pub struct Made<S> {
    pub levels: Snapshot<Geometry>,
    pub keys: Snapshot<Keys>,
    pub slots: u32,
    pub stores: Snapshot<Vec<S>>,
}

impl<S> Drop for Made<S> {
    fn drop(self) {
        let Self {
            levels: _,
            keys: _,
            slots: _,
            stores: _,
        } = self;
    }
}
