// What is painted, and how.
use crate::Strategy;
use whole_affine::Affine;

/// A view of a pyramid: where its pixels lie, from which level on it is painted, how cells that aren't there are treated, and which numbers are shown from black to white.
///
/// With no level the view wants the level that is best for its map.
#[derive(Clone, Copy, Debug)]
pub struct View {
    pub affine: Affine,
    pub width: u32,
    pub height: u32,
    pub level: Option<u8>,
    pub strategy: Strategy,
    pub low: u64,
    pub high: u64,
}
