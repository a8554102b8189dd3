// A level of a pyramid as its attributes describe it.
use crate::Attr;

/// A level's factors, from the setup's attributes, and its own attributes.
#[derive(Clone, Copy)]
pub struct Described {
    pub factor: [u32; 3],
    pub attr: Attr,
}
