/// A cell that a viewer asks for.
#[derive(Clone, Copy, Debug, PartialEq, Eq)]
pub struct Request {
    pub viewer: u32,
    pub cell: u32,
}
