// The picture of a command.
use scale_pick::Picture;
use view_script::Name;

/// The picture that a view command left, its name, and whether the command's reply is a frame; else the command was refused.
#[derive(Drop)]
pub struct Shot {
    pub name: Name,
    pub picture: Picture,
    pub shown: bool,
}
