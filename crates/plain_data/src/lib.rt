//! Lists and texts that contracts see as plain data, and the names of roots.
#![tactic(auto)]

mod items;
mod root_name;
mod text;

pub use items::Items;
pub use root_name::is_root_name;
pub use text::Text;
