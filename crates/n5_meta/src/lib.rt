//! The attributes of N5 datasets and pyramids, read from JSON.
#![tactic(auto)]

ghost use Rattle.n5_meta.specs.Laws.{OpeningsAreAlike};

mod attr;
mod attributes;
mod described;
mod factors;
mod levels;
mod member;
mod meta_err;
mod open_err;
mod pyramid;
mod spot;
mod value;

pub use attr::Attr;
pub use attributes::read_attributes;
pub use member::Member;
pub use meta_err::MetaErr;
pub use open_err::OpenErr;
pub use pyramid::open_pyramid;
pub use spot::Spot;

/// Opening a pyramid is one function of what the store holds, and of which gets fail: what is asked, and what is answered.
pub fn openings_are_alike()
    ensures { OpeningsAreAlike }
{}
