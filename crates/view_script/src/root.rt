// Root names within a line.
ghost use Rattle.std.specs.Prelude.{◌≡◌, List, ℕ, if◌then◌else◌};
ghost use Rattle.plain_data.specs.RootName as names;

use plain_data::is_root_name;
use std::marker::Model;
use std::str;

/// A root name. In contracts it is the list of its bytes.
#[derive(Drop)]
pub struct Root<'a> {
    name: &'a str,
}

impl<'a> Model for Root<'a> {
    ghost Value = { List ℕ };

    ghost view = { λ r. r.name.now };
}

impl<'a> Root<'a> {
    /// The root name that a word is, where it is one.
    pub fn of(word: &'a [u8]) -> Option<Root<'a>>
        ensures { result ≡ (if names.is_root_name word.now then Some word.now else None) }
    {
        if !is_root_name(word) {
            return None;
        }
        match str::from_utf8(word) {
            Ok(name) => Some(Root { name }),
            Err(_) => None,
        }
    }

    pub fn name(&self) -> &'a str
        ensures { result.now ≡ self.now }
    {
        self.name
    }
}
