// A command word that is borrowed.
ghost use Rattle.std.specs.Prelude.{◌≡◌, List, ℕ};

use std::marker::Model;

/// A word of the command line. In contracts it is the list of its bytes.
#[derive(Drop)]
pub struct Word<'w> {
    text: &'w str,
}

impl<'w> Model for Word<'w> {
    ghost Value = { List ℕ };

    ghost view = { λ w. w.text.now };
}

impl<'w> Word<'w> {
    pub fn new(text: &'w str) -> Word<'w>
        ensures { result ≡ text.now }
    {
        Word { text }
    }

    pub fn text(&self) -> &'w str
        ensures { result.now ≡ self.now }
    {
        self.text
    }
}
