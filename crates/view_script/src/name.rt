// Names of views.
ghost use Rattle.std.specs.Prelude.{◌≡◌, ◌≤◌, List, ℕ, length, if◌then◌else◌};
ghost use Rattle.std.specs.List.{list_all};
ghost use Rattle.view_script.specs.Name.{is_view_name_byte, is_view_name};

use arrayvec::ArrayString;
use std::marker::Model;
use std::str;

/// The greatest number of bytes of a name.
const LONGEST_NAME: usize = 32;

/// A view's name: 1 to 32 bytes, each a lower-case letter, a digit or `_`. In contracts it is the list of its bytes.
#[derive(Drop)]
pub struct Name {
    text: ArrayString<32>,
}

impl Model for Name {
    ghost Value = { List ℕ };

    ghost view = { λ n. n.text.bytes };
}

impl Name {
    /// The name that a word is, where it is one.
    #[tactic(auto, using(crate::proofs::NameLemmas::names_are_text))]
    pub fn of(word: &[u8]) -> Option<Name>
        ensures { result ≡ (if is_view_name word.now then Some word.now else None) }
    {
        if !is_name(word) {
            return None;
        }
        match str::from_utf8(word) {
            Ok(text) => named(text),
            Err(_) => None,
        }
    }

    /// The name as a text of its own.
    pub fn text(&self) -> ArrayString<32>
        ensures { result.bytes ≡ self.now }
    {
        self.text
    }
}

fn named(text: &str) -> Option<Name>
    requires { length text.now ≤ 32 }
    ensures { result ≡ Some text.now }
{
    match ArrayString::from(text) {
        Ok(text) => Some(Name { text }),
        Err(_) => None,
    }
}

fn is_name(word: &[u8]) -> bool
    ensures { result ≡ is_view_name word.now }
{
    !word.is_empty() && word.len() <= LONGEST_NAME && are_name_bytes(word)
}

fn are_name_bytes(word: &[u8]) -> bool
    ensures { result ≡ list_all is_view_name_byte word.now }
{
    word.iter().all(|b| b.is_ascii_lowercase() || b.is_ascii_digit() || *b == b'_')
}
