// The views that the lines so far say.
ghost use Rattle.std.specs.Prelude.{◌≡◌, ◌+◌, ◌*◌, ◌^◌, ◌≤◌, ◌||◌, true, [], List, ℕ, OnOk, map, nat_le};
ghost use Rattle.std.specs.Str.{bytes_eq};
ghost use Rattle.view_script.specs.Meaning.{has_room, is_named};
ghost use Rattle.view_script.specs.Views.{KeepsOneMore, KeepsViews};

use crate::command::Command;
use crate::name::Name;
use arrayvec::ArrayString;
use scale_pick::View;
use std::alloc::{AllocError, Global};
use std::collections::BTreeSet;
use std::marker::Model;

/// The greatest number of pixels of all views.
const MAX_PIXELS: u64 = 1 << 26;

/// What is kept of the views so far, so that no line goes over them again: how many pixels they have, and their names.
#[derive(Drop)]
pub struct Views {
    pixels: u32,
    names: BTreeSet<ArrayString<32>>,
}

impl Model for Views {
    ghost use Rattle.std.specs.Prelude.{map};
    ghost use Rattle.view_script.specs.Views.{Kept};

    ghost Value = { Kept };

    ghost view = { λ v. record { pixels = v.pixels; names = map (λ name. name.bytes) v.names.keys } };
}

impl Views {
    /// No views. It takes no memory.
    pub fn new(alloc: Global) -> Views
        ensures { KeepsViews result [] }
    {
        Views {
            pixels: 0,
            names: BTreeSet::new(alloc),
        }
    }

    /// Whether the pixels of a command fit.
    pub fn has_room(&self, command: &Command) -> bool
        ensures { result ≡ has_room self.now.pixels command.now }
    {
        match command {
            Command::View { view, .. } => fits(self.pixels, pixels(view)),
            _ => true,
        }
    }

    /// Whether a view has this name.
    pub fn has_name(&self, name: &Name) -> bool
        ensures { result ≡ is_named self.now.names name.now }
    {
        has(&self.names, &name.text())
    }

    /// Keeps a command too.
    pub fn keep(&mut self, command: &Command) -> Result<(), AllocError>
        requires { has_room self.old.pixels command.now ≡ true }
        ensures { OnOk result (KeepsOneMore self.old command.now self.new) }
    {
        match command {
            Command::View { name, view } => self.keep_view(name, view),
            _ => Ok(()),
        }
    }

    fn keep_view(&mut self, name: &Name, view: &View) -> Result<(), AllocError>
        requires { self.old.pixels + view.now.width * view.now.height ≤ 2 ^ 26 }
        ensures pixels { OnOk result (self.new.pixels ≡ self.old.pixels + view.now.width * view.now.height) }
        ensures names { OnOk result ((other : List ℕ) → is_named self.new.names other ≡ (is_named self.old.names other || bytes_eq other name.now)) }
    {
        self.pixels += view.width * view.height;
        add_name(&mut self.names, name.text())
    }
}

#[tactic(auto, using(crate::proofs::NamesLemmas::named_when_found))]
fn has(names: &BTreeSet<ArrayString<32>>, name: &ArrayString<32>) -> bool
    ensures { result ≡ is_named (map (λ name. name.bytes) names.now.keys) name.now.bytes }
{
    names.contains(name)
}

#[tactic(auto, using(crate::proofs::NamesLemmas::named_after))]
fn add_name(names: &mut BTreeSet<ArrayString<32>>, name: ArrayString<32>) -> Result<(), AllocError>
    ensures { OnOk result ((other : List ℕ) → is_named (map (λ name. name.bytes) names.new.keys) other ≡ (is_named (map (λ name. name.bytes) names.old.keys) other || bytes_eq other name.bytes)) }
{
    names.insert(name)?;
    Ok(())
}

fn fits(before: u32, pixels: u64) -> bool
    ensures { result ≡ nat_le (before + pixels) (2 ^ 26) }
{
    pixels <= MAX_PIXELS && before as u64 + pixels <= MAX_PIXELS
}

fn pixels(view: &View) -> u64
    ensures { result ≡ view.now.width * view.now.height }
{
    view.width as u64 * view.height as u64
}
