// What holds of keys and of standing.
ghost use Rattle.std.specs.Prelude.{ℕ, List, Option};
ghost use Rattle.cell_grid.specs.declared.level.Level.{Level};
ghost use Rattle.cell_file.specs.Keys.{KeyNames, AreKeys};
ghost use Rattle.cell_file.specs.Laws.{AreTheirOwn, IsStanding};

/// The edited keys of two cells differ, and an edited key is no other cell's base key.
pub fn cells_have_keys_of_their_own()
    ensures { (keys : KeyNames) → AreKeys keys → AreTheirOwn keys }
{}

/// A cell is void exactly where the bytes that decide are refused; where no key is held it stands for zeros; and two
/// stores that hold the same under its keys stand for the same there.
pub fn stores_stand_for_what_they_hold()
    ensures { (levels : List Level) (keys : KeyNames) (held : List ℕ → Option (List ℕ)) (cell : ℕ) → IsStanding levels keys held cell }
{}
