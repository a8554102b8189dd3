//! Words about boxes of numbers and about big-endian numbers, with their laws. There is no code to run here:
//! contracts of the crates above cite the definitions.
#![tactic(auto)]

ghost use Rattle.std.specs.Prelude.{ℕ, List};
ghost use Rattle.voxel_box.specs.BigEndian.{AreSpelled};
ghost use Rattle.voxel_box.specs.Box.{AreNumbered};

/// The positions inside a box and the numbers below its volume stand for each other.
pub fn positions_are_numbered_one_to_one()
    ensures { (sides : List ℕ) → AreNumbered sides }
{}

/// Bytes, the high byte first, and the numbers that fit into so many bytes stand for each other.
pub fn bytes_spell_numbers_one_to_one()
    ensures { (width : ℕ) → AreSpelled width }
{}
