// Positions inside a box and their numbers, x fastest, in 32 bits.
ghost use Rattle.std.specs.Prelude.{◌≡◌, ◌^◌, ◌<◌, ◌≤◌, [], ◌∷◌};
ghost use Rattle.voxel_box.specs.Box.{volume, number, position_of, IsWithin, AreWithin};

/// The number of a position inside a box of at most 2^21 places.
pub fn number(at: [u32; 3], sides: [u32; 3]) -> u32
    requires within { IsWithin at sides }
    requires small { volume sides ≤ 2 ^ 21 }
    ensures number { result ≡ number at sides }
    ensures below { result < volume sides }
{
    at[0] + sides[0] * (at[1] + sides[1] * at[2])
}

/// The position of a number inside a box.
pub fn position_of(n: u32, sides: [u32; 3]) -> [u32; 3]
    requires { n < volume sides }
    ensures position { result ≡ position_of n sides }
    ensures within { IsWithin result sides }
    ensures number { number result sides ≡ n }
{
    let rest = n / sides[0];
    [n % sides[0], rest % sides[1], rest / sides[1]]
}

/// The product of three sides of a box of at most 2^21 places.
#[tactic(auto, using(crate::proofs::GridLemmas::two_sides_small))]
pub fn product(sides: [u32; 3]) -> u32
    requires some { AreWithin (1 ∷ 1 ∷ 1 ∷ []) sides }
    requires small { volume sides ≤ 2 ^ 21 }
    ensures { result ≡ volume sides }
{
    let [x, y, z] = sides;
    x * y * z
}
