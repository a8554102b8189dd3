// The voxels of level 0: what a generator draws, one after another.
ghost use Rattle.std.specs.Prelude.{◌≡◌, ◌+◌, ◌-◌, ◌*◌, ◌/◌, ◌^◌, ◌<◌, ◌++◌, IfOk, length};
ghost use Rattle.demo_volume.specs.Voxels.{drawn, next_state};

use std::alloc::{AllocError, Global};

const FACTOR: u64 = 6364136223846793005;

const STEP: u64 = 1442695040888963407;

/// The state of the generator after a step.
fn next_state(state: u64) -> u64
    ensures { result ≡ next_state state }
{
    state.wrapping_mul(FACTOR).wrapping_add(STEP)
}

/// What the generator draws in so many steps from a state on: the high 16 bits of each new state.
#[tactic(auto, using(crate::proofs::DrawnLemmas::drawn_step, crate::proofs::DrawnLemmas::drawn_end), unfolding(crate::specs::Voxels::drawn))]
pub(crate) fn drawn(alloc: Global, steps: usize, mut state: u64) -> Result<Vec<u16>, AllocError>
    ensures voxels { IfOk result (λ voxels. voxels.items ≡ drawn steps state) }
    ensures count { IfOk result (λ voxels. length voxels.items ≡ steps) }
{
    let mut voxels = Vec::with_capacity(alloc, steps)?;
    for _ in 0..steps {
        state = next_state(state);
        voxels.push((state >> 48) as u16)?;
    }
    Ok(voxels)
}
