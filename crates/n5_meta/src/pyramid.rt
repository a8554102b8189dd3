// A pyramid by the attributes that a store holds. An error is the first refusal in the order of work.
ghost use Rattle.std.specs.Prelude.{◌≡◌, ◌≤◌, ◌+◌, ◌^◌, ◌++◌, IsTrue, IfOk, OnOk, length, string_bytes};
ghost use Rattle.std.specs.Result.{result_err};
ghost use Rattle.n5_meta.specs.Asks.{AsksLevels, AsksOnce, AsksPyramid, IsAskedOfSetup, IsAttributesGot, attr_by, setup_by};
ghost use Rattle.n5_meta.specs.Gets.{IsAttributesKey, Opens};
ghost use Rattle.n5_meta.specs.Pyramid.{AnswersOpened, are_few, attr_in, bytes_or, described_from, level_key, pyramid_in, refusal_at, setup_in, setup_key};
ghost use Rattle.cell_store.specs.Store.{held_of};

use crate::described::Described;
use crate::factors::read_factors;
use crate::levels::levels_of;
use crate::{Attr, MetaErr, OpenErr, Spot, read_attributes};
use cell_grid::Geometry;
use cell_store::{Got, Store};
use plain_data::Items;
use std::alloc::{AllocError, Global};

/// The most bytes of an attributes file.
const LONGEST_ATTRIBUTES: u64 = 1 << 20;

/// The most levels of a pyramid.
const MOST_LEVELS: usize = 8;

/// Opens the pyramid under a root name: gets the setup's attributes, then those of each level in order, each with a
/// limit of 2^20 bytes, then makes the levels and the pyramid of them. The root should be a root name; the keys are
/// made of any text in the same way.
///
/// The answer is the first refusal in this order. `ReadFault` comes exactly where a get failed, and nothing is got
/// after it. Nothing is put.
#[tactic(auto, unfolding(crate::specs::Pyramid::pyramid_in), using(crate::proofs::PyramidLemmas::described_before, crate::proofs::GetLemmas::opens_on, crate::proofs::GetLemmas::opens_refused))]
pub fn open_pyramid<S: Store>(alloc: Global, store: &mut S, root: &str) -> Result<Geometry, OpenErr>
    ensures opens { Opens root.now (S.contents store.old) (S.contents store.new) (result_err result) }
    ensures answer { IsTrue (S.contents store.old).told → AnswersOpened (λ geometry. geometry) result (pyramid_in (held_of (S.contents store.old)) root.now) }
    ensures asks { IsAskedOfSetup (AsksPyramid root.now) (S.contents store.old) (S.contents store.new) result }
{
    let mut bytes = Vec::new(alloc);
    let factors = read_setup(alloc, store, root, &mut bytes)?;
    let described = read_levels(alloc, store, root, factors.as_slice(), &mut bytes)?;
    let levels = levels_of(alloc, described.as_slice())?;
    match Geometry::new(levels) {
        Ok(geometry) => Ok(geometry),
        Err(err) => Err(OpenErr::Grid { err }),
    }
}

/// Gets and reads the factors of the levels, 1 to 8.
#[tactic(auto, unfolding(crate::specs::Pyramid::setup_in), using(crate::proofs::GetLemmas::opens_refused))]
fn read_setup<S: Store>(
    alloc: Global,
    store: &mut S,
    root: &str,
    bytes: &mut Vec<u8>,
) -> Result<Items<[u32; 3]>, OpenErr>
    ensures opens { Opens root.now (S.contents store.old) (S.contents store.new) (result_err result) }
    ensures answer { IsTrue (S.contents store.old).told → AnswersOpened (λ factors. factors) result (setup_in ((held_of (S.contents store.old)) (setup_key root.now))) }
    ensures asks { IsAskedOfSetup (AsksOnce (setup_key root.now) setup_by) (S.contents store.old) (S.contents store.new) result }
    ensures few { IfOk result (λ factors. length factors ≤ 8) }
{
    let Ok(key) = setup_key(alloc, root) else {
        return Err(OpenErr::Memory);
    };
    get_attributes(store, root, key.as_str(), Spot::Setup, bytes)?;
    let factors = match read_factors(alloc, bytes.as_slice()) {
        Ok(factors) => factors,
        Err(err) => return Err(refusal_at(Spot::Setup, err)),
    };
    let count = factors.len();
    if !are_few(count) {
        return Err(OpenErr::LevelCount {
            count: count as u64,
        });
    }
    Ok(factors)
}

/// Whether a pyramid may have so many levels.
fn are_few(levels: usize) -> bool
    ensures { result ≡ are_few levels }
{
    0 < levels && levels <= MOST_LEVELS
}

/// Gets and reads the attributes of the levels in order.
#[tactic(auto, using(crate::proofs::GetLemmas::opens_on, crate::proofs::GetLemmas::opens_nothing, crate::proofs::LoopLemmas::described_stops, crate::proofs::LoopLemmas::described_goes_on))]
fn read_levels<S: Store>(
    alloc: Global,
    store: &mut S,
    root: &str,
    factors: &[[u32; 3]],
    bytes: &mut Vec<u8>,
) -> Result<Items<Described>, OpenErr>
    requires { length factors.now ≤ 8 }
    ensures opens { Opens root.now (S.contents store.old) (S.contents store.new) (result_err result) }
    ensures answer { IsTrue (S.contents store.old).told → AnswersOpened (λ described. described) result (described_from (held_of (S.contents store.old)) root.now 0 factors.now) }
    ensures asks { IsAskedOfSetup (AsksLevels root.now 0 factors.now) (S.contents store.old) (S.contents store.new) result }
{
    let mut described = Items::new(alloc);
    let mut level = 0u8;
    for factor in factors {
        let attr = read_level(alloc, store, root, level, bytes)?;
        let factor = *factor;
        if described.push(Described { factor, attr }).is_err() {
            return Err(OpenErr::Memory);
        }
        level += 1;
    }
    Ok(described)
}

/// Gets and reads the attributes of a level.
#[tactic(auto, unfolding(crate::specs::Pyramid::attr_in), using(crate::proofs::GetLemmas::opens_refused))]
fn read_level<S: Store>(
    alloc: Global,
    store: &mut S,
    root: &str,
    level: u8,
    bytes: &mut Vec<u8>,
) -> Result<Attr, OpenErr>
    ensures opens { Opens root.now (S.contents store.old) (S.contents store.new) (result_err result) }
    ensures answer { IsTrue (S.contents store.old).told → AnswersOpened (λ attr. attr) result (attr_in level ((held_of (S.contents store.old)) (level_key root.now level))) }
    ensures asks { IsAskedOfSetup (AsksOnce (level_key root.now level) (attr_by level)) (S.contents store.old) (S.contents store.new) result }
{
    let Ok(key) = level_key(alloc, root, level) else {
        return Err(OpenErr::Memory);
    };
    get_attributes(store, root, key.as_str(), Spot::Level(level), bytes)?;
    match read_attributes(alloc, bytes.as_slice()) {
        Ok(attr) => Ok(attr),
        Err(err) => Err(refusal_at(Spot::Level(level), err)),
    }
}

/// Gets the attributes under a key.
#[tactic(auto, using(crate::proofs::GetLemmas::logs_get, crate::proofs::GetLemmas::logs_fault, crate::proofs::GetLemmas::logs_no_memory))]
fn get_attributes<S: Store>(
    store: &mut S,
    root: &str,
    key: &str,
    spot: Spot,
    bytes: &mut Vec<u8>,
) -> Result<(), OpenErr>
    requires { IsAttributesKey root.now key.now }
    ensures opens { Opens root.now (S.contents store.old) (S.contents store.new) (result_err result) }
    ensures answer { IsTrue (S.contents store.old).told → AnswersOpened (λ _. bytes.new.items) result (bytes_or spot ((held_of (S.contents store.old)) key.now)) }
    ensures asks { IsAttributesGot key.now spot (S.contents store.old) (S.contents store.new) result bytes.new.items }
{
    match store.get(key, LONGEST_ATTRIBUTES, bytes) {
        Got::Found => Ok(()),
        Got::Missing => Err(OpenErr::NoAttributes { spot }),
        Got::TooLong { len } => Err(OpenErr::TooLong { spot, len }),
        Got::Failed => Err(OpenErr::ReadFault),
        Got::NoMemory => Err(OpenErr::Memory),
    }
}

/// A refusal of attributes, with where they stand.
fn refusal_at(spot: Spot, err: MetaErr) -> OpenErr
    ensures { result ≡ refusal_at spot err }
{
    match err {
        MetaErr::Memory => OpenErr::Memory,
        err => OpenErr::Meta { spot, err },
    }
}

fn setup_key(alloc: Global, root: &str) -> Result<String, AllocError>
    ensures { IfOk result (λ key. string_bytes key ≡ setup_key root.now) }
{
    format!(in alloc; "{root}/setup0/attributes.json")
}

fn level_key(alloc: Global, root: &str, level: u8) -> Result<String, AllocError>
    ensures { IfOk result (λ key. string_bytes key ≡ level_key root.now level) }
{
    format!(in alloc; "{root}/setup0/timepoint0/s{level}/attributes.json")
}
