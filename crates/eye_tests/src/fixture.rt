// A pyramid of five cells of four voxels, cells over it in eight slots, and a queue of two viewers for them.
ghost use Rattle.std.specs.Prelude.{◌≡◌, ◌<◌, [], IfOk, length, IfSome};
ghost use Rattle.cell_grid.specs.Pyramid.{cells_of};
ghost use Rattle.live_cells.specs.Cells.{table, knows, IsCellPassOf};
ghost use Rattle.pin_rule.specs.Calls.{made_of};
ghost use Rattle.eye_tests.specs.Seated.{IsSeated, IsFirstOf};

use arr_history::{Closed, Tally};
use cell_file::Keys;
use cell_grid::{Extent, Geometry, Kind, Level};
use cell_store::MemStore;
use fetch_queue::Queues;
use hier_paint::{Strategy, View};
use live_cells::{CellPass, Cells};
use plain_data::is_root_name;
use queue_desk::QueueDesk;
use std::alloc::Global;
use std::collections::BTreeMap;
use std::process::Abort;
use std::test::Fail;
use team_passes::TeamPass;
use turn_cell::{Turn, TurnPass};
use whole_affine::Affine;

/// The counts of a run: hits, misses, loads, evictions, writebacks and closed.
pub(crate) fn tally(counts: [u64; 6]) -> Tally {
    let [hits, misses, loads, evictions, writebacks, closed] = counts;
    Tally {
        hits,
        misses,
        loads,
        evictions,
        writebacks,
        closed,
    }
}

/// Four cells of four voxels, and a coarser level of one cell.
fn pyramid(rt: &impl Abort, alloc: Global) -> Result<Geometry, Fail>
    ensures { IfOk result (λ g. (cells_of g ≡ 5) × (length g ≡ 2)) }
{
    let fine = Level {
        extent: Extent::new([4, 4, 1], [2, 2, 1])?,
        factor: [1, 1, 1],
        kind: Kind::U8,
    };
    let coarse = Level {
        extent: Extent::new([2, 2, 1], [2, 2, 1])?,
        factor: [2, 2, 1],
        kind: Kind::U8,
    };
    let geometry = Geometry::new(vec![in alloc; fine, coarse]?)?;
    assert_eq!(rt; geometry.cells(), 5);
    assert_eq!(rt; geometry.levels(), 2);
    Ok(geometry)
}

/// A store that holds blocks of cell 1 and of the coarse one.
fn store(alloc: Global) -> Result<MemStore, Fail> {
    let fine = [0, 0, 0, 3, 0, 0, 0, 2, 0, 0, 0, 2, 0, 0, 0, 1, 5, 6, 7, 8];
    let coarse = [
        0, 0, 0, 3, 0, 0, 0, 2, 0, 0, 0, 2, 0, 0, 0, 1, 11, 12, 13, 14,
    ];
    let mut held = BTreeMap::new(alloc);
    let key = format!(in alloc; "pyr/setup0/timepoint0/s0/1/0/0")?;
    let _ = held.insert(key, Vec::from_array(alloc, fine)?)?;
    let key = format!(in alloc; "pyr/setup0/timepoint0/s1/0/0/0")?;
    let _ = held.insert(key, Vec::from_array(alloc, coarse)?)?;
    Ok(MemStore::new(alloc, held, Vec::new(alloc)))
}

/// Cells of the pyramid in eight slots over that store, with their first pass.
fn five_cells(rt: &impl Abort, alloc: Global) -> Result<(Cells<MemStore>, CellPass<MemStore>), Fail>
    ensures pass { IfOk result (λ r. IsCellPassOf r.0 r.1) }
    ensures first { IfOk result (λ r. ((knows r.1).number ≡ 0) × ((knows r.1).ended ≡ []) × ((knows r.1).drawn ≡ 1) × ((knows r.1).pins ≡ [])) }
    ensures cells { IfOk result (λ r. cells_of (made_of (table r.0)).levels.value ≡ 5) }
    ensures levels { IfOk result (λ r. length (made_of (table r.0)).levels.value ≡ 2) }
{
    let geometry = pyramid(rt, alloc)?;
    assert!(rt; is_root_name(b"pyr"));
    assert!(rt; geometry.frame() <= 4);
    let keys = Keys::new(&geometry, "pyr", false)?;
    let stores = vec![in alloc; store(alloc)?]?;
    match Cells::new(alloc, &geometry, &keys, 8, stores) {
        Ok(made) => Ok(made),
        Err(_) => Err(Fail::new("out of memory")),
    }
}

/// Cells and a queue for them, with the first pass of both.
pub(crate) fn seated(
    rt: &impl Abort,
    alloc: Global,
) -> Result<(Cells<MemStore>, Turn<QueueDesk>, TeamPass<MemStore>), Fail>
    ensures seated { IfOk result (λ r. IsSeated r.0 r.1 r.2) }
    ensures first { IfOk result (λ r. IsFirstOf 1 r.2) }
{
    let queues = Queues::new(alloc, 2, 5, 2, 4)?;
    let Ok((queue, asks)) = Turn::new(alloc, QueueDesk::new(queues)) else {
        return Err(Fail::new("no memory for a turn"));
    };
    match five_cells(rt, alloc) {
        Ok((cells, pass)) => Ok((cells, queue, TeamPass { cells: pass, asks })),
        Err(fail) => {
            let _desk = queue.close(asks);
            Err(fail)
        }
    }
}

/// Splits three passes of each from the first ones.
pub(crate) fn split_three(
    rt: &impl Abort,
    cells: &Cells<MemStore>,
    queue: &Turn<QueueDesk>,
    first: TeamPass<MemStore>,
) -> (
    TeamPass<MemStore>,
    TeamPass<MemStore>,
    TeamPass<MemStore>,
    TeamPass<MemStore>,
)
    requires first { IsSeated cells.now queue.now first × IsFirstOf 1 first }
    ensures first { IsSeated cells.now queue.now result.0 × IsFirstOf 4 result.0 }
    ensures one { IsSeated cells.now queue.now result.1 }
    ensures two { IsSeated cells.now queue.now result.2 }
    ensures three { IsSeated cells.now queue.now result.3 }
{
    let TeamPass {
        cells: mut pass,
        mut asks,
    } = first;
    let Ok(one) = cells.split(&mut pass) else {
        panic!(rt; "no memory for a pass")
    };
    let Ok(two) = cells.split(&mut pass) else {
        panic!(rt; "no memory for a pass")
    };
    let Ok(three) = cells.split(&mut pass) else {
        panic!(rt; "no memory for a pass")
    };
    let one = seat(one, queue.split(&mut asks));
    let two = seat(two, queue.split(&mut asks));
    let three = seat(three, queue.split(&mut asks));
    (seat(pass, asks), one, two, three)
}

/// Both passes as one.
fn seat(cells: CellPass<MemStore>, asks: TurnPass<QueueDesk>) -> TeamPass<MemStore>
    ensures { (result.cells ≡ cells) × (result.asks ≡ asks) }
{
    TeamPass { cells, asks }
}

/// Joins three passes of each into the first ones, and closes both.
pub(crate) fn finish(
    cells: Cells<MemStore>,
    queue: Turn<QueueDesk>,
    first: TeamPass<MemStore>,
    one: TeamPass<MemStore>,
    two: TeamPass<MemStore>,
    three: TeamPass<MemStore>,
) -> Closed<MemStore>
    requires first { IsSeated cells queue first × IsFirstOf 4 first }
    requires one { IsSeated cells queue one }
    requires two { IsSeated cells queue two }
    requires three { IsSeated cells queue three }
{
    let TeamPass {
        cells: mut pass,
        mut asks,
    } = first;
    let TeamPass {
        cells: other,
        asks: other_asks,
    } = one;
    cells.join(&mut pass, other);
    queue.join(&mut asks, other_asks);
    let TeamPass {
        cells: other,
        asks: other_asks,
    } = two;
    cells.join(&mut pass, other);
    queue.join(&mut asks, other_asks);
    let TeamPass {
        cells: other,
        asks: other_asks,
    } = three;
    cells.join(&mut pass, other);
    queue.join(&mut asks, other_asks);
    let _desk = queue.close(asks);
    let (closed, _trail) = cells.shut(pass);
    closed
}

/// A view of the finest level, a pixel a voxel, four pixels wide.
pub(crate) fn view(height: u32, strategy: Strategy) -> Option<View>
    ensures sides { IfSome result (λ v. (v.width ≡ 4) × (v.height ≡ height)) }
    ensures range { IfSome result (λ v. v.low < v.high) }
    ensures level { IfSome result (λ v. IfSome v.level (λ level. level < 2)) }
{
    Some(View {
        affine: Affine::new(1, [[1, 0, 0], [0, 1, 0], [0, 0, 0]]).ok()?,
        width: 4,
        height,
        level: Some(0),
        strategy,
        low: 0,
        high: 255,
    })
}
