// A walk through the calls, over a pyramid of five cells.
ghost use Rattle.std.specs.Prelude.{◌≡◌};

use crate::fixture::{cache, pyramid};
use fetch_queue::Queues;
use sole_eyes::SoleEyes;
use std::process::Abort;
use std::test::Fail;
use volatile_cell::{Budget, Eyes, Hints, Look, Request, Strategy, hints};

/// What a look at cell 1 reads first, where it is ready.
fn first_voxel<E: Eyes>(eyes: &mut E, strategy: Strategy, rt: &impl Abort) -> Option<u64>
    requires free { E.held eyes.old ≡ 0 }
    ensures free { E.held eyes.new ≡ 0 }
{
    assert!(rt; eyes.geometry().cells() == 5);
    assert!(rt; eyes.geometry().voxels(1) == 4);
    let mut budget = Budget::new(strategy);
    match eyes.look(1, &mut budget) {
        Ok(Look::Ready(handle)) => {
            let value = eyes.read(&handle, 0);
            eyes.release(handle);
            Some(value)
        }
        Ok(Look::NotReady { state: _ }) => None,
        Err(_) => None,
    }
}

/// Whether an acquire of the coarse cell loads it.
fn loads_coarse<E: Eyes>(eyes: &mut E, rt: &impl Abort) -> Option<bool>
    requires free { E.held eyes.old ≡ 0 }
    ensures free { E.held eyes.new ≡ 0 }
{
    assert!(rt; eyes.geometry().cells() == 5);
    match eyes.acquire(4) {
        Ok(handle) => {
            let loaded = eyes.loaded(&handle);
            eyes.release(handle);
            Some(loaded)
        }
        Err(_) => None,
    }
}

#[test]
fn a_cell_is_asked_for_and_loaded(rt: HostRuntime) -> Result<(), Fail> {
    let alloc = rt.alloc();
    let geometry = pyramid(alloc)?;
    assert!(rt; geometry.cells() == 5);
    let wanted = Hints {
        priority: 1,
        to_front: false,
    };
    assert_eq!(rt; hints(&geometry, 1), wanted);
    let mut cache = cache(alloc, &geometry, &rt)?;
    let mut queue = Queues::new(alloc, 1, 5, geometry.levels(), 4)?;
    let mut eyes = SoleEyes::new(&mut cache, &mut queue, 0);
    assert_eq!(rt; eyes.begin(), 0);
    assert_eq!(rt; first_voxel(&mut eyes, Strategy::DontLoad, &rt), None);
    assert_eq!(rt; eyes.next(), None);
    assert_eq!(rt; first_voxel(&mut eyes, Strategy::Volatile, &rt), None);
    assert_eq!(rt; eyes.next(), Some(Request { viewer: 0, cell: 1 }));
    assert_eq!(rt; first_voxel(&mut eyes, Strategy::Budgeted(0), &rt), None);
    assert_eq!(rt; eyes.begin(), 1);
    assert_eq!(rt; first_voxel(&mut eyes, Strategy::Budgeted(1), &rt), Some(5));
    assert_eq!(rt; first_voxel(&mut eyes, Strategy::Volatile, &rt), Some(5));
    assert_eq!(rt; loads_coarse(&mut eyes, &rt), Some(true));
    assert_eq!(rt; loads_coarse(&mut eyes, &rt), Some(false));
    Ok(())
}

#[test]
fn a_pinned_cell_lends_its_numbers(rt: HostRuntime) -> Result<(), Fail> {
    let alloc = rt.alloc();
    let geometry = pyramid(alloc)?;
    assert!(rt; geometry.cells() == 5);
    assert!(rt; geometry.voxels(1) == 4);
    let mut cache = cache(alloc, &geometry, &rt)?;
    let Ok(handle) = cache.acquire(1) else {
        return Err(Fail::new("refused"));
    };
    let frame = cache.frame(&handle);
    assert_eq!(rt; [frame[0], frame[1], frame[2], frame[3]], [5, 6, 7, 8]);
    cache.release(handle);
    Ok(())
}
