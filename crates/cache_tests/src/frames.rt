// Frames over the cache of one thread, with pictures from outside.

use crate::fixture::{cache, pyramid};
use fetch_queue::Queues;
use hier_paint::{Painted, Picture, Strategy, View, paint};
use sole_eyes::SoleEyes;
use std::test::Fail;
use whole_affine::Affine;

#[test]
fn frames_of_the_finest_level(rt: HostRuntime) -> Result<(), Fail> {
    let alloc = rt.alloc();
    let geometry = pyramid(alloc)?;
    assert!(rt; geometry.cells() == 5);
    assert!(rt; geometry.levels() == 2);
    let mut cache = cache(alloc, &geometry, &rt)?;
    let mut queue = Queues::new(alloc, 1, 5, 2, 4)?;
    let mut eyes = SoleEyes::new(&mut cache, &mut queue, 0);
    let mut view = View {
        affine: Affine::new(1, [[1, 0, 0], [0, 1, 0], [0, 0, 0]])?,
        width: 4,
        height: 4,
        level: Some(0),
        strategy: Strategy::Volatile,
        low: 0,
        high: 255,
    };
    let mut picture = Picture::new(alloc, 4, 4)?;
    let partial = Painted {
        wanted: 0,
        complete: false,
        not_ready: 16,
    };
    assert_eq!(rt; paint(&mut eyes, &view, &mut picture)?, partial);
    assert_eq!(rt; picture.values(), [0; 16].as_slice());
    assert_eq!(rt; picture.mask(), [255; 16].as_slice());
    view.strategy = Strategy::Blocking;
    let complete = Painted {
        wanted: 0,
        complete: true,
        not_ready: 0,
    };
    assert_eq!(rt; paint(&mut eyes, &view, &mut picture)?, complete);
    let values = [0, 0, 5, 6, 0, 0, 7, 8, 0, 0, 0, 0, 0, 0, 0, 0];
    assert_eq!(rt; picture.values(), values.as_slice());
    Ok(())
}

#[test]
fn a_frame_of_the_best_level(rt: HostRuntime) -> Result<(), Fail> {
    let alloc = rt.alloc();
    let geometry = pyramid(alloc)?;
    assert!(rt; geometry.cells() == 5);
    assert!(rt; geometry.levels() == 2);
    let mut cache = cache(alloc, &geometry, &rt)?;
    let mut queue = Queues::new(alloc, 1, 5, 2, 4)?;
    let mut eyes = SoleEyes::new(&mut cache, &mut queue, 0);
    let view = View {
        affine: Affine::new(1, [[2, 0, 0], [0, 2, 0], [0, 0, 0]])?,
        width: 2,
        height: 2,
        level: None,
        strategy: Strategy::Blocking,
        low: 0,
        high: 255,
    };
    let mut picture = Picture::new(alloc, 2, 2)?;
    let complete = Painted {
        wanted: 1,
        complete: true,
        not_ready: 0,
    };
    assert_eq!(rt; paint(&mut eyes, &view, &mut picture)?, complete);
    assert_eq!(rt; picture.values(), [11, 12, 13, 14].as_slice());
    Ok(())
}
