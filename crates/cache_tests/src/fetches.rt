// Fetches over the cache of one thread, whose store holds a good block and a bad one.

use crate::fixture::{cache_with_a_bad_block, pyramid};
use fetch_queue::Queues;
use fetchers::{Fetched, Served, serve_one, serve_until_closed, serve_up_to};
use sole_eyes::SoleEyes;
use std::sync::atomic::AtomicBool;
use std::test::Fail;

#[test]
fn a_request_loads_its_cell_once(rt: HostRuntime) -> Result<(), Fail> {
    let alloc = rt.alloc();
    let geometry = pyramid(alloc)?;
    assert!(rt; geometry.cells() == 5);
    assert!(rt; geometry.levels() == 2);
    let mut cache = cache_with_a_bad_block(alloc, &geometry, &rt)?;
    let mut queue = Queues::new(alloc, 2, 5, 2, 4)?;
    queue.put(0, 1, 1, false);
    queue.put(1, 1, 1, false);
    let mut eyes = SoleEyes::new(&mut cache, &mut queue, 0);
    assert_eq!(rt; serve_one(&mut eyes), Served::Loaded);
    assert_eq!(rt; serve_one(&mut eyes), Served::Held);
    assert_eq!(rt; serve_one(&mut eyes), Served::Idle);
    Ok(())
}

#[test]
fn a_fetch_stops_where_the_queue_has_no_more(rt: HostRuntime) -> Result<(), Fail> {
    let alloc = rt.alloc();
    let geometry = pyramid(alloc)?;
    assert!(rt; geometry.cells() == 5);
    assert!(rt; geometry.levels() == 2);
    let mut cache = cache_with_a_bad_block(alloc, &geometry, &rt)?;
    let mut queue = Queues::new(alloc, 1, 5, 2, 4)?;
    queue.put(0, 1, 1, false);
    queue.put(0, 4, 0, false);
    let mut eyes = SoleEyes::new(&mut cache, &mut queue, 0);
    let fetched = Fetched {
        loaded: 2,
        held: 0,
        refused: 0,
    };
    assert_eq!(rt; serve_up_to(&mut eyes, 10)?, fetched);
    assert_eq!(rt; serve_one(&mut eyes), Served::Idle);
    Ok(())
}

#[test]
fn a_bad_block_is_counted_and_the_fetch_goes_on(rt: HostRuntime) -> Result<(), Fail> {
    let alloc = rt.alloc();
    let geometry = pyramid(alloc)?;
    assert!(rt; geometry.cells() == 5);
    assert!(rt; geometry.levels() == 2);
    let mut cache = cache_with_a_bad_block(alloc, &geometry, &rt)?;
    let mut queue = Queues::new(alloc, 2, 5, 2, 4)?;
    queue.put(0, 2, 1, false);
    queue.put(0, 1, 1, false);
    queue.put(1, 1, 1, false);
    let mut eyes = SoleEyes::new(&mut cache, &mut queue, 0);
    let fetched = Fetched {
        loaded: 1,
        held: 0,
        refused: 1,
    };
    assert_eq!(rt; serve_up_to(&mut eyes, 2)?, fetched);
    assert_eq!(rt; serve_one(&mut eyes), Served::Held);
    Ok(())
}

#[test]
fn a_closed_fetcher_serves_nothing(rt: HostRuntime) -> Result<(), Fail> {
    let alloc = rt.alloc();
    let geometry = pyramid(alloc)?;
    assert!(rt; geometry.cells() == 5);
    assert!(rt; geometry.levels() == 2);
    let mut cache = cache_with_a_bad_block(alloc, &geometry, &rt)?;
    let mut queue = Queues::new(alloc, 1, 5, 2, 4)?;
    queue.put(0, 1, 1, false);
    let mut eyes = SoleEyes::new(&mut cache, &mut queue, 0);
    let stop = AtomicBool::new(true);
    serve_until_closed(&rt, &mut eyes, &stop);
    assert_eq!(rt; serve_one(&mut eyes), Served::Loaded);
    Ok(())
}
