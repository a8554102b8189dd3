// Sources and sinks that fail.
use super::{Case, SOLO, run_over, sink_of, source_of, store_of};
use cell_store::{MemSink, MemSource};
use std::test::Fail;

#[test]
fn a_source_that_fails_is_told(rt: HostRuntime) -> Result<(), Fail> {
    let alloc = rt.alloc();
    let case = Case {
        shows: "a source that fails is told",
        status: 8,
        text: "script read-fault\n",
        ..SOLO
    };
    let source = MemSource::new(Vec::new(alloc), 1, Vec::from_slice(alloc, &[1])?);
    let store = store_of(alloc, &[], &[])?;
    let _ = run_over(
        &rt,
        alloc,
        &case,
        source,
        sink_of(alloc),
        vec![in alloc; store]?,
    )?;
    Ok(())
}

#[test]
fn a_sink_fails_after_a_part_of_the_text(rt: HostRuntime) -> Result<(), Fail> {
    let alloc = rt.alloc();
    let case = Case {
        shows: "a sink fails after a part of the text",
        script: "raw vol uint8 6 2 2 2 2 2\nphase\nactor\nget 0 0 0 0\nget 0 0 0 0\n",
        status: 6,
        text: "0.0.0",
        ..SOLO
    };
    let source = source_of(alloc, case.script)?;
    let sink = MemSink::new(alloc, 5, Vec::from_slice(alloc, &[2])?);
    let store = store_of(alloc, &[], &[])?;
    let _ = run_over(&rt, alloc, &case, source, sink, vec![in alloc; store]?)?;
    Ok(())
}
