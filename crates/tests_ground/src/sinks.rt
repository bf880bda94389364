//! The sink in memory, and standard output. By hand: a push takes what the limit, the room and the most at once leave.
use bl_base::NoMemory;
use bl_outside::{MemorySink, Sink, SinkFault, WriterSink};
use std::alloc::Global;
use std::io::writer;
use std::test::Fail;

/// Whether a sink with that limit takes none of a piece before it has room, and then what its limit leaves.
fn takes_what_is_left(alloc: Global, limit: u64) -> Result<bool, NoMemory> {
    let mut sink = MemorySink::new(alloc, Some(limit));
    let without_room = sink.push(b"a") == Err(SinkFault);
    sink.reserve(100)?;
    Ok(
        without_room
            && sink.push(b"twelve bytes") == Ok(10)
            && sink.push(b"es") == Err(SinkFault)
            && sink.push(b"") == Ok(0)
            && sink.bytes() == b"twelve byt".as_slice(),
    )
}

#[test]
fn a_memory_sink_takes_what_limit_and_room_leave(rt: HostRuntime) -> Result<(), Fail> {
    assert!(rt; takes_what_is_left(rt.alloc(), 10)?);
    Ok(())
}

/// Whether a sink takes at most three bytes at a push, and no more than its limit in all.
fn takes_little(alloc: Global) -> Result<bool, NoMemory> {
    let mut sink = MemorySink::narrow(alloc, 3, Some(5));
    let without_room = sink.push(b"a") == Err(SinkFault);
    sink.reserve(100)?;
    Ok(
        without_room
            && sink.push(b"twelve bytes") == Ok(3)
            && sink.push(b"") == Ok(0)
            && sink.push(b"lve bytes") == Ok(2)
            && sink.push(b"e bytes") == Err(SinkFault)
            && sink.bytes() == b"twelv".as_slice(),
    )
}

#[test]
fn a_narrow_sink_takes_little_at_a_push(rt: HostRuntime) -> Result<(), Fail> {
    assert!(rt; takes_little(rt.alloc())?);
    Ok(())
}

#[test]
fn standard_output_takes_a_short_piece(rt: HostRuntime) -> Result<(), Fail> {
    let mut sink = WriterSink::new(writer(&rt));
    assert_eq!(rt; sink.push(b"\n"), Ok(1));
    assert_eq!(rt; sink.push(b""), Ok(0));
    Ok(())
}
