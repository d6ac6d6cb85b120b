//! Values that a chunk hands out or drops, each once; places that go round; and what travels to another thread.

use crate::{Chunk, ChunkSize, Parcel};
use std::sync::Arc;
use std::test::Fail;
use std::thread;

// The first value of a chunk, which is then dropped with the rest.
fn first_of(chunk: Chunk<Arc<u8>>, parcel: Parcel) -> Option<Arc<u8>> {
    let mut chunk = chunk;
    match parcel {
        Parcel::End => chunk.take_front(),
        _ => None,
    }
}

// The first value of a chunk, and the chunk on its way back.
fn taken(chunk: Chunk<u8>) -> (Option<u8>, Chunk<u8>) {
    let mut chunk = chunk;
    (chunk.take_front(), chunk)
}

#[test]
fn values_are_taken_or_dropped_once(rt: HostRuntime) -> Result<(), Fail> {
    let counted = Arc::new(rt.alloc(), 7)?;
    let size = ChunkSize::new(3).ok_or("no size")?;
    let mut chunk = Chunk::with_capacity(rt.alloc(), size)?;
    for _ in 0..3u8 {
        assert!(rt; chunk.push(counted.clone()?).is_ok());
    }
    let refused = chunk.push(counted.clone()?);
    assert_eq!(rt; Arc::strong_count(&counted), 5);
    drop(refused);
    let taker = thread::spawn(&rt, move || first_of(chunk, Parcel::End))?;
    let taken = taker.join(&rt);
    assert!(rt; taken.is_some());
    assert_eq!(rt; Arc::strong_count(&counted), 2);
    drop(taken);
    assert_eq!(rt; Arc::strong_count(&counted), 1);
    Ok(())
}

#[test]
fn places_go_round(rt: HostRuntime) -> Result<(), Fail> {
    let size = ChunkSize::new(2).ok_or("no size")?;
    for is_sent in [false, true] {
        let mut chunk = Chunk::with_capacity(rt.alloc(), size)?;
        assert_eq!(rt; chunk.push(1), Ok(()));
        assert_eq!(rt; chunk.push(2), Ok(()));
        assert_eq!(rt; chunk.push(3), Err(3));
        for wanted in [Some(1), Some(2), Some(3), None] {
            let (value, back) = if is_sent {
                thread::spawn(&rt, move || taken(chunk))?.join(&rt)
            } else {
                taken(chunk)
            };
            assert_eq!(rt; value, wanted);
            chunk = back;
            if wanted == Some(1) {
                assert_eq!(rt; chunk.push(3), Ok(()));
            }
        }
        assert_eq!(rt; chunk.len(), 0);
    }
    Ok(())
}
