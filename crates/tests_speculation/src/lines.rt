//! The lines of a cache. The hits are those of `Lines` of `oracles/drives.py`, with two lists of two lines.
use bl_base::NoMemory;
use bl_predict::Cache;
use std::alloc::Global;
use std::test::Fail;

/// Places of lines 0, 2, 0, 4, 2, 1 and 0: line 2 goes where line 4 comes, and line 0 where line 2 comes again.
const PLACES: [u64; 7] = [0, 128, 63, 256, 191, 64, 0];

const HITS: [bool; 7] = [false, false, true, false, false, false, false];

/// How many accesses are hits or not as they should be, before the first that isn't.
fn met(alloc: Global, places: &[u64], hits: &[bool]) -> Result<u32, NoMemory> {
    let mut cache: Cache<2, 2> = Cache::new(alloc)?;
    let mut passed = 0u32;
    for (place, hit) in places.iter().zip(hits.iter()) {
        if cache.access(*place)? != *hit {
            break;
        }
        passed = passed.wrapping_add(1);
    }
    Ok(passed)
}

/// How many lines a list has behind two accesses to one line.
fn count(alloc: Global) -> Result<usize, NoMemory> {
    let mut cache: Cache<2, 2> = Cache::new(alloc)?;
    let _first = cache.access(64)?;
    let _second = cache.access(127)?;
    Ok(cache.set(1).len())
}

#[test]
fn the_least_recent_line_goes(rt: HostRuntime) -> Result<(), Fail> {
    assert_eq!(rt; met(rt.alloc(), &PLACES, &HITS)?, 7);
    Ok(())
}

#[test]
fn a_line_stands_once_in_its_list(rt: HostRuntime) -> Result<(), Fail> {
    assert_eq!(rt; count(rt.alloc())?, 1);
    Ok(())
}
