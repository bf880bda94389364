//! Levels and advances, by hand: of each node the level of its in place, and then that of its out place.
ghost use Rattle.bl_flow.specs.Residuals.{AreLevelsOf};

use crate::networks::{crossing, is_fit, ladder};
use bl_base::NoMemory;
use bl_flow::{Network, Residual, advance, levels, pack};
use std::alloc::Global;
use std::test::Fail;

/// The residual network in which nothing flows; None where no flow may be asked for.
fn packed(alloc: Global, n: &Network) -> Result<Option<Residual>, NoMemory> {
    if !is_fit(n) {
        return Ok(None);
    }
    let r = pack(alloc, n)?;
    Ok(Some(r))
}

/// The residual network of the crossing in which nothing flows.
fn packed_crossing(alloc: Global) -> Result<Option<Residual>, NoMemory> {
    let n = crossing(alloc)?;
    let r = packed(alloc, &n);
    drop(n);
    r
}

/// How many rungs the ladder has.
const RUNGS: u32 = 12;

/// The residual network of the ladder in which nothing flows.
fn packed_ladder(alloc: Global) -> Result<Option<Residual>, NoMemory> {
    let n = ladder(alloc, RUNGS)?;
    let r = packed(alloc, &n);
    drop(n);
    r
}

/// The residual network behind an advance on those levels, and how much more flows.
fn advanced(alloc: Global, r: Residual, before: &[Option<u64>]) -> Result<(Residual, u64), NoMemory>
    requires { AreLevelsOf r before.now }
{
    match advance(alloc, r, before) {
        Ok(next) => Ok(next),
        Err((r, error)) => {
            drop(r);
            Err(error)
        }
    }
}

/// The residual network behind an advance, and how much more flows.
fn step(alloc: Global, r: Residual) -> Result<(Residual, u64), NoMemory> {
    match levels(alloc, &r) {
        Ok(before) => advanced(alloc, r, before.as_slice()),
        Err(error) => {
            drop(r);
            Err(error)
        }
    }
}

/// What an advance adds, the amount behind it, and the levels before it.
type Advance = (u64, u64, &'static [Option<u64>]);

static ADVANCES: [Advance; 3] = [
    (
        1,
        1,
        &[
            Some(0),
            Some(1),
            Some(2),
            Some(3),
            Some(4),
            Some(5),
            Some(6),
            Some(7),
            Some(4),
            Some(5),
            Some(6),
            Some(7),
            Some(2),
            Some(3),
            Some(4),
            Some(5),
        ],
    ),
    (
        1,
        2,
        &[
            Some(0),
            Some(1),
            Some(2),
            Some(7),
            Some(6),
            Some(13),
            Some(12),
            Some(13),
            Some(8),
            Some(9),
            Some(10),
            Some(11),
            Some(2),
            Some(3),
            Some(4),
            Some(5),
        ],
    ),
    (
        0,
        2,
        &[
            Some(0),
            Some(1),
            Some(2),
            None,
            Some(6),
            None,
            None,
            None,
            None,
            None,
            None,
            None,
            Some(2),
            Some(3),
            Some(4),
            Some(5),
        ],
    ),
];

/// The residual network behind an advance on those levels, and whether it and they are as they have to be.
fn risen(
    alloc: Global,
    r: Residual,
    before: &[Option<u64>],
    wanted: &Advance,
) -> Result<(Residual, bool), NoMemory>
    requires { AreLevelsOf r before.now }
{
    let (wanted_more, wanted_amount, wanted_before) = *wanted;
    let (next, more) = advanced(alloc, r, before)?;
    let is_right = before == wanted_before && more == wanted_more && next.amount() == wanted_amount;
    Ok((next, is_right))
}

/// The residual network behind an advance, and whether it and the levels before it are as they have to be.
fn rise(alloc: Global, r: Residual, wanted: &Advance) -> Result<(Residual, bool), NoMemory> {
    match levels(alloc, &r) {
        Ok(before) => risen(alloc, r, before.as_slice(), wanted),
        Err(error) => {
            drop(r);
            Err(error)
        }
    }
}

/// How many advances are as they have to be before the first that isn't.
fn count_rises(alloc: Global, first: Residual) -> Result<u32, NoMemory> {
    let mut r = first;
    let mut passed = 0u32;
    for wanted in &ADVANCES {
        let (next, is_right) = rise(alloc, r, wanted)?;
        r = next;
        if !is_right {
            break;
        }
        passed = passed.wrapping_add(1);
    }
    drop(r);
    Ok(passed)
}

/// How many advances of the crossing are as they have to be before the first that isn't.
fn rising(alloc: Global) -> Result<u32, NoMemory> {
    match packed_crossing(alloc)? {
        Some(r) => count_rises(alloc, r),
        None => Ok(0),
    }
}

/// Whether nothing flows.
fn carries_nothing(r: Residual) -> bool {
    let is_right = r.amount() == 0;
    drop(r);
    is_right
}

/// Whether nothing flows through the crossing at first.
fn carries_nothing_at_first(alloc: Global) -> Result<bool, NoMemory> {
    match packed_crossing(alloc)? {
        Some(r) => Ok(carries_nothing(r)),
        None => Ok(false),
    }
}

#[test]
fn the_end_rises_until_it_has_no_level(rt: HostRuntime) -> Result<(), Fail> {
    assert!(rt; carries_nothing_at_first(rt.alloc())?);
    assert_eq!(rt; rising(rt.alloc())?, 3);
    Ok(())
}

/// How many advances add 1 before the first that adds nothing, and the amount then; None where one before it adds more or leaves an
/// amount that isn't how many there were, and where one more than there are rungs add 1 each.
fn climb(alloc: Global, first: Residual) -> Result<Option<(u64, u64)>, NoMemory> {
    let mut r = first;
    let mut climbed = None;
    for before in 0..u64::from(RUNGS) + 1 {
        let (next, more) = step(alloc, r)?;
        r = next;
        if more == 0 {
            climbed = Some((before, r.amount()));
        }
        if more != 1 || r.amount() != before + 1 {
            break;
        }
    }
    drop(r);
    Ok(climbed)
}

/// The same of the ladder.
fn climbed(alloc: Global) -> Result<Option<(u64, u64)>, NoMemory> {
    match packed_ladder(alloc)? {
        Some(r) => climb(alloc, r),
        None => Ok(None),
    }
}

#[test]
fn each_level_graph_of_a_ladder_carries_one_path(rt: HostRuntime) -> Result<(), Fail> {
    assert_eq!(rt; climbed(rt.alloc())?, Some((12, 12)));
    Ok(())
}
