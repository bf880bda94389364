//! `predict` on images: the directives that are chosen, what is met on the way, and what `spec` makes of the trace file that is kept. The traces
//! and the counts are those that `oracles/drives.py` prints.
use bl_base::NoMemory;
use bl_outside::{MemoryShelf, MemorySink};
use std::alloc::Global;
use std::test::Fail;
use tests_calls::{are_no_requests, ends, holds, say, shelf_of};
use tests_samples::{ADD_ONE_IMAGE, LOADS_IMAGE};

/// The image of a function that counts its parameter down to 0.
const LOOP: [u8; 40] = [
    0x42, 0x4C, 0x49, 0x4D, 0x01, 0x00, 0x00, 0x01, 0x01, 0x7F, 0x00, 0x01, 0x7F, 0x02, 0x04, 0x01,
    0x03, 0x6D, 0x2F, 0x66, 0x00, 0x00, 0x00, 0x6B, 0x00, 0x00, 0x00, 0x01, 0x01, 0x03, 0x00, 0x00,
    0x07, 0x09, 0x07, 0x00, 0x00, 0x00, 0x00, 0x08,
];

/// The image of a function that loads from nine lines of one list of the cache, and then again from the second and the first of them.
const NINE: [u8; 362] = [
    0x42, 0x4C, 0x49, 0x4D, 0x01, 0x00, 0x01, 0x01, 0x01, 0x00, 0x00, 0x01, 0x00, 0x01, 0x7F, 0x04,
    0x2E, 0x01, 0x03, 0x6D, 0x2F, 0x66, 0x00, 0x00, 0x00, 0x00, 0x03, 0x01, 0x00, 0x00, 0x00, 0x01,
    0x04, 0x00, 0x03, 0x00, 0x00, 0x01, 0x04, 0x03, 0x00, 0x04, 0x03, 0x0A, 0x01, 0x00, 0x28, 0x00,
    0x02, 0x00, 0x00, 0x03, 0x00, 0x00, 0x00, 0x03, 0x01, 0x80, 0x20, 0x00, 0x00, 0x01, 0x04, 0x00,
    0x03, 0x00, 0x00, 0x01, 0x04, 0x03, 0x00, 0x04, 0x03, 0x0E, 0x01, 0x00, 0x28, 0x00, 0x02, 0x00,
    0x00, 0x03, 0x00, 0x00, 0x00, 0x03, 0x01, 0x80, 0x40, 0x00, 0x00, 0x01, 0x04, 0x00, 0x03, 0x00,
    0x00, 0x01, 0x04, 0x03, 0x00, 0x04, 0x03, 0x12, 0x01, 0x00, 0x28, 0x00, 0x02, 0x00, 0x00, 0x03,
    0x00, 0x00, 0x00, 0x03, 0x01, 0x80, 0x60, 0x00, 0x00, 0x01, 0x04, 0x00, 0x03, 0x00, 0x00, 0x01,
    0x04, 0x03, 0x00, 0x04, 0x03, 0x16, 0x01, 0x00, 0x28, 0x00, 0x02, 0x00, 0x00, 0x03, 0x00, 0x00,
    0x00, 0x03, 0x01, 0x80, 0x80, 0x01, 0x00, 0x00, 0x01, 0x04, 0x00, 0x03, 0x00, 0x00, 0x01, 0x04,
    0x03, 0x00, 0x04, 0x03, 0x1A, 0x01, 0x00, 0x28, 0x00, 0x02, 0x00, 0x00, 0x03, 0x00, 0x00, 0x00,
    0x03, 0x01, 0x80, 0xA0, 0x01, 0x00, 0x00, 0x01, 0x04, 0x00, 0x03, 0x00, 0x00, 0x01, 0x04, 0x03,
    0x00, 0x04, 0x03, 0x1E, 0x01, 0x00, 0x28, 0x00, 0x02, 0x00, 0x00, 0x03, 0x00, 0x00, 0x00, 0x03,
    0x01, 0x80, 0xC0, 0x01, 0x00, 0x00, 0x01, 0x04, 0x00, 0x03, 0x00, 0x00, 0x01, 0x04, 0x03, 0x00,
    0x04, 0x03, 0x22, 0x01, 0x00, 0x28, 0x00, 0x02, 0x00, 0x00, 0x03, 0x00, 0x00, 0x00, 0x03, 0x01,
    0x80, 0xE0, 0x01, 0x00, 0x00, 0x01, 0x04, 0x00, 0x03, 0x00, 0x00, 0x01, 0x04, 0x03, 0x00, 0x04,
    0x03, 0x26, 0x01, 0x00, 0x28, 0x00, 0x02, 0x00, 0x00, 0x03, 0x00, 0x00, 0x00, 0x03, 0x01, 0x80,
    0x80, 0x02, 0x00, 0x00, 0x01, 0x04, 0x00, 0x03, 0x00, 0x00, 0x01, 0x04, 0x03, 0x00, 0x04, 0x03,
    0x2A, 0x01, 0x00, 0x28, 0x00, 0x02, 0x00, 0x00, 0x03, 0x00, 0x00, 0x00, 0x03, 0x01, 0x80, 0x20,
    0x00, 0x00, 0x01, 0x04, 0x00, 0x03, 0x00, 0x00, 0x01, 0x04, 0x03, 0x00, 0x04, 0x03, 0x2E, 0x01,
    0x00, 0x28, 0x00, 0x02, 0x00, 0x00, 0x03, 0x00, 0x00, 0x00, 0x03, 0x01, 0x00, 0x00, 0x00, 0x01,
    0x04, 0x00, 0x03, 0x00, 0x00, 0x01, 0x04, 0x03, 0x00, 0x04, 0x03, 0x32, 0x01, 0x00, 0x28, 0x00,
    0x02, 0x00, 0x00, 0x03, 0x07, 0x00, 0x00, 0x00, 0x02, 0x08,
];

/// An image and a start file; the words of a `predict`, its status and its text, the trace file that it keeps, and the words of `spec` on that.
struct Drive {
    image: &'static [u8],
    start: &'static str,
    line: &'static str,
    status: u8,
    text: &'static str,
    trace: &'static str,
    follows: &'static str,
    last: &'static str,
}

const PREDICT: &str = "blade predict i m/f t s";

const SPEC: &str = "blade spec i m/f t s";

/// Commands in their order.
const SUM: Drive = Drive {
    image: &ADD_ONE_IMAGE,
    start: "arg 41\n",
    line: "blade predict i inc/inc t s",
    status: 0,
    text: "directives 16 rollbacks 0 hits 0 misses 0\nalike yes\nreturned i32 42\n",
    trace: "fetch\nfetch\nfetch\nfetch\nfetch\nfetch\nexec 1\nexec 2\nexec 3\nexec 4\n\
         retire\nretire\nretire\nretire\nretire\nretire\n",
    follows: "blade spec i inc/inc t s",
    last: "returned i32 42\n",
};

/// Two loads in one line.
const TWO_LOADS: Drive = Drive {
    image: &LOADS_IMAGE,
    start: "arg 0\n",
    line: PREDICT,
    status: 0,
    text: "directives 29 rollbacks 0 hits 1 misses 1\nalike yes\nreturned i32 0\nmemory 0 pages 1\n",
    trace: "fetch\nfetch\nfetch\nfetch 0\nfetch\nfetch\nfetch 0\nfetch\nfetch\nfetch\n\
         exec 1\nexec 4\nexec 2\nexec 3\nexec 4\nexec 7\nexec 5\nexec 6\nexec 8\nretire\n\
         retire\nretire\nretire\nretire\nretire\nretire\nretire\nretire\nretire\n",
    follows: SPEC,
    last: "returned i32 0\nmemory 0 pages 1\n",
};

/// A guess that is wrong, behind which the run traps.
const MISPREDICTED: Drive = Drive {
    image: &LOADS_IMAGE,
    start: "arg 65536\n",
    line: PREDICT,
    status: 16,
    text: "directives 20 rollbacks 1 hits 0 misses 1\nalike yes\ntrapped out of bounds memory access\nmemory 0 pages 1\n",
    trace: "fetch\nfetch\nfetch\nfetch 0\nfetch\nfetch\nfetch 0\nfetch\nfetch\nfetch\n\
         exec 1\nexec 4\nexec 2\nexec 3\nfetch\nretire\nretire\nretire\nretire\nretire\n",
    follows: SPEC,
    last: "trapped out of bounds memory access\nmemory 0 pages 1\n",
};

/// Too few steps.
const SPENT: Drive = Drive {
    image: &LOADS_IMAGE,
    start: "arg 0\n",
    line: "blade predict --steps 20 i m/f t s",
    status: 17,
    text: "directives 20 rollbacks 0 hits 1 misses 1\nalike yes\nspent 20\n",
    trace: "fetch\nfetch\nfetch\nfetch 0\nfetch\nfetch\nfetch 0\nfetch\nfetch\nfetch\n\
         exec 1\nexec 4\nexec 2\nexec 3\nexec 4\nexec 7\nexec 5\nexec 6\nexec 8\nretire\n",
    follows: SPEC,
    last: "pending\n",
};

/// A loop: the first guess is wrong, then its counter is trained, and the last one is wrong.
const COUNTED_DOWN: Drive = Drive {
    image: &LOOP,
    start: "arg 3\n",
    line: PREDICT,
    status: 0,
    text: "directives 83 rollbacks 2 hits 0 misses 0\nalike yes\nreturned i32 0\n",
    trace: "fetch\nfetch 0\nfetch\nfetch\nexec 0\nexec 1\nfetch\nfetch 1\nfetch\nfetch 1\n\
         fetch\nfetch 1\nfetch\nfetch 1\nfetch\nfetch 1\nfetch\nfetch 1\nfetch\nfetch 1\n\
         fetch\nfetch 1\nfetch\nfetch 1\nfetch\nfetch 1\nfetch\nfetch 1\nfetch\nfetch 1\n\
         fetch\nfetch 1\nfetch\nfetch 1\nfetch\nfetch 1\nfetch\nfetch 1\nfetch\nfetch 1\n\
         fetch\nfetch 1\nfetch\nfetch 1\nfetch\nfetch 1\nfetch\nfetch 1\nfetch\nfetch 1\n\
         fetch\nfetch 1\nfetch\nfetch 1\nfetch\nfetch 1\nfetch\nfetch 1\nfetch\nfetch 1\n\
         fetch\nfetch 1\nfetch\nfetch 1\nfetch\nfetch 1\nfetch\nfetch 1\nexec 2\nexec 3\n\
         exec 4\nexec 5\nfetch\nfetch\nexec 6\nretire\nretire\nretire\nretire\nretire\n\
         retire\nretire\nretire\n",
    follows: SPEC,
    last: "returned i32 0\n",
};

/// The ninth line of a list pushes the first one out.
const NINE_LINES: Drive = Drive {
    image: &NINE,
    start: "",
    line: PREDICT,
    status: 0,
    text: "directives 137 rollbacks 0 hits 1 misses 10\nalike yes\nreturned i32 0\nmemory 0 pages 1\n",
    trace: "fetch\nfetch\nfetch 0\nfetch\nfetch\nfetch\nfetch 0\nfetch\nfetch\nfetch\n\
         fetch 0\nfetch\nfetch\nfetch\nfetch 0\nfetch\nfetch\nfetch\nfetch 0\nfetch\n\
         fetch\nfetch\nfetch 0\nfetch\nfetch\nfetch\nfetch 0\nfetch\nfetch\nfetch\n\
         fetch 0\nfetch\nfetch\nfetch\nfetch 0\nfetch\nfetch\nfetch\nfetch 0\nfetch\n\
         fetch\nfetch\nfetch 0\nfetch\nfetch\nfetch\nexec 0\nexec 3\nexec 1\nexec 2\n\
         exec 4\nexec 7\nexec 5\nexec 6\nexec 8\nexec 11\nexec 9\nexec 10\nexec 12\n\
         exec 15\nexec 13\nexec 14\nexec 16\nexec 19\nexec 17\nexec 18\nexec 20\n\
         exec 23\nexec 21\nexec 22\nexec 24\nexec 27\nexec 25\nexec 26\nexec 28\n\
         exec 31\nexec 29\nexec 30\nexec 32\nexec 35\nexec 33\nexec 34\nexec 36\n\
         exec 39\nexec 37\nexec 38\nexec 40\nexec 43\nexec 41\nexec 42\nexec 44\nretire\n\
         retire\nretire\nretire\nretire\nretire\nretire\nretire\nretire\nretire\nretire\n\
         retire\nretire\nretire\nretire\nretire\nretire\nretire\nretire\nretire\nretire\n\
         retire\nretire\nretire\nretire\nretire\nretire\nretire\nretire\nretire\nretire\n\
         retire\nretire\nretire\nretire\nretire\nretire\nretire\nretire\nretire\nretire\n\
         retire\nretire\nretire\nretire\nretire\n",
    follows: SPEC,
    last: "returned i32 0\nmemory 0 pages 1\n",
};

/// Whether a call ends with status 0, and with that text last.
fn says_last(
    alloc: Global,
    shelf: &mut MemoryShelf,
    line: &str,
    last: &str,
) -> Result<bool, NoMemory> {
    let mut out = MemorySink::new(alloc, None);
    let status = say(alloc, shelf, line, &mut out)?;
    Ok(status == 0 && out.bytes().ends_with(last.as_bytes()))
}

/// Whether a drive on a shelf is as it says, and its trace file is followed.
fn is_driven_on(alloc: Global, shelf: &mut MemoryShelf, drive: &Drive) -> Result<bool, NoMemory> {
    if !ends(alloc, shelf, drive.line, drive.status, drive.text)? {
        return Ok(false);
    }
    Ok(
        holds(shelf, "t", drive.trace.as_bytes())
            && says_last(alloc, shelf, drive.follows, drive.last)?,
    )
}

/// Whether that holds on a shelf with its image and its start file.
fn is_driven(alloc: Global, drive: &Drive) -> Result<bool, NoMemory> {
    let mut shelf = shelf_of(alloc, &[("i", drive.image), ("s", drive.start.as_bytes())])?;
    is_driven_on(alloc, &mut shelf, drive)
}

#[test]
fn right_guesses_run_in_order(rt: HostRuntime) -> Result<(), Fail> {
    assert!(rt; is_driven(rt.alloc(), &SUM)?);
    assert!(rt; is_driven(rt.alloc(), &TWO_LOADS)?);
    Ok(())
}

#[test]
fn wrong_guesses_are_counted(rt: HostRuntime) -> Result<(), Fail> {
    assert!(rt; is_driven(rt.alloc(), &MISPREDICTED)?);
    assert!(rt; is_driven(rt.alloc(), &COUNTED_DOWN)?);
    Ok(())
}

#[test]
fn steps_can_be_too_few(rt: HostRuntime) -> Result<(), Fail> {
    assert!(rt; is_driven(rt.alloc(), &SPENT)?);
    Ok(())
}

#[test]
fn a_ninth_line_pushes_the_first_one_out(rt: HostRuntime) -> Result<(), Fail> {
    assert!(rt; is_driven(rt.alloc(), &NINE_LINES)?);
    Ok(())
}

/// Words that are no request: more steps than a trace file has lines, or none; a trace file that is the image or the start file; a count file; and a
/// word too few.
static OTHERS: [&str; 6] = [
    "blade predict --steps 1000001 i m/f t s",
    "blade predict --steps 0 i m/f t s",
    "blade predict i m/f i s",
    "blade predict i m/f s s",
    "blade predict --counts c i m/f t s",
    "blade predict i m/f t",
];

#[test]
fn traces_are_files_of_their_own(rt: HostRuntime) -> Result<(), Fail> {
    assert_eq!(rt; are_no_requests(rt.alloc(), &OTHERS)?, 6);
    Ok(())
}

/// Whether the most steps are taken as a number, and the image and the start file may be one word, and what is read is refused as `run` refuses it.
fn are_refused(alloc: Global) -> Result<bool, NoMemory> {
    let mut shelf = shelf_of(alloc, &[("i", &ADD_ONE_IMAGE), ("s", b"arg\n")])?;
    Ok(
        ends(
            alloc,
            &mut shelf,
            "blade predict --steps 1000000 i inc/inc t i",
            15,
            "start: line 1\n",
        )? && ends(
            alloc,
            &mut shelf,
            "blade predict s inc/inc t i",
            12,
            "image: not an image\n",
        )? && ends(
            alloc,
            &mut shelf,
            "blade predict i m/f t s",
            15,
            "start: export\n",
        )?,
    )
}

#[test]
fn files_are_refused_as_by_run(rt: HostRuntime) -> Result<(), Fail> {
    assert!(rt; are_refused(rt.alloc())?);
    Ok(())
}
