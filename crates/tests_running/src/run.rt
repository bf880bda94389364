//! Images that are run: outcomes with memories, steps, and exports, starts and images that are refused. By hand: each command is a step, so adding 1 takes
//! six; of the growth node v20.20.2 gives the same outcomes for its module (`oracles/lists.js`); the lines and the order of refusals are those of docs/CLI.md.
use bl_base::NoMemory;
use std::alloc::Global;
use std::test::Fail;
use tests_calls::{Case, ends_on, passed};
use tests_samples::{ADD_ONE_IMAGE, GROW_AND_STORE_IMAGE, LOADS_IMAGE};

static LOADED: [Case; 2] = [
    (
        "blade run i.img m/f start",
        b"arg 0",
        None,
        0,
        "returned i32 0\nmemory 0 pages 1\n",
    ),
    (
        "blade run i.img m/f start",
        b"arg 65533",
        None,
        16,
        "trapped out of bounds memory access\nmemory 0 pages 1\n",
    ),
];

static GROWN: [Case; 3] = [
    (
        "blade run i.img m/f start",
        b"arg 1",
        None,
        0,
        "returned i32 1\nmemory 0 pages 2\nrow 0 65536 01000000000000000000000000000000\n",
    ),
    (
        "blade run i.img m/f start",
        b"memory 0 3 AB\narg 1",
        None,
        0,
        "returned i32 1\nmemory 0 pages 2\nrow 0 65536 01000000000000000000000000000000\n",
    ),
    (
        "blade run i.img m/f start",
        b"arg 2",
        None,
        16,
        "trapped out of bounds memory access\nmemory 0 pages 1\n",
    ),
];

#[test]
fn outcomes_with_memories_and_their_rows(rt: HostRuntime) -> Result<(), Fail> {
    assert_eq!(rt; passed(rt.alloc(), "i.img", &LOADS_IMAGE, &LOADED)?, 2);
    assert_eq!(rt;
        passed(rt.alloc(), "i.img", &GROW_AND_STORE_IMAGE, &GROWN)?,
        3
    );
    Ok(())
}

static STEPS: [Case; 5] = [
    (
        "blade run i.img inc/inc start",
        b"arg 4294967295\n",
        None,
        0,
        "returned i32 0\n",
    ),
    (
        "blade run i.img inc/inc start --steps 6",
        b"arg 4294967295\n",
        None,
        0,
        "returned i32 0\n",
    ),
    (
        "blade run i.img inc/inc start --steps=5",
        b"arg 4294967295\n",
        None,
        17,
        "spent 5\n",
    ),
    (
        "blade run i.img inc/inc start --steps=0",
        b"arg 4294967295\n",
        None,
        2,
        "usage: blade COMMAND ARGUMENTS\n",
    ),
    (
        "blade run i.img inc/inc start i.img",
        b"arg 4294967295\n",
        None,
        2,
        "usage: blade COMMAND ARGUMENTS\n",
    ),
];

#[test]
fn each_command_is_a_step(rt: HostRuntime) -> Result<(), Fail> {
    assert_eq!(rt; passed(rt.alloc(), "i.img", &ADD_ONE_IMAGE, &STEPS)?, 5);
    Ok(())
}

static REFUSALS: [Case; 6] = [
    (
        "blade run i.img inc/dec start",
        b"",
        None,
        15,
        "start: export\n",
    ),
    (
        "blade run i.img inc/inc start",
        b"",
        None,
        15,
        "start: arguments 0\n",
    ),
    (
        "blade run i.img inc/inc start",
        b"arg 4294967296",
        None,
        15,
        "start: line 1\n",
    ),
    (
        "blade run i.img inc/inc start",
        b"memory 0 0 00",
        None,
        15,
        "start: line 1\n",
    ),
    (
        "blade run i.img inc/inc start",
        b"arg 1",
        Some(1),
        3,
        "read fault: i.img\n",
    ),
    (
        "blade run i.img inc/dec start",
        b"arg 1",
        Some(2),
        3,
        "read fault: start\n",
    ),
];

#[test]
fn exports_and_starts_of_an_image_that_are_refused(rt: HostRuntime) -> Result<(), Fail> {
    assert_eq!(rt; passed(rt.alloc(), "i.img", &ADD_ONE_IMAGE, &REFUSALS)?, 6);
    Ok(())
}

/// The image of the function that adds 1, without its last bytes, and with others in their place.
fn with_end(alloc: Global, without: usize, end: &[u8]) -> Result<Vec<u8>, NoMemory> {
    let mut bytes = ADD_ONE_IMAGE[..ADD_ONE_IMAGE.len().saturating_sub(without)].to_vec(alloc)?;
    bytes.extend_from_slice(end)?;
    Ok(bytes)
}

/// Whether the run of an image ends so.
fn runs(alloc: Global, image: &[u8], status: u8, text: &str) -> Result<bool, NoMemory> {
    let files = [("i.img", image), ("start", b"arg 1\n".as_slice())];
    ends_on(
        alloc,
        &files,
        None,
        "blade run i.img inc/inc start",
        status,
        text,
    )
}

/// Whether the run of the image with another end ends so.
fn runs_with_end(
    alloc: Global,
    without: usize,
    end: &[u8],
    status: u8,
    text: &str,
) -> Result<bool, NoMemory> {
    runs(alloc, &with_end(alloc, without, end)?, status, text)
}

/// Whether a file of 134,217,729 bytes is told so.
fn is_too_long(alloc: Global, text: &str) -> Result<bool, NoMemory> {
    runs(alloc, &vec![in alloc; 0x42; 134_217_729]?, 8, text)
}

#[test]
fn images_with_another_end_and_one_that_is_too_long(rt: HostRuntime) -> Result<(), Fail> {
    let none = "image: not an image\n";
    assert!(rt; runs_with_end(rt.alloc(), 1, b"", 12, none)?);
    assert!(rt; runs_with_end(rt.alloc(), 0, b"\x08", 12, none)?);
    assert!(rt; runs_with_end(rt.alloc(), 1, b"\x09\x00", 16, "trapped unreachable\n")?);
    assert!(rt; is_too_long(rt.alloc(), "limit: image 134217729\n")?);
    Ok(())
}
