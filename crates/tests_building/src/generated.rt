//! Each of the four kinds of items stands twice in a function, whatever the seed: 47 commands and 35 sites a function, and 5 commands and 4
//! sites for each call of the function before it. `oracles/made.py` prints the lengths and these counts, and the weights of up to 100 functions.
use bl_base::NoMemory;
use bl_gen::make;
use bl_outside::MemoryShelf;
use std::alloc::Global;
use std::test::Fail;
use tests_calls::{ends, shelf_failing, stands};

/// A line, and the status and the text.
static CASES: [(&str, u8, &str); 8] = [
    (
        "blade gen 0 1",
        0,
        "module 104\nfunctions 1\ncommands 54\nsites 35\nprotects 8 weight 8\nconstant-time yes\n",
    ),
    (
        "blade gen 5 100",
        0,
        "module 7629\nfunctions 100\ncommands 5202\nsites 3896\nprotects 800 weight 800\nconstant-time yes\n",
    ),
    (
        "blade gen 5 1000",
        0,
        "module 76905\nfunctions 1000\ncommands 52002\nsites 38996\nprotects 8000 weight 8000\nconstant-time yes\n",
    ),
    (
        "blade gen -- 00000000000000000000 00001",
        0,
        "module 104\nfunctions 1\ncommands 54\nsites 35\nprotects 8 weight 8\nconstant-time yes\n",
    ),
    ("blade gen 0 0", 2, "usage: blade COMMAND ARGUMENTS\n"),
    ("blade gen 0 10001", 2, "usage: blade COMMAND ARGUMENTS\n"),
    (
        "blade gen 18446744073709551616 1",
        2,
        "usage: blade COMMAND ARGUMENTS\n",
    ),
    ("blade gen 0", 2, "usage: blade COMMAND ARGUMENTS\n"),
];

/// Whether a call ends so on a shelf of which any call would fail.
fn ends_without_files(alloc: Global, line: &str, status: u8, text: &str) -> Result<bool, NoMemory> {
    let mut shelf = shelf_failing(alloc, &[], Some(1))?;
    ends(alloc, &mut shelf, line, status, text)
}

/// How many calls end so before the first that doesn't.
fn made(alloc: Global) -> Result<u32, NoMemory> {
    let mut passed = 0u32;
    for (line, status, text) in &CASES {
        if !ends_without_files(alloc, *line, *status, *text)? {
            break;
        }
        passed = passed.wrapping_add(1);
    }
    Ok(passed)
}

#[test]
fn a_made_module_is_hardened_without_files(rt: HostRuntime) -> Result<(), Fail> {
    assert_eq!(rt; made(rt.alloc())?, 8);
    Ok(())
}

#[test]
fn a_made_module_of_10000_functions_is_hardened(rt: HostRuntime) -> Result<(), Fail> {
    let text =
        "module 769905\nfunctions 10000\ncommands 520002\nsites 389996\nprotects 80000 weight 80000\nconstant-time yes\n";
    assert!(rt; ends_without_files(rt.alloc(), "blade gen 5 10000", 0, text)?);
    Ok(())
}

/// Whether a made module that is longer than one piece ends so on that shelf, and nothing is kept.
fn keeps_nothing(
    alloc: Global,
    shelf: &mut MemoryShelf,
    status: u8,
    text: &str,
) -> Result<bool, NoMemory> {
    let wasm = make(alloc, 5, 1000)?;
    shelf.put("g.wasm", &wasm)?;
    let ended = ends(
        alloc,
        shelf,
        "blade harden g.img g.json g.wasm",
        status,
        text,
    )?;
    Ok(wasm.len() == 76_905 && ended && !stands(shelf, "g.img") && !stands(shelf, "g.json"))
}

/// Whether that holds where the shelf's call of that number fails.
fn is_refused(alloc: Global, number: u64, status: u8, text: &str) -> Result<bool, NoMemory> {
    let mut shelf = shelf_failing(alloc, &[], Some(number))?;
    keeps_nothing(alloc, &mut shelf, status, text)
}

#[test]
fn a_long_module_is_read_by_two_calls(rt: HostRuntime) -> Result<(), Fail> {
    assert!(rt; is_refused(rt.alloc(), 2, 3, "read fault: g.wasm\n")?);
    assert!(rt; is_refused(rt.alloc(), 3, 4, "write fault: g.json\n")?);
    Ok(())
}
