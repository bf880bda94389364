//! Secrets that reach an end. Positions are computed by hand from the rules of lowering; each program has one chain alone.
use bl_base::NoMemory;
use std::alloc::Global;
use std::test::Fail;
use tests_calls::{ends, labelled_shelf, put_labelled, stands};

/// A function that tests its parameter: 8 is the move of the parameter, 9 the test.
const TESTED: &[u8] =
    b"\x01\x05\x01`\x01\x7F\0\x03\x02\x01\0\x07\x05\x01\x01f\0\0\x0A\x09\x01\x07\0 \0\x04@\x0B\x0B";

/// A function that tests what another one gives of its parameter: 8 the move, 9 the Arg, 10 the call, 11 the move of the result, 12
/// the test; and in the other function 17 the move and 18 the Out.
const CALLED: &[u8] =
    b"\x01\x0A\x02`\x01\x7F\0`\x01\x7F\x01\x7F\x03\x03\x02\0\x01\x07\x05\x01\x01f\0\0\x0A\x10\x02\x09\0 \0\x10\x01\x04@\x0B\x0B\
      \x04\0 \0\x0B";

/// A function that tests a word of its memory: 11 is the load, 12 the test.
const LOADED: &[u8] =
    b"\x01\x05\x01`\x01\x7F\0\x03\x02\x01\0\x05\x03\x01\0\x01\x07\x05\x01\x01f\0\0\x0A\x0C\x01\x0A\0 \0(\x02\0\x04@\x0B\x0B";

/// A function that tests its global: 8 is the move, 9 the test.
const GLOBAL: &[u8] =
    b"\x01\x04\x01`\0\0\x03\x02\x01\0\x06\x06\x01\x7F\x01A\0\x0B\x07\x05\x01\x01f\0\0\x0A\x09\x01\x07\0#\0\x04@\x0B\x0B";

/// A function that stores its parameter: 9 is the move of the parameter, 12 the store.
const STORED: &[u8] =
    b"\x01\x05\x01`\x01\x7F\0\x03\x02\x01\0\x05\x03\x01\0\x01\x07\x05\x01\x01f\0\0\x0A\x0B\x01\x09\0A\0 \x006\x02\0\x0B";

/// A function that divides its parameter by 3: 8 is the move, 12 the division.
const DIVIDED: &[u8] =
    b"\x01\x05\x01`\x01\x7F\0\x03\x02\x01\0\x07\x05\x01\x01f\0\0\x0A\x0A\x01\x08\0 \0A\x03n\x1A\x0B";

/// A function that leaves its parameter in a global: 8 and 9 are the moves.
const LEFT: &[u8] =
    b"\x01\x05\x01`\x01\x7F\0\x03\x02\x01\0\x06\x06\x01\x7F\x01A\0\x0B\x07\x05\x01\x01f\0\0\x0A\x08\x01\x06\0 \0$\0\x0B";

/// A function that gives a word of its memory: 11 is the load, 12 the Out.
const GIVEN: &[u8] =
    b"\x01\x06\x01`\x01\x7F\x01\x7F\x03\x02\x01\0\x05\x03\x01\0\x01\x07\x05\x01\x01f\0\0\x0A\x09\x01\x07\0 \0(\x02\0\x0B";

/// The sections of a module, the bytes of its label section behind the name, and the report.
static CASES: [(&[u8], &[u8], &str); 11] = [
    // Parameter 0 of function 0 is secret.
    (
        TESTED,
        b"\x01\x01\0\0\0",
        "functions 1\ncommands 13\nsites 1\nprotects 0 weight 0\nconstant-time no parameter 0 0 through 8 end 9\n",
    ),
    (
        CALLED,
        b"\x01\x01\0\0\0",
        "functions 2\ncommands 20\nsites 5\nprotects 0 weight 0\nconstant-time no parameter 0 0 through 8 9 17 18 11 end 12\n",
    ),
    // Of the function that is called.
    (
        CALLED,
        b"\x01\x01\0\x01\0",
        "functions 2\ncommands 20\nsites 5\nprotects 0 weight 0\nconstant-time no parameter 1 0 through 17 18 11 end 12\n",
    ),
    // The memory.
    (
        LOADED,
        b"\x01\x01\x02\0",
        "functions 1\ncommands 16\nsites 3\nprotects 1 weight 1\nprotect 11 weight 1 path 11 sink 12\n\
         constant-time no memory 0 through 11 end 12\n",
    ),
    // The global.
    (
        GLOBAL,
        b"\x01\x01\x01\0",
        "functions 1\ncommands 13\nsites 1\nprotects 0 weight 0\nconstant-time no global 0 through 8 end 9\n",
    ),
    (
        STORED,
        b"\x01\x01\0\0\0",
        "functions 1\ncommands 14\nsites 3\nprotects 0 weight 0\nconstant-time no parameter 0 0 through 9 end 12\n",
    ),
    // Both the parameter and the memory.
    (
        STORED,
        b"\x01\x02\0\0\0\x02\0",
        "functions 1\ncommands 14\nsites 3\nprotects 0 weight 0\nconstant-time yes\n",
    ),
    (
        DIVIDED,
        b"\x01\x01\0\0\0",
        "functions 1\ncommands 15\nsites 4\nprotects 0 weight 0\nconstant-time no parameter 0 0 through 8 end 12\n",
    ),
    // The parameter, and a demand of the global.
    (
        LEFT,
        b"\x02\x02\0\0\0\x04\0",
        "functions 1\ncommands 11\nsites 2\nprotects 0 weight 0\nconstant-time no parameter 0 0 through 8 end 9\n",
    ),
    // The parameter alone.
    (
        LEFT,
        b"\x02\x01\0\0\0",
        "functions 1\ncommands 11\nsites 2\nprotects 0 weight 0\nconstant-time yes\n",
    ),
    // The memory, and a demand of the result.
    (
        GIVEN,
        b"\x02\x02\x03\0\0\x02\0",
        "functions 1\ncommands 14\nsites 4\nprotects 0 weight 0\nconstant-time no memory 0 through 11 end 12\n",
    ),
];

/// Whether a module with those labels has that report, and the image and the certificate are kept.
fn is_reported(
    alloc: Global,
    sections: &[u8],
    labels: &[u8],
    report: &str,
) -> Result<bool, NoMemory> {
    let mut shelf = labelled_shelf(alloc, sections, labels)?;
    let reported = ends(alloc, &mut shelf, "blade harden i c m.wasm", 0, report)?;
    Ok(reported && stands(&shelf, "i") && stands(&shelf, "c"))
}

/// How many cases pass before the first that doesn't.
fn reported(alloc: Global) -> Result<u32, NoMemory> {
    let mut passed = 0u32;
    for (sections, labels, report) in &CASES {
        if !is_reported(alloc, *sections, *labels, *report)? {
            break;
        }
        passed = passed.wrapping_add(1);
    }
    Ok(passed)
}

#[test]
fn the_report_tells_where_a_secret_comes_from_and_where_it_goes(
    rt: HostRuntime,
) -> Result<(), Fail> {
    assert_eq!(rt; reported(rt.alloc())?, 11);
    Ok(())
}

/// A function that gives its parameter, a memory of a page and a global, the function exported: it has the commands 7 to 10.
const FIRST: &[u8] =
    b"\x01\x06\x01`\x01\x7F\x01\x7F\x03\x02\x01\0\x05\x03\x01\0\x01\x06\x06\x01\x7F\x01A\0\x0B\x07\x05\x01\x01f\0\0\x0A\x06\x01\x04\0 \
      \0\x0B";

/// Imports that function, and has one that tests its parameter: 12 is the move, 13 the test.
const IMPORTS: &[u8] =
    b"\x01\x0A\x02`\x01\x7F\x01\x7F`\x01\x7F\0\x02\x07\x01\x01a\x01f\0\0\x03\x02\x01\x01\x0A\x09\x01\x07\0 \0\x04@\x0B\x0B";

/// The sections and the labels of a module behind the first one, and the report.
static BEHIND: [(&[u8], &[u8], &str); 4] = [
    // Parameter 0 of its function 1, the first that it doesn't import.
    (
        IMPORTS,
        b"\x01\x01\0\x01\0",
        "functions 2\ncommands 17\nsites 3\nprotects 0 weight 0\nconstant-time no parameter 1 0 through 12 end 13\n",
    ),
    // Its global 0 is global 1 of both.
    (
        GLOBAL,
        b"\x01\x01\x01\0",
        "functions 2\ncommands 17\nsites 3\nprotects 0 weight 0\nconstant-time no global 1 through 12 end 13\n",
    ),
    // Its memory 0 is memory 1 of both.
    (
        LOADED,
        b"\x01\x01\x02\0",
        "functions 2\ncommands 20\nsites 5\nprotects 1 weight 1\nprotect 15 weight 1 path 15 sink 16\n\
         constant-time no memory 1 through 15 end 16\n",
    ),
    // Its parameter, and a demand of its global.
    (
        LEFT,
        b"\x02\x02\x04\0\0\0\0",
        "functions 2\ncommands 15\nsites 4\nprotects 0 weight 0\nconstant-time no parameter 1 0 through 12 end 13\n",
    ),
];

/// Whether a module behind the first one has that report.
fn is_reported_behind(
    alloc: Global,
    sections: &[u8],
    labels: &[u8],
    report: &str,
) -> Result<bool, NoMemory> {
    let mut shelf = labelled_shelf(alloc, sections, labels)?;
    put_labelled(alloc, &mut shelf, "a.wasm", FIRST, b"")?;
    ends(
        alloc,
        &mut shelf,
        "blade harden i c a.wasm m.wasm",
        0,
        report,
    )
}

/// How many modules behind the first one pass before the first that doesn't.
fn reported_behind(alloc: Global) -> Result<u32, NoMemory> {
    let mut passed = 0u32;
    for (sections, labels, report) in &BEHIND {
        if !is_reported_behind(alloc, *sections, *labels, *report)? {
            break;
        }
        passed = passed.wrapping_add(1);
    }
    Ok(passed)
}

#[test]
fn labels_of_a_second_module_are_those_of_the_linked_modules(rt: HostRuntime) -> Result<(), Fail> {
    assert_eq!(rt; reported_behind(rt.alloc())?, 4);
    Ok(())
}
