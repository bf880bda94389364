//! `part`: what is chosen on either side of an interface, and what is refused. The numbers were worked by hand from the rules of lowering and of
//! the transient rules, which give each position of these few commands.
use crate::modules::{LIB, MAIN, STUB};
use bl_base::NoMemory;
use bl_outside::MemoryShelf;
use std::alloc::Global;
use std::test::Fail;
use tests_calls::{are_no_requests, ends, shelf_of};

/// A shelf with the modules, and two interfaces: `t` has a transient parameter and a stable result, `s` the other way round.
fn files(alloc: Global) -> Result<MemoryShelf, NoMemory> {
    shelf_of(
        alloc,
        &[
            ("lib.wasm", &LIB),
            ("stub/lib.wasm", &STUB),
            ("main.wasm", &MAIN),
            ("t", b"function t s lib/f\n"),
            ("s", b"function s t lib/f"),
            ("none", b""),
            ("bad", b"function t s lib/f\nfunction x s lib/g\n"),
            ("twice", b"function t s lib/f\nfunction s s lib/f\n"),
            ("other", b"function t s lib/h\n"),
            ("wide", b"function t - lib/f\n"),
            ("cut.wasm", b"\0asm"),
        ],
    )
}

/// Words of a call, the status that it ends with, and the text.
struct Said {
    line: &'static str,
    status: u8,
    text: &'static str,
}

static LIBRARY: Said = Said {
    line: "blade part library i t lib.wasm",
    status: 0,
    text: "functions 1\ncommands 14\nsites 4\nprotects 2 weight 2\nprotect 8 weight 1\nprotect 11 weight 1\n",
};

static CLIENT: Said = Said {
    line: "blade part client i t stub/lib.wasm main.wasm",
    status: 0,
    text: "functions 2\ncommands 19\nsites 6\nprotects 0 weight 0\n",
};

static OTHER_LIBRARY: Said = Said {
    line: "blade part library i s lib.wasm",
    status: 0,
    text: "functions 1\ncommands 14\nsites 4\nprotects 0 weight 0\n",
};

static OTHER_CLIENT: Said = Said {
    line: "blade part client i s stub/lib.wasm main.wasm",
    status: 0,
    text: "functions 2\ncommands 19\nsites 6\nprotects 1 weight 1\nprotect 13 weight 1\n",
};

/// Nothing is asked of an interface without functions.
static FREE: Said = Said {
    line: "blade part library i none lib.wasm",
    status: 0,
    text: "functions 1\ncommands 14\nsites 4\nprotects 0 weight 0\n",
};

static REFUSED: [Said; 6] = [
    Said {
        line: "blade part library i bad lib.wasm",
        status: 20,
        text: "interface: line 2\n",
    },
    Said {
        line: "blade part library i twice lib.wasm",
        status: 20,
        text: "interface: line 2\n",
    },
    Said {
        line: "blade part library i other lib.wasm",
        status: 20,
        text: "interface: function 0\n",
    },
    Said {
        line: "blade part library i wide lib.wasm",
        status: 20,
        text: "interface: function 0\n",
    },
    // The modules are refused before the interface.
    Said {
        line: "blade part library i bad cut.wasm",
        status: 5,
        text: "malformed: cut\n",
    },
    // The interface is read before the modules.
    Said {
        line: "blade part library i absent gone.wasm",
        status: 3,
        text: "read fault: absent\n",
    },
];

/// Words that are no request: a word that names no side; an image that is the interface; no module; an option; two modules of one name.
static USAGE: [&str; 6] = [
    "blade part lib i t lib.wasm",
    "blade part library i i lib.wasm",
    "blade part library i t",
    "blade part --steps 1 library i t lib.wasm",
    "blade part --counts c library i t lib.wasm",
    "blade part client i t stub/lib.wasm lib.wasm",
];

/// Whether a call on these files ends as it says, and leaves an image exactly where it ends with status 0.
fn is_said(alloc: Global, said: &Said) -> Result<bool, NoMemory> {
    let mut shelf = files(alloc)?;
    let ended = ends(alloc, &mut shelf, said.line, said.status, said.text)?;
    Ok(ended && shelf.entry("i").is_some() == (said.status == 0))
}

/// How many of these calls end as they say, before the first that doesn't.
fn count_said(alloc: Global, all: &[Said]) -> Result<u32, NoMemory> {
    let mut count = 0u32;
    for said in all {
        if !is_said(alloc, said)? {
            break;
        }
        count = count.wrapping_add(1);
    }
    Ok(count)
}

#[test]
fn a_library_protects_what_is_given_and_owed(rt: HostRuntime) -> Result<(), Fail> {
    assert!(rt; is_said(rt.alloc(), &LIBRARY)?);
    assert!(rt; is_said(rt.alloc(), &OTHER_LIBRARY)?);
    assert!(rt; is_said(rt.alloc(), &FREE)?);
    Ok(())
}

#[test]
fn a_client_protects_what_it_is_given(rt: HostRuntime) -> Result<(), Fail> {
    assert!(rt; is_said(rt.alloc(), &CLIENT)?);
    assert!(rt; is_said(rt.alloc(), &OTHER_CLIENT)?);
    Ok(())
}

#[test]
fn interfaces_are_refused_behind_modules(rt: HostRuntime) -> Result<(), Fail> {
    assert_eq!(rt; count_said(rt.alloc(), &REFUSED)?, 6);
    Ok(())
}

#[test]
fn words_of_part_are_counted(rt: HostRuntime) -> Result<(), Fail> {
    assert_eq!(rt; are_no_requests(rt.alloc(), &USAGE)?, 6);
    Ok(())
}

/// Whether an interface file of one byte too many is refused by its length.
fn is_too_long(alloc: Global) -> Result<bool, NoMemory> {
    let mut shelf = files(alloc)?;
    let mut bytes = Vec::new(alloc);
    bytes.resize(1_048_577, b'x')?;
    shelf.put("long", &bytes)?;
    ends(
        alloc,
        &mut shelf,
        "blade part library i long lib.wasm",
        8,
        "limit: interface 1048577\n",
    )
}

#[test]
fn interfaces_have_a_length(rt: HostRuntime) -> Result<(), Fail> {
    assert!(rt; is_too_long(rt.alloc())?);
    Ok(())
}
