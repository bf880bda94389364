//! `join`: clients and libraries that are hardened apart and joined, how the joined image runs, and what is refused. The texts were worked by
//! hand from the rules of lowering and of the transient rules; what `g` of the module SUMS gives is what `oracles/interfaces.py` says, and what `interp`
//! says of the modules linked together.
use crate::modules::{BOTH, COUNTS, EACH, LIB, MAIN, STUB, SUMS, WIDE, WIDE_MAIN};
use bl_base::NoMemory;
use bl_outside::{MemoryShelf, MemorySink};
use std::alloc::Global;
use std::test::Fail;
use tests_calls::{are_done, are_no_requests, ends, say, shelf_of};
use tests_samples::DECLARED_IMAGE;

/// Words of a call, the status that it ends with, and the text.
struct Said {
    line: &'static str,
    status: u8,
    text: &'static str,
}

/// A shelf with the modules and interfaces.
fn files(alloc: Global) -> Result<MemoryShelf, NoMemory> {
    let mut shelf = shelf_of(
        alloc,
        &[
            ("lib.wasm", &LIB),
            ("stub/lib.wasm", &STUB),
            ("main.wasm", &MAIN),
            ("wide/lib.wasm", &WIDE),
            ("wide/main.wasm", &WIDE_MAIN),
            ("a.wasm", &LIB),
            ("b.wasm", &LIB),
            ("c.wasm", &LIB),
            ("declared", &DECLARED_IMAGE),
            ("start", b"arg 0\n"),
        ],
    )?;
    put_interfaces(&mut shelf)?;
    Ok(shelf)
}

/// Interfaces of these modules.
fn put_interfaces(shelf: &mut MemoryShelf) -> Result<(), NoMemory> {
    shelf.put("ts", b"function t s lib/f\n")?;
    shelf.put("st", b"function s t lib/f\n")?;
    shelf.put("ss", b"function s s lib/f\n")?;
    shelf.put("tt", b"function t t lib/f\n")?;
    shelf.put("none", b"")?;
    shelf.put("bad", b"function t s lib/f\n\n")?;
    shelf.put("h", b"function t s lib/h\n")?;
    shelf.put("g", b"function t s main/g\n")?;
    shelf.put("gh", b"function t s main/g\nfunction t s lib/h\n")?;
    shelf.put("m", b"function - - m/f\n")?;
    Ok(())
}

/// The parts that the tests join.
static PARTS: [&str; 6] = [
    "blade part library lib.ts ts lib.wasm",
    "blade part library lib.st st lib.wasm",
    "blade part client main.ts ts stub/lib.wasm main.wasm",
    "blade part client main.st st stub/lib.wasm main.wasm",
    "blade part client wide.tt tt wide/lib.wasm wide/main.wasm",
    "blade part library taken.ts ts lib.wasm main.wasm",
];

/// Parts with three and two memories that can grow to 256 pages each.
static LARGE: [&str; 2] = [
    "blade part client three ts stub/lib.wasm main.wasm a.wasm b.wasm",
    "blade part library two ts lib.wasm c.wasm",
];

/// How many of these calls end as they say, before the first that doesn't; an image stands exactly behind one with status 0.
fn count_said(alloc: Global, shelf: &mut MemoryShelf, all: &[Said]) -> Result<u32, NoMemory> {
    let mut count = 0u32;
    for said in all {
        if !ends(alloc, shelf, said.line, said.status, said.text)? {
            break;
        }
        if shelf.entry("i").is_some() != (said.status == 0) {
            break;
        }
        count = count.wrapping_add(1);
    }
    Ok(count)
}

/// How many of these calls on the parts do.
fn count_on_parts(alloc: Global, parts: &[&str], all: &[Said]) -> Result<u32, NoMemory> {
    let mut shelf = files(alloc)?;
    if !are_done(alloc, &mut shelf, parts)? {
        return Ok(1_000);
    }
    count_said(alloc, &mut shelf, all)
}

static ROW: [Said; 2] = [
    Said {
        line: "blade join i ts main.ts lib.ts",
        status: 0,
        text: "joined functions 3 commands 26\n",
    },
    Said {
        line: "blade run i main/g start",
        status: 0,
        text: "returned i32 0\nmemory 0 pages 1\nmemory 1 pages 1\n",
    },
];

#[test]
fn parts_are_joined_and_run(rt: HostRuntime) -> Result<(), Fail> {
    assert_eq!(rt; count_on_parts(rt.alloc(), &PARTS, &ROW)?, 2);
    Ok(())
}

/// A library whose result isn't as the client takes it; one that owes a stable result; a client that takes a stable result where it is given a
/// transient one, also where the library fails too, and where a name is taken.
static FAILING: [Said; 5] = [
    Said {
        line: "blade join i ts main.ts lib.st",
        status: 1,
        text: "library no 10\n",
    },
    Said {
        line: "blade join i ss main.ts lib.st",
        status: 1,
        text: "library no 12\n",
    },
    Said {
        line: "blade join i st main.ts lib.st",
        status: 1,
        text: "client no 15\n",
    },
    Said {
        line: "blade join i tt main.ts lib.st",
        status: 1,
        text: "client no 15\n",
    },
    Said {
        line: "blade join i st main.ts taken.ts",
        status: 1,
        text: "client no 15\n",
    },
];

#[test]
fn parts_that_do_not_pass_are_told(rt: HostRuntime) -> Result<(), Fail> {
    assert_eq!(rt; count_on_parts(rt.alloc(), &PARTS, &FAILING)?, 5);
    Ok(())
}

/// Each refusal once, and before it what comes before it in the order of the tests.
static REFUSED: [Said; 12] = [
    Said {
        line: "blade join i gone main.ts lib.ts",
        status: 3,
        text: "read fault: gone\n",
    },
    Said {
        line: "blade join i bad ts gone",
        status: 3,
        text: "read fault: gone\n",
    },
    Said {
        line: "blade join i bad ts st",
        status: 12,
        text: "image: not an image\n",
    },
    Said {
        line: "blade join i bad main.ts st",
        status: 12,
        text: "image: not an image\n",
    },
    Said {
        line: "blade join i bad main.ts lib.ts",
        status: 20,
        text: "interface: line 2\n",
    },
    Said {
        line: "blade join i h main.ts lib.ts",
        status: 20,
        text: "interface: function 0\n",
    },
    Said {
        line: "blade join i g main.ts lib.ts",
        status: 20,
        text: "interface: function 0\n",
    },
    Said {
        line: "blade join i gh main.ts lib.ts",
        status: 20,
        text: "interface: function 1\n",
    },
    Said {
        line: "blade join i tt wide.tt lib.st",
        status: 20,
        text: "interface: types 0\n",
    },
    Said {
        line: "blade join i ts main.ts taken.ts",
        status: 20,
        text: "interface: export 1\n",
    },
    Said {
        line: "blade join i none main.ts lib.ts",
        status: 20,
        text: "interface: export 0\n",
    },
    Said {
        line: "blade join i m declared declared",
        status: 8,
        text: "limit: variables 4294967294\n",
    },
];

#[test]
fn parts_that_do_not_fit_are_refused(rt: HostRuntime) -> Result<(), Fail> {
    assert_eq!(rt; count_on_parts(rt.alloc(), &PARTS, &REFUSED)?, 12);
    Ok(())
}

static RESERVE: [Said; 1] = [Said {
    line: "blade join i ts three two",
    status: 8,
    text: "limit: reserve 1280\n",
}];

#[test]
fn reserves_are_counted_together(rt: HostRuntime) -> Result<(), Fail> {
    assert_eq!(rt; count_on_parts(rt.alloc(), &LARGE, &RESERVE)?, 1);
    Ok(())
}

/// Words that are no request: an image that is read; an option; a word too few, and one too many.
static USAGE: [&str; 6] = [
    "blade join i i c l",
    "blade join i f i l",
    "blade join i f c i",
    "blade join --steps 1 i f c l",
    "blade join i f c",
    "blade join i f c l m",
];

#[test]
fn a_joined_image_is_a_file_of_its_own(rt: HostRuntime) -> Result<(), Fail> {
    assert_eq!(rt; are_no_requests(rt.alloc(), &USAGE)?, 6);
    Ok(())
}

/// A client with a global and a memory that calls a library with a global and a memory from a loop.
struct Looping {
    stub: &'static [u8],
    iface: &'static str,
    text: &'static str,
}

/// Each of two names for a function of its own.
static EACH_NAME: Looping = Looping {
    stub: &EACH,
    iface: "function s s lib/f\nfunction t t lib/h\n",
    text: "returned i32 54\nmemory 0 pages 1\nrow 0 0 00000000000000003200000000000000\nmemory 1 pages 1\n",
};

/// Both names for one stub: the first name of the interface counts.
static FIRST_NAME: Looping = Looping {
    stub: &BOTH,
    iface: "function s s lib/f\nfunction s s lib/h\n",
    text: "returned i32 71\nmemory 0 pages 1\nrow 0 0 00000000000000003200000000000000\nmemory 1 pages 1\n",
};

static OTHER_NAME: Looping = Looping {
    stub: &BOTH,
    iface: "function s s lib/h\nfunction s s lib/f\n",
    text: "returned i32 13\nmemory 0 pages 1\nrow 0 0 00000000000000000900000000000000\nmemory 1 pages 1\n",
};

/// A shelf with a library, a client, a stub and an interface.
fn called(alloc: Global, one: &Looping) -> Result<MemoryShelf, NoMemory> {
    shelf_of(
        alloc,
        &[
            ("lib.wasm", &COUNTS),
            ("main.wasm", &SUMS),
            ("stub/lib.wasm", one.stub),
            ("f", one.iface.as_bytes()),
            ("s", b"arg 3\n"),
        ],
    )
}

static APART: [&str; 3] = [
    "blade part library l f lib.wasm",
    "blade part client c f stub/lib.wasm main.wasm",
    "blade join i f c l",
];

/// Whether the joined image runs so.
fn runs_so(alloc: Global, shelf: &mut MemoryShelf, text: &str) -> Result<bool, NoMemory> {
    if !are_done(alloc, shelf, &APART)? {
        return Ok(false);
    }
    ends(alloc, shelf, "blade run i main/g s", 0, text)
}

/// Whether that is so of these files.
fn is_joined_so(alloc: Global, one: &Looping) -> Result<bool, NoMemory> {
    let mut shelf = called(alloc, one)?;
    runs_so(alloc, &mut shelf, one.text)
}

#[test]
fn a_library_is_called_from_a_loop(rt: HostRuntime) -> Result<(), Fail> {
    assert!(rt; is_joined_so(rt.alloc(), &EACH_NAME)?);
    Ok(())
}

#[test]
fn the_first_of_several_names_counts(rt: HostRuntime) -> Result<(), Fail> {
    assert!(rt; is_joined_so(rt.alloc(), &FIRST_NAME)?);
    assert!(rt; is_joined_so(rt.alloc(), &OTHER_NAME)?);
    Ok(())
}

/// What `interp` prints of the modules linked together, in which the library stands first.
const LINKED: &str =
    "returned i32 54\nmemory 0 pages 1\nmemory 1 pages 1\nrow 1 0 00000000000000003200000000000000\n";

/// Whether the modules linked together run as the joined image does.
fn is_as_linked(alloc: Global) -> Result<bool, NoMemory> {
    let mut shelf = called(alloc, &EACH_NAME)?;
    ends(
        alloc,
        &mut shelf,
        "blade interp main/g s lib.wasm main.wasm",
        0,
        LINKED,
    )
}

#[test]
fn a_joined_image_runs_as_linked_modules(rt: HostRuntime) -> Result<(), Fail> {
    assert!(rt; is_as_linked(rt.alloc())?);
    Ok(())
}

/// Whether the marks of a joined image pass the transient rules.
fn is_stable(alloc: Global, shelf: &mut MemoryShelf) -> Result<bool, NoMemory> {
    shelf.put("p", br#"{"paths":[],"weight":0}"#)?;
    if !are_done(alloc, shelf, &APART)? {
        return Ok(false);
    }
    let mut out = MemorySink::new(alloc, None);
    say(alloc, shelf, "blade verify i p", &mut out)?;
    Ok(
        out.bytes()
            .ends_with(b"\nstable yes\nconstant-time yes\nsafe yes\n".as_slice()),
    )
}

#[test]
fn a_joined_image_is_stable(rt: HostRuntime) -> Result<(), Fail> {
    let mut shelf = called(rt.alloc(), &EACH_NAME)?;
    assert!(rt; is_stable(rt.alloc(), &mut shelf)?);
    Ok(())
}
