//! Variables that an image declares and no command names: each command takes room for what is named alone. The texts were worked by hand from the
//! one command, a Ret, by the rules of the image, the buffer machine and the report.
use bl_base::NoMemory;
use bl_outside::MemoryShelf;
use std::alloc::Global;
use std::test::Fail;
use tests_calls::{ends, shelf_of};
use tests_samples::{DECLARED_IMAGE, NO_PATHS};

/// A command, and the text that it ends with and status 0.
struct Said {
    line: &'static str,
    text: &'static str,
}

static VERIFIED: Said = Said {
    line: "blade verify i c",
    text: "certificate yes\nstable yes\nconstant-time yes\nsafe yes\n",
};

static RUN: Said = Said {
    line: "blade run i m/f s",
    text: "returned\n",
};

static SPECULATED: Said = Said {
    line: "blade spec i m/f t s",
    text: "none\nnone\nreturned\n",
};

static COMPARED: Said = Said {
    line: "blade twin i m/f t s s",
    text: "public agree\nnone\nnone\nequal 2\n",
};

static FORWARDED: Said = Said {
    line: "blade forward i m/f t s s",
    text: "safe yes\npublic agree\nnone\nnone\nequal 2\n",
};

static DRIVEN: Said = Said {
    line: "blade predict i m/f d s",
    text: "directives 2 rollbacks 0 hits 0 misses 0\nalike yes\nreturned\n",
};

/// The image, its certificate, an empty start file and two directives.
fn files(alloc: Global) -> Result<MemoryShelf, NoMemory> {
    shelf_of(
        alloc,
        &[
            ("i", &DECLARED_IMAGE),
            ("c", NO_PATHS.as_bytes()),
            ("s", b""),
            ("t", b"fetch\nretire\n"),
        ],
    )
}

/// Whether a command on these files ends so.
fn is_said(alloc: Global, said: &Said) -> Result<bool, NoMemory> {
    let mut shelf = files(alloc)?;
    ends(alloc, &mut shelf, said.line, 0, said.text)
}

#[test]
fn what_is_declared_alone_is_verified(rt: HostRuntime) -> Result<(), Fail> {
    assert!(rt; is_said(rt.alloc(), &VERIFIED)?);
    Ok(())
}

#[test]
fn what_is_declared_alone_runs(rt: HostRuntime) -> Result<(), Fail> {
    assert!(rt; is_said(rt.alloc(), &RUN)?);
    assert!(rt; is_said(rt.alloc(), &SPECULATED)?);
    Ok(())
}

#[test]
fn what_is_declared_alone_is_compared(rt: HostRuntime) -> Result<(), Fail> {
    assert!(rt; is_said(rt.alloc(), &COMPARED)?);
    assert!(rt; is_said(rt.alloc(), &FORWARDED)?);
    assert!(rt; is_said(rt.alloc(), &DRIVEN)?);
    Ok(())
}
