//! A sink over an output that takes little at once. By hand: it takes so many bytes a call until none are left.
use bl_outside::{Sink, WriterSink};
use std::alloc::Global;
use std::cell::RefCell;
use std::fmt::Display;
use std::io::{Error, ErrorKind, Result, writer};
use std::test::Fail;

const TEXT: &[u8] = b"functions 1\nconstant-time yes\n";

/// An output that takes at most so many bytes at once, and keeps them.
#[derive(Drop)]
struct Trickle<'t> {
    taken: &'t RefCell<Vec<u8>>,
    at_once: usize,
}

impl Print for Trickle<'_> {
    fn print<D: Display + Drop>(&self, _value: D) -> Result<()> {
        Err(Error::from(ErrorKind::Unsupported))
    }

    fn println<D: Display + Drop>(&self, _value: D) -> Result<()> {
        Err(Error::from(ErrorKind::Unsupported))
    }

    fn write_all(&self, _bytes: &[u8]) -> Result<()> {
        Err(Error::from(ErrorKind::Unsupported))
    }

    fn write_some(&self, bytes: &[u8]) -> Result<usize> {
        let count = bytes.len().min(self.at_once);
        self.taken
            .try_borrow_mut()?
            .extend_from_slice(&bytes[..count])?;
        Ok(count)
    }
}

/// Whether a text is pushed whole, so many bytes at once.
fn is_pushed<S: Sink>(sink: &mut S, at_once: usize) -> bool {
    let mut rest = TEXT;
    for _ in 0..TEXT.len() {
        if sink.push(rest) != Ok(rest.len().min(at_once)) {
            return false;
        }
        rest = rest.get(at_once..).unwrap_or(b"");
    }
    rest.is_empty()
}

/// Whether an output that takes so many bytes at once has a text, byte for byte, once it is pushed.
fn is_taken(alloc: Global, at_once: usize) -> bool {
    let taken = RefCell::new(Vec::new(alloc));
    let output = Trickle {
        taken: &taken,
        at_once,
    };
    let pushed = is_pushed(&mut WriterSink::new(writer(&output)), at_once);
    let all = match taken.try_borrow() {
        Ok(bytes) => bytes.as_slice() == TEXT,
        Err(_) => false,
    };
    pushed && all
}

/// Whether an output that takes nothing is a fault at each push.
fn is_refused(alloc: Global) -> bool {
    let taken = RefCell::new(Vec::new(alloc));
    let output = Trickle {
        taken: &taken,
        at_once: 0,
    };
    let mut sink = WriterSink::new(writer(&output));
    sink.push(TEXT).is_err() && sink.push(b"") == Ok(0)
}

#[test]
fn a_text_is_pushed_byte_for_byte(rt: HostRuntime) -> std::result::Result<(), Fail> {
    assert!(rt; is_taken(rt.alloc(), 1));
    assert!(rt; is_taken(rt.alloc(), 3));
    assert!(rt; is_refused(rt.alloc()));
    Ok(())
}
