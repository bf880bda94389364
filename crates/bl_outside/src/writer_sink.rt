//! A writer, as standard output is one, as a sink.
ghost use Rattle.std.specs.Prelude.{◌≡◌, ℕ, ◌<◌, ◌≤◌, List, Option, None, IfOk, length};
ghost use Rattle.std.specs.Io.KnownBytes.{WriteAppends};
ghost use Rattle.bl_outside.specs.Sink.{PushFaults, after_push, count_after_push};

use crate::sink::{Sink, SinkFault};
use std::io::Write;
use std::marker::Model;

/// Writes to a writer, and counts each push that fails. Contracts see the count, and what the writer holds, where it says so.
#[derive(Drop)]
pub struct WriterSink<W: Write> {
    to: W,
    faults: u64,
}

impl<W: Write> Model for WriterSink<W> {
    ghost use Rattle.bl_outside.specs.Sink.{Writing};

    ghost Value = { Writing };

    ghost view = { λ s. record { held = W.contents s.to; faults = s.faults } };
}

impl<W: Write> WriterSink<W> {
    /// A sink over a writer, without faults; takes no memory.
    pub fn new(to: W) -> WriterSink<W>
        ensures { result ≡ record { held = W.contents to; faults = 0 } }
    {
        WriterSink { to, faults: 0 }
    }
}

impl<W: Write> Sink for WriterSink<W> {
    ghost taken = { λ _. None };

    ghost faults = { λ s. s.faults };

    fn push(&mut self, piece: &[u8]) -> Result<usize, SinkFault>
        ensures bound { IfOk result (λ n. n ≤ length piece.now) }
        ensures some { IfOk result (λ n. 0 < length piece.now → 0 < n) }
        ensures taken { None ≡ after_push result None piece.now }
        ensures faults { PushFaults result self.old.faults self.new.faults }

        // Each fault counts one.
        ensures exact { self.new.faults ≡ count_after_push result self.old.faults }

        // A writer that says what it holds holds as many bytes of the piece more as are answered, and none more after a fault.
        ensures written { WriteAppends self.old.held self.new.held result piece.now }
    {
        if piece.is_empty() {
            return Ok(0);
        }
        match self.to.write(piece) {
            Ok(n) if n > 0 => Ok(n),
            _ => {
                self.faults = self.faults.saturating_add(1);
                Err(SinkFault)
            }
        }
    }
}
