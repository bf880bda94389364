//! A stream that takes bytes.
ghost use Rattle.std.specs.Prelude.{◌≡◌, ℕ, ◌<◌, ◌≤◌, List, Option, length, IfOk};
ghost use Rattle.bl_outside.specs.Sink.{PushFaults, after_push};

use thiserror::Error;

/// A piece was not taken. The sink has counted it.
#[derive(Clone, Copy, Debug, PartialEq, Eq, Error)]
#[error("output could not be written")]
pub struct SinkFault;

/// The bytes taken so far, and a count of faults that never falls. One that stands at 2^64 - 1 stays
/// there.
pub trait Sink {
    /// The bytes taken so far, if the sink exposes them.
    ghost taken: { Self → Option (List ℕ) };

    /// The count of faults.
    ghost faults: { Self → ℕ };

    /// Takes the first bytes of the piece, and answers how many: at least one of a piece that isn't
    /// empty. SinkFault comes only with a fault, and then nothing was taken.
    fn push(&mut self, piece: &[u8]) -> Result<usize, SinkFault>
        ensures bound { IfOk result (λ n. n ≤ length piece.now) }
        ensures some { IfOk result (λ n. 0 < length piece.now → 0 < n) }
        ensures taken { taken self.new ≡ after_push result (taken self.old) piece.now }
        ensures faults { PushFaults result (faults self.old) (faults self.new) };
}
