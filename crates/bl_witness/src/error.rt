//! Why bytes are no certificate.
use thiserror::Error;

/// Why bytes are no certificate.
#[derive(Clone, Copy, Debug, PartialEq, Eq, Error)]
pub enum CertError {
    /// They are no JSON value by `serde_json`.
    #[error("not JSON")]
    NotJson,
    /// Their value isn't an object of exactly a certificate's keys, with whole numbers in digits alone, positions below 2^32
    /// and the others below 2^64.
    #[error("another shape")]
    Shape,
    /// There was no memory.
    #[error("out of memory")]
    Memory,
}
