//! Why a request is refused: a reason and a line. Each refusal is made where it arises.
ghost use Rattle.std.specs.Prelude.{◌≡◌, [], ◌∷◌, IfOk, Some};
ghost use Rattle.std.specs.{Fmt.decimal, List.flat_map};
ghost use Rattle.bl_outcome.specs.Lines.{line};
ghost use Rattle.bl_job.specs.{Refusals.limit, Refusals.refusal_of, WorkAnswers.IsTold};
ghost use Rattle.bl_job.specs.declared.refusal.WorkError.TheVariants as error;

use crate::status::Reason;
use bl_base::{NoMemory, Quantity};
use std::alloc::{AllocFailed, Global};
use thiserror::Error;

/// Why a request is refused: the first error in the order of work.
#[derive(Debug, Drop)]
pub struct Refusal {
    /// The reason, which is the status.
    pub reason: Reason,
    /// The line that is printed.
    pub line: Vec<u8>,
}

/// Why the work isn't done, or that memory ran out.
#[derive(Debug, Drop, Error)]
pub enum WorkError {
    /// The request is refused.
    #[error("the request is refused")]
    Refused(Refusal),
    /// Memory ran out.
    #[error("out of memory")]
    Memory,
}

impl From<NoMemory> for WorkError {
    ghost from_gives = { λ _ e. e ≡ error.Memory };

    fn from(_e: NoMemory) -> WorkError {
        WorkError::Memory
    }
}

impl<T: Drop> From<AllocFailed<T>> for WorkError {
    ghost from_gives = { λ _ e. e ≡ error.Memory };

    fn from(_e: AllocFailed<T>) -> WorkError {
        WorkError::Memory
    }
}

/// A refusal whose line has these texts, one behind another; Memory where there is none for the line.
pub fn refused(alloc: Global, reason: Reason, head: &str, name: &str, tail: &str) -> WorkError
    ensures { IsTold (Some (refusal_of reason (head.now ∷ name.now ∷ tail.now ∷ []))) result }
{
    match line_of(alloc, head, name, tail) {
        Ok(line) => WorkError::Refused(Refusal { reason, line }),
        Err(NoMemory) => WorkError::Memory,
    }
}

/// The line of three texts.
fn line_of(alloc: Global, head: &str, name: &str, tail: &str) -> Result<Vec<u8>, NoMemory>
    ensures { IfOk result (λ text. text.items ≡ line (flat_map (λ text. text) (head.now ∷ name.now ∷ tail.now ∷ []))) }
{
    let mut text = head.as_bytes().to_vec(alloc)?;
    text.extend_from_slice(name.as_bytes())?;
    text.extend_from_slice(tail.as_bytes())?;
    text.push(b'\n')?;
    Ok(text)
}

/// A refusal whose line ends with a number.
pub fn refused_at(alloc: Global, reason: Reason, head: &str, name: &str, number: u64) -> WorkError
    ensures { IsTold (Some (refusal_of reason (head.now ∷ name.now ∷ decimal number ∷ []))) result }
{
    match format!(in alloc; "{number}") {
        Ok(number) => refused(alloc, reason, head, name, number.as_str()),
        Err(_) => WorkError::Memory,
    }
}

/// A quantity exceeds its number: its value.
pub fn limit(alloc: Global, which: Quantity, value: u64) -> WorkError
    ensures { IsTold (Some (limit which value)) result }
{
    match format!(in alloc; " {value}") {
        Ok(value) => refused(
            alloc,
            Reason::Limit,
            "limit: ",
            which.word(),
            value.as_str(),
        ),
        Err(_) => WorkError::Memory,
    }
}
