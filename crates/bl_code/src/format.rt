//! Formats: parts of the grammar, each with its reader.
ghost use Rattle.std.specs.Prelude.{◌≡◌, ◌≤◌, ℕ, List as Listed, length};
ghost use Rattle.bl_leb.specs.Grammar.{given};
ghost use Rattle.bl_wasm.specs.Values.{each, vec, sized};
ghost use Rattle.bl_code.specs.{ReaderAnswers.Reads, Unique.PrefixFree};

use crate::error::CodeError;
use crate::values::read_u32;
use bl_base::List;
use std::alloc::Global;

/// A rule of the grammar, with its reader.
pub trait Format {
    /// What is spelled.
    type Tree: Drop;

    /// Its spellings.
    ghost spellings: { Self.Tree → Listed ℕ → Type 0 };

    /// Reads what begins at `at`, a place of `bytes` or their length, and gives it with the place after its last byte.
    /// Malformed exactly where no spelling begins there.
    fn read(alloc: Global, bytes: &[u8], at: usize) -> Result<(Self::Tree, usize), CodeError>
        requires { at ≤ length bytes.now }
        ensures { Reads spellings bytes.now at result };

    ghost prefix_free: { PrefixFree spellings };
}

/// Reads as many of a format as `count` says, one after another from `at` on.
fn read_each<F: Format>(
    alloc: Global,
    bytes: &[u8],
    at: usize,
    count: u32,
) -> Result<(List<F::Tree>, usize), CodeError>
    requires { at ≤ length bytes.now }
    ensures { Reads (λ trees. given (length trees ≡ count) (each F.spellings trees)) bytes.now at result }
{
    let mut trees = List::new(alloc);
    let mut place = at;
    for _ in 0..count {
        let (tree, after) = F::read(alloc, bytes, place)?;
        trees.push(tree)?;
        place = after;
    }
    Ok((trees, place))
}

/// Reads a vector of a format (WebAssembly 1.0, section 5.1.3).
pub fn read_vec<F: Format>(
    alloc: Global,
    bytes: &[u8],
    at: usize,
) -> Result<(List<F::Tree>, usize), CodeError>
    requires { at ≤ length bytes.now }
    ensures { Reads (vec F.spellings) bytes.now at result }
{
    let (count, place) = read_u32(bytes, at)?;
    read_each::<F>(alloc, bytes, place, count)
}

/// Reads a format behind its size (WebAssembly 1.0, sections 5.5.2 and 5.5.13): it takes exactly the bytes that the size
/// counts. Malformed too where fewer bytes are left than that, or the format ends before them.
pub fn read_sized<F: Format>(
    alloc: Global,
    bytes: &[u8],
    at: usize,
) -> Result<(F::Tree, usize), CodeError>
    requires { at ≤ length bytes.now }
    ensures { Reads (λ tree. sized (F.spellings tree)) bytes.now at result }
{
    let (size, place) = read_u32(bytes, at)?;
    if bytes.len() - place < size as usize {
        return Err(CodeError::Malformed);
    }
    let end = place + size as usize;
    let (tree, after) = F::read(alloc, &bytes[..end], place)?;
    if after != end {
        return Err(CodeError::Malformed);
    }
    Ok((tree, after))
}
