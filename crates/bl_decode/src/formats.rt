//! Formats of which the entries of sections are put together.
ghost use Rattle.std.specs.Prelude.{◌≡◌, ◌≤◌, ℕ, length, List as Listed};
ghost use Rattle.bl_leb.specs.Grammar.{◌⨾◌, byte};
ghost use Rattle.bl_wasm.specs.Values.{byte_vec, name, vec};
ghost use Rattle.bl_wasm.specs.Types.{limits, value_type, mutability};
ghost use Rattle.bl_wasm.specs.Instructions.{expression};
ghost use Rattle.bl_code.proofs.Unique.{byte_vec_prefix_free, name_prefix_free, vec_prefix_free};
ghost use Rattle.bl_code.proofs.{Limits.limits_prefix_free, BlockTypes.value_type_prefix_free, ExpressionLemmas.expression_prefix_free};
ghost use Rattle.bl_decode.specs.Laws.{seq_prefix_free, mark_prefix_free, mutability_prefix_free};

use crate::sized::stands_at;
use bl_base::{List, Text};
use bl_code::{
    CodeError, Format, read_byte, read_bytes, read_expression, read_limits, read_name,
    read_value_type, read_vec,
};
use bl_wasm::{Instr, Limits, WasmType};
use std::alloc::Global;
use std::marker::PhantomData;

/// A format, and behind it another one.
pub(crate) struct Then<A, B>(PhantomData<(A, B)>);

impl<A: Format, B: Format> Format for Then<A, B> {
    type Tree = (A::Tree, B::Tree);

    ghost spellings = { λ tree. A.spellings tree.0 ⨾ B.spellings tree.1 };

    ghost prefix_free = { seq_prefix_free A.prefix_free B.prefix_free };

    fn read(alloc: Global, bytes: &[u8], at: usize) -> Result<(Self::Tree, usize), CodeError> {
        let (first, place) = A::read(alloc, bytes, at)?;
        let (second, end) = B::read(alloc, bytes, place)?;
        Ok(((first, second), end))
    }
}

/// A byte.
pub(crate) struct Byte<const B: u8>;

impl<const B: u8> Format for Byte<B> {
    type Tree = ();

    ghost spellings = { λ _. byte B };

    ghost prefix_free = { mark_prefix_free B };

    fn read(_alloc: Global, bytes: &[u8], at: usize) -> Result<((), usize), CodeError> {
        if !stands_at(bytes, at, B) {
            return Err(CodeError::Malformed);
        }
        Ok(((), at + 1))
    }
}

/// A vector of a format (WebAssembly 1.0, section 5.1.3).
pub(crate) struct Vector<F>(PhantomData<F>);

impl<F: Format> Format for Vector<F> {
    type Tree = List<F::Tree>;

    ghost spellings = { vec F.spellings };

    ghost prefix_free = { vec_prefix_free F.prefix_free };

    fn read(alloc: Global, bytes: &[u8], at: usize) -> Result<(List<F::Tree>, usize), CodeError> {
        read_vec::<F>(alloc, bytes, at)
    }
}

/// A vector of bytes.
pub(crate) struct Bytes;

impl Format for Bytes {
    type Tree = Text;

    ghost spellings = { byte_vec };

    ghost prefix_free = { byte_vec_prefix_free };

    fn read(alloc: Global, bytes: &[u8], at: usize) -> Result<(Text, usize), CodeError> {
        read_bytes(alloc, bytes, at)
    }
}

/// A name (section 5.2.4).
pub(crate) struct Names;

impl Format for Names {
    type Tree = Text;

    ghost spellings = { name };

    ghost prefix_free = { name_prefix_free };

    fn read(alloc: Global, bytes: &[u8], at: usize) -> Result<(Text, usize), CodeError> {
        read_name(alloc, bytes, at)
    }
}

/// A value type (section 5.3.1).
pub(crate) struct ValueTypes;

impl Format for ValueTypes {
    type Tree = WasmType;

    ghost spellings = { value_type };

    ghost prefix_free = { value_type_prefix_free };

    fn read(_alloc: Global, bytes: &[u8], at: usize) -> Result<(WasmType, usize), CodeError> {
        Ok(read_value_type(bytes, at)?)
    }
}

/// Limits (section 5.3.4), also those of a memory (section 5.3.5).
pub(crate) struct Memories;

impl Format for Memories {
    type Tree = Limits;

    ghost spellings = { limits };

    ghost prefix_free = { limits_prefix_free };

    fn read(_alloc: Global, bytes: &[u8], at: usize) -> Result<(Limits, usize), CodeError> {
        Ok(read_limits(bytes, at)?)
    }
}

/// Whether a global can be set (section 5.3.7).
pub(crate) struct Mutabilities;

impl Format for Mutabilities {
    type Tree = bool;

    ghost spellings = { mutability };

    ghost prefix_free = { mutability_prefix_free };

    fn read(_alloc: Global, bytes: &[u8], at: usize) -> Result<(bool, usize), CodeError> {
        let (code, end) = read_byte(bytes, at)?;
        match code {
            0x00 => Ok((false, end)),
            0x01 => Ok((true, end)),
            _ => Err(CodeError::Malformed),
        }
    }
}

/// An expression (section 5.4.6).
pub(crate) struct Expressions;

impl Format for Expressions {
    type Tree = List<Instr>;

    ghost spellings = { expression };

    ghost prefix_free = { expression_prefix_free };

    fn read(alloc: Global, bytes: &[u8], at: usize) -> Result<(List<Instr>, usize), CodeError> {
        read_expression(alloc, bytes, at)
    }
}
