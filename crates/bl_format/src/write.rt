//! Writers of values that stand in images, and how many bytes they write.
ghost use Rattle.std.specs.Prelude.{◌≡◌, ◌+◌, ◌<◌, ◌^◌, ℕ, List as Listed, All, OnOk, if◌then◌else◌, length};
ghost use Rattle.bl_program.specs.Rules.{IsMark};
ghost use Rattle.bl_leb.specs.{Grammar.◌⨾◌, Grammar.byte, Numbers.IsUnsigned, Spellings.IsShortest};
ghost use Rattle.bl_format.specs.Grammar.{each, vec, u32, u64};
ghost use Rattle.bl_format.specs.Image.{value_type, label, operand, operand_fields, mark, operator, access, trap_kind, text};
ghost use Rattle.bl_format.specs.WriterAnswers.{Adds, HasLength};

use bl_base::{Label, List, NoMemory, Pos, Text, Trap, ValueType, Var};
use bl_leb::push_u64;
use bl_ops::{AccessKind, Op, image_code};
use bl_program::{Mark, Operand};

/// What stands in an image, with its writer and how many bytes that writes.
pub trait Write {
    /// Its spellings.
    ghost written: { Self → Listed ℕ → Type 0 };

    /// What holds of one that can be spelled.
    ghost fits: { Self → Type 0 };

    /// Appends the spelling.
    fn write(&self, to: &mut Vec<u8>) -> Result<(), NoMemory>
        requires { fits self.now }
        ensures { OnOk result (Adds (written self.now) to.old.items to.new.items) };

    /// How many bytes the spelling has, or the greatest number of 64 bits where it has more.
    fn spelled_length(&self) -> u64
        requires { fits self.now }
        ensures { HasLength (written self.now) result };
}

/// Appends one byte.
pub fn write_byte(code: u8, to: &mut Vec<u8>) -> Result<(), NoMemory>
    ensures { OnOk result (Adds (byte code) to.old.items to.new.items) }
{
    to.push(code)?;
    Ok(())
}

/// Appends a number in its shortest spelling.
pub fn write_u64(number: u64, to: &mut Vec<u8>) -> Result<(), NoMemory>
    ensures { OnOk result (Adds (u64 number) to.old.items to.new.items) }
{
    push_u64(to, number)
}

/// Appends a number below 2^32 in its shortest spelling.
pub fn write_u32(number: u32, to: &mut Vec<u8>) -> Result<(), NoMemory>
    ensures { OnOk result (Adds (u32 number) to.old.items to.new.items) }
{
    write_u64(u64::from(number), to)
}

/// How many bytes the shortest spelling of a number has, at whatever width the number has. The recursion goes as deep as the spelling is long,
/// at most 10 bytes.
fn length_of_unsigned(number: u64) -> u64
    ensures { (width : ℕ) → number < 2 ^ width → HasLength (λ bytes. IsShortest (IsUnsigned width) bytes number) result }
{
    if number < 128 {
        return 1;
    }
    length_of_unsigned(number / 128).saturating_add(1)
}

/// How many bytes the shortest spelling of a number of 64 bits has, 1 to 10.
pub fn length_of_u64(number: u64) -> u64
    ensures { HasLength (u64 number) result }
{
    length_of_unsigned(number)
}

/// The same of a number below 2^32.
pub fn length_of_u32(number: u32) -> u64
    ensures { HasLength (u32 number) result }
{
    length_of_u64(u64::from(number))
}

impl Write for u32 {
    ghost written = { u32 };

    ghost fits = { λ _. Unit {0} };

    fn write(&self, to: &mut Vec<u8>) -> Result<(), NoMemory> {
        write_u32(*self, to)
    }

    fn spelled_length(&self) -> u64 {
        length_of_u32(*self)
    }
}

impl<A: Write, B: Write> Write for (A, B) {
    ghost written = { λ both. A.written both.0 ⨾ B.written both.1 };

    ghost fits = { λ both. A.fits both.0 × B.fits both.1 };

    fn write(&self, to: &mut Vec<u8>) -> Result<(), NoMemory> {
        self.0.write(to)?;
        self.1.write(to)?;
        Ok(())
    }

    fn spelled_length(&self) -> u64 {
        let first = self.0.spelled_length();
        first.saturating_add(self.1.spelled_length())
    }
}

/// Appends the spelling of each thing.
pub fn write_each<T: Write>(things: &[T], to: &mut Vec<u8>) -> Result<(), NoMemory>
    requires { All T.fits things.now }
    ensures { OnOk result (Adds (each T.written things.now) to.old.items to.new.items) }
{
    for thing in things {
        thing.write(to)?;
    }
    Ok(())
}

/// How many bytes the spellings of things have, one after another.
pub fn length_of_each<T: Write>(things: &[T]) -> u64
    requires { All T.fits things.now }
    ensures { HasLength (each T.written things.now) result }
{
    let mut length: u64 = 0;
    for thing in things {
        length = length.saturating_add(thing.spelled_length());
    }
    length
}

/// How many bytes the number of things has.
pub fn length_of_count<T>(things: &List<T>) -> u64
    ensures { HasLength (u64 (length things.now)) result }
{
    length_of_u64(things.len() as u64)
}

impl<T: Write> Write for List<T> {
    ghost use Rattle.std.specs.Prelude.{◌<◌, ◌^◌, All, length};

    ghost written = { vec T.written };

    ghost fits = { λ things. (length things < 2 ^ 32) × All T.fits things };

    fn write(&self, to: &mut Vec<u8>) -> Result<(), NoMemory> {
        write_u64(self.len() as u64, to)?;
        write_each(self.as_slice(), to)?;
        Ok(())
    }

    fn spelled_length(&self) -> u64 {
        let count = length_of_count(self);
        count.saturating_add(length_of_each(self.as_slice()))
    }
}

impl Write for Text {
    ghost written = { text };

    ghost fits = { λ _. Unit {0} };

    fn write(&self, to: &mut Vec<u8>) -> Result<(), NoMemory> {
        write_u64(self.len() as u64, to)?;
        to.extend_from_slice(self.as_slice())?;
        Ok(())
    }

    fn spelled_length(&self) -> u64 {
        let count = self.len() as u64;
        length_of_u64(count).saturating_add(count)
    }
}

impl Write for Var {
    ghost written = { λ x. u32 x.0 };

    ghost fits = { λ _. Unit {0} };

    fn write(&self, to: &mut Vec<u8>) -> Result<(), NoMemory> {
        write_u32(self.0, to)
    }

    fn spelled_length(&self) -> u64 {
        length_of_u32(self.0)
    }
}

impl Write for Pos {
    ghost written = { λ position. u32 position.0 };

    ghost fits = { λ _. Unit {0} };

    fn write(&self, to: &mut Vec<u8>) -> Result<(), NoMemory> {
        write_u32(self.0, to)
    }

    fn spelled_length(&self) -> u64 {
        length_of_u32(self.0)
    }
}

impl Write for ValueType {
    ghost written = { value_type };

    ghost fits = { λ _. Unit {0} };

    fn write(&self, to: &mut Vec<u8>) -> Result<(), NoMemory> {
        match self {
            ValueType::I32 => write_byte(0x7F, to),
            ValueType::I64 => write_byte(0x7E, to),
        }
    }

    fn spelled_length(&self) -> u64 {
        1
    }
}

impl Write for Label {
    ghost written = { label };

    ghost fits = { λ _. Unit {0} };

    fn write(&self, to: &mut Vec<u8>) -> Result<(), NoMemory> {
        match self {
            Label::Public => write_byte(0x00, to),
            Label::Secret => write_byte(0x01, to),
        }
    }

    fn spelled_length(&self) -> u64 {
        1
    }
}

/// How many bytes an operand has behind its code.
fn length_of_operand(one: Operand) -> u64
    ensures { HasLength (operand_fields one) result }
{
    match one {
        Operand::Var(variable) => length_of_u32(variable.0),
        Operand::Const(number) => length_of_u64(number),
    }
}

impl Write for Operand {
    ghost written = { operand };

    ghost fits = { λ _. Unit {0} };

    fn write(&self, to: &mut Vec<u8>) -> Result<(), NoMemory> {
        match *self {
            Operand::Var(variable) => {
                write_byte(0x00, to)?;
                write_u32(variable.0, to)?;
            }
            Operand::Const(number) => {
                write_byte(0x01, to)?;
                write_u64(number, to)?;
            }
        }
        Ok(())
    }

    fn spelled_length(&self) -> u64 {
        length_of_operand(*self).saturating_add(1)
    }
}

/// The byte of a mark: the depth, plus 8 where protected.
fn mark_code(mark: Mark) -> u8
    requires { IsMark mark }
    ensures { result ≡ mark.depth + (if mark.protect then 8 else 0) }
{
    if mark.protect {
        mark.depth + 8
    } else {
        mark.depth
    }
}

impl Write for Mark {
    ghost written = { mark };

    ghost fits = { IsMark };

    fn write(&self, to: &mut Vec<u8>) -> Result<(), NoMemory> {
        write_byte(mark_code(*self), to)
    }

    fn spelled_length(&self) -> u64 {
        1
    }
}

impl Write for Op {
    ghost written = { operator };

    ghost fits = { λ _. Unit {0} };

    fn write(&self, to: &mut Vec<u8>) -> Result<(), NoMemory> {
        write_byte(image_code(*self), to)
    }

    fn spelled_length(&self) -> u64 {
        1
    }
}

impl Write for AccessKind {
    ghost written = { access };

    ghost fits = { λ _. Unit {0} };

    fn write(&self, to: &mut Vec<u8>) -> Result<(), NoMemory> {
        write_byte(self.code(), to)
    }

    fn spelled_length(&self) -> u64 {
        1
    }
}

impl Write for Trap {
    ghost written = { trap_kind };

    ghost fits = { λ _. Unit {0} };

    fn write(&self, to: &mut Vec<u8>) -> Result<(), NoMemory> {
        write_byte(self.code(), to)
    }

    fn spelled_length(&self) -> u64 {
        1
    }
}
