//! The ways in which a run can trap.
ghost use Rattle.std.specs.Prelude.{◌≡◌};
ghost use Rattle.bl_base.specs.Trap.{trap_number, text_of, trap_of};

/// Why a run trapped (WebAssembly 1.0, section 4.4; the texts are those of its test suite).
#[derive(Clone, Copy, Debug, PartialEq, Eq, PartialOrd, Ord)]
pub enum Trap {
    /// The instruction `unreachable` was executed.
    Unreachable = 0,
    /// A division or remainder by zero.
    DivideByZero = 1,
    /// The quotient of the least number by -1.
    Overflow = 2,
    /// An access past the end of its memory.
    OutOfBounds = 3,
    /// An indirect call past the end of the table.
    UndefinedElement = 4,
    /// An indirect call through an empty slot of the table.
    UninitializedElement = 5,
    /// An indirect call of a function of another type.
    TypeMismatch = 6,
    /// A call at the greatest depth of calls.
    StackExhausted = 7,
}

impl Trap {
    /// The number of the kind, from 0 to 7.
    pub fn code(self) -> u8
        ensures { result ≡ trap_number self }
    {
        self as u8
    }

    /// The kind of that number; None from 8 on.
    pub fn by_code(code: u8) -> Option<Trap>
        ensures { result ≡ trap_of code }
    {
        match code {
            0 => Some(Trap::Unreachable),
            1 => Some(Trap::DivideByZero),
            2 => Some(Trap::Overflow),
            3 => Some(Trap::OutOfBounds),
            4 => Some(Trap::UndefinedElement),
            5 => Some(Trap::UninitializedElement),
            6 => Some(Trap::TypeMismatch),
            7 => Some(Trap::StackExhausted),
            _ => None,
        }
    }

    /// The text that is printed of the kind.
    pub fn text(self) -> &'static str
        ensures { result.now ≡ text_of self }
    {
        match self {
            Trap::Unreachable => "unreachable",
            Trap::DivideByZero => "integer divide by zero",
            Trap::Overflow => "integer overflow",
            Trap::OutOfBounds => "out of bounds memory access",
            Trap::UndefinedElement => "undefined element",
            Trap::UninitializedElement => "uninitialized element",
            Trap::TypeMismatch => "indirect call type mismatch",
            Trap::StackExhausted => "call stack exhausted",
        }
    }
}
