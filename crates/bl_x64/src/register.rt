//! The sixteen general registers.
ghost use Rattle.std.specs.Prelude.{◌≡◌, ◌<◌};
ghost use Rattle.bl_x64.specs.Registers.{code_of};

/// A general register of 64 bits. The variants are in the order of their numbers (Intel 64 and IA-32 Architectures Software Developer's Manual,
/// volume 2, table 3-1).
#[derive(Clone, Copy, Debug, PartialEq, Eq)]
pub enum Register {
    /// Number 0.
    Rax,
    /// Number 1.
    Rcx,
    /// Number 2.
    Rdx,
    /// Number 3.
    Rbx,
    /// Number 4.
    Rsp,
    /// Number 5.
    Rbp,
    /// Number 6.
    Rsi,
    /// Number 7.
    Rdi,
    /// Number 8.
    R8,
    /// Number 9.
    R9,
    /// Number 10.
    R10,
    /// Number 11.
    R11,
    /// Number 12.
    R12,
    /// Number 13.
    R13,
    /// Number 14.
    R14,
    /// Number 15.
    R15,
}

impl Register {
    /// The number of the register in an encoding, 0 to 15.
    pub fn code(self) -> u8
        ensures value { result ≡ code_of self }
        ensures small { result < 16 }
    {
        match self {
            Register::Rax => 0,
            Register::Rcx => 1,
            Register::Rdx => 2,
            Register::Rbx => 3,
            Register::Rsp => 4,
            Register::Rbp => 5,
            Register::Rsi => 6,
            Register::Rdi => 7,
            Register::R8 => 8,
            Register::R9 => 9,
            Register::R10 => 10,
            Register::R11 => 11,
            Register::R12 => 12,
            Register::R13 => 13,
            Register::R14 => 14,
            Register::R15 => 15,
        }
    }
}
