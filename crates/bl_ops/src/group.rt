//! The operators by shape, on numbers of 32 and of 64 bits, by the machine's operations.
ghost use Rattle.std.specs.Prelude.{◌≡◌, ℕ, ◌%◌, ◌^◌};
ghost use Rattle.bl_ops.specs.GroupMeanings.{arithmetic, bitwise, comparison, conversion, division, extension, shift, unary, undefined};

use bl_base::Trap;

/// Sums and products.
#[derive(Clone, Copy, Debug)]
pub enum Arithmetic {
    Add,
    Sub,
    Mul,
}

/// Quotients and remainders.
#[derive(Clone, Copy, Debug)]
pub enum Division {
    DivS,
    DivU,
    RemS,
    RemU,
}

/// What is done bit by bit.
#[derive(Clone, Copy, Debug)]
pub enum Bitwise {
    And,
    Or,
    Xor,
}

/// Shifts and rotations.
#[derive(Clone, Copy, Debug)]
pub enum Shift {
    Shl,
    ShrS,
    ShrU,
    Rotl,
    Rotr,
}

/// The test for zero, and counts of bits.
#[derive(Clone, Copy, Debug)]
pub enum Unary {
    Eqz,
    Clz,
    Ctz,
    Popcnt,
}

/// Comparisons: 1 where one holds, else 0.
#[derive(Clone, Copy, Debug)]
pub enum Comparison {
    Eq,
    Ne,
    LtS,
    LtU,
    GtS,
    GtU,
    LeS,
    LeU,
    GeS,
    GeU,
}

/// Between i32 and i64.
#[derive(Clone, Copy, Debug)]
pub enum Conversion {
    Wrap,
    ExtendS,
    ExtendU,
}

/// The lowest bits of a number, extended by their sign.
#[derive(Clone, Copy, Debug)]
pub enum Extension {
    Low8,
    Low16,
    Low32,
}

/// The lowest 32 bits.
pub fn low(a: u64) -> u32
    ensures { result ≡ a % 2 ^ 32 }
{
    (a % 0x1_0000_0000) as u32
}

impl Arithmetic {
    /// At i32, with operands modulo 2^32.
    pub fn on_32(self, a: u64, b: u64) -> u64
        ensures { result ≡ arithmetic self 32 (a % 2 ^ 32) (b % 2 ^ 32) }
    {
        let (a, b) = (low(a), low(b));
        match self {
            Arithmetic::Add => u64::from(a.wrapping_add(b)),
            Arithmetic::Sub => u64::from(a.wrapping_sub(b)),
            Arithmetic::Mul => u64::from(a.wrapping_mul(b)),
        }
    }

    /// At i64.
    pub fn on_64(self, a: u64, b: u64) -> u64
        ensures { result ≡ arithmetic self 64 a b }
    {
        match self {
            Arithmetic::Add => a.wrapping_add(b),
            Arithmetic::Sub => a.wrapping_sub(b),
            Arithmetic::Mul => a.wrapping_mul(b),
        }
    }
}

impl Division {
    /// At i32, with operands modulo 2^32. By zero it gives 0; the quotient that overflows is the least number.
    pub fn on_32(self, a: u64, b: u64) -> u64
        ensures { result ≡ division self 32 (a % 2 ^ 32) (b % 2 ^ 32) }
    {
        let (a, b) = (low(a), low(b));
        if b == 0 {
            return 0;
        }
        let (signed_a, signed_b) = (a.cast_signed(), b.cast_signed());
        match self {
            Division::DivS => u64::from(signed_a.wrapping_div(signed_b).cast_unsigned()),
            Division::DivU => u64::from(a / b),
            Division::RemS => u64::from(signed_a.wrapping_rem(signed_b).cast_unsigned()),
            Division::RemU => u64::from(a % b),
        }
    }

    /// At i64. By zero it gives 0; the quotient that overflows is the least number.
    pub fn on_64(self, a: u64, b: u64) -> u64
        ensures { result ≡ division self 64 a b }
    {
        if b == 0 {
            return 0;
        }
        let (signed_a, signed_b) = (a.cast_signed(), b.cast_signed());
        match self {
            Division::DivS => signed_a.wrapping_div(signed_b).cast_unsigned(),
            Division::DivU => a / b,
            Division::RemS => signed_a.wrapping_rem(signed_b).cast_unsigned(),
            Division::RemU => a % b,
        }
    }

    /// The trap at i32, with operands modulo 2^32.
    pub fn trap_32(self, a: u64, b: u64) -> Option<Trap>
        ensures { result ≡ undefined self 32 (a % 2 ^ 32) (b % 2 ^ 32) }
    {
        let (a, b) = (low(a), low(b));
        if b == 0 {
            return Some(Trap::DivideByZero);
        }
        match self {
            Division::DivS if a.cast_signed() == i32::MIN && b.cast_signed() == -1 => Some(
                Trap::Overflow,
            ),
            _ => None,
        }
    }

    /// The trap at i64.
    pub fn trap_64(self, a: u64, b: u64) -> Option<Trap>
        ensures { result ≡ undefined self 64 a b }
    {
        if b == 0 {
            return Some(Trap::DivideByZero);
        }
        match self {
            Division::DivS if a.cast_signed() == i64::MIN && b.cast_signed() == -1 => Some(
                Trap::Overflow,
            ),
            _ => None,
        }
    }
}

#[tactic(auto, using(crate::proofs::Bits::bitwise_ops))]
impl Bitwise {
    /// At i32, with operands modulo 2^32.
    pub fn on_32(self, a: u64, b: u64) -> u64
        ensures { result ≡ bitwise self 32 (a % 2 ^ 32) (b % 2 ^ 32) }
    {
        let (a, b) = (low(a), low(b));
        match self {
            Bitwise::And => u64::from(a & b),
            Bitwise::Or => u64::from(a | b),
            Bitwise::Xor => u64::from(a ^ b),
        }
    }

    /// At i64.
    pub fn on_64(self, a: u64, b: u64) -> u64
        ensures { result ≡ bitwise self 64 a b }
    {
        match self {
            Bitwise::And => a & b,
            Bitwise::Or => a | b,
            Bitwise::Xor => a ^ b,
        }
    }
}

#[tactic(auto, using(crate::proofs::Shifts::rotations))]
impl Shift {
    /// At i32, with operands modulo 2^32.
    pub fn on_32(self, a: u64, b: u64) -> u64
        ensures { result ≡ shift self 32 (a % 2 ^ 32) (b % 2 ^ 32) }
    {
        let (a, places) = (low(a), low(b) % 32);
        match self {
            Shift::Shl => u64::from(a << places),
            Shift::ShrS => u64::from((a.cast_signed() >> places).cast_unsigned()),
            Shift::ShrU => u64::from(a >> places),
            Shift::Rotl => u64::from(a.rotate_left(places)),
            Shift::Rotr => u64::from(a.rotate_right(places)),
        }
    }

    /// At i64.
    pub fn on_64(self, a: u64, b: u64) -> u64
        ensures { result ≡ shift self 64 a b }
    {
        let places = (b % 64) as u32;
        match self {
            Shift::Shl => a << places,
            Shift::ShrS => (a.cast_signed() >> places).cast_unsigned(),
            Shift::ShrU => a >> places,
            Shift::Rotl => a.rotate_left(places),
            Shift::Rotr => a.rotate_right(places),
        }
    }
}

#[tactic(auto, using(crate::proofs::Bits::counts))]
impl Unary {
    /// At i32, with the operand modulo 2^32.
    pub fn on_32(self, a: u64) -> u64
        ensures { result ≡ unary self 32 (a % 2 ^ 32) }
    {
        let a = low(a);
        match self {
            Unary::Eqz => u64::from(a == 0),
            Unary::Clz => u64::from(a.leading_zeros()),
            Unary::Ctz => u64::from(a.trailing_zeros()),
            Unary::Popcnt => u64::from(a.count_ones()),
        }
    }

    /// At i64.
    pub fn on_64(self, a: u64) -> u64
        ensures { result ≡ unary self 64 a }
    {
        match self {
            Unary::Eqz => u64::from(a == 0),
            Unary::Clz => u64::from(a.leading_zeros()),
            Unary::Ctz => u64::from(a.trailing_zeros()),
            Unary::Popcnt => u64::from(a.count_ones()),
        }
    }
}

/// 1 where two numbers of one width compare so, else 0.
macro_rules! compared {
    ($comparison:expr, $a:expr, $b:expr) => {
        match $comparison {
            Comparison::Eq => u64::from($a == $b),
            Comparison::Ne => u64::from($a != $b),
            Comparison::LtS => u64::from($a.cast_signed() < $b.cast_signed()),
            Comparison::LtU => u64::from($a < $b),
            Comparison::GtS => u64::from($a.cast_signed() > $b.cast_signed()),
            Comparison::GtU => u64::from($a > $b),
            Comparison::LeS => u64::from($a.cast_signed() <= $b.cast_signed()),
            Comparison::LeU => u64::from($a <= $b),
            Comparison::GeS => u64::from($a.cast_signed() >= $b.cast_signed()),
            Comparison::GeU => u64::from($a >= $b),
        }
    };
}

impl Comparison {
    /// At i32, with operands modulo 2^32.
    pub fn on_32(self, a: u64, b: u64) -> u64
        ensures { result ≡ comparison self 32 (a % 2 ^ 32) (b % 2 ^ 32) }
    {
        let (a, b) = (low(a), low(b));
        compared!(self, a, b)
    }

    /// At i64.
    pub fn on_64(self, a: u64, b: u64) -> u64
        ensures { result ≡ comparison self 64 a b }
    {
        compared!(self, a, b)
    }
}

impl Conversion {
    /// The number at the other width; what is extended is taken modulo 2^32.
    pub fn apply(self, a: u64) -> u64
        ensures { result ≡ conversion self a }
    {
        match self {
            Conversion::Wrap => u64::from(low(a)),
            Conversion::ExtendS => i64::from(low(a).cast_signed()).cast_unsigned(),
            Conversion::ExtendU => u64::from(low(a)),
        }
    }
}

impl Extension {
    /// At i32: the number of 32 bits with the signed reading of the lowest ones.
    pub fn on_32(self, a: u64) -> u64
        ensures { result ≡ extension self 32 a }
    {
        match self {
            Extension::Low8 => u64::from(i32::from(
                ((a % 0x100) as u8).cast_signed(),
            ).cast_unsigned()),
            Extension::Low16 => u64::from(i32::from(
                ((a % 0x1_0000) as u16).cast_signed(),
            ).cast_unsigned()),
            Extension::Low32 => u64::from(low(a)),
        }
    }

    /// At i64: the number of 64 bits with the signed reading of the lowest ones.
    pub fn on_64(self, a: u64) -> u64
        ensures { result ≡ extension self 64 a }
    {
        match self {
            Extension::Low8 => i64::from(((a % 0x100) as u8).cast_signed()).cast_unsigned(),
            Extension::Low16 => i64::from(((a % 0x1_0000) as u16).cast_signed()).cast_unsigned(),
            Extension::Low32 => i64::from(low(a).cast_signed()).cast_unsigned(),
        }
    }
}
