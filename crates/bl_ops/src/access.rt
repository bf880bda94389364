//! The kinds of accesses to memory.
ghost use Rattle.std.specs.Prelude.{◌≡◌, ℕ, ◌*◌, ◌^◌, ◌<◌, IsTrue, IfSome};
ghost use Rattle.bl_ops.specs.Access.{access_code, extended, is_load, narrowed, access_type, width_of};
ghost use Rattle.bl_ops.specs.declared.access.AccessKind.{AccessKind};

use bl_base::ValueType;

/// A load or a store of integers (WebAssembly 1.0, section 2.4.4, as section 5.4.4 orders them).
#[derive(Clone, Copy, Debug, PartialEq, Eq)]
pub enum AccessKind {
    /// `i32.load`
    I32Load,
    /// `i64.load`
    I64Load,
    /// `i32.load8_s`
    I32Load8S,
    /// `i32.load8_u`
    I32Load8U,
    /// `i32.load16_s`
    I32Load16S,
    /// `i32.load16_u`
    I32Load16U,
    /// `i64.load8_s`
    I64Load8S,
    /// `i64.load8_u`
    I64Load8U,
    /// `i64.load16_s`
    I64Load16S,
    /// `i64.load16_u`
    I64Load16U,
    /// `i64.load32_s`
    I64Load32S,
    /// `i64.load32_u`
    I64Load32U,
    /// `i32.store`
    I32Store,
    /// `i64.store`
    I64Store,
    /// `i32.store8`
    I32Store8,
    /// `i32.store16`
    I32Store16,
    /// `i64.store8`
    I64Store8,
    /// `i64.store16`
    I64Store16,
    /// `i64.store32`
    I64Store32,
}

/// What a call makes of the table of accesses, a row each: the kind, its code, the type of its value, its width in
/// bytes, and whether it loads.
macro_rules! by_access {
    ($call:ident($argument:expr)) => {
        by_access!(@$call ($argument)
            I32Load 0x28 I32 4 true,
            I64Load 0x29 I64 8 true,
            I32Load8S 0x2C I32 1 true,
            I32Load8U 0x2D I32 1 true,
            I32Load16S 0x2E I32 2 true,
            I32Load16U 0x2F I32 2 true,
            I64Load8S 0x30 I64 1 true,
            I64Load8U 0x31 I64 1 true,
            I64Load16S 0x32 I64 2 true,
            I64Load16U 0x33 I64 2 true,
            I64Load32S 0x34 I64 4 true,
            I64Load32U 0x35 I64 4 true,
            I32Store 0x36 I32 4 false,
            I64Store 0x37 I64 8 false,
            I32Store8 0x3A I32 1 false,
            I32Store16 0x3B I32 2 false,
            I64Store8 0x3C I64 1 false,
            I64Store16 0x3D I64 2 false,
            I64Store32 0x3E I64 4 false,
        )
    };
    (@code ($one:expr) $($kind:ident $code:literal $type:ident $width:literal $loads:literal,)*) => {
        match $one {
            $(AccessKind::$kind => $code,)*
        }
    };
    (@by_code ($byte:expr) $($kind:ident $code:literal $type:ident $width:literal $loads:literal,)*) => {
        match $byte {
            $($code => Some(AccessKind::$kind),)*
            _ => None,
        }
    };
    (@value_type ($one:expr) $($kind:ident $code:literal $type:ident $width:literal $loads:literal,)*) => {
        match $one {
            $(AccessKind::$kind => ValueType::$type,)*
        }
    };
    (@width ($one:expr) $($kind:ident $code:literal $type:ident $width:literal $loads:literal,)*) => {
        match $one {
            $(AccessKind::$kind => $width,)*
        }
    };
    (@is_load ($one:expr) $($kind:ident $code:literal $type:ident $width:literal $loads:literal,)*) => {
        match $one {
            $(AccessKind::$kind => $loads,)*
        }
    };
}

impl AccessKind {
    /// The byte of the access in the binary format.
    pub fn code(self) -> u8
        ensures { result ≡ access_code self }
    {
        by_access!(code(self))
    }

    /// The access of that code; None where the byte is the code of none.
    pub fn by_code(code: u8) -> Option<AccessKind>
        ensures found { IfSome result (λ kind. access_code kind ≡ code) }
        ensures only { (kind : AccessKind) → access_code kind ≡ code → result ≡ Some kind }
    {
        by_access!(by_code(code))
    }

    /// The type of the value that is loaded or stored.
    pub fn value_type(self) -> ValueType
        ensures { result ≡ access_type self }
    {
        by_access!(value_type(self))
    }

    /// How many bytes are read or written: 1, 2, 4 or 8.
    pub fn width(self) -> u8
        ensures { result ≡ width_of self }
    {
        by_access!(width(self))
    }

    /// Whether it is a load; else it is a store.
    pub fn is_load(self) -> bool
        ensures { result ≡ is_load self }
    {
        by_access!(is_load(self))
    }
}

/// The value of a load whose bytes are, little endian, the number `bytes`: extended by sign or by zero to the load's
/// type (WebAssembly 1.0, section 4.4.4).
pub fn extend(kind: AccessKind, bytes: u64) -> u64
    requires load { IsTrue (is_load kind) }
    requires within { bytes < 2 ^ (8 * width_of kind) }
    ensures { result ≡ extended kind bytes }
{
    match kind {
        AccessKind::I32Load8S => u64::from(i32::from((bytes as u8).cast_signed()).cast_unsigned()),
        AccessKind::I32Load16S => u64::from(i32::from(
            (bytes as u16).cast_signed(),
        ).cast_unsigned()),
        AccessKind::I64Load8S => i64::from((bytes as u8).cast_signed()).cast_unsigned(),
        AccessKind::I64Load16S => i64::from((bytes as u16).cast_signed()).cast_unsigned(),
        AccessKind::I64Load32S => i64::from((bytes as u32).cast_signed()).cast_unsigned(),
        _ => bytes,
    }
}

/// The number whose bytes, little endian, a store of that kind writes: the value modulo 2^(8 * width) (section 4.4.4).
pub fn narrow(kind: AccessKind, value: u64) -> u64
    ensures { result ≡ narrowed kind value }
{
    match kind.width() {
        1 => value % 0x100,
        2 => value % 0x1_0000,
        4 => value % 0x1_0000_0000,
        _ => value,
    }
}
