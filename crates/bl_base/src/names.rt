//! Labels, flow types, the sides of an interface, and value types.

/// Who may learn a value: what isn't declared secret is public.
#[derive(Clone, Copy, Debug, PartialEq, Eq, PartialOrd, Ord)]
pub enum Label {
    /// An observer may learn it.
    Public,
    /// No observation may depend on it.
    Secret,
}

/// Whether a value may come of a guess: the flow types of Blade's type system.
#[derive(Clone, Copy, Debug, PartialEq, Eq, PartialOrd, Ord)]
pub enum Flow {
    /// The value is that of the run in order.
    Stable,
    /// The value may depend on a load that was executed on a guess.
    Transient,
}

/// On which side of an interface a program stands.
#[derive(Clone, Copy, Debug, PartialEq, Eq)]
pub enum Role {
    /// It calls the interface's functions, and has a stub for each.
    Client,
    /// It has them.
    Library,
}

/// The integer types of values (WebAssembly 1.0, section 2.3.1). A value of either is kept as a `u64`,
/// unsigned; one of `I32` is below 2^32.
#[derive(Clone, Copy, Debug, PartialEq, Eq, PartialOrd, Ord)]
pub enum ValueType {
    /// 32 bits.
    I32,
    /// 64 bits.
    I64,
}
