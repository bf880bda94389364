//! What is limited: the word by which a limit is printed, and its number; and how deep calls go.
ghost use Rattle.std.specs.Prelude.{◌≡◌};
ghost use Rattle.bl_base.specs.Quantity.{limit_of, word_of};

/// The greatest depth of calls: a call at that depth traps.
pub const MOST_CALLS: u32 = 1_024;

/// Something that has a limit.
#[derive(Clone, Copy, Debug, PartialEq, Eq, PartialOrd, Ord)]
pub enum Quantity {
    /// The modules of one request.
    Modules,
    /// The bytes of one module.
    Module,
    /// The functions of one module, imports included.
    Functions,
    /// The locals of one function, with its parameters.
    Locals,
    /// The blocks, loops and ifs that are open at one place.
    Nesting,
    /// The targets of one `br_table`, without the default.
    Targets,
    /// The slots of a defined table.
    Table,
    /// The first pages of a defined memory.
    Memory,
    /// The pages that all memories may grow to, together.
    Reserve,
    /// The commands of a program.
    Commands,
    /// The bytes of an image.
    Image,
    /// The bytes of a certificate that is read.
    Certificate,
    /// The bytes of a trace file.
    Trace,
    /// The bytes of a start file.
    Start,
    /// The directives of a trace.
    Directives,
    /// The results of one type.
    Results,
    /// The bytes of a file of counts.
    Counts,
    /// The bytes of an interface file.
    Interface,
    /// The variables of a program.
    Variables,
    /// The weight of all sites together.
    Weight,
}

impl Quantity {
    /// The word that is printed of the quantity.
    pub fn word(self) -> &'static str
        ensures { result.now ≡ word_of self }
    {
        match self {
            Quantity::Modules => "modules",
            Quantity::Module => "module",
            Quantity::Functions => "functions",
            Quantity::Locals => "locals",
            Quantity::Nesting => "nesting",
            Quantity::Targets => "targets",
            Quantity::Table => "table",
            Quantity::Memory => "memory",
            Quantity::Reserve => "reserve",
            Quantity::Commands => "commands",
            Quantity::Image => "image",
            Quantity::Certificate => "certificate",
            Quantity::Trace => "trace",
            Quantity::Start => "start",
            Quantity::Directives => "directives",
            Quantity::Results => "results",
            Quantity::Counts => "counts",
            Quantity::Interface => "interface",
            Quantity::Variables => "variables",
            Quantity::Weight => "weight",
        }
    }

    /// The greatest number that is within the limit, in the quantity's own unit.
    pub fn limit(self) -> u64
        ensures { result ≡ limit_of self }
    {
        match self {
            Quantity::Modules => 8,
            Quantity::Module => 4_194_304,
            Quantity::Functions => 10_000,
            Quantity::Locals => 4_096,
            Quantity::Nesting => 256,
            Quantity::Targets => 1_024,
            Quantity::Table => 1_024,
            Quantity::Memory => 256,
            Quantity::Reserve => 1_024,
            Quantity::Commands => 1_048_576,
            Quantity::Image => 134_217_728,
            Quantity::Certificate => 268_435_456,
            Quantity::Trace => 16_777_216,
            Quantity::Start => 16_777_216,
            Quantity::Directives => 1_000_000,
            Quantity::Results => 1_024,
            Quantity::Counts => 67_108_864,
            Quantity::Interface => 1_048_576,
            Quantity::Variables => 2_147_483_647,
            Quantity::Weight => 9_223_372_036_854_775_807,
        }
    }
}
