//! Exit statuses.
ghost use Rattle.std.specs.Prelude.{◌≡◌};
ghost use Rattle.bl_job.specs.Status.{reason_number, status_number};

/// How a call ended.
#[derive(Clone, Copy, Debug)]
pub enum Status {
    /// The work is done and all its text is written.
    Done,
    /// A certificate's rules or the transient rules are broken, also under an interface, or two runs are observed differently.
    No,
    /// The words are no request.
    Usage,
    /// A file could not be read.
    ReadFault,
    /// A file or the sink could not be written.
    WriteFault,
    /// Memory ran out.
    Memory,
    /// The run ended by a trap.
    Trapped,
    /// The run had not ended when its steps were spent.
    Spent,
    /// A directive isn't enabled.
    Stuck,
    /// The request is refused.
    Refused(Reason),
}

/// Why a request is refused.
#[derive(Clone, Copy, Debug)]
pub enum Reason {
    /// A module's bytes aren't in the grammar.
    Malformed,
    /// A module has no typing.
    Invalid,
    /// A module has something that isn't supported.
    Unsupported,
    /// A quantity exceeds its number.
    Limit,
    /// An import has no match, or a segment is out of range.
    Link,
    /// The labels of a module break a rule.
    Labels,
    /// The bytes are no image, or the image is not well-formed.
    Image,
    /// The bytes of a certificate are no JSON value, or one that is no certificate.
    Certificate,
    /// A line of the trace file is no directive.
    Trace,
    /// The export is absent, a line of the start file is bad, or there are too few arguments.
    Start,
    /// A count file has a bad line, or doesn't fit the program.
    Counts,
    /// An interface file has a bad line, or doesn't fit a program, or two programs don't fit each other by it.
    Interface,
}

impl Status {
    /// The number that the process ends with.
    pub fn code(self) -> u8
        ensures { result ≡ status_number self }
    {
        match self {
            Status::Done => 0,
            Status::No => 1,
            Status::Usage => 2,
            Status::ReadFault => 3,
            Status::WriteFault => 4,
            Status::Memory => 11,
            Status::Trapped => 16,
            Status::Spent => 17,
            Status::Stuck => 18,
            Status::Refused(reason) => reason.code(),
        }
    }
}

impl Reason {
    /// The number that the process ends with.
    fn code(self) -> u8
        ensures { result ≡ reason_number self }
    {
        match self {
            Reason::Malformed => 5,
            Reason::Invalid => 6,
            Reason::Unsupported => 7,
            Reason::Limit => 8,
            Reason::Link => 9,
            Reason::Labels => 10,
            Reason::Image => 12,
            Reason::Certificate => 13,
            Reason::Trace => 14,
            Reason::Start => 15,
            Reason::Counts => 19,
            Reason::Interface => 20,
        }
    }
}
