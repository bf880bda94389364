//! What two programs come to together.
ghost use Rattle.std.specs.Prelude.{◌≡◌, ◌+◌, ◌<◌, ◌^◌, MatchOption, length, true};
ghost use Rattle.std.specs.List.{All};
ghost use Rattle.bl_base.specs.Quantity.{limit_of};
ghost use Rattle.bl_program.specs.{Layout.first_of, Layout.sum_before, Sites.weight_of};
ghost use Rattle.bl_iface.specs.{Answers.IsFirstOver, JoinedProgram.IsWithin, JoinedProgram.sums};

use bl_base::{Pos, Quantity};
use bl_program::{FIRST_ENTRY, MemoryDef, ProgramParts, WellFormed, mark_at, site_weight};

/// A number of two programs together, and the most that it may be.
#[derive(Clone, Copy, Debug)]
pub(crate) struct Sum {
    /// What is counted.
    pub(crate) which: Quantity,
    /// The number.
    pub(crate) value: u64,
    /// The most that it may be.
    pub(crate) most: u64,
}

/// The numbers of two programs together, in the order in which they are tested.
pub(crate) fn sums(client: &WellFormed, library: &WellFormed) -> [Sum; 5]
    ensures { result ≡ sums client.now library.now }
{
    let ours = client.program().parts();
    let theirs = library.program().parts();
    [
        Sum {
            which: Quantity::Functions,
            value: ours.functions.len() as u64 + theirs.functions.len() as u64,
            most: Quantity::Modules.limit() * Quantity::Functions.limit(),
        },
        sum_of(
            Quantity::Reserve,
            reserve_of(ours.memories.as_slice()),
            reserve_of(theirs.memories.as_slice()),
        ),
        sum_of(Quantity::Variables, vars_of(ours), vars_of(theirs)),
        sum_of(
            Quantity::Commands,
            ours.commands.len() as u64,
            theirs.commands.len() as u64 - u64::from(FIRST_ENTRY),
        ),
        sum_of(Quantity::Weight, weight_of(client), weight_of(library)),
    ]
}

/// The sum of two numbers of a quantity, with the quantity's limit.
fn sum_of(which: Quantity, one: u64, other: u64) -> Sum
    requires { one + other < 2 ^ 64 }
    ensures { result ≡ record { which = which; value = one + other; most = limit_of which } }
{
    Sum {
        which,
        value: one + other,
        most: which.limit(),
    }
}

/// The first that is more than it may be.
pub(crate) fn first_over(sums: &[Sum]) -> Option<Sum>
    ensures { MatchOption result (All IsWithin sums.now) (IsFirstOver sums.now) }
{
    for sum in sums {
        if sum.value > sum.most {
            return Some(*sum);
        }
    }
    None
}

/// The sum of the memories' reserves.
fn reserve_of(memories: &[MemoryDef]) -> u64
    requires { sum_before (λ memory. memory.reserve) memories.now (length memories.now) < 2 ^ 32 }
    ensures { result ≡ sum_before (λ memory. memory.reserve) memories.now (length memories.now) }
{
    let mut total: u64 = 0;
    for memory in memories {
        total += u64::from(memory.reserve);
    }
    total
}

/// The number of all variables.
pub(crate) fn vars_of(parts: &ProgramParts) -> u64
    requires { first_of parts.now (length parts.now.functions) < 2 ^ 32 }
    ensures { result ≡ first_of parts.now (length parts.now.functions) }
{
    let mut total = parts.globals.len() as u64 + parts.memories.len() as u64;
    for function in parts.functions.as_slice() {
        total += u64::from(function.vars);
    }
    total
}

/// The weight of all sites.
fn weight_of(program: &WellFormed) -> u64
    ensures { result ≡ weight_of program.now (λ _. true) }
{
    let parts = program.program().parts();
    let mut total: u64 = 0;
    for at in 0..parts.commands.len() {
        if mark_at(parts, at).is_some() {
            total += site_weight(program, Pos(at as u32));
        }
    }
    total
}
