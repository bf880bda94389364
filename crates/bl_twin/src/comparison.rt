//! What two runs have in common, and what they show behind it.
ghost use Rattle.std.specs.Prelude.{◌≡◌, ◌≤◌, take, length};
ghost use Rattle.bl_rob.specs.CallResults.{seen_in};
ghost use Rattle.bl_twin.specs.TwinComparisons.{common_by, compared, shown_behind};

use crate::sight::Sight;
use bl_rob::Observed;

/// How what is observed of two runs of the same directives compares.
#[derive(Clone, Copy, Debug, PartialEq, Eq)]
pub enum Comparison {
    /// The same, of each directive.
    Equal,
    /// The same, up to a directive that both runs refuse.
    Stuck,
    /// The runs are observed differently: one observation isn't the other, or one run alone refuses a directive.
    Differ,
}

/// What a run shows at a place.
#[derive(Clone, Copy)]
pub enum Shown<O> {
    /// What is observed of the directive there.
    Seen(O),
    /// The directive there is refused.
    Stuck,
    /// Nothing: no directive is left.
    Over,
}

/// How many of their first observations two runs have in common.
pub fn common_front<O: Sight>(one: &[O], other: &[O]) -> usize
    ensures count { result ≡ length (common_by O.alike one.now other.now) }
    ensures within { result ≤ length one.now }
    ensures front { take result one.now ≡ common_by O.alike one.now other.now }
{
    let mut count = 0;
    while count < one.len() && count < other.len() && one[count].is_same(&other[count]) {
        count += 1;
    }
    count
}

/// What a run shows behind so many observations.
pub fn shown_behind<O: Sight>(seen: &Observed<O>, count: usize) -> Shown<O>
    ensures { result ≡ shown_behind (seen_in seen.now) count }
{
    match seen.made.as_slice().get(count) {
        Some(observation) => Shown::Seen(*observation),
        None if seen.refused.is_some() => Shown::Stuck,
        None => Shown::Over,
    }
}

/// The comparison of two runs, by what both show behind the common prefix.
pub fn compared<O: Sight>(one: Shown<O>, other: Shown<O>) -> Comparison
    ensures { result ≡ compared one other }
{
    match (one, other) {
        (Shown::Over, Shown::Over) => Comparison::Equal,
        (Shown::Stuck, Shown::Stuck) => Comparison::Stuck,
        _ => Comparison::Differ,
    }
}
