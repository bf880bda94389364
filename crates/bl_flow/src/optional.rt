//! Numbers or none, in four bytes each.
ghost use Rattle.std.specs.Prelude.{◌≡◌, ◌<◌, ◌+◌, ◌^◌, if◌then◌else◌, None, Some, replicate, IfOk};
ghost use Rattle.bl_flow.specs.Codes.{is_below, least};

use bl_base::NoMemory;
use std::alloc::Global;
use std::marker::Model;

/// A number below 2^32 - 1, or none, in four bytes. Contracts see it as an option.
#[derive(Clone, Copy, Debug, Drop)]
pub struct OptionalNumber {
    /// The number plus 1; 0 for none.
    code: u32,
}

impl Model for OptionalNumber {
    ghost use Rattle.std.specs.Prelude.{Option, ℕ};
    ghost use Rattle.std.proofs.Common.{ap};
    ghost use Rattle.bl_flow.specs.Codes.{decoded, encoded, coded_back};

    ghost Value = { Option ℕ };

    ghost view = { λ o. decoded o.code };

    ghost inverse = { λ o. record { code = encoded o } };

    ghost inverse_ok = { λ o h. ap (λ n. record { code = n }) (coded_back o.code) };
}

impl OptionalNumber {
    /// None.
    pub fn none() -> OptionalNumber
        ensures { result ≡ None }
    {
        OptionalNumber { code: 0 }
    }

    /// A number.
    pub fn of(number: u32) -> OptionalNumber
        requires { number + 1 < 2 ^ 32 }
        ensures { result ≡ Some number }
    {
        OptionalNumber { code: number + 1 }
    }

    /// A number where the flag is set, and none where not.
    pub fn when(is: bool, number: u32) -> OptionalNumber
        requires { number + 1 < 2 ^ 32 }
        ensures { result ≡ (if is then Some number else None) }
    {
        OptionalNumber {
            code: if is { number + 1 } else { 0 },
        }
    }

    /// Whether it is less than another one, where none is more than all numbers.
    pub fn below(self, other: OptionalNumber) -> bool
        ensures { result ≡ is_below self other }
    {
        // As none wraps to the greatest number, one comparison serves all cases.
        self.code.wrapping_sub(1) < other.code.wrapping_sub(1)
    }

    /// The lesser of two, where none is more than all numbers.
    pub fn least(self, other: OptionalNumber) -> OptionalNumber
        ensures { result ≡ least self other }
    {
        if self.below(other) { self } else { other }
    }

    /// The number, if there is one.
    pub fn get(self) -> Option<u32>
        ensures { result ≡ self }
    {
        if self.code == 0 {
            None
        } else {
            Some(self.code - 1)
        }
    }
}

/// So many times none.
pub fn no_numbers(alloc: Global, count: usize) -> Result<Vec<OptionalNumber>, NoMemory>
    ensures { IfOk result (λ numbers. numbers.items ≡ replicate count None) }
{
    let numbers = vec![in alloc; OptionalNumber::none(); count]?;
    Ok(numbers)
}
