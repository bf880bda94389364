//! The locations of the variables of a function.
ghost use Rattle.std.specs.Prelude.{◌≡◌, ◌+◌, ◌^◌, ◌≤◌, ◌<◌, ◌↔◌, IsTrue};
ghost use Rattle.bl_select.specs.Frames.{IsSource, source_of};
ghost use Rattle.bl_layout.specs.Slots.{AreFew, is_alive_in, location_in, placing_in, slots_at, slots_of, slots_outside};
ghost use Rattle.bl_seq.specs.Layouts.{IsLayout};

use bl_base::Var;
use bl_program::{FIRST_ENTRY, Operand};
use bl_select::{Location, Source};
use bl_seq::Layout;

/// The variables that the commands of a function may name.
#[derive(Clone, Copy, Debug)]
pub(crate) struct Slots {
    /// The number of globals and sizes: the variables below it are in the context.
    pub(crate) statics: usize,
    /// The first variable of the function, which is at the beginning of its frame.
    pub(crate) first: usize,
    /// The first variable of the next function.
    pub(crate) next: usize,
}

/// The greatest number of variables of a frame or of the context: the displacement of each is below 2^31.
const MOST: usize = 0x1000_0000;

impl Slots {
    /// The variables that the commands of no function may name.
    fn outside(layout: &Layout) -> Slots
        requires { IsLayout layout.now }
        ensures { result ≡ slots_outside layout.now.parts.now }
    {
        Slots {
            statics: layout.statics,
            first: 0,
            next: 0,
        }
    }

    /// The variables that the commands of a function may name.
    fn of(layout: &Layout, function: u32) -> Slots
        requires layout { IsLayout layout.now }
        requires small { function < 2 ^ 31 }
        ensures { result ≡ slots_of layout.now.parts.now function }
    {
        let next = function + 1;
        Slots {
            statics: layout.statics,
            first: layout.frame(function).first,
            next: layout.frame(next).first,
        }
    }

    /// The variables at a position.
    pub(crate) fn at(layout: &Layout, position: usize) -> Slots
        requires { IsLayout layout.now }
        ensures { result ≡ slots_at layout.now.parts.now position }
    {
        if position < FIRST_ENTRY as usize {
            Slots::outside(layout)
        } else {
            Slots::of(layout, layout.running(position))
        }
    }

    /// Whether the displacements of all these variables are below 2^31.
    pub(crate) fn are_few(self) -> bool
        ensures { IsTrue result ↔ AreFew self }
    {
        self.statics <= MOST && (self.next <= self.first || self.next - self.first <= MOST)
    }

    /// Whether a variable is a global, a size, or a variable of the function.
    pub(crate) fn is_alive(self, x: Var) -> bool
        ensures { result ≡ is_alive_in self x.0 }
    {
        let x = x.0 as usize;
        x < self.statics || (self.first <= x && x < self.next)
    }

    /// Whether an operand is a number or such a variable.
    pub(crate) fn is_source(self, operand: Operand) -> bool
        ensures { IsTrue result ↔ IsSource (placing_in self) operand }
    {
        match operand {
            Operand::Var(x) => self.is_alive(x),
            Operand::Const(_number) => true,
        }
    }

    /// The location of such a variable.
    pub(crate) fn location(self, x: Var) -> Location
        requires few { AreFew self }
        requires alive { IsTrue (is_alive_in self x.0) }
        ensures { result ≡ location_in self x.0 }
    {
        let x = x.0 as usize;
        if x < self.statics {
            return Location::Context((8 * x) as u32);
        }
        Location::Slot((8 * (x - self.first)) as u32)
    }

    /// The source of such an operand.
    pub(crate) fn source(self, operand: Operand) -> Source
        requires few { AreFew self }
        requires source { IsSource (placing_in self) operand }
        ensures { result ≡ source_of (placing_in self) operand }
    {
        match operand {
            Operand::Var(x) => Source::At(self.location(x)),
            Operand::Const(number) => Source::Number(number),
        }
    }
}
