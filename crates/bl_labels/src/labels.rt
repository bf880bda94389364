//! Labels of a module.
ghost use Rattle.std.specs.Prelude.{◌≡◌};
ghost use Rattle.bl_labels.specs.LabelledPlaces.{unlabelled};

use bl_base::List;
use std::alloc::Global;

/// A parameter or a result of a function, by the indices of a module.
#[derive(Clone, Copy, Debug, PartialEq, Eq)]
pub struct Place {
    /// The function, imports first.
    pub function: u32,
    /// The number of the parameter or the result, from 0.
    pub index: u32,
}

/// What a module declares secret, and what it demands to be public, by its own indices. What isn't named is public, and nobody
/// demands anything of it.
#[derive(Debug, Drop)]
pub struct Labels {
    /// Secret parameters.
    pub params: List<Place>,
    /// Secret globals, by their initial values.
    pub globals: List<u32>,
    /// Secret memories.
    pub memories: List<u32>,
    /// Results that are to stay public.
    pub results: List<Place>,
    /// Globals that are to stay public.
    pub demanded: List<u32>,
}

impl Labels {
    /// Labels that name nothing; takes no memory.
    pub fn none(alloc: Global) -> Labels
        ensures { result ≡ unlabelled }
    {
        Labels {
            params: List::new(alloc),
            globals: List::new(alloc),
            memories: List::new(alloc),
            results: List::new(alloc),
            demanded: List::new(alloc),
        }
    }
}
