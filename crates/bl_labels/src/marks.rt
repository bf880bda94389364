//! Labels in which each place is found without going through their lists.
ghost use Rattle.std.specs.Prelude.{◌≡◌, IfOk};
ghost use Rattle.bl_labels.specs.Faults.{with_entry};
ghost use Rattle.bl_labels.specs.declared.entry.Entry.TheVariants.{PublicGlobal, PublicResult, SecretGlobal, SecretMemory, SecretParam};
ghost use Rattle.bl_labels.specs.LabelledPlaces.{is_listed, is_place, unlabelled};

use crate::entry::Entry;
use crate::labels::{Labels, Place};
use crate::named::{Indices, Places};
use bl_base::NoMemory;
use std::alloc::Global;
use std::marker::Model;

/// Labels with the sets of what they name. Contracts see the labels. A call on them costs the logarithm of their number.
#[derive(Drop)]
pub struct Marks {
    params: Places,
    globals: Indices,
    memories: Indices,
    results: Places,
    demanded: Indices,
}

impl Model for Marks {
    ghost use Rattle.bl_labels.specs.declared.labels.Labels.{Labels as Listed};
    ghost use Rattle.bl_labels.specs.LabelSets.{labels_with};

    ghost Value = { Listed };

    ghost view = { λ m. labels_with m.params m.globals m.memories m.results m.demanded };
}

impl Marks {
    /// The labels with their sets.
    ///
    /// # Errors
    ///
    /// `NoMemory` where there is no memory for the sets.
    pub fn of(alloc: Global, labels: Labels) -> Result<Marks, NoMemory>
        ensures { IfOk result (λ marks. marks ≡ labels) }
    {
        Ok(Marks {
            params: Places::of(alloc, labels.params.as_slice())?,
            globals: Indices::of(alloc, labels.globals.as_slice())?,
            memories: Indices::of(alloc, labels.memories.as_slice())?,
            results: Places::of(alloc, labels.results.as_slice())?,
            demanded: Indices::of(alloc, labels.demanded.as_slice())?,
        })
    }

    /// Labels that name nothing; takes no memory.
    pub(crate) fn none(alloc: Global) -> Marks
        ensures { result ≡ unlabelled }
    {
        Marks {
            params: Places::none(alloc),
            globals: Indices::none(alloc),
            memories: Indices::none(alloc),
            results: Places::none(alloc),
            demanded: Indices::none(alloc),
        }
    }

    /// The labels with what an entry names.
    pub(crate) fn with(self, entry: Entry) -> Result<Marks, NoMemory>
        ensures { IfOk result (λ marks. marks ≡ with_entry self entry) }
    {
        match entry {
            Entry::SecretParam(param) => self.with_param(param),
            Entry::SecretGlobal(global) => self.with_global(global),
            Entry::SecretMemory(memory) => self.with_memory(memory),
            Entry::PublicResult(found) => self.with_result(found),
            Entry::PublicGlobal(global) => self.with_demanded(global),
        }
    }

    /// With a secret parameter.
    fn with_param(self, param: Place) -> Result<Marks, NoMemory>
        ensures { IfOk result (λ marks. marks ≡ with_entry self (SecretParam param)) }
    {
        let params = self.params.with(param)?;
        Ok(Marks { params, ..self })
    }

    /// With a secret global.
    fn with_global(self, global: u32) -> Result<Marks, NoMemory>
        ensures { IfOk result (λ marks. marks ≡ with_entry self (SecretGlobal global)) }
    {
        let globals = self.globals.with(global)?;
        Ok(Marks { globals, ..self })
    }

    /// With a secret memory.
    fn with_memory(self, memory: u32) -> Result<Marks, NoMemory>
        ensures { IfOk result (λ marks. marks ≡ with_entry self (SecretMemory memory)) }
    {
        let memories = self.memories.with(memory)?;
        Ok(Marks { memories, ..self })
    }

    /// With a result that is to stay public.
    fn with_result(self, found: Place) -> Result<Marks, NoMemory>
        ensures { IfOk result (λ marks. marks ≡ with_entry self (PublicResult found)) }
    {
        let results = self.results.with(found)?;
        Ok(Marks { results, ..self })
    }

    /// With a global that is to stay public.
    fn with_demanded(self, global: u32) -> Result<Marks, NoMemory>
        ensures { IfOk result (λ marks. marks ≡ with_entry self (PublicGlobal global)) }
    {
        let demanded = self.demanded.with(global)?;
        Ok(Marks { demanded, ..self })
    }

    /// The labels, given back; takes no memory.
    pub(crate) fn into_labels(self) -> Labels
        ensures { result ≡ self }
    {
        Labels {
            params: self.params.into_list(),
            globals: self.globals.into_list(),
            memories: self.memories.into_list(),
            results: self.results.into_list(),
            demanded: self.demanded.into_list(),
        }
    }

    /// Whether that parameter of that function is secret; takes no memory.
    pub fn is_secret_param(&self, function: u32, index: usize) -> bool
        ensures { result ≡ is_place self.now.params function index }
    {
        self.params.has(function, index)
    }

    /// Whether that result of that function is to stay public; takes no memory.
    pub fn is_demanded_result(&self, function: u32, index: usize) -> bool
        ensures { result ≡ is_place self.now.results function index }
    {
        self.results.has(function, index)
    }

    /// Whether that global is secret; takes no memory.
    pub fn is_secret_global(&self, index: u32) -> bool
        ensures { result ≡ is_listed self.now.globals index }
    {
        self.globals.has(index)
    }

    /// Whether that global is to stay public; takes no memory.
    pub fn is_demanded_global(&self, index: u32) -> bool
        ensures { result ≡ is_listed self.now.demanded index }
    {
        self.demanded.has(index)
    }

    /// Whether that memory is secret; takes no memory.
    pub fn is_secret_memory(&self, index: u32) -> bool
        ensures { result ≡ is_listed self.now.memories index }
    {
        self.memories.has(index)
    }
}
