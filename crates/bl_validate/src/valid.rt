//! Valid modules.
ghost use Rattle.std.specs.Prelude.{◌≡◌};
ghost use Rattle.bl_wasm.specs.Validity.{Typed};

use bl_wasm::Module;
use std::marker::Model;

/// A module that is valid: each function that it defines has a typing, and its other rules hold (WebAssembly 1.0,
/// sections 3.3 and 3.4).
#[derive(Debug, Drop)]
pub struct ValidModule {
    wasm: Module,
}

impl Model for ValidModule {
    ghost use Rattle.bl_wasm.specs.declared.module.Module.{Module};
    ghost use Rattle.bl_wasm.specs.Validity.{Typed};

    ghost Value = { Module };

    ghost view = { λ valid. valid.wasm };

    ghost invariant = { λ valid. Typed valid.wasm };
}

impl ValidModule {
    /// A module that has been found valid.
    pub(crate) fn of(wasm: Module) -> ValidModule
        requires { Typed wasm }
        ensures { result ≡ wasm }
    {
        ValidModule { wasm }
    }

    /// The module.
    pub fn module(&self) -> &Module
        ensures same { result.now ≡ self.now }
        ensures valid { Typed self.now }
    {
        &self.wasm
    }

    /// The module, given back; takes no memory.
    pub fn into_module(self) -> Module
        ensures same { result ≡ self }
        ensures valid { Typed result }
    {
        self.wasm
    }
}
