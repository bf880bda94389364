//! What an item does to the operands.
ghost use Rattle.std.specs.Prelude.{◌≡◌, false, Some, None};

use bl_wasm::WasmType;

/// What an item whose types are known does to the operands.
#[derive(Clone, Copy, Debug)]
pub(crate) struct Effect<'m> {
    /// The types that it takes, the last one from the top, or from below a condition or index.
    pub(crate) inputs: &'m [WasmType],
    /// Whether a condition or an index, an i32, stands above these.
    pub(crate) indexed: bool,
    /// The types that it leaves in their place; None where what follows can't be reached.
    pub(crate) outputs: Option<&'m [WasmType]>,
}

/// Takes operands of some types, and leaves some in their place.
pub(crate) fn arrow<'m>(inputs: &'m [WasmType], outputs: &'m [WasmType]) -> Effect<'m>
    ensures { result ≡ record { inputs = inputs.entry; indexed = false; outputs = Some outputs.entry } }
{
    Effect {
        inputs,
        indexed: false,
        outputs: Some(outputs),
    }
}

/// Takes operands of some types, and nothing behind it can be reached.
pub(crate) fn leaves<'m>(inputs: &'m [WasmType]) -> Effect<'m>
    ensures { result ≡ record { inputs = inputs.entry; indexed = false; outputs = None } }
{
    Effect {
        inputs,
        indexed: false,
        outputs: None,
    }
}
