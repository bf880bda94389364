//! What is linked.
use bl_base::Text;
use bl_labels::Labels;
use bl_validate::ValidModule;

/// A module to be linked.
#[derive(Debug, Drop)]
pub struct Part {
    /// The name by which later parts import from it.
    pub name: Text,
    /// The module.
    pub wasm: ValidModule,
    /// Its labels.
    pub labels: Labels,
}
