//! What the bodies of a module can name: each space has what is imported first, and then what is defined (WebAssembly
//! 1.0, section 2.5.1).
ghost use Rattle.std.specs.Prelude.{◌≡◌, ◌++◌, [], ◌∷◌, map, slice_get, option_and_then, option_copied, IfOk, OnOk};
ghost use Rattle.bl_wasm.specs.Validity.{locals_of as run_types};
ghost use Rattle.bl_validate.specs.Scopes.{IsScope, Imports};

use bl_base::NoMemory;
use bl_wasm::{Code, FuncType, GlobalType, Import, ImportKind, Limits, Module, WasmType};
use std::alloc::Global;

/// The spaces of a module.
#[derive(Debug, Drop)]
pub(crate) struct Scope<'m> {
    /// The types.
    pub(crate) types: &'m [FuncType],
    /// The functions' type indices.
    pub(crate) functions: Vec<u32>,
    /// The limits of the tables.
    pub(crate) tables: Vec<Limits>,
    /// The limits of the memories.
    pub(crate) memories: Vec<Limits>,
    /// The globals' types.
    pub(crate) globals: Vec<GlobalType>,
    /// How many of the globals are imported.
    pub(crate) imported: usize,
}

impl<'m> Scope<'m> {
    /// The spaces of the module.
    pub(crate) fn of(alloc: Global, tree: &'m Module) -> Result<Scope<'m>, NoMemory>
        ensures { IfOk result (λ scope. IsScope tree.now scope) }
    {
        let mut scope = Scope {
            types: tree.types.as_slice(),
            functions: Vec::new(alloc),
            tables: Vec::new(alloc),
            memories: Vec::new(alloc),
            globals: Vec::new(alloc),
            imported: 0,
        };
        scope.import_all(tree.imports.as_slice())?;
        scope.imported = scope.globals.len();
        scope
            .functions
            .extend_from_slice(tree.functions.as_slice())?;
        scope.tables.extend_from_slice(tree.tables.as_slice())?;
        scope.memories.extend_from_slice(tree.memories.as_slice())?;
        let defined = tree.globals.as_slice().iter();
        scope.globals.extend(defined.map(|global| global.kind))?;
        Ok(scope)
    }

    /// Imports more, in order.
    fn import_all(&mut self, entries: &[Import]) -> Result<(), NoMemory>
        ensures { OnOk result (Imports self.old entries.now self.new) }
    {
        for entry in entries {
            self.import(entry)?;
        }
        Ok(())
    }

    /// One import more.
    fn import(&mut self, entry: &Import) -> Result<(), NoMemory>
        ensures { OnOk result (Imports self.old (entry.now ∷ []) self.new) }
    {
        match entry.kind {
            ImportKind::Function(index) => self.functions.push(index)?,
            ImportKind::Table(limits) => self.tables.push(limits)?,
            ImportKind::Memory(limits) => self.memories.push(limits)?,
            ImportKind::Global(global) => self.globals.push(global)?,
        }
        Ok(())
    }

    /// The type of the function of that index; None where the function or its type doesn't exist.
    pub(crate) fn function(&self, index: u32) -> Option<&FuncType>
        ensures { option_copied result ≡ option_and_then (slice_get self.now.types.now) (slice_get self.now.functions.items index) }
    {
        match at(&self.functions, index) {
            Some(kind) => at(self.types, *kind),
            None => None,
        }
    }
}

/// The element of that index, where there is one.
pub(crate) fn at<T>(items: &[T], index: u32) -> Option<&T>
    ensures { option_copied result ≡ slice_get items.now index }
{
    items.get(index as usize)
}

/// The types of a function's locals, parameters first.
pub(crate) fn locals_of(
    alloc: Global,
    kind: &FuncType,
    code: &Code,
) -> Result<Vec<WasmType>, NoMemory>
    ensures { IfOk result (λ locals. locals.items ≡ kind.now.params ++ run_types code.now) }
{
    let mut locals = kind.params.as_slice().to_vec(alloc)?;
    for run in code.locals.as_slice() {
        let len = locals.len() + run.count as usize;
        locals.resize(len, run.kind)?;
    }
    Ok(locals)
}
