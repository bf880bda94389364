//! Items by the numbers of the tree.
ghost use Rattle.std.specs.Prelude.{◌≡◌, map};
ghost use Rattle.bl_wasm.specs.IndexMaps.{renamed as renamed_of, renamed_block_type};
ghost use Rattle.bl_link.specs.IndexSpaces.{names, number as number_of};

use crate::store::Spaces;
use bl_base::List;
use bl_wasm::{BlockType, Instr};

/// The number of an index; 0 where there is none.
pub(crate) fn number(space: &List<u32>, index: u32) -> u32
    ensures { result ≡ number_of space.now index }
{
    match space.as_slice().get(index as usize) {
        Some(number) => *number,
        None => 0,
    }
}

/// A block type by the numbers of the tree.
fn block_type(kind: BlockType, spaces: &Spaces) -> BlockType
    ensures { result ≡ renamed_block_type (names spaces.now) kind }
{
    match kind {
        BlockType::Index(index) => BlockType::Index(number(&spaces.types, index)),
        other => other,
    }
}

/// Gives the item the numbers of the tree.
fn rename(item: &mut Instr, spaces: &Spaces)
    ensures { item.new ≡ renamed_of (names spaces.now) item.old }
{
    match item {
        Instr::Block(kind) => *kind = block_type(*kind, spaces),
        Instr::Loop(kind) => *kind = block_type(*kind, spaces),
        Instr::If(kind) => *kind = block_type(*kind, spaces),
        Instr::Call(function) => *function = number(&spaces.functions, *function),
        Instr::CallIndirect(kind) => *kind = number(&spaces.types, *kind),
        Instr::GlobalGet(global) => *global = number(&spaces.globals, *global),
        Instr::GlobalSet(global) => *global = number(&spaces.globals, *global),
        _ => {}
    }
}

/// The items by the numbers of the tree; they stay where they are, and no memory is taken.
pub(crate) fn renamed(items: List<Instr>, spaces: &Spaces) -> List<Instr>
    ensures { result ≡ map (renamed_of (names spaces.now)) items }
{
    let mut cells = items.into_vec();
    for item in cells.iter_mut() {
        rename(item, spaces);
    }
    List::of(cells)
}
