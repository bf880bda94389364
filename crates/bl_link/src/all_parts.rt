//! Linking of all parts.
ghost use Rattle.std.specs.Prelude.{◌≡◌, ◌<◌, ◌^◌, ◌++◌, Ok, filter_map, fold, length, map, nat_le, sum_by, IsTrue, OnOk};
ghost use Rattle.std.specs.List.{enumerate_from, list_all, zip};
ghost use Rattle.std.specs.Vec.Iter.{into_iter_items};
ghost use Rattle.bl_base.specs.{Quantity.limit_of, declared.quantity.Quantity.TheVariants.Reserve};
ghost use Rattle.bl_wasm.specs.{Exports.AreDistinct, Linked.IsLinked};
ghost use Rattle.bl_link.specs.{Signatures.signature, CanLink.AreLeft, CanLink.CanLink, LinkAnswers.Gives, LinkAnswers.Makes};
ghost use Rattle.bl_link.specs.{HasRoom.HasRoom, HasRoom.IsSpace, Stores.AreApart, Linkable.AreParts};
ghost use Rattle.bl_link.specs.Links.{data_fits, element_fits, initialised as initialised_of, exported, function, global, indexed, links, memory, nothing as nothing_of, pair, part_of, reserves as reserves_of, table, with_code, with_next, with_part as with_part_of, with_segments as with_segments_of, within_reserve as within_of};

use crate::all_names::AllNames;
use crate::bodies::with_bodies;
use crate::defined::{with_globals, with_limits, with_memories, with_tables, with_types};
use crate::error::LinkError;
use crate::given::given;
use crate::names::{with_functions, with_names};
use crate::part::Part;
use crate::segments::{data_fit, elements_fit, with_data, with_elements};
use crate::spaces::spaces_of;
use crate::store::{Spaces, Store};
use crate::widths::check_parts;
use bl_base::{List, NoMemory, Quantity};
use bl_labels::Marks;
use bl_wasm::{Code, DataSegment, ElementSegment, Exports, Linked, Module, Tree};
use std::alloc::Global;
use std::mem;
use std::vec::IntoIter;

/// The linked tree of the parts, in their order (section 4.5.4). An import of a part is given what an earlier part of its
/// module's name exports by its name. Functions, globals, memories, tables and types are numbered by definition, in the order of
/// parts, and the exported functions have their part's name, a solidus and the name of the export. Bodies are moved.
///
/// # Errors
///
/// The first in this order: part by part `Unknown` or `Mismatch` of an import, `ElementRange`, `DataRange`; and then `Limit`
/// where the reserves of all memories together are above their number. `Memory` where memory runs out.
pub fn link(alloc: Global, parts: List<Part>) -> Result<Linked, LinkError>
    requires parts { AreParts parts }
    ensures { Gives result (links parts) }
{
    check_parts(parts.as_slice());
    let mut store = nothing(alloc);
    match link_rest(alloc, &mut store, 0, parts.into_vec().into_iter()) {
        Ok(()) => within_reserve(store),
        Err(error) => Err(error),
    }
}

/// Nothing is linked; takes no memory.
fn nothing(alloc: Global) -> Store
    ensures { result ≡ nothing_of }
{
    Store {
        tree: Tree {
            types: List::new(alloc),
            functions: List::new(alloc),
            globals: List::new(alloc),
            memories: List::new(alloc),
            tables: List::new(alloc),
            exports: Exports::new(alloc),
        },
        exports: AllNames::new(alloc),
        tables: List::new(alloc),
        memories: List::new(alloc),
    }
}

/// The parts that are left are linked behind those before, as deep as their number, which has a limit.
fn link_rest(
    alloc: Global,
    store: &mut Store,
    number: u32,
    mut rest: IntoIter<Part>,
) -> Result<(), LinkError>
    requires { AreLeft store.old number (into_iter_items rest) }
    ensures { Makes result store.new (fold with_next (Ok store.old) (enumerate_from number (into_iter_items rest))) }
{
    let Some(part) = rest.next() else {
        return Ok(());
    };
    match link_part(alloc, store, number, part) {
        Ok(()) => link_rest(alloc, store, number + 1, rest),
        Err(error) => Err(error),
    }
}

/// A part is linked behind those before.
fn link_part(alloc: Global, store: &mut Store, number: u32, part: Part) -> Result<(), LinkError>
    requires { CanLink store.old part }
    ensures { Makes result store.new (with_next (Ok store.old) (number, part)) }
{
    let Part { name, wasm, labels } = part;
    let mut wasm = wasm.into_module();
    match Marks::of(alloc, labels) {
        Ok(marks) => link_module(alloc, store, number, name.as_slice(), &mut wasm, &marks),
        Err(_) => Err(LinkError::Memory),
    }
}

/// A part is linked by its name, its module and its marks: what it defines and exports, and then its segments. Its bodies are moved.
fn link_module(
    alloc: Global,
    store: &mut Store,
    number: u32,
    name: &[u8],
    wasm: &mut Module,
    marks: &Marks,
) -> Result<(), LinkError>
    requires { CanLink store.old (part_of name.now wasm.old marks.now) }
    ensures { Makes result store.new (with_next (Ok store.old) (number, part_of name.now wasm.old marks.now)) }
{
    let given = match given(alloc, store, wasm, number) {
        Ok(given) => given,
        Err(error) => return Err(error),
    };
    let Ok(spaces) = spaces_of(alloc, store, wasm, given.as_slice()) else {
        return Err(LinkError::Memory);
    };
    let bodies = mem::replace(&mut wasm.bodies, List::new(alloc));
    match with_part(alloc, store, name, wasm, bodies, marks, &spaces) {
        Ok(()) => with_segments(
            alloc,
            store,
            number,
            wasm.elements.as_slice(),
            wasm.segments.as_slice(),
            &spaces,
        ),
        Err(_) => Err(LinkError::Memory),
    }
}

/// What a part defines and exports, behind what is linked. Its bodies stand beside its module, and are moved.
fn with_part(
    alloc: Global,
    store: &mut Store,
    name: &[u8],
    wasm: &Module,
    bodies: List<Code>,
    marks: &Marks,
    spaces: &Spaces,
) -> Result<(), NoMemory>
    requires room { HasRoom store.old.tree (part_of name.now (with_code wasm.now bodies) marks.now) spaces.now }
    requires apart { AreApart (λ value. value.0) (store.old.exports ++ map (exported name.now spaces.now) wasm.now.exports) }
    ensures { OnOk result (store.new ≡ with_part_of store.old (part_of name.now (with_code wasm.now bodies) marks.now) spaces.now) }
{
    with_code_of(alloc, &mut store.tree, wasm, bodies, marks, spaces)?;
    with_values(alloc, &mut store.tree, wasm, marks, spaces)?;
    with_exports(alloc, &mut store.tree, name, wasm, spaces)?;
    with_names_of(alloc, store, name, wasm, spaces)?;
    with_limits_of(alloc, store, wasm)
}

/// The types and the functions of a part.
fn with_code_of(
    alloc: Global,
    tree: &mut Tree,
    wasm: &Module,
    bodies: List<Code>,
    marks: &Marks,
    spaces: &Spaces,
) -> Result<(), NoMemory>
    requires space { IsSpace spaces.now.functions (length wasm.now.functions) }
    requires counts { length wasm.now.functions ≡ length bodies }
    ensures { OnOk result (tree.new ≡ record tree.old {
      types = tree.old.types ++ map signature wasm.now.types;
      functions = tree.old.functions ++ map (function wasm.now.types marks.now spaces.now) (indexed spaces.now.functions (zip wasm.now.functions bodies));
    }) }
{
    let first = (spaces.functions.len() - wasm.functions.len()) as u32;
    let before = mem::replace(&mut tree.functions, List::new(alloc));
    tree.functions = with_bodies(
        alloc,
        before,
        wasm.types.as_slice(),
        marks,
        spaces,
        first,
        wasm.functions.as_slice(),
        bodies,
    )?;
    let before = mem::replace(&mut tree.types, List::new(alloc));
    tree.types = with_types(alloc, before, wasm.types.as_slice())?;
    Ok(())
}

/// The globals, the memories and the tables of a part.
fn with_values(
    alloc: Global,
    tree: &mut Tree,
    wasm: &Module,
    marks: &Marks,
    spaces: &Spaces,
) -> Result<(), NoMemory>
    requires globals { IsSpace spaces.now.globals (length wasm.now.globals) }
    requires memories { IsSpace spaces.now.memories (length wasm.now.memories) }
    ensures { OnOk result (tree.new ≡ record tree.old {
      globals = tree.old.globals ++ map (global tree.old.globals marks.now spaces.now) (indexed spaces.now.globals wasm.now.globals);
      memories = tree.old.memories ++ map (memory marks.now) (indexed spaces.now.memories wasm.now.memories);
      tables = tree.old.tables ++ map table wasm.now.tables;
    }) }
{
    let first = (spaces.globals.len() - wasm.globals.len()) as u32;
    let before = mem::replace(&mut tree.globals, List::new(alloc));
    tree.globals = with_globals(alloc, before, marks, spaces, first, wasm.globals.as_slice())?;
    let first = (spaces.memories.len() - wasm.memories.len()) as u32;
    let before = mem::replace(&mut tree.memories, List::new(alloc));
    tree.memories = with_memories(alloc, before, marks, first, wasm.memories.as_slice())?;
    let before = mem::replace(&mut tree.tables, List::new(alloc));
    tree.tables = with_tables(alloc, before, wasm.tables.as_slice())?;
    Ok(())
}

/// The functions that a part exports.
fn with_exports(
    alloc: Global,
    tree: &mut Tree,
    name: &[u8],
    wasm: &Module,
    spaces: &Spaces,
) -> Result<(), NoMemory>
    requires { AreDistinct (tree.old.exports ++ filter_map (λ entry. pair (exported name.now spaces.now entry)) wasm.now.exports) }
    ensures { OnOk result (tree.new ≡ record tree.old { exports = tree.old.exports ++ filter_map (λ entry. pair (exported name.now spaces.now entry)) wasm.now.exports }) }
{
    let before = mem::replace(&mut tree.exports, Exports::new(alloc));
    tree.exports = with_functions(alloc, before, name, spaces, wasm.exports.as_slice())?;
    Ok(())
}

/// What later parts may import from a part.
fn with_names_of(
    alloc: Global,
    store: &mut Store,
    name: &[u8],
    wasm: &Module,
    spaces: &Spaces,
) -> Result<(), NoMemory>
    requires { AreApart (λ value. value.0) (store.old.exports ++ map (exported name.now spaces.now) wasm.now.exports) }
    ensures { OnOk result (store.new ≡ record store.old { exports = store.old.exports ++ map (exported name.now spaces.now) wasm.now.exports }) }
{
    let before = mem::replace(&mut store.exports, AllNames::new(alloc));
    store.exports = with_names(alloc, before, name, spaces, wasm.exports.as_slice())?;
    Ok(())
}

/// The limits of what a part defines.
fn with_limits_of(alloc: Global, store: &mut Store, wasm: &Module) -> Result<(), NoMemory>
    ensures { OnOk result (store.new ≡ record store.old { tables = store.old.tables ++ wasm.now.tables; memories = store.old.memories ++ wasm.now.memories }) }
{
    let before = mem::replace(&mut store.tables, List::new(alloc));
    store.tables = with_limits(before, wasm.tables.as_slice())?;
    let before = mem::replace(&mut store.memories, List::new(alloc));
    store.memories = with_limits(before, wasm.memories.as_slice())?;
    Ok(())
}

/// All segments of a part are tested, and then written.
fn with_segments(
    alloc: Global,
    store: &mut Store,
    number: u32,
    elements: &[ElementSegment],
    segments: &[DataSegment],
    spaces: &Spaces,
) -> Result<(), LinkError>
    ensures { Makes result store.new (with_segments_of elements.now segments.now spaces.now number store.old) }
{
    if !are_elements_within(store, elements, spaces) {
        return Err(LinkError::ElementRange(number));
    }
    if !are_data_within(store, segments, spaces) {
        return Err(LinkError::DataRange(number));
    }
    initialise(alloc, &mut store.tree, spaces, elements, segments);
    Ok(())
}

/// Whether all element segments lie in their tables.
fn are_elements_within(store: &Store, elements: &[ElementSegment], spaces: &Spaces) -> bool
    ensures { result ≡ list_all (element_fits store.now.tree.globals spaces.now store.now.tree.tables) elements.now }
{
    let tree = &store.tree;
    elements_fit(
        tree.globals.as_slice(),
        spaces,
        tree.tables.as_slice(),
        elements,
    )
}

/// Whether all data segments lie in the first bytes of their memories.
fn are_data_within(store: &Store, segments: &[DataSegment], spaces: &Spaces) -> bool
    ensures { result ≡ list_all (data_fits store.now.tree.globals spaces.now store.now.tree.memories) segments.now }
{
    let tree = &store.tree;
    data_fit(
        tree.globals.as_slice(),
        spaces,
        tree.memories.as_slice(),
        segments,
    )
}

/// All segments of a part are written; takes no memory.
fn initialise(
    alloc: Global,
    tree: &mut Tree,
    spaces: &Spaces,
    elements: &[ElementSegment],
    segments: &[DataSegment],
)
    requires elements { IsTrue (list_all (element_fits tree.old.globals spaces.now tree.old.tables) elements.now) }
    requires segments { IsTrue (list_all (data_fits tree.old.globals spaces.now tree.old.memories) segments.now) }
    ensures { tree.new ≡ initialised_of elements.now segments.now spaces.now tree.old }
{
    let tables = mem::replace(&mut tree.tables, List::new(alloc));
    tree.tables = with_elements(alloc, tables, tree.globals.as_slice(), spaces, elements);
    let memories = mem::replace(&mut tree.memories, List::new(alloc));
    tree.memories = with_data(alloc, memories, tree.globals.as_slice(), spaces, segments);
}

/// The sum of all reserves.
fn reserves(tree: &Tree) -> u64
    requires few { sum_by (λ memory. memory.reserve) tree.now.memories < 2 ^ 64 }
    ensures { result ≡ reserves_of tree.now }
{
    tree.memories
        .as_slice()
        .iter()
        .map(|memory| memory.reserve as u64)
        .sum()
}

/// The tree, where its reserves are within their limit.
fn within_reserve(store: Store) -> Result<Linked, LinkError>
    requires linked { IsTrue (nat_le (reserves_of store.tree) (limit_of Reserve)) → IsLinked store.tree }
    requires few { sum_by (λ memory. memory.reserve) store.tree.memories < 2 ^ 64 }
    ensures { Gives result (within_of store) }
{
    let sum = reserves(&store.tree);
    if sum > Quantity::Reserve.limit() {
        return Err(LinkError::Limit {
            which: Quantity::Reserve,
            value: sum,
        });
    }
    Ok(Linked::of(store.tree))
}
