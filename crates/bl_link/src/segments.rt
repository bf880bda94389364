//! Segments: where they lie, and how they are written (sections 4.2.7 and 4.2.8).
ghost use Rattle.std.specs.Prelude.{◌≡◌, ◌+◌, ◌≤◌, length, fold, map, nat_le, Some, IsTrue};
ghost use Rattle.std.specs.List.{list_all};
ghost use Rattle.bl_link.specs.Links.{data_fits as data_fits_of, element_fits as element_fits_of, put_data as put_data_of, put_element as put_element_of, size as size_of, slots as slots_of};
ghost use Rattle.bl_link.specs.IndexSpaces.{number as number_of, written};

use crate::defined::constant_value;
use crate::rename::number;
use crate::store::Spaces;
use bl_base::{List, Text};
use bl_wasm::{DataSegment, ElementSegment, Memory};
use std::alloc::Global;
use std::mem;

/// Whether so many places from a first one on are within a size.
fn lies_within(first: u64, many: usize, size: usize) -> bool
    ensures { result ≡ nat_le (first + many) size }
{
    match first.checked_add(many as u64) {
        Some(end) => end <= size as u64,
        None => false,
    }
}

/// How many slots a table has; none where there is no such table.
fn slots(tables: &[List<Option<u32>>], number: u32) -> usize
    ensures { result ≡ slots_of tables.now number }
{
    match tables.get(number as usize) {
        Some(table) => table.len(),
        None => 0,
    }
}

/// How many bytes a memory has; none where there is no such memory.
fn size(memories: &[Memory], number: u32) -> usize
    ensures { result ≡ size_of memories.now number }
{
    match memories.get(number as usize) {
        Some(memory) => memory.bytes.len(),
        None => 0,
    }
}

/// Whether a segment lies in the table that it names.
fn element_fits(
    globals: &[bl_wasm::Global],
    spaces: &Spaces,
    tables: &[List<Option<u32>>],
    segment: &ElementSegment,
) -> bool
    ensures { result ≡ element_fits_of globals.now spaces.now tables.now segment.now }
{
    let first = constant_value(globals, spaces, segment.offset.as_slice());
    let slots = slots(tables, number(&spaces.tables, segment.table));
    lies_within(first, segment.functions.len(), slots)
}

/// Whether all segments lie in the tables that they name.
pub(crate) fn elements_fit(
    globals: &[bl_wasm::Global],
    spaces: &Spaces,
    tables: &[List<Option<u32>>],
    segments: &[ElementSegment],
) -> bool
    ensures { result ≡ list_all (element_fits_of globals.now spaces.now tables.now) segments.now }
{
    for segment in segments {
        if !element_fits(globals, spaces, tables, segment) {
            return false;
        }
    }
    true
}

/// Whether a segment lies in the first bytes of the memory that it names.
fn data_fits(
    globals: &[bl_wasm::Global],
    spaces: &Spaces,
    memories: &[Memory],
    segment: &DataSegment,
) -> bool
    ensures { result ≡ data_fits_of globals.now spaces.now memories.now segment.now }
{
    let first = constant_value(globals, spaces, segment.offset.as_slice());
    let size = size(memories, number(&spaces.memories, segment.memory));
    lies_within(first, segment.bytes.len(), size)
}

/// Whether all segments lie in the first bytes of the memories that they name.
pub(crate) fn data_fit(
    globals: &[bl_wasm::Global],
    spaces: &Spaces,
    memories: &[Memory],
    segments: &[DataSegment],
) -> bool
    ensures { result ≡ list_all (data_fits_of globals.now spaces.now memories.now) segments.now }
{
    for segment in segments {
        if !data_fits(globals, spaces, memories, segment) {
            return false;
        }
    }
    true
}

/// Writes the numbers of functions over slots from a place on.
fn write_slots(cells: &mut Vec<Option<u32>>, place: usize, spaces: &Spaces, functions: &[u32])
    requires { place + length functions.now ≤ length cells.old.items }
    ensures { cells.new.items ≡ written place (map (λ function. Some (number_of spaces.now.functions function)) functions.now) cells.old.items }
{
    for i in 0..functions.len() {
        cells[place + i] = Some(number(&spaces.functions, functions[i]));
    }
}

/// Writes the numbers of functions over a table's slots from a place on, where they lie in it. No memory is taken.
fn write_table(
    alloc: Global,
    table: &mut List<Option<u32>>,
    place: usize,
    spaces: &Spaces,
    functions: &[u32],
)
    requires { place + length functions.now ≤ length table.old }
    ensures { table.new ≡ written place (map (λ function. Some (number_of spaces.now.functions function)) functions.now) table.old }
{
    let list = mem::replace(table, List::new(alloc));
    let mut cells = list.into_vec();
    write_slots(&mut cells, place, spaces, functions);
    *table = List::of(cells);
}

/// Writes a segment into the table that it names. No memory is taken.
fn put_element(
    alloc: Global,
    tables: &mut Vec<List<Option<u32>>>,
    globals: &[bl_wasm::Global],
    spaces: &Spaces,
    segment: &ElementSegment,
)
    requires { IsTrue (element_fits_of globals.now spaces.now tables.old.items segment.now) }
    ensures { tables.new.items ≡ put_element_of globals.now spaces.now tables.old.items segment.now }
{
    let place = constant_value(globals, spaces, segment.offset.as_slice());
    let at = number(&spaces.tables, segment.table) as usize;
    if at < tables.len() {
        write_table(
            alloc,
            &mut tables[at],
            place as usize,
            spaces,
            segment.functions.as_slice(),
        );
    }
}

/// The tables with all segments of a part written, which lie in them. No memory is taken.
pub(crate) fn with_elements(
    alloc: Global,
    tables: List<List<Option<u32>>>,
    globals: &[bl_wasm::Global],
    spaces: &Spaces,
    segments: &[ElementSegment],
) -> List<List<Option<u32>>>
    requires { IsTrue (list_all (element_fits_of globals.now spaces.now tables) segments.now) }
    ensures { result ≡ fold (put_element_of globals.now spaces.now) tables segments.now }
{
    let mut cells = tables.into_vec();
    for segment in segments {
        put_element(alloc, &mut cells, globals, spaces, segment);
    }
    List::of(cells)
}

/// Writes bytes over others from a place on.
fn write_bytes(bytes: &mut Vec<u8>, place: usize, new: &[u8])
    requires { place + length new.now ≤ length bytes.old.items }
    ensures { bytes.new.items ≡ written place new.now bytes.old.items }
{
    bytes[place..place + new.len()].copy_from_slice(new);
}

/// Writes bytes over a memory's from a place on, where they lie in it. No memory is taken.
fn write_memory(alloc: Global, memory: &mut Memory, place: usize, new: &[u8])
    requires { place + length new.now ≤ length memory.old.bytes }
    ensures { memory.new ≡ record memory.old { bytes = written place new.now memory.old.bytes } }
{
    let text = mem::replace(&mut memory.bytes, Text::of(Vec::new(alloc)));
    let mut bytes = text.into_vec();
    write_bytes(&mut bytes, place, new);
    memory.bytes = Text::of(bytes);
}

/// Writes a segment into the memory that it names. No memory is taken.
fn put_data(
    alloc: Global,
    memories: &mut Vec<Memory>,
    globals: &[bl_wasm::Global],
    spaces: &Spaces,
    segment: &DataSegment,
)
    requires { IsTrue (data_fits_of globals.now spaces.now memories.old.items segment.now) }
    ensures { memories.new.items ≡ put_data_of globals.now spaces.now memories.old.items segment.now }
{
    let place = constant_value(globals, spaces, segment.offset.as_slice());
    let at = number(&spaces.memories, segment.memory) as usize;
    if at < memories.len() {
        write_memory(
            alloc,
            &mut memories[at],
            place as usize,
            segment.bytes.as_slice(),
        );
    }
}

/// The memories with all segments of a part written, which lie in them. No memory is taken.
pub(crate) fn with_data(
    alloc: Global,
    memories: List<Memory>,
    globals: &[bl_wasm::Global],
    spaces: &Spaces,
    segments: &[DataSegment],
) -> List<Memory>
    requires { IsTrue (list_all (data_fits_of globals.now spaces.now memories) segments.now) }
    ensures { result ≡ fold (put_data_of globals.now spaces.now) memories segments.now }
{
    let mut cells = memories.into_vec();
    for segment in segments {
        put_data(alloc, &mut cells, globals, spaces, segment);
    }
    List::of(cells)
}
