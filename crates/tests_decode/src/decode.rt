//! Modules by their bytes. Each that is refused breaks by hand the one rule that stands beside it, of the binary format of WebAssembly 1.0 (section 5), of
//! what is supported or of the limits. node v20.20.2 refuses the malformed ones, too, but for what later versions took up (an id 12, vectors, other
//! references) and for C0 7F, which it takes for 40.
use bl_base::{NoMemory, Quantity};
use bl_decode::{DecodeError, decode};
use bl_wasm::Module;
use std::alloc::Global;
use std::test::Fail;
use tests_samples::LOADS;

static HEADER: [u8; 8] = [0x00, 0x61, 0x73, 0x6D, 0x01, 0x00, 0x00, 0x00];

/// The type section of the one type of no parameters and no results.
static TYPE: [u8; 6] = [0x01, 0x04, 0x01, 0x60, 0x00, 0x00];

/// The function section of one function of the first type.
static FUNCTION: [u8; 4] = [0x03, 0x02, 0x01, 0x00];

/// The code section of one function without items.
static CODE: [u8; 6] = [0x0A, 0x04, 0x01, 0x02, 0x00, 0x0B];

/// Why a module isn't read; None where it is.
fn cause_of(answer: &Result<Module, DecodeError>) -> Option<DecodeError> {
    match answer {
        Ok(_) => None,
        Err(cause) => Some(*cause),
    }
}

/// Why the bytes aren't decoded; None where they are.
fn cause(alloc: Global, bytes: &[u8]) -> Option<DecodeError> {
    cause_of(&decode(alloc, bytes))
}

/// Puts the header and those sections behind the bytes.
fn put_sections(bytes: &mut Vec<u8>, sections: &[&[u8]]) -> Result<(), NoMemory> {
    bytes.extend_from_slice(&HEADER)?;
    for section in sections {
        bytes.extend_from_slice(section)?;
    }
    Ok(())
}

/// Why the header with those sections behind it isn't decoded; None where it is.
fn refusal(alloc: Global, sections: &[&[u8]]) -> Result<Option<DecodeError>, NoMemory> {
    let mut bytes = Vec::new(alloc);
    put_sections(&mut bytes, sections)?;
    Ok(cause(alloc, &bytes))
}

/// Puts the bytes behind others, so many times.
fn put_times(all: &mut Vec<u8>, bytes: &[u8], count: u32) -> Result<(), NoMemory> {
    for _ in 0..count {
        all.extend_from_slice(bytes)?;
    }
    Ok(())
}

/// The bytes, so many times.
fn times(alloc: Global, bytes: &[u8], count: u32) -> Result<Vec<u8>, NoMemory> {
    let mut all = Vec::new(alloc);
    put_times(&mut all, bytes, count)?;
    Ok(all)
}

/// Whether the sections are refused with that cause.
fn is_refused(alloc: Global, sections: &[&[u8]], cause: DecodeError) -> Result<bool, NoMemory> {
    Ok(refusal(alloc, sections)? == Some(cause))
}

/// Whether they are decoded.
fn are_decoded(alloc: Global, sections: &[&[u8]]) -> Result<bool, NoMemory> {
    Ok(refusal(alloc, sections)?.is_none())
}

/// Whether a quantity of the sections is above its number.
fn exceeds(
    alloc: Global,
    sections: &[&[u8]],
    which: Quantity,
    value: u64,
) -> Result<bool, NoMemory> {
    is_refused(alloc, sections, DecodeError::Limit { which, value })
}

/// Whether bytes are malformed.
fn is_malformed(alloc: Global, bytes: &[u8]) -> bool {
    cause(alloc, bytes) == Some(DecodeError::Malformed)
}

/// How many prefixes are malformed before the first that isn't, but for two that are modules.
fn prefixes(alloc: Global) -> u32 {
    let mut passed = 0u32;
    for len in 0..LOADS.len() {
        let whole = len == 8 || len == 16;
        let wanted = if whole {
            None
        } else {
            Some(DecodeError::Malformed)
        };
        if cause(alloc, &LOADS[..len]) != wanted {
            break;
        }
        passed = passed.wrapping_add(1);
    }
    passed
}

/// Whether a module has one type, one function of it with three items, and one export, `f`.
fn has_one_function(tree: &Module) -> bool {
    let items = tree.bodies.as_slice().first().map(|code| code.items.len());
    let name = tree
        .exports
        .as_slice()
        .first()
        .map(|export| export.name.as_slice());
    tree.types.len() == 1
        && tree.functions.as_slice() == [0].as_slice()
        && items == Some(3)
        && name == Some(b"f".as_slice())
        && tree.bodies.len() == 1
        && tree.exports.len() == 1
}

/// Whether that was read.
fn is_one_function(answer: &Result<Module, DecodeError>) -> bool {
    match answer {
        Ok(tree) => has_one_function(tree),
        Err(_) => false,
    }
}

/// Whether `LOADS` is decoded to that.
fn is_whole(alloc: Global) -> bool {
    is_one_function(&decode(alloc, &LOADS))
}

#[test]
fn a_module_is_decoded_whole(rt: HostRuntime) -> Result<(), Fail> {
    assert_eq!(rt; prefixes(rt.alloc()), 46);
    assert!(rt; is_whole(rt.alloc()));
    Ok(())
}

/// The text on a tree.
fn text(alloc: Global, tree: &Module) -> Result<String, NoMemory> {
    Ok(format!(in alloc; "{tree:?}")?)
}

/// The text on what was read; None where nothing was.
fn text_on(
    alloc: Global,
    answer: &Result<Module, DecodeError>,
) -> Result<Option<String>, NoMemory> {
    match answer {
        Ok(tree) => Ok(Some(text(alloc, tree)?)),
        Err(_) => Ok(None),
    }
}

/// The text on the tree of a module; None where the bytes aren't decoded.
fn text_of(alloc: Global, bytes: &[u8]) -> Result<Option<String>, NoMemory> {
    text_on(alloc, &decode(alloc, bytes))
}

/// Puts `LOADS` with the size of its code in five bytes behind the bytes.
fn put_long_size(bytes: &mut Vec<u8>) -> Result<(), NoMemory> {
    bytes.extend_from_slice(&LOADS[..33])?;
    bytes.extend_from_slice(&[0x8C, 0x80, 0x80, 0x80, 0x00])?;
    bytes.extend_from_slice(&LOADS[34..])?;
    Ok(())
}

/// The text on the tree of `LOADS` with the size of its code in five bytes; None where that isn't decoded.
fn long_text(alloc: Global) -> Result<Option<String>, NoMemory> {
    let mut bytes = Vec::new(alloc);
    put_long_size(&mut bytes)?;
    text_of(alloc, &bytes)
}

/// Whether the tree of `LOADS` has that text.
fn has_text(alloc: Global, wanted: &str) -> Result<bool, NoMemory> {
    match text_of(alloc, &LOADS)? {
        Some(found) => Ok(found.as_str() == wanted),
        None => Ok(false),
    }
}

/// Whether both have the same tree.
fn is_same_tree(alloc: Global) -> Result<bool, NoMemory> {
    match long_text(alloc)? {
        Some(long) => has_text(alloc, long.as_str()),
        None => Ok(false),
    }
}

#[test]
fn a_size_of_five_bytes_gives_the_same_tree(rt: HostRuntime) -> Result<(), Fail> {
    assert!(rt; is_same_tree(rt.alloc())?);
    Ok(())
}

/// Sections that break one rule of the grammar each.
static MALFORMED: [&[u8]; 24] = [
    // an id of no section, and a section longer than the module
    &[0x0C, 0x01, 0x00],
    &[0x01, 0x05, 0x01, 0x60, 0x00, 0x00],
    // a size in six bytes
    &[0x01, 0x81, 0x80, 0x80, 0x80, 0x80, 0x00, 0x00],
    // a custom section without a name, and one whose name is longer than it
    &[0x00, 0x00],
    &[0x00, 0x01, 0x02],
    // a type without 60, and one of no value type
    &[0x01, 0x04, 0x01, 0x61, 0x00, 0x00],
    &[0x01, 0x05, 0x01, 0x60, 0x01, 0x7B, 0x00],
    // an import of no kind, and of a table without 70
    &[0x02, 0x05, 0x01, 0x00, 0x00, 0x04, 0x00],
    &[0x02, 0x07, 0x01, 0x00, 0x00, 0x01, 0x6F, 0x00, 0x00],
    // an index of a type in six bytes
    &[0x03, 0x07, 0x01, 0x80, 0x80, 0x80, 0x80, 0x80, 0x00],
    // a table without 70, and limits of no form
    &[0x04, 0x04, 0x01, 0x6F, 0x00, 0x00],
    &[0x05, 0x03, 0x01, 0x02, 0x00],
    &[0x05, 0x03, 0x01, 0x01, 0x00],
    // a global of no value type, one that neither can be set nor can't, and an initial value without its end
    &[0x06, 0x06, 0x01, 0x7B, 0x00, 0x41, 0x00, 0x0B],
    &[0x06, 0x06, 0x01, 0x7F, 0x02, 0x41, 0x00, 0x0B],
    &[0x06, 0x05, 0x01, 0x7F, 0x00, 0x41, 0x00],
    // an export of no kind, and one whose name isn't UTF-8
    &[0x07, 0x04, 0x01, 0x00, 0x04, 0x00],
    &[0x07, 0x05, 0x01, 0x01, 0xFF, 0x00, 0x00],
    // a start section longer than its index
    &[0x08, 0x02, 0x00, 0x00],
    // an offset without its end, and fewer bytes than a segment counts
    &[0x09, 0x04, 0x01, 0x00, 0x41, 0x00],
    &[0x0B, 0x06, 0x01, 0x00, 0x41, 0x00, 0x0B, 0x01],
    // code without a function, a section that stands twice, and 2^32 - 1 types
    &[0x0A, 0x04, 0x01, 0x02, 0x00, 0x0B],
    &[
        0x01, 0x04, 0x01, 0x60, 0x00, 0x00, 0x01, 0x04, 0x01, 0x60, 0x00, 0x00,
    ],
    &[0x01, 0x05, 0xFF, 0xFF, 0xFF, 0xFF, 0x0F],
];

/// How many of them are malformed before the first that isn't.
fn malformed(alloc: Global) -> Result<u32, NoMemory> {
    let mut passed = 0u32;
    for section in &MALFORMED {
        if !is_refused(alloc, &[*section], DecodeError::Malformed)? {
            break;
        }
        passed = passed.wrapping_add(1);
    }
    Ok(passed)
}

/// Another first word, and another version.
static HEADERS: [[u8; 8]; 2] = [
    [0x00, 0x61, 0x73, 0x6E, 0x01, 0x00, 0x00, 0x00],
    [0x00, 0x61, 0x73, 0x6D, 0x02, 0x00, 0x00, 0x00],
];

#[test]
fn each_rule_of_the_grammar_is_tested(rt: HostRuntime) -> Result<(), Fail> {
    assert_eq!(rt; malformed(rt.alloc())?, 24);
    assert!(rt; is_malformed(rt.alloc(), &HEADERS[0]));
    assert!(rt; is_malformed(rt.alloc(), &HEADERS[1]));
    Ok(())
}

/// Whether a type of 1,024 results is decoded.
fn are_not_too_many(alloc: Global) -> Result<bool, NoMemory> {
    let results = times(alloc, &[0x7F], 1_024)?;
    let head = [0x01, 0x85, 0x08, 0x01, 0x60, 0x00, 0x80, 0x08];
    are_decoded(alloc, &[&head, &results])
}

/// Whether one result more is told, before a table of 1,025 slots.
fn are_too_many(alloc: Global) -> Result<bool, NoMemory> {
    let results = times(alloc, &[0x7F], 1_025)?;
    let head = [0x01, 0x86, 0x08, 0x01, 0x60, 0x00, 0x81, 0x08];
    let table = [0x04, 0x05, 0x01, 0x70, 0x00, 0x81, 0x08];
    exceeds(alloc, &[&head, &results, &table], Quantity::Results, 1025)
}

#[test]
fn a_type_has_at_most_1024_results(rt: HostRuntime) -> Result<(), Fail> {
    assert!(rt; are_not_too_many(rt.alloc())?);
    assert!(rt; are_too_many(rt.alloc())?);
    Ok(())
}

/// Code of one function of the first type, each with something that isn't supported.
static UNSUPPORTED: [&[u8]; 2] = [
    // a constant float, and a block of a float
    &[
        0x0A, 0x09, 0x01, 0x07, 0x00, 0x43, 0x00, 0x00, 0x00, 0x00, 0x0B,
    ],
    &[0x0A, 0x07, 0x01, 0x05, 0x00, 0x02, 0x7C, 0x0B, 0x0B],
];

/// How many bodies are refused so before the first that isn't.
fn refused_codes(alloc: Global, codes: &[&[u8]], cause: DecodeError) -> Result<u32, NoMemory> {
    let mut passed = 0u32;
    for code in codes {
        if !is_refused(alloc, &[&TYPE, &FUNCTION, *code], cause)? {
            break;
        }
        passed = passed.wrapping_add(1);
    }
    Ok(passed)
}

/// Whether a type of a float and a start function are unsupported, and an extension by sign is supported.
fn is_told_as_supported(alloc: Global) -> Result<bool, NoMemory> {
    let float = [0x01, 0x05, 0x01, 0x60, 0x01, 0x7C, 0x00];
    let start = [0x08, 0x01, 0x00];
    let extension = [0x0A, 0x05, 0x01, 0x03, 0x00, 0xC0, 0x0B];
    Ok(
        is_refused(alloc, &[&float], DecodeError::Unsupported)?
            && is_refused(
                alloc,
                &[&TYPE, &FUNCTION, &start, &CODE],
                DecodeError::Unsupported,
            )?
            && are_decoded(alloc, &[&TYPE, &FUNCTION, &extension])?,
    )
}

#[test]
fn floats_and_start_functions_are_unsupported(rt: HostRuntime) -> Result<(), Fail> {
    assert_eq!(rt;
        refused_codes(rt.alloc(), &UNSUPPORTED, DecodeError::Unsupported)?,
        2
    );
    assert!(rt; is_told_as_supported(rt.alloc())?);
    Ok(())
}

/// Code of one function of the first type that isn't in the grammar.
static MALFORMED_CODE: [&[u8]; 5] = [
    // shorter than its size
    &[0x0A, 0x05, 0x01, 0x03, 0x00, 0x0B, 0x0B],
    // 2^32 locals
    &[
        0x0A, 0x0C, 0x01, 0x0A, 0x02, 0xFF, 0xFF, 0xFF, 0xFF, 0x0F, 0x7F, 0x01, 0x7F, 0x0B,
    ],
    // a block type that is a negative number, an else in a block, and items without their end
    &[0x0A, 0x08, 0x01, 0x06, 0x00, 0x02, 0xC0, 0x7F, 0x0B, 0x0B],
    &[0x0A, 0x08, 0x01, 0x06, 0x00, 0x02, 0x40, 0x05, 0x0B, 0x0B],
    &[0x0A, 0x05, 0x01, 0x03, 0x00, 0x01, 0x01],
];

/// Whether sections in their order are decoded, with custom sections among them.
fn are_in_order(alloc: Global) -> Result<bool, NoMemory> {
    let custom = [0x00, 0x03, 0x01, 0x61, 0xFF];
    are_decoded(alloc, &[&custom, &TYPE, &custom, &FUNCTION, &CODE, &custom])
}

/// Whether another order, a function without code and a section that stands twice are malformed.
fn are_malformed(alloc: Global) -> Result<bool, NoMemory> {
    let malformed = DecodeError::Malformed;
    Ok(
        is_refused(alloc, &[&FUNCTION, &TYPE, &CODE], malformed)?
            && is_refused(alloc, &[&TYPE, &FUNCTION], malformed)?
            && is_refused(alloc, &[&TYPE, &TYPE], malformed)?,
    )
}

#[test]
fn sections_stand_in_their_order(rt: HostRuntime) -> Result<(), Fail> {
    assert!(rt; are_in_order(rt.alloc())?);
    assert!(rt; are_malformed(rt.alloc())?);
    assert_eq!(rt;
        refused_codes(rt.alloc(), &MALFORMED_CODE, DecodeError::Malformed)?,
        5
    );
    Ok(())
}

#[test]
fn a_table_and_a_memory_have_limits(rt: HostRuntime) -> Result<(), Fail> {
    let slots = [0x04, 0x05, 0x01, 0x70, 0x00, 0x81, 0x08];
    let pages = [0x05, 0x04, 0x01, 0x00, 0x81, 0x02];
    assert!(rt; exceeds(rt.alloc(), &[&slots], Quantity::Table, 1025)?);
    assert!(rt; exceeds(rt.alloc(), &[&pages], Quantity::Memory, 257)?);
    Ok(())
}

/// Whether functions of those 10,001 indices are told.
fn are_told_of(alloc: Global, indices: &[u8]) -> Result<bool, NoMemory> {
    let codes = times(alloc, &[0x02, 0x00, 0x0B], 10_001)?;
    let functions = [0x03, 0x93, 0x4E, 0x91, 0x4E];
    let code = [0x0A, 0xB5, 0xEA, 0x01, 0x91, 0x4E];
    let sections: [&[u8]; 5] = [&TYPE, &functions, indices, &code, &codes];
    exceeds(alloc, &sections, Quantity::Functions, 10_001)
}

/// Whether 10,001 functions are told.
fn are_many_functions(alloc: Global) -> Result<bool, NoMemory> {
    let indices = times(alloc, &[0x00], 10_001)?;
    are_told_of(alloc, &indices)
}

/// Puts a br_table of 1,025 targets behind the items, and so many ends.
fn put_targets(items: &mut Vec<u8>, ends: u32) -> Result<(), NoMemory> {
    items.extend_from_slice(&[0x0E, 0x81, 0x08])?;
    put_times(items, &[0x00], 1_026)?;
    put_times(items, &[0x0B], ends)
}

/// Puts 257 blocks round such a br_table behind the items, with their ends and that of the body.
fn put_deep_items(items: &mut Vec<u8>) -> Result<(), NoMemory> {
    put_times(items, &[0x02, 0x40], 257)?;
    put_targets(items, 258)
}

/// Whether the blocks are told.
fn is_deep(alloc: Global) -> Result<bool, NoMemory> {
    let mut items = Vec::new(alloc);
    put_deep_items(&mut items)?;
    let code = [0x0A, 0x8D, 0x0E, 0x01, 0x8A, 0x0E, 0x00];
    let sections: [&[u8]; 4] = [&TYPE, &FUNCTION, &code, &items];
    exceeds(alloc, &sections, Quantity::Nesting, 257)
}

/// Whether a br_table of 1,025 targets is told.
fn are_many_targets(alloc: Global) -> Result<bool, NoMemory> {
    let mut items = Vec::new(alloc);
    put_targets(&mut items, 1)?;
    let code = [0x0A, 0x8A, 0x08, 0x01, 0x87, 0x08, 0x00];
    let sections: [&[u8]; 4] = [&TYPE, &FUNCTION, &code, &items];
    exceeds(alloc, &sections, Quantity::Targets, 1_025)
}

#[test]
fn limits_are_tested_in_their_order(rt: HostRuntime) -> Result<(), Fail> {
    assert!(rt; are_many_functions(rt.alloc())?);
    assert!(rt; is_deep(rt.alloc())?);
    assert!(rt; are_many_targets(rt.alloc())?);
    Ok(())
}
