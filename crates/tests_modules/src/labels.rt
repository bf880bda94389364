//! Labels of modules by their bytes. The expected answers are those of the rules, read off each section by hand.

use bl_base::NoMemory;
use bl_decode::decode;
use bl_labels::{LabelError, Labels, Place, labels_of};
use std::alloc::Global;
use std::test::Fail;
use tests_samples::IDENTITY;

/// Magic and version.
static HEAD: &[u8] = b"\0asm\x01\0\0\0";

/// The sections of a module: the type [i32] -> [i32], an imported function of it, a function of its own that gives its argument, a
/// memory and a global.
static OWN: &[u8] =
    b"\x01\x06\x01`\x01\x7f\x01\x7f\x02\x0e\x01\x04host\x05print\0\0\x03\x02\x01\0\x05\x03\x01\0\x01\x06\x06\x01\x7f\0A\0\
      \x0b\n\x06\x01\x04\0 \0\x0b";

/// The bytes of the module of those sections and others behind them.
fn module_of(alloc: Global, first: &[u8], second: &[u8]) -> Result<Vec<u8>, NoMemory> {
    let mut bytes = HEAD.to_vec(alloc)?;
    bytes.extend_from_slice(first)?;
    bytes.extend_from_slice(second)?;
    Ok(bytes)
}

/// What `labels_of` answers of the module that the bytes spell; None where they spell none.
fn labels_in(alloc: Global, bytes: &[u8]) -> Option<Result<Labels, LabelError>> {
    match decode(alloc, bytes) {
        Ok(wasm) => {
            let labels = labels_of(alloc, &wasm);
            drop(wasm);
            Some(labels)
        }
        Err(_) => None,
    }
}

/// What `labels_of` answers of the module of those sections and others behind them; None where that is no module.
fn answer(
    alloc: Global,
    first: &[u8],
    second: &[u8],
) -> Result<Option<Result<Labels, LabelError>>, NoMemory> {
    let bytes = module_of(alloc, first, second)?;
    Ok(labels_in(alloc, bytes.as_slice()))
}

/// The fault of that module; None where it has labels or isn't one.
fn fault(alloc: Global, first: &[u8], second: &[u8]) -> Result<Option<LabelError>, NoMemory> {
    let found = answer(alloc, first, second)?;
    let error = match &found {
        Some(Err(error)) => Some(*error),
        _ => None,
    };
    drop(found);
    Ok(error)
}

/// Whether that module has labels.
fn is_labelled(alloc: Global, first: &[u8], second: &[u8]) -> Result<bool, NoMemory> {
    let found = answer(alloc, first, second)?;
    let is_right = matches!(&found, Some(Ok(_)));
    drop(found);
    Ok(is_right)
}

/// How many of these sections behind `OWN` have such a fault before the first that hasn't.
fn refused(alloc: Global, sections: &[(&[u8], LabelError)]) -> Result<u32, NoMemory> {
    let mut passed = 0u32;
    for (section, error) in sections {
        if fault(alloc, OWN, *section)? != Some(*error) {
            break;
        }
        passed = passed.wrapping_add(1);
    }
    Ok(passed)
}

/// Whether the labels are those of a parameter, a memory, a result and a global.
fn are_entries(labels: &Labels) -> bool {
    let place = Place {
        function: 1,
        index: 0,
    };
    labels.params.as_slice() == [place].as_slice()
        && labels.globals.len() == 0
        && labels.memories.as_slice() == [0].as_slice()
        && labels.results.as_slice() == [place].as_slice()
        && labels.demanded.as_slice() == [0].as_slice()
}

/// Whether a section of four entries gives those labels.
fn names_entries(alloc: Global) -> Result<bool, NoMemory> {
    let section = b"\0\x19\x0cblade.labels\x02\x04\x02\0\0\x01\0\x03\x01\0\x04\0";
    let found = answer(alloc, OWN, section)?;
    let is_right = match &found {
        Some(Ok(labels)) => are_entries(labels),
        _ => false,
    };
    drop(found);
    Ok(is_right)
}

#[test]
fn entries_are_labels_in_their_order(rt: HostRuntime) -> Result<(), Fail> {
    assert!(rt; names_entries(rt.alloc())?);
    Ok(())
}

/// Whether the one global is named by a section before all others.
fn names_before(alloc: Global) -> Result<bool, NoMemory> {
    let section = b"\0\x11\x0cblade.labels\x01\x01\x01\0";
    let found = answer(alloc, section, OWN)?;
    let is_right = match &found {
        Some(Ok(labels)) => labels.globals.as_slice() == [0].as_slice(),
        _ => false,
    };
    drop(found);
    Ok(is_right)
}

#[test]
fn a_section_may_stand_before_all_others(rt: HostRuntime) -> Result<(), Fail> {
    assert!(rt; names_before(rt.alloc())?);
    Ok(())
}

/// Whether nothing has a label.
fn are_none(labels: &Labels) -> bool {
    labels.params.len() == 0
        && labels.globals.len() == 0
        && labels.memories.len() == 0
        && labels.results.len() == 0
        && labels.demanded.len() == 0
}

/// Whether a section of another name gives no labels.
fn names_nothing(alloc: Global) -> Result<bool, NoMemory> {
    let found = answer(alloc, OWN, b"\0\x0d\x0cblade.label.")?;
    let is_right = match &found {
        Some(Ok(labels)) => are_none(labels),
        _ => false,
    };
    drop(found);
    Ok(is_right)
}

#[test]
fn a_section_of_another_name_names_nothing(rt: HostRuntime) -> Result<(), Fail> {
    assert!(rt; names_nothing(rt.alloc())?);
    Ok(())
}

/// Whether version 1 takes a secret and no demand, and version 2 takes both.
fn demands_are_new(alloc: Global) -> Result<bool, NoMemory> {
    let secret = b"\0\x12\x0cblade.labels\x01\x01\0\0\0";
    let demand = b"\0\x15\x0cblade.labels\x01\x02\0\0\0\x03\0\0";
    let later = b"\0\x15\x0cblade.labels\x02\x02\0\0\0\x03\0\0";
    Ok(
        is_labelled(alloc, &IDENTITY, secret)?
            && fault(alloc, &IDENTITY, demand)? == Some(LabelError::Malformed)
            && is_labelled(alloc, &IDENTITY, later)?,
    )
}

#[test]
fn version_1_has_no_demands(rt: HostRuntime) -> Result<(), Fail> {
    assert!(rt; demands_are_new(rt.alloc())?);
    Ok(())
}

static MALFORMED: [(&[u8], LabelError); 2] = [
    (b"\0\x0f\x0cblade.labels\0\0", LabelError::Malformed),
    (
        b"\0\x12\x0cblade.labels\x01\x01\x02\0\0",
        LabelError::Malformed,
    ),
];

#[test]
fn bytes_outside_the_grammar_are_malformed(rt: HostRuntime) -> Result<(), Fail> {
    assert_eq!(rt; refused(rt.alloc(), &MALFORMED)?, 2);
    Ok(())
}

static BROKEN: [(&[u8], LabelError); 5] = [
    (
        b"\0\x13\x0cblade.labels\x01\x02\x02\0\x02\0",
        LabelError::Twice,
    ),
    (
        b"\0\x11\x0cblade.labels\x01\x01\x01\x01",
        LabelError::OutOfRange,
    ),
    (
        b"\0\x12\x0cblade.labels\x01\x01\0\0\x01",
        LabelError::OutOfRange,
    ),
    (
        b"\0\x12\x0cblade.labels\x01\x01\0\0\0",
        LabelError::OnImport,
    ),
    (
        b"\0\x13\x0cblade.labels\x02\x02\x01\0\x04\0",
        LabelError::Both,
    ),
];

#[test]
fn the_first_rule_that_is_broken_is_named(rt: HostRuntime) -> Result<(), Fail> {
    assert_eq!(rt; refused(rt.alloc(), &BROKEN)?, 5);
    Ok(())
}

static TWO_SECTIONS: [(&[u8], LabelError); 1] = [(
    b"\0\x0f\x0cblade.labels\0\0\0\x0f\x0cblade.labels\x01\0",
    LabelError::Twice,
)];

#[test]
fn two_sections_are_one_too_many(rt: HostRuntime) -> Result<(), Fail> {
    assert_eq!(rt; refused(rt.alloc(), &TWO_SECTIONS)?, 1);
    Ok(())
}
