//! Runs that call through a table. Results are those that node v20.20's WebAssembly gives for the same items, as `oracles/memory.js` prints them, and it
//! traps in the same rows; which trap it is follows section 4.4.5 of WebAssembly 1.0, since node has one text for an empty slot and another type.
ghost use Rattle.std.specs.Prelude.{◌≡◌, [], ◌∷◌, IfOk, OnOk};
ghost use Rattle.tests_interpreter.specs.TableTrees.{calling, giving, giving_nine, over_table, table_tree};
ghost use Rattle.bl_base.specs.declared.names.Label.TheVariants.{Public};
ghost use Rattle.bl_base.specs.declared.names.ValueType.TheVariants.{I32};

use crate::machine::{run_linked, start_of};
use bl_base::{Label, List, NoMemory, Run, Trap, ValueType};
use bl_wasm::{Code, Exports, Function, Instr, Linked, Signature, Tree};
use std::alloc::Global;
use std::test::Fail;

/// The type with these parameters and one i32.
fn signature(alloc: Global, params: List<ValueType>) -> Result<Signature, NoMemory>
    ensures { IfOk result (λ kind. kind ≡ giving params) }
{
    let results = vec![in alloc; ValueType::I32]?;
    Ok(Signature {
        params,
        results: List::of(results),
    })
}

/// The type with one i32, and one i32.
fn of_one(alloc: Global) -> Result<Signature, NoMemory>
    ensures { IfOk result (λ kind. kind ≡ giving (I32 ∷ [])) }
{
    let params = vec![in alloc; ValueType::I32]?;
    signature(alloc, List::of(params))
}

/// The type with two i32, and one i32.
fn of_two(alloc: Global) -> Result<Signature, NoMemory>
    ensures { IfOk result (λ kind. kind ≡ giving (I32 ∷ I32 ∷ [])) }
{
    let params = vec![in alloc; ValueType::I32, ValueType::I32]?;
    signature(alloc, List::of(params))
}

/// The types are written into an empty list: one of two parameters, two equal ones of one, and one of none.
fn add_types(alloc: Global, types: &mut List<Signature>) -> Result<(), NoMemory>
    requires { types.old ≡ [] }
    ensures { OnOk result (types.new ≡ table_tree.types) }
{
    types.push(of_two(alloc)?)?;
    types.push(of_one(alloc)?)?;
    types.push(of_one(alloc)?)?;
    types.push(signature(alloc, List::new(alloc))?)
}

fn types(alloc: Global) -> Result<List<Signature>, NoMemory>
    ensures { IfOk result (λ types. types ≡ table_tree.types) }
{
    let mut types = List::new(alloc);
    add_types(alloc, &mut types)?;
    Ok(types)
}

/// A function of that type, over table 0.
fn function(
    alloc: Global,
    type_index: u32,
    labels: List<Label>,
    items: List<Instr>,
) -> Result<Function, NoMemory>
    ensures { IfOk result (λ function. function ≡ over_table type_index labels items) }
{
    let demanded = vec![in alloc; false]?;
    Ok(Function {
        type_index,
        labels,
        demanded: List::of(demanded),
        code: Code {
            locals: List::new(alloc),
            items,
        },
        memory: None,
        table: Some(0),
    })
}

/// Calls what is in the slot of its first argument, with the second one, at type 1.
fn calling_slot(alloc: Global) -> Result<Function, NoMemory>
    ensures { IfOk result (λ function. function ≡ calling) }
{
    let labels = vec![in alloc; Label::Public, Label::Public]?;
    let items = vec![in alloc;
        Instr::LocalGet(1),
        Instr::LocalGet(0),
        Instr::CallIndirect(1),
    ]?;
    function(alloc, 0, List::of(labels), List::of(items))
}

/// The function of one parameter, of that type, that has one item.
fn of_one_item(alloc: Global, type_index: u32, item: Instr) -> Result<Function, NoMemory>
    ensures { IfOk result (λ function. function ≡ over_table type_index (Public ∷ []) (item ∷ [])) }
{
    let labels = vec![in alloc; Label::Public]?;
    let items = vec![in alloc; item]?;
    function(alloc, type_index, List::of(labels), List::of(items))
}

/// Gives 9 without a parameter.
fn giving_9(alloc: Global) -> Result<Function, NoMemory>
    ensures { IfOk result (λ function. function ≡ giving_nine) }
{
    let items = vec![in alloc; Instr::I32Const(9)]?;
    function(alloc, 3, List::new(alloc), List::of(items))
}

/// The functions are written into an empty list: one that calls what is in the slot of its first argument; then one of type 1, which
/// gives back its argument; one of type 2, which is equal to it, that gives 7; and one of another type.
fn add_functions(alloc: Global, functions: &mut List<Function>) -> Result<(), NoMemory>
    requires { functions.old ≡ [] }
    ensures { OnOk result (functions.new ≡ table_tree.functions) }
{
    functions.push(calling_slot(alloc)?)?;
    functions.push(of_one_item(alloc, 1, Instr::LocalGet(0))?)?;
    functions.push(of_one_item(alloc, 2, Instr::I32Const(7))?)?;
    functions.push(giving_9(alloc)?)
}

fn functions(alloc: Global) -> Result<List<Function>, NoMemory>
    ensures { IfOk result (λ functions. functions ≡ table_tree.functions) }
{
    let mut functions = List::new(alloc);
    add_functions(alloc, &mut functions)?;
    Ok(functions)
}

/// The table has the functions 1 and 2, an empty slot, and function 3.
fn tables(alloc: Global) -> Result<List<List<Option<u32>>>, NoMemory>
    ensures { IfOk result (λ tables. tables ≡ table_tree.tables) }
{
    let slots = vec![in alloc; Some(1), Some(2), None, Some(3)]?;
    let tables = vec![in alloc; List::of(slots)]?;
    Ok(List::of(tables))
}

fn tree_of(alloc: Global) -> Result<Tree, NoMemory>
    ensures { IfOk result (λ tree. tree ≡ table_tree) }
{
    Ok(Tree {
        types: types(alloc)?,
        functions: functions(alloc)?,
        globals: List::new(alloc),
        memories: List::new(alloc),
        tables: tables(alloc)?,
        exports: Exports::new(alloc),
    })
}

fn linked(alloc: Global) -> Result<Linked, NoMemory> {
    let tree = tree_of(alloc)?;
    Ok(Linked::of(tree))
}

/// The outcome of function 0 at the slot of that number with the argument 10, within ten steps.
fn through(alloc: Global, slot: u64) -> Result<Option<Run>, NoMemory> {
    let start = start_of(alloc, &[slot, 10])?;
    run_linked(alloc, &linked(alloc)?, 0, &start, 10)
}

/// Whether the call through that slot gives this value.
fn gives(alloc: Global, slot: u64, wanted: u64) -> Result<bool, NoMemory> {
    match through(alloc, slot)? {
        Some(Run::Returned { values, .. }) => Ok(values.as_slice() == [wanted].as_slice()),
        _ => Ok(false),
    }
}

/// Whether the call through that slot traps so.
fn traps(alloc: Global, slot: u64, wanted: Trap) -> Result<bool, NoMemory> {
    match through(alloc, slot)? {
        Some(Run::Trapped { kind, .. }) => Ok(kind == wanted),
        _ => Ok(false),
    }
}

/// Whether the slots of the two equal types give 10 and 7.
fn are_one_type(alloc: Global) -> Result<bool, NoMemory> {
    Ok(gives(alloc, 0, 10)? && gives(alloc, 1, 7)?)
}

#[test]
fn equal_types_are_one_type(rt: HostRuntime) -> Result<(), Fail> {
    assert!(rt; are_one_type(rt.alloc())?);
    Ok(())
}

static SLOTS: [(u64, Trap); 4] = [
    (2, Trap::UninitializedElement),
    (3, Trap::TypeMismatch),
    (4, Trap::UndefinedElement),
    (4_294_967_295, Trap::UndefinedElement),
];

/// How many slots trap so before the first that doesn't.
fn trapping(alloc: Global) -> Result<u32, NoMemory> {
    let mut passed = 0u32;
    for (slot, kind) in &SLOTS {
        if !traps(alloc, *slot, *kind)? {
            break;
        }
        passed = passed.wrapping_add(1);
    }
    Ok(passed)
}

#[test]
fn a_slot_is_tested_before_its_type(rt: HostRuntime) -> Result<(), Fail> {
    assert_eq!(rt; trapping(rt.alloc())?, 4);
    Ok(())
}
