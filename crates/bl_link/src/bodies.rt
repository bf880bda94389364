//! The functions of a part with their bodies.
ghost use Rattle.std.specs.Prelude.{◌≡◌, ◌+◌, ◌<◌, ◌^◌, ◌++◌, length, map, option_map, slice_get, IfOk};
ghost use Rattle.std.specs.List.{enumerate_from, range_with_len, zip};
ghost use Rattle.bl_labels.specs.LabelledPlaces.{is_place};
ghost use Rattle.bl_link.specs.Links.{count, function as function_of, secret_if as secret_if_of};

use crate::rename::{number, renamed};
use crate::store::Spaces;
use bl_base::{Label, List, NoMemory};
use bl_labels::Marks;
use bl_wasm::{Code, FuncType, Function};
use std::alloc::Global;

/// The label of what is or isn't secret.
pub(crate) fn secret_if(secret: bool) -> Label
    ensures { result ≡ secret_if_of secret }
{
    if secret { Label::Secret } else { Label::Public }
}

/// The labels of so many parameters.
#[tactic(auto, using(crate::proofs::RangeLists::counted))]
fn labels(alloc: Global, marks: &Marks, function: u32, many: usize) -> Result<List<Label>, NoMemory>
    ensures { IfOk result (λ all. all ≡ map (λ param. secret_if_of (is_place marks.now.params function param)) (range_with_len 0 many)) }
{
    let mut labels = List::new(alloc);
    for param in 0..many {
        labels.push(secret_if(marks.is_secret_param(function, param)))?;
    }
    Ok(labels)
}

/// Which of so many results are to stay public.
#[tactic(auto, using(crate::proofs::RangeLists::counted))]
fn demands(alloc: Global, marks: &Marks, function: u32, many: usize) -> Result<List<bool>, NoMemory>
    ensures { IfOk result (λ all. all ≡ map (is_place marks.now.results function) (range_with_len 0 many)) }
{
    let mut demands = List::new(alloc);
    for index in 0..many {
        demands.push(marks.is_demanded_result(function, index))?;
    }
    Ok(demands)
}

/// How many parameters a type has; none where there is no such type.
fn params(types: &[FuncType], index: u32) -> usize
    ensures { result ≡ count (option_map (λ type. type.params) (slice_get types.now index)) }
{
    match types.get(index as usize) {
        Some(kind) => kind.params.len(),
        None => 0,
    }
}

/// How many results a type has; none where there is no such type.
fn results(types: &[FuncType], index: u32) -> usize
    ensures { result ≡ count (option_map (λ type. type.results) (slice_get types.now index)) }
{
    match types.get(index as usize) {
        Some(kind) => kind.results.len(),
        None => 0,
    }
}

/// A function of the type of that index; its body is moved.
fn function(
    alloc: Global,
    types: &[FuncType],
    marks: &Marks,
    spaces: &Spaces,
    at: u32,
    index: u32,
    code: Code,
) -> Result<Function, NoMemory>
    ensures { IfOk result (λ one. one ≡ function_of types.now marks.now spaces.now (at, (index, code))) }
{
    let labels = labels(alloc, marks, at, params(types, index))?;
    let demanded = demands(alloc, marks, at, results(types, index))?;
    Ok(Function {
        type_index: number(&spaces.types, index),
        labels,
        demanded,
        code: Code {
            locals: code.locals,
            items: renamed(code.items, spaces),
        },
        memory: spaces.memories.as_slice().first().copied(),
        table: spaces.tables.as_slice().first().copied(),
    })
}

/// The functions behind those of the parts before, the first one with that index in its part.
pub(crate) fn with_bodies(
    alloc: Global,
    before: List<Function>,
    types: &[FuncType],
    marks: &Marks,
    spaces: &Spaces,
    imported: u32,
    indices: &[u32],
    bodies: List<Code>,
) -> Result<List<Function>, NoMemory>
    requires { imported + length indices.now < 2 ^ 32 }
    ensures { IfOk result (λ all. all ≡ before ++ map (function_of types.now marks.now spaces.now) (enumerate_from imported (zip indices.now bodies))) }
{
    let mut functions = before;
    let mut rest = bodies.into_vec().into_iter();
    let mut at = imported;
    for index in indices {
        if let Some(code) = rest.next() {
            functions.push(function(alloc, types, marks, spaces, at, *index, code)?)?;
        }
        at += 1;
    }
    Ok(functions)
}
