//! The module.
ghost use Rattle.std.specs.Prelude.{◌≡◌, ◌≤◌, ◌++◌, IfOk};
ghost use Rattle.std.specs.List.{flat_map, range_with_len};
ghost use Rattle.bl_base.specs.Quantity.{limit_of};
ghost use Rattle.bl_base.specs.declared.quantity.Quantity.TheVariants as quantity;
ghost use Rattle.bl_gen.specs.GeneratedModule.{code_section, export_section, function, function_section, made, sized};

use crate::function::push_function;
use crate::number::{push_number, push_section, push_sized};
use bl_base::NoMemory;
use std::alloc::Global;

/// The bytes of the module that a seed and a size give: so many functions, each of which calls the one before it, a memory, and
/// an export of the last function. Want of memory is the only error.
#[tactic(auto, unfolding(crate::specs::GeneratedModule::made, crate::specs::GeneratedModule::type_section, crate::specs::GeneratedModule::memory_section))]
pub fn make(alloc: Global, seed: u64, size: u32) -> Result<Vec<u8>, NoMemory>
    requires least { 1 ≤ size }
    requires most { size ≤ limit_of quantity.Functions }
    ensures { IfOk result (λ bytes. bytes.items ≡ made seed size) }
{
    let mut bytes = Vec::new(alloc);
    bytes.extend_from_slice(b"\0asm\x01\0\0\0")?;
    push_section(&mut bytes, 1, &[0x01, 0x60, 0x01, 0x7F, 0x01, 0x7F])?;
    push_functions(alloc, &mut bytes, size)?;
    push_section(&mut bytes, 5, &[0x01, 0x00, 0x01])?;
    push_export(alloc, &mut bytes, size)?;
    push_code(alloc, &mut bytes, seed, size)?;
    Ok(bytes)
}

/// Puts the section of the functions' types behind some bytes.
#[tactic(auto, unfolding(crate::specs::GeneratedModule::function_section))]
fn push_functions(alloc: Global, to: &mut Vec<u8>, size: u32) -> Result<(), NoMemory>
    ensures { IfOk result (λ _. to.new.items ≡ to.old.items ++ function_section size) }
{
    let mut contents = Vec::new(alloc);
    push_number(&mut contents, u64::from(size))?;
    for _ in 0..size {
        contents.push(0x00)?;
    }
    push_section(to, 3, &contents)
}

/// Puts the section of the export behind some bytes.
#[tactic(auto, unfolding(crate::specs::GeneratedModule::export_section))]
fn push_export(alloc: Global, to: &mut Vec<u8>, size: u32) -> Result<(), NoMemory>
    requires { 1 ≤ size }
    ensures { IfOk result (λ _. to.new.items ≡ to.old.items ++ export_section size) }
{
    let mut contents = Vec::new(alloc);
    contents.extend_from_slice(&[0x01, 0x01, 0x66, 0x00])?;
    push_number(&mut contents, u64::from(size - 1))?;
    push_section(to, 7, &contents)
}

/// Puts the section of the functions' code behind some bytes.
#[tactic(auto, unfolding(crate::specs::GeneratedModule::code_section))]
fn push_code(alloc: Global, to: &mut Vec<u8>, seed: u64, size: u32) -> Result<(), NoMemory>
    ensures { IfOk result (λ _. to.new.items ≡ to.old.items ++ code_section seed size) }
{
    let mut contents = Vec::new(alloc);
    push_number(&mut contents, u64::from(size))?;
    push_bodies(alloc, &mut contents, seed, size)?;
    push_section(to, 10, &contents)
}

/// Puts the code of the first functions behind some bytes, each behind its size.
fn push_bodies(alloc: Global, to: &mut Vec<u8>, seed: u64, count: u32) -> Result<(), NoMemory>
    ensures { IfOk result (λ _. to.new.items ≡ to.old.items ++ flat_map (λ i. sized (function seed i)) (range_with_len 0 count)) }
{
    for i in 0..count {
        let mut body = Vec::new(alloc);
        push_function(&mut body, seed, i)?;
        push_sized(to, &body)?;
    }
    Ok(())
}
