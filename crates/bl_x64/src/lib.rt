//! A part of the x86-64 instruction set: registers, conditions, operands and instructions. Their meaning is defined in specs/.
#![tactic(auto)]

mod instruction;
mod register;

pub use instruction::{
    Address, Alu, Condition, Count, Extension, Instruction, Place, Rotation, Size, Width,
};
pub use register::Register;
