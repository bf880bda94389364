//! Writes the bytes of a program of instructions.
ghost use Rattle.std.specs.Prelude.{◌≡◌, ◌+◌, ◌-◌, ◌%◌, ◌^◌, ◌<◌, ◌≤◌, ◌++◌, IfOk};
ghost use Rattle.bl_asm.specs.Assembly.{ArePlaces, IsAimed, IsCode, aimed, assembled, distance};

use crate::encoder::encode;
use bl_base::NoMemory;
use bl_x64::Instruction;
use std::alloc::Global;

/// The place of each instruction in the bytes of the program, and the place after the last one.
pub(crate) fn places_of(alloc: Global, code: &[Instruction]) -> Result<Vec<usize>, NoMemory>
    ensures { IfOk result (λ places. ArePlaces code.now places.items) }
{
    let mut bytes: Vec<u8> = Vec::new(alloc);
    let mut places: Vec<usize> = Vec::new(alloc);
    places.push(0)?;
    for instruction in code {
        encode(*instruction, &mut bytes)?;
        places.push(bytes.len())?;
    }
    Ok(places)
}

/// The distance from the end of a jump or a call to its target, in two's complement.
fn distance_to(end: usize, target: usize) -> u32
    requires end_small { end < 2 ^ 31 }
    requires target_small { target < 2 ^ 31 }
    ensures { result ≡ distance end target }
{
    ((target as u64 + 0x1_0000_0000 - end as u64) % 0x1_0000_0000) as u32
}

/// An instruction whose bytes end at a place, with the distance to its target.
#[tactic(auto, using(crate::proofs::Places::target_small))]
fn aim_at(
    code: &[Instruction],
    places: &[usize],
    end: usize,
    instruction: Instruction,
) -> Instruction
    requires places { ArePlaces code.now places.now }
    requires code { IsCode code.now }
    requires aim { IsAimed code.now instruction }
    requires small { end < 2 ^ 31 }
    ensures { result ≡ aimed code.now end instruction }
{
    match instruction {
        Instruction::Jump { to } => {
            prove!(to as usize <= code.len());
            Instruction::Jump {
                to: distance_to(end, places[to as usize]),
            }
        }
        Instruction::JumpIf { condition, to } => {
            prove!(to as usize <= code.len());
            Instruction::JumpIf {
                condition,
                to: distance_to(end, places[to as usize]),
            }
        }
        Instruction::Call { to } => {
            prove!(to as usize <= code.len());
            Instruction::Call {
                to: distance_to(end, places[to as usize]),
            }
        }
        other => other,
    }
}

/// The bytes of a program: those of its instructions in order, with targets as distances.
pub fn assemble(alloc: Global, code: &[Instruction]) -> Result<Vec<u8>, NoMemory>
    requires { IsCode code.now }
    ensures { IfOk result (λ bytes. bytes.items ≡ assembled code.now) }
{
    let places = places_of(alloc, code)?;
    let mut bytes: Vec<u8> = Vec::new(alloc);
    for (k, instruction) in code.iter().enumerate() {
        let aim = aim_at(code, &places, places[k + 1], *instruction);
        encode(aim, &mut bytes)?;
    }
    Ok(bytes)
}
