//! Laws of the bytes of instructions. Each function is only its contract.
ghost use Rattle.std.specs.Prelude.{◌≡◌, ◌+◌, ◌^◌, ◌<◌, ◌≤◌, ◌++◌, IsTrue, ℕ, suc, List, Some, length, slice_get};
ghost use Rattle.bl_base.specs.Runs.{StepsTo, goes};
ghost use Rattle.bl_x64.specs.{Machines.Areas, Machines.Core, Machines.is_allowed, Machines.pushed_at, Programs.IsInstruction, Programs.Machine, Programs.host, Programs.machine_step, Programs.position_of, declared.instruction.Instruction.Instruction};
ghost use Rattle.bl_x64.specs.declared.instruction.Instruction.TheVariants.{Call, Ret};
ghost use Rattle.bl_x64.specs.declared.register.Register.TheVariants.{Rsp};
ghost use Rattle.bl_asm.specs.{Assembly.IsCode, Assembly.assembled, ByteMachines.HasHost, ByteMachines.HasPlaces, ByteMachines.byte_step, ByteMachines.placed, ByteMachines.placed_next, Encoding.encoded, Decoding.decode, Returns.IsBack};

/// Round trip: the decoder reads the bytes of an instruction as this instruction, whatever bytes follow, and leaves exactly the bytes that follow.
#[tactic(auto, using(crate::proofs::RoundTrip::decode_is))]
pub fn decoding_returns()
    ensures { (instruction : Instruction) → IsInstruction instruction → (rest : List ℕ)
        → decode (encoded instruction ++ rest) ≡ Some (instruction, rest) }
{}

/// Same steps: the machine over the bytes of a program does each step of the machine over its instructions (`goes`). Except at a return, it is stuck
/// exactly if that is stuck (`same`). A return to an address at which no instruction begins has no step over instructions.
pub fn bytes_step_alike()
    ensures goes { (areas : Areas) (code : List Instruction) → IsCode code → HasPlaces areas code → (m next : Machine) → machine_step areas code m ≡ goes next
        → byte_step areas (assembled code) (placed areas m) ≡ goes (placed areas next) }
    ensures same { (areas : Areas) (code : List Instruction) → IsCode code → HasPlaces areas code → (m : Machine) → m.position ≤ length code
        → (slice_get code m.position ≡ Some Ret → ⊥) → byte_step areas (assembled code) (placed areas m) ≡ placed_next areas (machine_step areas code m) }
{}

/// Same runs: a run of a program is a run of its bytes, with as many steps.
#[tactic(auto, using(crate::proofs::AssembledSteps::same_run))]
pub fn bytes_run_alike()
    ensures { (areas : Areas) (code : List Instruction) → IsCode code → HasPlaces areas code → (steps : ℕ) (m n : Machine)
        → StepsTo (machine_step areas code) steps m n → StepsTo (byte_step areas (assembled code)) steps (placed areas m) (placed areas n) }
{}

/// Addresses: if the host's address is none of the code's, a return to the address of an instruction, of the end or of the host goes to exactly this position.
#[tactic(auto, using(crate::proofs::Addresses::address_found))]
pub fn addresses_are_found()
    ensures { (areas : Areas) (code : List Instruction) → HasPlaces areas code → HasHost areas code → (k : ℕ) → k ≤ host code
        → position_of areas.starts (length code + 2) (areas.starts k) ≡ Some k }
{}

/// Calls: a call whose target is a return comes back to the next instruction in two steps. All registers and flags are as before, and so is the memory,
/// except the 8 bytes that had the return address.
#[tactic(auto, using(crate::proofs::Returning::comes_back))]
pub fn calls_come_back()
    ensures { (areas : Areas) (code : List Instruction) → HasPlaces areas code → HasHost areas code → (position to : ℕ) (c : Core) → slice_get code position ≡ Some (Call to)
        → slice_get code to ≡ Some Ret → IsTrue (is_allowed areas (pushed_at c) 8) → c.registers Rsp < 2 ^ 64
        → (d : Core) × StepsTo (machine_step areas code) 2 (record { position = position; core = c }) (record { position = suc position; core = d }) × IsBack c d }
{}
