//! Laws of the grammar. Each function is its contract alone.
ghost use Rattle.std.specs.Prelude.{◌≡◌, ℕ, List};
ghost use Rattle.bl_wasm.specs.{Instructions.instruction, Instructions.expression, declared.instruction.Instr.Instr};
ghost use Rattle.bl_code.specs.ReaderAnswers.{IsAt};

/// At a place of bytes at most one instruction begins, and it ends at one place.
pub fn one_instruction()
    ensures { (bytes : List ℕ) (at end other : ℕ) (x y : Instr) →
        IsAt instruction bytes at end x → IsAt instruction bytes at other y → (end ≡ other) × (x ≡ y) }
{}

/// At a place of bytes at most one expression begins, and it ends at one place.
pub fn one_expression()
    ensures { (bytes : List ℕ) (at end other : ℕ) (xs ys : List Instr) →
        IsAt expression bytes at end xs → IsAt expression bytes at other ys → (end ≡ other) × (xs ≡ ys) }
{}
