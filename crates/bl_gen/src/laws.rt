//! Laws of the modules that are made. Each function is its contract alone.
ghost use Rattle.std.specs.Prelude.{◌≤◌, ◌<◌, ◌^◌, ℕ, Result, length};
ghost use Rattle.bl_base.specs.{Fits.AreBytes, Quantity.limit_of};
ghost use Rattle.bl_base.specs.declared.quantity.Quantity.TheVariants as quantity;
ghost use Rattle.bl_leb.specs.{Numbers.IsUnsigned, Spellings.IsShortest};
ghost use Rattle.bl_wasm.specs.{Modules.Spells, declared.module.Module.Module};
ghost use Rattle.bl_decode.specs.{DecoderAnswers.AnswersOf, declared.error.DecodeError.DecodeError};
ghost use Rattle.bl_gen.specs.{AcceptedModules.GivesValid, AcceptedModules.IsAccepted, GeneratedModule.leb, GeneratedModule.made};

/// The bytes of each module that is made spell a module that is supported, exceeds no limit and is valid. So what decoding
/// promises of its answer, for every module that the bytes spell, is that a valid module comes, but for want of memory.
pub fn made_modules_are_accepted()
    ensures spelled { (seed size : ℕ) → 1 ≤ size → size ≤ limit_of quantity.Functions → IsAccepted (made seed size) }
    ensures decoded { (seed size : ℕ) (answer : Result Module DecodeError) → 1 ≤ size → size ≤ limit_of quantity.Functions
        → ((tree : Module) → Spells (made seed size) tree → AnswersOf tree answer) → GivesValid answer }
{}

/// A module that is made has few enough bytes.
pub fn made_modules_are_short()
    ensures { (seed size : ℕ) → size ≤ limit_of quantity.Functions → length (made seed size) ≤ limit_of quantity.Module }
{}

/// A module that is made is of bytes.
pub fn made_modules_are_of_bytes()
    ensures { (seed size : ℕ) → AreBytes (made seed size) }
{}

/// Numbers are in their shortest spellings, at each width that they fit.
pub fn numbers_are_shortest()
    ensures { (number width : ℕ) → number < 2 ^ 64 → number < 2 ^ width → IsShortest (IsUnsigned width) (leb number) number }
{}
