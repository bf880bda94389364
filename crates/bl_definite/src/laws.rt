//! Laws of definite programs. Each function is its contract alone.
ghost use Rattle.std.specs.Prelude.{ℕ, Bool};
ghost use Rattle.bl_program.specs.{declared.definitions.ProgramParts.ProgramParts};
ghost use Rattle.bl_definite.specs.{declared.facts.Fact.Fact};
ghost use Rattle.bl_definite.specs.Facts.{AreKnown, IsDefinite, IsFirstLacking};

/// A program is definite if each of its positions has a set of facts, as a test, with these properties (`AreKnown`): at an entry there are only
/// parameters; a fact at a position is made by each command that the position follows, or is at that command and isn't lost by it; and each
/// command finds the facts that it needs.
#[tactic(auto, using(crate::proofs::Sets::known_definite))]
pub fn known_facts_make_definite()
    ensures { (program : ProgramParts) (known : ℕ → Fact → Bool) → AreKnown program known → IsDefinite program }
{}

/// A program with a first position that lacks something isn't definite.
#[tactic(auto, using(crate::proofs::Sets::lacking_indefinite))]
pub fn lacking_is_not_definite()
    ensures { (program : ProgramParts) (position : ℕ) → IsFirstLacking program position → IsDefinite program → ⊥ }
{}
