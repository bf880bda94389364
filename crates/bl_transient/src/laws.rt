//! Laws of transient variables and passing sets. Each function is its contract alone.
ghost use Rattle.std.specs.Prelude.{◌↔◌, ◌≤◌, ℕ, Any, Bool, IsTrue, List as Listed};
ghost use Rattle.bl_program.specs.{Sites.SinkReads, Sites.weight_of, declared.definitions.ProgramParts.ProgramParts};
ghost use Rattle.bl_graph.specs.{Certificates.CertifiesSet, Chains.IsChain, Ranges.AreInRange, Ranges.AreSites};
ghost use Rattle.bl_graph.specs.declared.certificate.Certificate.{Certificate};
ghost use Rattle.bl_transient.specs.Transient.{Assigns, Passes, Trans};

/// The transient variables are the least set that keeps the rules on what sites write: some typing has exactly them and
/// keeps these rules, and they are transient in each typing that does.
pub fn trans_is_least()
    ensures keeps { (program : ProgramParts) (set : ℕ → Bool)
        → (typing : ℕ → Bool) × Assigns program typing set × ((x : ℕ) → IsTrue (typing x) ↔ Trans program set x) }
    ensures least { (program : ProgramParts) (typing set : ℕ → Bool) (x : ℕ) → Assigns program typing set → Trans program set x → IsTrue (typing x) }
{}

/// A set passes exactly where no variable that a sink reads is transient.
pub fn passing_by_sinks()
    ensures { (program : ProgramParts) (set : ℕ → Bool)
        → Passes program set ↔ ((position x : ℕ) → SinkReads program position x → Trans program set x → ⊥) }
{}

/// A set passes exactly where it meets every chain from a load to a sink.
pub fn passing_by_chains()
    ensures { (program : ProgramParts) (set : ℕ → Bool)
        → Passes program set ↔ ((sites : Listed ℕ) (sink : ℕ) → IsChain program sites sink → Any (λ s. IsTrue (set s)) sites) }
{}

/// Where a certificate keeps its rules, no passing set of sites weighs less than the protected one.
pub fn certified_is_lightest()
    ensures { (program : ProgramParts) (set other : ℕ → Bool) (c : Certificate) → AreInRange program → CertifiesSet program set c
        → AreSites program other → Passes program other → weight_of program set ≤ weight_of program other }
{}
