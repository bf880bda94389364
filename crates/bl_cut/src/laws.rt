//! Laws of least sets, of cuts and of marks. Each function is its contract alone.
ghost use Rattle.std.specs.Prelude.{◌≡◌, ◌↔◌, ◌<◌, ℕ, Bool, Contains, IsTrue, List, false};
ghost use Rattle.bl_base.specs.{Runs.Outcome, declared.start.Start.Start};
ghost use Rattle.bl_program.specs.{Outcomes.plain, declared.definitions.ProgramParts.ProgramParts};
ghost use Rattle.bl_program.specs.Sites.{IsSite, Writes, is_protected, weight_of};
ghost use Rattle.bl_flow.specs.Cuts.{IsCut, NearIn, cut_weight};
ghost use Rattle.bl_flow.specs.declared.network.Network.{Network as Net};
ghost use Rattle.bl_graph.specs.{Graphs.IsGraph, declared.facts.Graph.Graph as Lists};
ghost use Rattle.bl_graph.specs.Ranges.{AreInRange, AreSites, variables};
ghost use Rattle.bl_transient.specs.Transient.{Asked, IsFed, Passes, Trans};
ghost use Rattle.bl_cut.specs.{Least.Least, Least.LeastUnder, Marks.protected};
ghost use Rattle.bl_cut.specs.Network.{IsBarred, IsNetwork, node_of};

/// A least set holds exactly the loads, and the sites that read a transient variable, that write one which isn't transient.
pub fn least_by_trans()
    ensures { (program : ProgramParts) (set : ℕ → Bool) → AreInRange program → Least program set → (s : ℕ)
        → IsTrue (set s) ↔ (IsFed program set s × ((x : ℕ) × Writes program s x × (Trans program set x → ⊥))) }
{}

/// No two sets are least, also where something is asked of variables.
pub fn at_most_one_least()
    ensures least { (program : ProgramParts) (one other : ℕ → Bool) → AreInRange program → Least program one → Least program other → (s : ℕ) → one s ≡ other s }
    ensures under { (asked : Asked) (program : ProgramParts) (one other : ℕ → Bool) → AreInRange program → LeastUnder asked program one
        → LeastUnder asked program other → (s : ℕ) → one s ≡ other s }
{}

/// Some set is least. So exactly one is. The same holds where something is asked of variables, if what is asked to be transient
/// isn't asked to be stable too, and no sink reads it.
pub fn some_set_is_least()
    ensures least { (program : ProgramParts) → AreInRange program → (set : ℕ → Bool) × Least program set }
    ensures under { (asked : Asked) (program : ProgramParts) → AreInRange program → ((x : ℕ) → IsTrue (asked.transient x) → x < variables program)
        → ((x : ℕ) → IsTrue (asked.transient x) → IsBarred asked program x → ⊥) → (set : ℕ → Bool) × LeastUnder asked program set }
{}

/// The cuts of a program's network over names are the passing sets of sites, with the same weights; the near side of a cut holds
/// exactly those names that are transient.
pub fn cuts_are_passing_sets()
    ensures passing { (program : ProgramParts) (names : List ℕ) (n : Net) (set : ℕ → Bool) → AreInRange program → IsNetwork program names n → AreSites program set → Passes program set → IsCut n set }
    ensures sites { (program : ProgramParts) (names : List ℕ) (n : Net) (set : ℕ → Bool) → AreInRange program → IsNetwork program names n → IsCut n set → AreSites program set × Passes program set }
    ensures weight { (program : ProgramParts) (names : List ℕ) (n : Net) (set : ℕ → Bool) → AreInRange program → IsNetwork program names n → cut_weight n set ≡ weight_of program set }
    ensures near { (program : ProgramParts) (names : List ℕ) (n : Net) (set : ℕ → Bool) → AreInRange program → IsNetwork program names n → AreSites program set
        → (x : ℕ) → Contains names x → NearIn n set (node_of program names x) ↔ Trans program set x }
{}

/// In a program that was protected exactly the sites of the set are.
pub fn marks_are_the_set()
    ensures sites { (program : ProgramParts) (set : ℕ → Bool) (s : ℕ) → IsSite program s → is_protected (protected set program) s ≡ set s }
    ensures others { (program : ProgramParts) (set : ℕ → Bool) (s : ℕ) → (IsSite program s → ⊥) → is_protected (protected set program) s ≡ false }
{}

/// A program's graph is its graph with other protects too.
pub fn marks_leave_the_graph()
    ensures { (program : ProgramParts) (set : ℕ → Bool) (graph : Lists) → IsGraph program graph → IsGraph (protected set program) graph }
{}

/// Protects change no plain run.
pub fn marks_are_silent()
    ensures { (program : ProgramParts) (set : ℕ → Bool) (function : ℕ) (start : Start) (steps : ℕ) (outcome : Outcome)
        → plain (protected set program) function start steps outcome ↔ plain program function start steps outcome }
{}
