//! Laws of graphs and certificates. Each function is its contract alone.
ghost use Rattle.std.specs.Prelude.{◌≡◌, ℕ, Bool, Contains, IsTrue};
ghost use Rattle.bl_program.specs.{Programs.IsProgram, Rules.IsWellFormed, Sites.IsSite, Sites.Writes};
ghost use Rattle.bl_program.specs.declared.definitions.ProgramParts.{ProgramParts};
ghost use Rattle.bl_graph.specs.Certificates.{CertifiesSet, IsFlowPath, sites_of};
ghost use Rattle.bl_graph.specs.{Graphs.IsGraph, Ranges.AreInRange, Ranges.AreSites, declared.certificate.Certificate.Certificate};
ghost use Rattle.bl_graph.specs.{declared.certificate.FlowPath.FlowPath, declared.facts.Graph.Graph as Lists};

/// Positions, variables and weights of a well-formed program lie in their ranges.
pub fn in_range()
    ensures { (program : ProgramParts) → IsProgram program → IsWellFormed program → AreInRange program }
{}

/// A site writes one variable.
pub fn sites_write()
    ensures some { (program : ProgramParts) (s : ℕ) → IsSite program s → (x : ℕ) × Writes program s x }
    ensures one { (program : ProgramParts) (s x y : ℕ) → Writes program s x → Writes program s y → x ≡ y }
{}

/// A program has one graph.
pub fn one_graph()
    ensures { (program : ProgramParts) (one other : Lists) → IsGraph program one → IsGraph program other → one ≡ other }
{}

/// Each protected site of a certified set is on a path of the certificate, and no other place of that path is protected.
pub fn each_protect_has_a_path()
    ensures { (program : ProgramParts) (set : ℕ → Bool) (c : Certificate) → AreInRange program → AreSites program set → CertifiesSet program set c
        → (s : ℕ) → IsTrue (set s) → (path : FlowPath) × Contains c.paths path × Contains (sites_of path) s × IsFlowPath program set path }
{}
