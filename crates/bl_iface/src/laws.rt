//! Laws of interfaces and of joined programs. Each function is its contract alone.
ghost use Rattle.std.specs.Prelude.{◌≡◌, ◌↔◌, ℕ, Bool as Truth, Err, IsTrue, List as Listed, Result as Answer};
ghost use Rattle.bl_base.specs.{declared.names.Role.Role, declared.names.Role.TheVariants.Client, declared.names.Role.TheVariants.Library};
ghost use Rattle.bl_program.specs.{Programs.IsProgram, Rules.IsWellFormed, Sites.is_protected, declared.definitions.ProgramParts.ProgramParts};
ghost use Rattle.bl_cut.specs.Least.{LeastUnder};
ghost use Rattle.bl_graph.specs.Ranges.{AreInRange};
ghost use Rattle.bl_transient.specs.Transient.{FlowsUnder, Passes, TransUnder};
ghost use Rattle.bl_transient.specs.Verdicts.{IsBad};
ghost use Rattle.bl_iface.specs.{Answers.JoinAnswers, Files.IsIface, JoinedProgram.CanJoin, JoinedProgram.joined};
ghost use Rattle.bl_iface.specs.Example.{client, iface, library, whole};
ghost use Rattle.bl_iface.specs.{InterfaceFunctions.Matches, Roles.FlowsAs, Roles.PassesAs, declared.error.IfaceError.IfaceError};
ghost use Rattle.bl_iface.specs.RoleTests.{IsFirstGiven, IsGiven, JudgesAs, LeastAs, asked};
ghost use Rattle.bl_iface.specs.{declared.error.IfaceError.TheVariants.Memory as IfaceMemory, declared.error.JoinError.JoinError};
ghost use Rattle.bl_iface.specs.{declared.error.JoinError.TheVariants.Memory, declared.iface.Iface.Iface};
ghost use Rattle.bl_iface.specs.declared.verdict.UnderVerdict.{UnderVerdict};

/// Two programs that can be joined are joined to a program that keeps all rules.
pub fn joins()
    ensures { (client library : ProgramParts) (iface : Iface) → IsProgram client → IsWellFormed client → IsProgram library → IsWellFormed library
        → CanJoin client library iface → IsProgram (joined client library iface) × IsWellFormed (joined client library iface) }
{}

/// Where a client passes and a library passes, each with its own marks under the interface, the joined program passes with its own.
pub fn passes()
    ensures { (client library : ProgramParts) (iface : Iface) → IsProgram client → IsWellFormed client → IsProgram library → IsWellFormed library
        → CanJoin client library iface → Matches client iface
        → PassesAs Client iface client (is_protected client) → PassesAs Library iface library (is_protected library)
        → Passes (joined client library iface) (is_protected (joined client library iface)) }
{}

/// What a role asks of parameters and results is what it asks of variables.
pub fn asks()
    ensures { (role : Role) (iface : Iface) (program : ProgramParts) (typing set : ℕ → Truth)
        → FlowsAs role iface program typing set ↔ FlowsUnder (asked role iface program) program typing set }
{}

/// Where a set passes under an interface, no position is bad; where none is, and a typing is exactly what must be transient, it passes.
pub fn tells()
    ensures fails { (role : Role) (iface : Iface) (program : ProgramParts) (typing set : ℕ → Truth) (position : ℕ)
        → FlowsAs role iface program typing set → IsBad (asked role iface program) program set position → ⊥ }
    ensures passes { (role : Role) (iface : Iface) (program : ProgramParts) (typing set : ℕ → Truth) → IsWellFormed program → Matches program iface
        → ((x : ℕ) → IsTrue (typing x) ↔ TransUnder (asked role iface program) program set x)
        → ((position : ℕ) → IsBad (asked role iface program) program set position → ⊥) → FlowsAs role iface program typing set }
{}

/// What is least under what a role asks is least among the sets that pass on that side of the interface.
pub fn chooses()
    ensures { (role : Role) (iface : Iface) (program : ProgramParts) (set : ℕ → Truth)
        → LeastUnder (asked role iface program) program set ↔ LeastAs role iface program set }
{}

/// The definition gives the program that an independent program makes of two small ones.
pub fn example()
    ensures { joined client library iface ≡ whole }
{}

/// But for want of memory, `read_iface` has one answer.
pub fn one_file()
    ensures { (lines : Listed (Listed ℕ)) (one other : Answer Iface IfaceError) → IsIface lines one → IsIface lines other
        → (one ≡ Err IfaceMemory → ⊥) → (other ≡ Err IfaceMemory → ⊥) → one ≡ other }
{}

/// But for want of memory, `join` has one answer.
pub fn one_answer()
    ensures { (client library : ProgramParts) (iface : Iface) (one other : Answer ProgramParts JoinError)
        → JoinAnswers client library iface one → JoinAnswers client library iface other
        → (one ≡ Err Memory → ⊥) → (other ≡ Err Memory → ⊥) → one ≡ other }
{}

/// But for want of memory, `least_under` has one answer, and there is one: a set or a position.
pub fn one_choice()
    ensures sets { (role : Role) (iface : Iface) (program : ProgramParts) (one other : ℕ → Truth) → AreInRange program
        → LeastUnder (asked role iface program) program one → LeastUnder (asked role iface program) program other → (s : ℕ) → one s ≡ other s }
    ensures positions { (role : Role) (iface : Iface) (program : ProgramParts) (one other : ℕ)
        → IsFirstGiven (asked role iface program) program one → IsFirstGiven (asked role iface program) program other → one ≡ other }
    ensures apart { (role : Role) (iface : Iface) (program : ProgramParts) (set : ℕ → Truth) (position : ℕ)
        → LeastUnder (asked role iface program) program set → IsFirstGiven (asked role iface program) program position → ⊥ }
    ensures some { (role : Role) (iface : Iface) (program : ProgramParts) → AreInRange program → IsWellFormed program → Matches program iface
        → ((position : ℕ) → IsGiven (asked role iface program) program position → ⊥) → (set : ℕ → Truth) × LeastUnder (asked role iface program) program set }
{}

/// But for want of memory, `passes_under` has one answer.
pub fn one_verdict()
    ensures { (role : Role) (iface : Iface) (program : ProgramParts) (set : ℕ → Truth) (one other : UnderVerdict)
        → JudgesAs role iface program set one → JudgesAs role iface program set other → one ≡ other }
{}
