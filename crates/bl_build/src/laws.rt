//! Laws of the stages. Each function is its contract alone.
ghost use Rattle.std.specs.Prelude.{ℕ, Bool, List as Listed};
ghost use Rattle.bl_base.specs.declared.names.Role.{Role};
ghost use Rattle.bl_program.specs.{Programs.IsProgram, Rules.IsWellFormed, declared.definitions.ProgramParts.ProgramParts as Program};
ghost use Rattle.bl_ct.specs.{Verdicts.Judges as JudgesLabels, declared.verdict.CtVerdict.CtVerdict};
ghost use Rattle.bl_graph.specs.declared.certificate.Certificate.{Certificate};
ghost use Rattle.bl_transient.specs.{Verdicts.Judges as JudgesFlow, declared.transient.FlowVerdict.FlowVerdict};
ghost use Rattle.bl_witness.specs.{Texts.certificate_text, Verdicts.Checks, declared.verdict.CertVerdict.CertVerdict};
ghost use Rattle.bl_format.specs.Image.{Image};
ghost use Rattle.bl_wasm.specs.Linked.{IsLinked};
ghost use Rattle.bl_build.specs.BuildStages.{AreCompilable, compiling, lowering, sizing};
ghost use Rattle.bl_build.specs.{CertificateStages.certifying, CertificateStages.verifying, HardenStage.Hardened, HardenStage.IsHardened};
ghost use Rattle.bl_build.specs.EntryStages.{finding, imaging, starting};
ghost use Rattle.bl_build.specs.InterfaceStages.{IsMatchable, choosing, matching, reading};
ghost use Rattle.bl_build.specs.JoinStages.{AreMatchable, typing, uniting};
ghost use Rattle.bl_build.specs.LoadStages.{AreLoadable, decoding, labelling, linking, loading, validation};
ghost use Rattle.bl_build.specs.{InvocationStages.invoking, TraceStages.tracing, WeightStages.compiling_by, WeightStages.weighing};
ghost use Rattle.bl_job.specs.Stages.{Anything, IsLawfulStage, IsTotalStage};

/// Each of these stages makes one thing of a value, or refuses it for one reason, and never both: those of which the commands' chains consist, and
/// the chains that load and compile modules.
pub fn stages_are_lawful()
    ensures decoding { IsLawfulStage decoding }
    ensures validation { IsLawfulStage validation }
    ensures labelling { IsLawfulStage labelling }
    ensures linking { IsLawfulStage linking }
    ensures loading { IsLawfulStage loading }
    ensures lowering { IsLawfulStage lowering }
    ensures weighing { (counts : Listed ℕ) → IsLawfulStage (weighing counts) }
    ensures sizing { IsLawfulStage sizing }
    ensures compiling { IsLawfulStage compiling }
    ensures compiling_by { IsLawfulStage compiling_by }
    ensures invoking { (export start : Listed ℕ) → IsLawfulStage (invoking export start) }
    ensures imaging { IsLawfulStage imaging }
    ensures finding { (export : Listed ℕ) → IsLawfulStage (finding export) }
    ensures starting { (start : Listed ℕ) → IsLawfulStage (starting start) }
    ensures tracing { (trace : Listed ℕ) → IsLawfulStage (tracing trace) }
    ensures certifying { (certificate : Listed ℕ) → IsLawfulStage (certifying certificate) }
    ensures reading { IsLawfulStage reading }
    ensures matching { IsLawfulStage matching }
    ensures choosing { (role : Role) → IsLawfulStage (choosing role) }
    ensures typing { IsLawfulStage typing }
    ensures uniting { IsLawfulStage uniting }
{}

/// Each of these stages makes something of a value, or refuses it: it can't be that neither is so. Of modules this is said where
/// they can be loaded, of compiling them where their names are texts too, of invoking where the tree is linked, of programs where they are
/// well-formed, of an image's length where there is an image, and of sides of an interface where their programs are those of images and have all
/// its functions. Of linking it is said within loading alone.
pub fn stages_are_total()
    ensures decoding { IsTotalStage Anything decoding }
    ensures validation { IsTotalStage Anything validation }
    ensures labelling { IsTotalStage Anything labelling }
    ensures loading { IsTotalStage AreLoadable loading }
    ensures lowering { IsTotalStage Anything lowering }
    ensures weighing { (counts : Listed ℕ) → IsTotalStage Anything (weighing counts) }
    ensures sizing { IsTotalStage (λ program. (image : Listed ℕ) × Image program image) sizing }
    ensures compiling { IsTotalStage AreCompilable compiling }
    ensures compiling_by { IsTotalStage (λ sources. AreCompilable sources.parts) compiling_by }
    ensures invoking { (export start : Listed ℕ) → IsTotalStage IsLinked (invoking export start) }
    ensures imaging { IsTotalStage Anything imaging }
    ensures finding { (export : Listed ℕ) → IsTotalStage IsWellFormed (finding export) }
    ensures starting { (start : Listed ℕ) → IsTotalStage Anything (starting start) }
    ensures tracing { (trace : Listed ℕ) → IsTotalStage Anything (tracing trace) }
    ensures certifying { (certificate : Listed ℕ) → IsTotalStage IsWellFormed (certifying certificate) }
    ensures reading { IsTotalStage Anything reading }
    ensures matching { IsTotalStage Anything matching }
    ensures choosing { (role : Role) → IsTotalStage IsMatchable (choosing role) }
    ensures typing { IsTotalStage Anything typing }
    ensures uniting { IsTotalStage AreMatchable uniting }
{}

/// Well-formed programs have verdicts: by the rules of certificates on each certificate, by the transient rules on each set of sites,
/// and by the label rules. Of the first two it can't be that there is none.
pub fn programs_have_verdicts()
    ensures certificates { (program : Program) (c : Certificate) → IsProgram program → IsWellFormed program → ((verdict : CertVerdict) → Checks program c verdict → ⊥) → ⊥ }
    ensures flows { (program : Program) (set : ℕ → Bool) → IsProgram program → IsWellFormed program → ((verdict : FlowVerdict) → JudgesFlow program set verdict → ⊥) → ⊥ }
    ensures labels { (program : Program) → IsProgram program → IsWellFormed program → (verdict : CtVerdict) × JudgesLabels program verdict }
{}

/// Each well-formed program that has an image can be hardened: there is a least choice of protects with a certificate, a verdict on
/// constant time, and an image. It can't be that there is none.
pub fn programs_are_hardened()
    ensures { (bare : Program) (image : Listed ℕ) → IsWellFormed bare → Image bare image → ((hardened : Hardened) → IsHardened bare hardened → ⊥) → ⊥ }
{}

/// The image of a hardened program and the text of its certificate pass the stages of `verify`, which read that program and that certificate.
pub fn hardened_files_pass()
    ensures { (bare : Program) → IsProgram bare → IsWellFormed bare → (hardened : Hardened) → IsHardened bare hardened
        → (verifying (certificate_text hardened.certificate)).Passes hardened.image (record { program = hardened.program; certificate = hardened.certificate }) }
{}
