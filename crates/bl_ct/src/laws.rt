//! Laws of labellings and secret chains. Each function is its contract alone.
ghost use Rattle.std.specs.Prelude.{◌⊎◌, ◌↔◌, ℕ, Bool, IsTrue};
ghost use Rattle.bl_program.specs.{Programs.IsProgram, Rules.IsWellFormed, declared.definitions.ProgramParts.ProgramParts};
ghost use Rattle.bl_graph.specs.Labels.{AssignsLabels, ConstantTime, Secret};
ghost use Rattle.bl_graph.specs.{SecretChains.IsSecretChain, declared.secret.SecretChain.SecretChain};

/// Where there is a secret chain, no labelling keeps the label rules.
pub fn chains_exclude_labellings()
    ensures { (program : ProgramParts) (chain : SecretChain) → IsSecretChain program chain → ConstantTime program → ⊥ }
{}

/// The secret variables are secret in each labelling that keeps the rules on what is secret.
pub fn secret_is_least()
    ensures { (program : ProgramParts) (labelling : ℕ → Bool) (x : ℕ)
        → AssignsLabels program labelling → Secret program x → IsTrue (labelling x) }
{}

/// The secret variables are those of a labelling that keeps the rules on what is secret.
pub fn some_labelling_is_least()
    ensures { (program : ProgramParts)
        → (labelling : ℕ → Bool) × AssignsLabels program labelling × ((x : ℕ) → IsTrue (labelling x) ↔ Secret program x) }
{}

/// A well-formed program has a labelling that keeps the label rules, or a secret chain.
pub fn labelling_or_chain()
    ensures { (program : ProgramParts) → IsProgram program → IsWellFormed program
        → ConstantTime program ⊎ ((chain : SecretChain) × IsSecretChain program chain) }
{}
