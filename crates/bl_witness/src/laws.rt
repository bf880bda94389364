//! Laws of certificates. Each function is its contract alone.
ghost use Rattle.std.specs.Prelude.{◌≡◌, ℕ, Ok};
ghost use Rattle.bl_program.specs.declared.definitions.ProgramParts.{ProgramParts};
ghost use Rattle.bl_graph.specs.{Certificates.Certifies, declared.certificate.Certificate.Certificate, Ranges.AreInRange};
ghost use Rattle.bl_witness.specs.{Shapes.ReadsCertificate, Texts.certificate_text, Values.IsInRange, Verdicts.Breaks};

/// A certificate with a broken rule doesn't keep the rules, and the first broken rule is one, with its index. So a certificate
/// has one verdict.
pub fn one_verdict()
    ensures broken { (program : ProgramParts) (c : Certificate) (rule index : ℕ) → Breaks program c rule index → Certifies program c → ⊥ }
    ensures first { (program : ProgramParts) (c : Certificate) (one other i j : ℕ) → Breaks program c one i → Breaks program c other j → (one ≡ other) × (i ≡ j) }
{}

/// The text of a certificate whose numbers lie in their ranges is read as that certificate; and so is that of each one that keeps its rules for a program
/// whose numbers are in range.
pub fn texts_are_read_back()
    ensures in_range { (c : Certificate) → IsInRange c → ReadsCertificate (certificate_text c) (Ok c) }
    ensures kept { (program : ProgramParts) → AreInRange program → (c : Certificate) → Certifies program c → ReadsCertificate (certificate_text c) (Ok c) }
{}
