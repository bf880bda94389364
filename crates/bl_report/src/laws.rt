//! Laws of reports. Each function is its contract alone.
ghost use Rattle.std.specs.Prelude.{ℕ, IsTrue};
ghost use Rattle.bl_program.specs.{Programs.IsProgram, Rules.IsWellFormed, Sites.is_protected, declared.definitions.ProgramParts.ProgramParts};
ghost use Rattle.bl_graph.specs.{Certificates.Certifies, declared.certificate.Certificate.Certificate};
ghost use Rattle.bl_report.specs.Reports.{HasReason};

/// Where a certificate keeps the rules of a well-formed program, each protect has a reason, so it has a line.
pub fn each_protect_has_a_reason()
    ensures { (program : ProgramParts) (certificate : Certificate) → IsProgram program → IsWellFormed program → Certifies program certificate
        → (s : ℕ) → IsTrue (is_protected program s) → HasReason program certificate s }
{}
