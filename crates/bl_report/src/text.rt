//! The report.
ghost use Rattle.std.specs.Prelude.{◌≡◌, IfOk};
ghost use Rattle.bl_program.specs.Sites.{is_protected, weight_of};
ghost use Rattle.bl_graph.specs.Certificates.{Certifies};
ghost use Rattle.bl_ct.specs.Verdicts.{Judges};
ghost use Rattle.bl_report.specs.Reports.{counts_text, protects, protects_text, report_text, site_count, summary_text};

use crate::lines::{push_bare_protects, push_protects};
use crate::secrets::push_constant_time;
use crate::sites::{Sites, sites_of};
use bl_base::{NoMemory, Text};
use bl_ct::CtVerdict;
use bl_graph::Certificate;
use bl_program::{ProgramParts, WellFormed};
use std::alloc::Global;

/// The report of a program whose protects a certificate shows to be the least, with the verdict on constant time: how many
/// functions, commands, sites and protects there are, and the protects' weight; for each protect, rising, its weight and the first
/// path of the certificate that takes its site; and whether the program is constant-time, or else the way of a secret. Linear in the
/// program, the certificate and the verdict, but for the logarithm of the number of listed weights. Want of memory is the only error.
pub fn report(
    alloc: Global,
    program: &WellFormed,
    certificate: &Certificate,
    verdict: &CtVerdict,
) -> Result<Text, NoMemory>
    requires certified { Certifies program.now certificate.now }
    requires judged { Judges program.now verdict.now }
    ensures { IfOk result (λ text. text ≡ report_text program.now certificate.now verdict.now) }
{
    let parts = program.program().parts();
    let sites = sites_of(alloc, parts)?;
    let mut text = counts(alloc, parts, &sites, certificate.weight)?;
    push_protects(
        alloc,
        &mut text,
        program,
        certificate.paths.as_slice(),
        &sites.protects,
    )?;
    push_constant_time(alloc, &mut text, verdict.chain())?;
    Ok(Text::of(text))
}

/// The report without its lines of protects: the counts, and whether the program is constant-time, or else the way of a secret.
/// Linear in the program and the verdict. Want of memory is the only error.
pub fn summary(
    alloc: Global,
    program: &WellFormed,
    certificate: &Certificate,
    verdict: &CtVerdict,
) -> Result<Text, NoMemory>
    requires certified { Certifies program.now certificate.now }
    requires judged { Judges program.now verdict.now }
    ensures { IfOk result (λ text. text ≡ summary_text program.now verdict.now) }
{
    let parts = program.program().parts();
    let sites = sites_of(alloc, parts)?;
    let mut text = counts(alloc, parts, &sites, certificate.weight)?;
    push_constant_time(alloc, &mut text, verdict.chain())?;
    Ok(Text::of(text))
}

/// How many functions, commands, sites and protects a program has, and the protects' weight; and for each protect, rising, its weight. Linear in
/// the program, but for the logarithm of the number of listed weights. Want of memory is the only error.
pub fn protects_report(alloc: Global, program: &WellFormed, weight: u64) -> Result<Text, NoMemory>
    requires { weight ≡ weight_of program.now (is_protected program.now) }
    ensures { IfOk result (λ text. text ≡ protects_text program.now) }
{
    let parts = program.program().parts();
    let sites = sites_of(alloc, parts)?;
    let mut text = counts(alloc, parts, &sites, weight)?;
    push_bare_protects(&mut text, program, &sites.protects)?;
    Ok(Text::of(text))
}

/// The lines of the counts, where the program has these sites and the protects have that weight.
fn counts(
    alloc: Global,
    parts: &ProgramParts,
    sites: &Sites,
    weight: u64,
) -> Result<Vec<u8>, NoMemory>
    requires count { sites.now.count ≡ site_count parts.now }
    requires protects { sites.now.protects.items ≡ protects parts.now }
    requires weight { weight ≡ weight_of parts.now (is_protected parts.now) }
    ensures { IfOk result (λ text. text.items ≡ counts_text parts.now) }
{
    let functions = parts.functions.len();
    let commands = parts.commands.len();
    let site_count = sites.count;
    let protect_count = sites.protects.len();
    let text = format!(in alloc;
        "functions {functions}\ncommands {commands}\nsites {site_count}\nprotects {protect_count} weight {weight}\n"
    )?;
    Ok(text.into_bytes())
}
