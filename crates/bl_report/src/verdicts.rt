//! The text of the verdicts on a program and a certificate.
ghost use Rattle.std.specs.Prelude.{◌≡◌, IfOk, option_map};
ghost use Rattle.bl_report.specs.Verdicts.{both_line, certificate_line, leak_line, verdicts_of};

use crate::secrets::push_constant_time;
use bl_base::{NoMemory, Pos, Text};
use bl_graph::SecretChain;
use bl_witness::CertVerdict;
use std::alloc::Global;

/// The lines of verdicts by the rules of certificates, by the transient rules and by the label rules: whether the certificate keeps
/// its rules, whether the program's protects pass, whether the program is constant-time, and whether it is both of these. `leak` is
/// the first sink that reads a transient variable, or none where the protects pass; `chain` is a secret chain, or none where the
/// program is constant-time. Linear in the way of a secret. Want of memory is the only error.
pub fn verdicts_text_of(
    alloc: Global,
    rules: &CertVerdict,
    leak: Option<Pos>,
    chain: Option<&SecretChain>,
) -> Result<Text, NoMemory>
    ensures { IfOk result (λ text. text ≡ verdicts_of rules.now leak (option_map (λ chain. chain.now) chain.entry)) }
{
    let mut text = certificate_line(alloc, rules)?;
    let stable = stable_line(alloc, leak)?;
    text.extend_from_slice(&stable)?;
    push_constant_time(alloc, &mut text, chain)?;
    text.extend_from_slice(safe_line(leak, chain))?;
    Ok(Text::of(text))
}

/// The line on the certificate.
fn certificate_line(alloc: Global, rules: &CertVerdict) -> Result<Vec<u8>, NoMemory>
    ensures { IfOk result (λ text. text.items ≡ certificate_line rules.now) }
{
    match rules {
        CertVerdict::Yes => Ok(b"certificate yes\n".to_vec(alloc)?),
        CertVerdict::No { rule, index } => Ok(format!(in alloc;
            "certificate no {rule} {index}\n"
        )?.into_bytes()),
    }
}

/// The line on the transient rules.
fn stable_line(alloc: Global, leak: Option<Pos>) -> Result<Vec<u8>, NoMemory>
    ensures { IfOk result (λ text. text.items ≡ leak_line leak) }
{
    match leak {
        None => Ok(b"stable yes\n".to_vec(alloc)?),
        Some(position) => Ok(format!(in alloc; "stable no {}\n", position.0)?.into_bytes()),
    }
}

/// The line on both the transient rules and the label rules.
fn safe_line(leak: Option<Pos>, chain: Option<&SecretChain>) -> &'static [u8]
    ensures { result.now ≡ both_line leak (option_map (λ chain. chain.now) chain.entry) }
{
    match (leak, chain) {
        (None, None) => b"safe yes\n",
        _ => b"safe no\n",
    }
}
