//! Certificates written as JSON.
ghost use Rattle.std.specs.Prelude.{◌≡◌, ◌<◌, ◌^◌, All, IfOk, flat_map, map};
ghost use Rattle.bl_witness.specs.{Shapes.IsReadAs, Texts.certificate_text, Values.IsInRange, Values.IsPathInRange};
ghost use Rattle.bl_witness.specs.Tokens.{Adds, certificate_tokens, path_tokens, site_token};

use bl_base::{NoMemory, Pos, Text};
use bl_graph::{Certificate, FlowPath};
use json::Writer;
use std::alloc::Global;

/// The text of a certificate: a compact JSON object without spaces. Whoever reads it finds that certificate. Linear in the
/// certificate, in time and in memory: nothing but the text is kept. Want of memory is the only error.
pub fn to_json(alloc: Global, certificate: &Certificate) -> Result<Text, NoMemory>
    ensures text { IfOk result (λ text. text ≡ certificate_text certificate.now) }
    ensures back { IfOk result (λ text. IsReadAs text certificate.now) }
{
    in_range(certificate);
    let mut out = Writer::new(Vec::new(alloc));
    write_certificate(&mut out, certificate)?;
    Ok(Text::of(out.into_inner()))
}

/// Writes a certificate as an object.
fn write_certificate(out: &mut Writer, certificate: &Certificate) -> Result<(), NoMemory>
    ensures { IfOk result (λ _. Adds out.old out.new (certificate_tokens certificate.now)) }
{
    out.begin_object()?;
    out.key("paths")?;
    out.begin_array()?;
    write_paths(out, certificate.paths.as_slice())?;
    out.end_array()?;
    out.key("weight")?;
    out.u64(certificate.weight)?;
    out.end_object()?;
    Ok(())
}

/// Writes paths, one behind the other.
fn write_paths(out: &mut Writer, paths: &[FlowPath]) -> Result<(), NoMemory>
    ensures { IfOk result (λ _. Adds out.old out.new (flat_map path_tokens paths.now)) }
{
    for path in paths {
        write_path(out, path)?;
    }
    Ok(())
}

/// Writes a path as an object.
fn write_path(out: &mut Writer, path: &FlowPath) -> Result<(), NoMemory>
    ensures { IfOk result (λ _. Adds out.old out.new (path_tokens path.now)) }
{
    out.begin_object()?;
    out.key("amount")?;
    out.u64(path.amount)?;
    out.key("sink")?;
    out.u64(u64::from(path.sink.0))?;
    out.key("sites")?;
    out.begin_array()?;
    write_sites(out, path.sites.as_slice())?;
    out.end_array()?;
    out.end_object()?;
    Ok(())
}

/// Writes positions, one behind the other.
fn write_sites(out: &mut Writer, sites: &[Pos]) -> Result<(), NoMemory>
    ensures { IfOk result (λ _. Adds out.old out.new (map site_token sites.now)) }
{
    for site in sites {
        out.u64(u64::from(site.0))?;
    }
    Ok(())
}

/// Makes known that a certificate's numbers lie in their ranges; does nothing else.
fn in_range(certificate: &Certificate)
    ensures { IsInRange certificate.now }
{
    let _weight = certificate.weight;
    paths_in_range(certificate.paths.as_slice());
}

/// The same of paths.
fn paths_in_range(paths: &[FlowPath])
    ensures { All IsPathInRange paths.now }
{
    for path in paths {
        path_in_range(path);
    }
}

/// The same of a path.
fn path_in_range(path: &FlowPath)
    ensures { IsPathInRange path.now }
{
    let _amount = path.amount;
    let _sink = path.sink.0;
    sites_in_range(path.sites.as_slice());
}

/// The same of sites.
fn sites_in_range(sites: &[Pos])
    ensures { All (λ s. s.0 < 2 ^ 32) sites.now }
{
    for site in sites {
        number_in_range(site.0);
    }
}

/// The same of a number.
fn number_in_range(number: u32)
    ensures { number < 2 ^ 32 }
{}
