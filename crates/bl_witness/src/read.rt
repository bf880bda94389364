//! Certificates read from JSON.
ghost use Rattle.std.specs.Prelude.{◌≡◌, Err, IfOk, IsUtf8};
ghost use Rattle.json.specs.Lex.{tokens};
ghost use Rattle.serde_json.specs.{Data.Data, Read.read};
ghost use Rattle.bl_witness.specs.Shapes.{IsJson, ReadsCertificate, certificate_of};
ghost use Rattle.bl_witness.specs.Taken.{LacksValue, TakesValue};

use crate::error::CertError;
use crate::fault::Fault;
use crate::fields::{CertificateFields, read_object};
use bl_graph::Certificate;
use json::{Reader, Scratch};
use std::alloc::Global;

/// How deep arrays and objects may nest, as in `serde_json`.
const MAX_DEPTH: usize = 127;

/// The certificate that bytes are the text of. It is judged while its tokens pass: what no certificate has is checked and not
/// kept. Of a key that stands twice the last value alone counts, as in `serde_json`. Linear in the text, in time and memory: one
/// byte of memory for each of its bytes, and the certificate.
pub fn from_json(alloc: Global, bytes: &[u8]) -> Result<Certificate, CertError>
    ensures { ReadsCertificate bytes.now result }
{
    let Ok(text) = std::str::from_utf8(bytes) else {
        return Err(CertError::NotJson);
    };
    match read_text(alloc, text) {
        Ok(Some(certificate)) => Ok(certificate),
        Ok(None) => Err(CertError::Shape),
        Err(Fault::NotJson) => Err(CertError::NotJson),
        Err(Fault::Memory) => Err(CertError::Memory),
    }
}

/// The certificate that a text is.
fn read_text(alloc: Global, text: &str) -> Result<Option<Certificate>, Fault>
    ensures ok { IfOk result (λ found. (d : Data) × (read text.now ≡ Some d) × (found ≡ certificate_of d)) }
    ensures err { result ≡ Err Fault.NotJson → read text.now ≡ None }
{
    let mut scratch = Scratch::new(alloc);
    let Ok(mut reader) = Reader::new(text, &mut scratch) else {
        return Err(Fault::Memory);
    };
    let found = read_object::<CertificateFields>(alloc, &mut reader, MAX_DEPTH)?;
    if reader.next().is_some() {
        return Err(Fault::NotJson);
    }
    Ok(found)
}
