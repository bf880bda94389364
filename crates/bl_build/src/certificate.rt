//! From the bytes of an image and of a certificate to both.
ghost use Rattle.bl_build.specs.CertificateStages.{verifying};
ghost use Rattle.bl_job.specs.WorkAnswers.{IsStaged, IsTold};
ghost use Rattle.bl_build.specs.StageAnswers.{IsCertificateOf, certified_in, refusal_of_certificate};

use crate::entry::read_image;
use bl_graph::Certificate;
use bl_job::{Reason, WorkError, refused};
use bl_program::WellFormed;
use bl_witness::{CertError, from_json};
use std::alloc::Global;

/// The program of an image, and a certificate that is given for it.
#[derive(Drop)]
pub struct Certified {
    /// The program.
    pub program: WellFormed,
    /// The certificate; whether it is one of the program's protects isn't said.
    pub certificate: Certificate,
}

/// The program of an image's bytes, with the certificate that other bytes are; Refused exactly where one of them is, the image's first.
pub fn read_certified(
    alloc: Global,
    image: &[u8],
    certificate: &[u8],
) -> Result<Certified, WorkError>
    ensures { IsStaged (verifying certificate.now) certified_in image.now result }
{
    let program = match read_image(alloc, image) {
        Ok(program) => program,
        Err(error) => return Err(error),
    };
    match read_certificate(alloc, certificate) {
        Ok(certificate) => Ok(Certified {
            program,
            certificate,
        }),
        Err(error) => Err(error),
    }
}

/// The certificate that bytes are; Refused exactly where they are none.
fn read_certificate(alloc: Global, bytes: &[u8]) -> Result<Certificate, WorkError>
    ensures { IsCertificateOf bytes.now result }
{
    match from_json(alloc, bytes) {
        Ok(certificate) => Ok(certificate),
        Err(error) => Err(of_certificate(alloc, error)),
    }
}

/// Why there is no certificate.
fn of_certificate(alloc: Global, error: CertError) -> WorkError
    ensures { IsTold (refusal_of_certificate error) result }
{
    match error {
        CertError::NotJson => {
            refused(alloc, Reason::Certificate, "certificate: not JSON", "", "")
        }
        CertError::Shape => refused(alloc, Reason::Certificate, "certificate: shape", "", ""),
        CertError::Memory => WorkError::Memory,
    }
}
