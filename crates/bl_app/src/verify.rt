//! `verify`: from the bytes of an image and of a certificate to the verdicts on them.
ghost use Rattle.std.specs.Prelude.{◌≡◌, IfOk};
ghost use Rattle.bl_app.specs.VerifyJob.{Shows, VerifyPlans, found_plan, found_status};
ghost use Rattle.bl_build.specs.StageAnswers.{certified_in};
ghost use Rattle.bl_job.specs.WorkAnswers.{plan_in};
ghost use Rattle.bl_graph.specs.Graphs.{IsGraph};
ghost use Rattle.bl_words.specs.{Requests.verify, Words.verify_in};

use crate::command::Command;
use bl_base::Quantity::{Certificate, Image};
use bl_base::{NoMemory, Pos};
use bl_build::{Certified, read_certified};
use bl_ct::secret_chain_of;
use bl_graph::{Graph, SecretChain, graph};
use bl_job::{Content, Plan, Read, Status, WorkError, list_reads, two_files};
use bl_report::verdicts_text_of;
use bl_sct::own_leak_of;
use bl_witness::{CertVerdict, check_certificate_of};
use bl_words::VerifyWords;
use std::alloc::Global;

/// What is found of a program and a certificate.
#[derive(Drop)]
pub struct Found {
    /// The verdict by the rules of certificates.
    pub rules: CertVerdict,
    /// The first sink that reads a variable which is transient by the program's own protects, if there is one.
    pub leak: Option<Pos>,
    /// A secret chain, if there is one.
    pub chain: Option<SecretChain>,
}

/// Printing the verdicts on an image's program and a certificate; Refused exactly where their bytes are refused. Linear in the bytes,
/// but for what the check of a program takes and the logarithm of its size; takes no memory for a variable that is declared alone.
impl<'a> Command<'a> for VerifyWords<'a> {
    ghost request = { λ words. verify (verify_in words) };

    fn reads(&self, alloc: Global) -> Result<Vec<Read<'a>>, NoMemory> {
        list_reads(
            alloc,
            &[(self.image, Image), (self.certificate, Certificate)],
        )
    }

    fn work(&self, alloc: Global, contents: Vec<Content>) -> Result<Plan<'a>, WorkError> {
        let (image, certificate) = two_files(contents.as_slice());
        let certified = read_certified(alloc, image, certificate)?;
        Ok(tell(alloc, &certified)?)
    }
}

/// Judges a program and a certificate: printing the verdicts.
#[tactic(auto, using(crate::proofs::VerifyLemmas::found_plans))]
fn tell<'a>(alloc: Global, certified: &Certified) -> Result<Plan<'a>, NoMemory>
    ensures { IfOk result (λ plan. VerifyPlans (certified_in certified.now) (plan_in plan)) }
{
    let found = judge(alloc, certified)?;
    tell_found(alloc, &found)
}

/// What is found of a program and a certificate.
fn judge(alloc: Global, certified: &Certified) -> Result<Found, NoMemory>
    ensures { IfOk result (λ found. Shows (certified_in certified.now) found) }
{
    let graph = graph(alloc, &certified.program)?;
    judge_of(alloc, certified, &graph)
}

/// The same by the program's graph.
fn judge_of(alloc: Global, certified: &Certified, graph: &Graph) -> Result<Found, NoMemory>
    requires { IsGraph certified.now.program graph.now }
    ensures { IfOk result (λ found. Shows (certified_in certified.now) found) }
{
    let program = &certified.program;
    // What is known of the program is read with it.
    let _parts = program.program().parts();
    let rules = check_certificate_of(alloc, program, graph, &certified.certificate)?;
    let leak = own_leak_of(alloc, program, graph)?;
    let chain = secret_chain_of(alloc, program, graph)?;
    Ok(Found { rules, leak, chain })
}

/// Printing the verdicts that what is found shows.
fn tell_found<'a>(alloc: Global, found: &Found) -> Result<Plan<'a>, NoMemory>
    ensures { IfOk result (λ plan. plan_in plan ≡ found_plan found.now) }
{
    let text = verdicts_text_of(alloc, &found.rules, found.leak, found.chain.as_ref())?;
    Ok(Plan {
        status: verify_status(&found.rules, found.leak),
        keeps: Vec::new(alloc),
        text: text.into_vec(),
    })
}

/// The exit status, by the rules of certificates and the transient rules.
fn verify_status(rules: &CertVerdict, leak: Option<Pos>) -> Status
    ensures { result ≡ found_status rules.now leak }
{
    match (rules, leak) {
        (CertVerdict::Yes, None) => Status::Done,
        _ => Status::No,
    }
}
