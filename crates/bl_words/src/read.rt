//! From the words of a call to what they ask for.
ghost use Rattle.std.specs.Prelude.{◌≡◌, ◌++◌, IfOk, map, string_bytes};
ghost use Rattle.std.specs.Option.{option_map};
ghost use Rattle.clap.specs.Walk.{texts};
ghost use Rattle.bl_words.specs.Requests.{are_files_unlike, asked_among, command_of, commands, file_named, forward, gen, gen_of, harden, harden_of, interp, interp_of, is_none_of, join, join_of, kept, lower, lower_of, modules_in, part, part_of, predict, predict_of, request_of, run, run_of, spec, spec_of, twin, twin_of, verify, verify_of, with_counts};
ghost use Rattle.bl_words.specs.Words.{parts_in, request_in, text_in};

use crate::command_line::{Unmatched, matches_of};
use crate::modules::{are_named_apart, modules_of};
use crate::numbers::{read_seed, read_size};
use crate::options::value_of;
use crate::roles::read_role;
use crate::steps::{most_drive_steps, most_steps};
use crate::words::{
    GenWords, HardenWords, InterpWords, JoinWords, LowerWords, PartWords, PredictWords, Request,
    RunWords, SpecWords, TwinWords, VerifyWords,
};
use bl_base::NoMemory;
use std::alloc::Global;

/// The request that the words ask for, the program's own name first; None exactly where they are no request. Linear in the
/// words, but for the logarithm of the number of modules.
pub fn read_words<'a>(alloc: Global, words: &'a [String]) -> Result<Option<Request<'a>>, NoMemory>
    ensures { IfOk result (λ request. option_map request_in request ≡ request_of (map string_bytes words.now)) }
{
    let found = match matches_of(alloc, words) {
        Ok(found) => found,
        Err(Unmatched::Refused) => return Ok(None),
        Err(Unmatched::Memory) => return Err(NoMemory),
    };
    let Some((name, inner)) = found.subcommand() else {
        return Ok(None);
    };
    let arguments = inner.get_raw("argument").unwrap_or(&[]);
    let steps = inner.get_raw("steps").unwrap_or(&[]);
    let counts = inner.get_raw("counts").unwrap_or(&[]);
    command_words(alloc, name, arguments, steps, counts)
}

/// What a command asks for, by its name, its arguments and the values that each option is given.
fn command_words<'a>(
    alloc: Global,
    name: &str,
    arguments: &[&'a str],
    steps: &[&'a str],
    counts: &[&'a str],
) -> Result<Option<Request<'a>>, NoMemory>
    ensures { IfOk result (λ request. option_map request_in request ≡ command_of name.now (parts_in arguments.now steps.now counts.now)) }
{
    let Some(steps) = value_of(steps) else {
        return Ok(None);
    };
    let Some(counts) = value_of(counts) else {
        return Ok(None);
    };
    let Some(request) = asked_by(alloc, name, arguments, steps)? else {
        return Ok(None);
    };
    match with_counts(request, counts) {
        Some(request) => kept(alloc, request),
        None => Ok(None),
    }
}

/// The request with the value of `--counts`: `harden` and `run` alone have a count file.
fn with_counts<'a>(request: Request<'a>, counts: Option<&'a str>) -> Option<Request<'a>>
    ensures { option_map request_in result ≡ with_counts (text_in counts.entry) (request_in request.entry) }
{
    let Some(file) = counts else {
        return Some(request);
    };
    match request {
        Request::Harden(words) => Some(Request::Harden(HardenWords {
            image: words.image,
            certificate: words.certificate,
            modules: words.modules,
            counts: Some(file),
        })),
        Request::Run(words) => Some(Request::Run(RunWords {
            image: words.image,
            export: words.export,
            start: words.start,
            steps: words.steps,
            counts: Some(file),
        })),
        _ => None,
    }
}

/// The request, where no two of its files that must differ are one, and no two of its modules have one name.
fn kept<'a>(alloc: Global, request: Request<'a>) -> Result<Option<Request<'a>>, NoMemory>
    ensures { IfOk result (λ found. option_map request_in found ≡ kept (request_in request.entry)) }
{
    if !are_files_unlike(&request) {
        return Ok(None);
    }
    if !are_named_apart(alloc, modules_in(&request))? {
        return Ok(None);
    }
    Ok(Some(request))
}

/// Whether no two files of a request that must differ are one.
fn are_files_unlike(request: &Request) -> bool
    ensures { result ≡ are_files_unlike (request_in request.now) }
{
    match request {
        Request::Harden(words) => {
            is_none_of(words.certificate, &[words.image], words.counts)
                && is_none_of(words.image, &[], words.counts)
        }
        Request::Run(words) => is_none_of(words.image, &[], words.counts),
        Request::Verify(words) => is_none_of(words.image, &[words.certificate], None),
        Request::Predict(words) => is_none_of(words.trace, &[words.image, words.start], None),
        Request::Part(words) => is_none_of(words.image, &[words.iface], None),
        Request::Join(words) => is_none_of(
            words.image,
            &[words.iface, words.client, words.library],
            None,
        ),
        _ => true,
    }
}

/// Whether a file is none of the others, and not the one that may be named beside them.
fn is_none_of(file: &str, others: &[&str], named: Option<&str>) -> bool
    ensures { result ≡ is_none_of file.now (texts others.now ++ file_named (text_in named.entry)) }
{
    if others.contains(&file) {
        return false;
    }
    match named {
        Some(other) => other != file,
        None => true,
    }
}

/// The modules that a request reads, by their words; of an image there are none.
pub fn modules_in<'r, 'a>(request: &'r Request<'a>) -> &'r [&'a str]
    ensures { texts result.now ≡ modules_in (request_in request.now) }
{
    match request {
        Request::Harden(words) => words.modules.as_slice(),
        Request::Lower(words) => words.modules.as_slice(),
        Request::Interp(words) => words.modules.as_slice(),
        Request::Part(words) => words.modules.as_slice(),
        _ => &[],
    }
}

/// What the command of a name asks for with its arguments and the value of `--steps`; None where no command has the name.
fn asked_by<'a>(
    alloc: Global,
    name: &str,
    arguments: &[&'a str],
    steps: Option<&'a str>,
) -> Result<Option<Request<'a>>, NoMemory>
    ensures { IfOk result (λ request. option_map request_in request ≡ asked_among commands name.now (texts arguments.now) (text_in steps.entry)) }
{
    match name {
        "harden" => harden_words(alloc, arguments, steps),
        "lower" => lower_words(alloc, arguments, steps),
        "interp" => interp_words(alloc, arguments, steps),
        "run" => Ok(run_words(arguments, steps)),
        "spec" => Ok(spec_words(arguments, steps)),
        "verify" => Ok(verify_words(arguments, steps)),
        "twin" => Ok(twin_words(arguments, steps)),
        "forward" => Ok(forward_words(arguments, steps)),
        "predict" => Ok(predict_words(arguments, steps)),
        "part" => part_words(alloc, arguments, steps),
        "join" => Ok(join_words(arguments, steps)),
        "gen" => Ok(gen_words(arguments, steps)),
        _ => Ok(None),
    }
}

/// What `harden` asks for with these parts: two arguments, then modules, and no option.
fn harden_words<'a>(
    alloc: Global,
    arguments: &[&'a str],
    steps: Option<&'a str>,
) -> Result<Option<Request<'a>>, NoMemory>
    ensures { IfOk result (λ request. option_map request_in request ≡ option_map harden (harden_of (texts arguments.now) (text_in steps.entry))) }
{
    let ([image, certificate, words @ ..], None) = (arguments, steps) else {
        return Ok(None);
    };
    match modules_of(alloc, words)? {
        Some(modules) => Ok(Some(Request::Harden(HardenWords {
            image: *image,
            certificate: *certificate,
            modules,
            counts: None,
        }))),
        None => Ok(None),
    }
}

/// What `lower` asks for with these parts: an argument, then modules, and no option.
fn lower_words<'a>(
    alloc: Global,
    arguments: &[&'a str],
    steps: Option<&'a str>,
) -> Result<Option<Request<'a>>, NoMemory>
    ensures { IfOk result (λ request. option_map request_in request ≡ option_map lower (lower_of (texts arguments.now) (text_in steps.entry))) }
{
    let ([image, words @ ..], None) = (arguments, steps) else {
        return Ok(None);
    };
    match modules_of(alloc, words)? {
        Some(modules) => Ok(Some(Request::Lower(LowerWords {
            image: *image,
            modules,
        }))),
        None => Ok(None),
    }
}

/// What `interp` asks for with these parts: two arguments, then modules, and at most one `--steps`.
fn interp_words<'a>(
    alloc: Global,
    arguments: &[&'a str],
    steps: Option<&'a str>,
) -> Result<Option<Request<'a>>, NoMemory>
    ensures { IfOk result (λ request. option_map request_in request ≡ option_map interp (interp_of (texts arguments.now) (text_in steps.entry))) }
{
    let [export, start, words @ ..] = arguments else {
        return Ok(None);
    };
    let Some(modules) = modules_of(alloc, words)? else {
        return Ok(None);
    };
    match most_steps(steps) {
        Some(steps) => Ok(Some(Request::Interp(InterpWords {
            export: *export,
            start: *start,
            modules,
            steps,
        }))),
        None => Ok(None),
    }
}

/// What `run` asks for with these parts: three arguments, and at most one `--steps`.
fn run_words<'a>(arguments: &[&'a str], steps: Option<&'a str>) -> Option<Request<'a>>
    ensures { option_map request_in result ≡ option_map run (run_of (texts arguments.now) (text_in steps.entry)) }
{
    let [image, export, start] = arguments else {
        return None;
    };
    let steps = most_steps(steps)?;
    Some(Request::Run(RunWords {
        image: *image,
        export: *export,
        start: *start,
        steps,
        counts: None,
    }))
}

/// What `spec` asks for with these parts: four arguments, and no option.
fn spec_words<'a>(arguments: &[&'a str], steps: Option<&'a str>) -> Option<Request<'a>>
    ensures { option_map request_in result ≡ option_map spec (spec_of (texts arguments.now) (text_in steps.entry)) }
{
    match (arguments, steps) {
        ([image, export, trace, start], None) => Some(Request::Spec(SpecWords {
            image: *image,
            export: *export,
            trace: *trace,
            start: *start,
        })),
        _ => None,
    }
}

/// What `verify` asks for with these parts: two arguments, and no option.
fn verify_words<'a>(arguments: &[&'a str], steps: Option<&'a str>) -> Option<Request<'a>>
    ensures { option_map request_in result ≡ option_map verify (verify_of (texts arguments.now) (text_in steps.entry)) }
{
    match (arguments, steps) {
        ([image, certificate], None) => Some(Request::Verify(VerifyWords {
            image: *image,
            certificate: *certificate,
        })),
        _ => None,
    }
}

/// What `twin` asks for with these parts: five arguments, and no option.
fn twin_words<'a>(arguments: &[&'a str], steps: Option<&'a str>) -> Option<Request<'a>>
    ensures { option_map request_in result ≡ option_map twin (twin_of (texts arguments.now) (text_in steps.entry)) }
{
    match (arguments, steps) {
        ([image, export, trace, start, other_start], None) => Some(Request::Twin(TwinWords {
            image: *image,
            export: *export,
            trace: *trace,
            start: *start,
            other_start: *other_start,
        })),
        _ => None,
    }
}

/// What `forward` asks for with these parts: those of `twin`.
fn forward_words<'a>(arguments: &[&'a str], steps: Option<&'a str>) -> Option<Request<'a>>
    ensures { option_map request_in result ≡ option_map forward (twin_of (texts arguments.now) (text_in steps.entry)) }
{
    match (arguments, steps) {
        ([image, export, trace, start, other_start], None) => Some(Request::Forward(TwinWords {
            image: *image,
            export: *export,
            trace: *trace,
            start: *start,
            other_start: *other_start,
        })),
        _ => None,
    }
}

/// What `predict` asks for with these parts: four arguments, and at most one `--steps`.
fn predict_words<'a>(arguments: &[&'a str], steps: Option<&'a str>) -> Option<Request<'a>>
    ensures { option_map request_in result ≡ option_map predict (predict_of (texts arguments.now) (text_in steps.entry)) }
{
    let [image, export, trace, start] = arguments else {
        return None;
    };
    let steps = most_drive_steps(steps)?;
    Some(Request::Predict(PredictWords {
        image: *image,
        export: *export,
        trace: *trace,
        start: *start,
        steps,
    }))
}

/// What `part` asks for with these parts: the word of a side, two arguments, then modules, and no option.
fn part_words<'a>(
    alloc: Global,
    arguments: &[&'a str],
    steps: Option<&'a str>,
) -> Result<Option<Request<'a>>, NoMemory>
    ensures { IfOk result (λ request. option_map request_in request ≡ option_map part (part_of (texts arguments.now) (text_in steps.entry))) }
{
    let ([role, image, iface, words @ ..], None) = (arguments, steps) else {
        return Ok(None);
    };
    let Some(role) = read_role(*role) else {
        return Ok(None);
    };
    match modules_of(alloc, words)? {
        Some(modules) => Ok(Some(Request::Part(PartWords {
            role,
            image: *image,
            iface: *iface,
            modules,
        }))),
        None => Ok(None),
    }
}

/// What `join` asks for with these parts: four arguments, and no option.
fn join_words<'a>(arguments: &[&'a str], steps: Option<&'a str>) -> Option<Request<'a>>
    ensures { option_map request_in result ≡ option_map join (join_of (texts arguments.now) (text_in steps.entry)) }
{
    match (arguments, steps) {
        ([image, iface, client, library], None) => Some(Request::Join(JoinWords {
            image: *image,
            iface: *iface,
            client: *client,
            library: *library,
        })),
        _ => None,
    }
}

/// What `gen` asks for with these parts: two arguments, which are a seed and a size, and no option.
fn gen_words<'a>(arguments: &[&'a str], steps: Option<&'a str>) -> Option<Request<'a>>
    ensures { option_map request_in result ≡ option_map gen (gen_of (texts arguments.now) (text_in steps.entry)) }
{
    let ([seed, size], None) = (arguments, steps) else {
        return None;
    };
    let seed = read_seed(*seed)?;
    let size = read_size(*size)?;
    Some(Request::Gen(GenWords { seed, size }))
}
