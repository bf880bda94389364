//! What the words of calls ask for, read off by hand from the rules of words in docs/CLI.md.
use bl_base::{NoMemory, Role};
use bl_words::{
    HardenWords, InterpWords, JoinWords, LowerWords, PartWords, PredictWords, Request, RunWords,
    SpecWords, TwinWords, read_words,
};
use std::alloc::Global;
use std::test::Fail;

/// The words of a line behind the program's name, and what they ask for.
static OPTIONS: [(&str, &str); 28] = [
    ("interp m/f s a.wasm", "interp m/f s 1000000: a.wasm"),
    ("interp --steps=7 m/f s a.wasm", "interp m/f s 7: a.wasm"),
    ("interp m/f --steps 7 s a.wasm", "interp m/f s 7: a.wasm"),
    ("interp m/f s a --steps 7 b", "interp m/f s 7: a b"),
    ("interp m/f s a --steps=0000000001", "interp m/f s 1: a"),
    (
        "interp m/f s a --steps 4294967295",
        "interp m/f s 4294967295: a",
    ),
    ("interp m/f s a --steps 4294967296", "none"),
    ("interp m/f s a --steps 00000000001", "none"),
    ("interp m/f s a --steps 0", "none"),
    ("interp m/f s a --steps=", "none"),
    ("interp m/f s a --steps=+1", "none"),
    ("interp m/f s a --steps=-1", "none"),
    ("interp m/f s a --steps=1=2", "none"),
    ("interp m/f s a --steps -1", "none"),
    ("interp m/f s a --steps -", "none"),
    ("interp m/f s a --steps --", "none"),
    ("interp m/f s a --steps", "none"),
    ("interp m/f s a --steps 7 --steps=7", "none"),
    ("interp m/f s a --step 7", "none"),
    ("interp m/f s a --Steps=7", "none"),
    ("interp m/f s a -s", "none"),
    (
        "interp -- --steps s -a --help",
        "interp --steps s 1000000: -a --help",
    ),
    ("interp m/f s --steps=7 -- a --", "interp m/f s 7: a --"),
    ("interp - m - -- --", "interp - m 1000000: - --"),
    ("run a.img m/f s --steps=9", "run a.img m/f s 9"),
    ("run a.img m/f s", "run a.img m/f s 1000000"),
    ("spec a.img m/f t s --steps=9", "none"),
    ("harden a b m.wasm --steps 7", "none"),
];

/// The words of a line behind the program's name, and what they ask for.
static COMMANDS: [(&str, &str); 27] = [
    ("harden i c m.wasm", "harden i c: m.wasm"),
    ("harden i c x/m.wasm n x/m", "none"),
    (
        "harden i c x/m.wasm.wasm n x/m",
        "harden i c: x/m.wasm.wasm n x/m",
    ),
    ("harden i i m", "none"),
    ("harden i c", "none"),
    ("harden - -- -c -", "harden - -c: -"),
    ("lower i m", "lower i: m"),
    ("lower m m", "lower m: m"),
    ("lower i a b c d e f g h k", "lower i: a b c d e f g h k"),
    ("lower i a/m b/m.wasm", "none"),
    ("lower i", "none"),
    ("interp m/f s", "none"),
    ("interp m/f s m m", "none"),
    ("run i e", "none"),
    ("run i e s m", "none"),
    ("spec i e t s", "spec i e t s"),
    ("spec i e t", "none"),
    ("spec i e t s s", "none"),
    ("Interp m/f s a", "none"),
    ("inter m/f s a", "none"),
    ("-- lower i m", "none"),
    ("--steps=7 interp m/f s a", "none"),
    ("help", "none"),
    ("help lower", "none"),
    ("--help", "none"),
    ("lower --help i m", "none"),
    ("-V", "none"),
];

/// The words of a line behind the program's name, and what they ask for.
static CHECKS: [(&str, &str); 30] = [
    ("verify i c", "verify i c"),
    ("verify i ./i", "verify i ./i"),
    ("verify a a", "none"),
    ("verify i", "none"),
    ("verify i c m", "none"),
    ("verify - c", "verify - c"),
    ("verify - -", "none"),
    ("verify i -- -c", "verify i -c"),
    ("verify -- -- --", "none"),
    ("verify -- -- --steps", "verify -- --steps"),
    ("verify i -c", "none"),
    ("verify i c --steps=7", "none"),
    ("verify --steps 7 i c", "none"),
    ("verify --steps 7", "none"),
    ("verify --help i c", "none"),
    ("verif i c", "none"),
    ("twin i e t s s2", "twin i e t s s2"),
    ("twin i e t s s", "twin i e t s s"),
    ("twin i e t s", "none"),
    ("twin i e t s s2 s3", "none"),
    ("twin i e t - -", "twin i e t - -"),
    ("twin i e -- t -s --", "twin i e t -s --"),
    ("twin i e t s -x", "none"),
    ("twin i e t s s2 --steps=7", "none"),
    ("twin i e t s --steps 7 s2", "none"),
    ("twin i e t s s2 --steps=7 --steps 8", "none"),
    ("twin i e t s s2 --steps", "none"),
    ("Twin i e t s s2", "none"),
    ("forward i e t s s2", "forward i e t s s2"),
    ("forward i e t s", "none"),
];

/// The words of a line behind the program's name, and what they ask for.
static NUMBERS: [(&str, &str); 30] = [
    ("gen 0 1", "gen 0 1"),
    ("gen 5 10000", "gen 5 10000"),
    ("gen 0 10001", "none"),
    ("gen 0 0", "none"),
    ("gen 0 00000", "none"),
    ("gen 0 00001", "gen 0 1"),
    ("gen 0 000001", "none"),
    ("gen 0 99999", "none"),
    ("gen 18446744073709551615 1", "gen 18446744073709551615 1"),
    ("gen 18446744073709551616 1", "none"),
    ("gen 99999999999999999999 1", "none"),
    ("gen 00000000000000000000 1", "gen 0 1"),
    ("gen 00000000000000000001 010", "gen 1 10"),
    ("gen 000000000000000000001 1", "none"),
    ("gen +1 1", "none"),
    ("gen 1 +1", "none"),
    ("gen -1 1", "none"),
    ("gen 1 -1", "none"),
    ("gen -- -1 1", "none"),
    ("gen 1 -- 2", "gen 1 2"),
    ("gen - 1", "none"),
    ("gen 0x1 1", "none"),
    ("gen 1 1.0", "none"),
    ("gen  1", "none"),
    ("gen 1", "none"),
    ("gen 1 2 3", "none"),
    ("gen 1 2 --steps=7", "none"),
    ("gen --steps 1 2", "none"),
    ("gen --help", "none"),
    ("help gen", "none"),
];

/// The words of a line behind the program's name, and what they ask for.
static OF_PREDICTIONS: [(&str, &str); 9] = [
    ("predict i e t s", "predict i e t s 1000000"),
    ("predict i e t i", "predict i e t i 1000000"),
    ("predict --steps=7 i e t s", "predict i e t s 7"),
    ("predict i e t s --steps 1000000", "predict i e t s 1000000"),
    ("predict i e t s --steps 1000001", "none"),
    ("predict i e i s", "none"),
    ("predict i e s s", "none"),
    ("predict i e t", "none"),
    ("predict i e t s --counts c", "none"),
];

/// The words of a line behind the program's name, and what they ask for.
static OF_SIDES: [(&str, &str); 13] = [
    ("part client i f a.wasm", "part client i f: a.wasm"),
    ("part library i f a b", "part library i f: a b"),
    ("part Client i f a", "none"),
    ("part - i f a", "none"),
    ("part client i i a", "none"),
    ("part client i f", "none"),
    ("part client i f a --steps 7", "none"),
    ("join i f c l", "join i f c l"),
    ("join i f c c", "join i f c c"),
    ("join i i c l", "none"),
    ("join i f i l", "none"),
    ("join i f c i", "none"),
    ("join i f c", "none"),
];

/// The words of a line behind the program's name, and what they ask for.
static OF_RUNS: [(&str, &str); 14] = [
    ("run i e s --steps=7", "run i e s 7"),
    ("run --steps 7 i e s", "run i e s 7"),
    ("run i e s --steps 4294967295", "run i e s 4294967295"),
    ("run i e s --steps 4294967296", "none"),
    ("run i e s --steps 0", "none"),
    ("run i e s --steps=7 --steps=7", "none"),
    ("run i e s --steps -", "none"),
    ("run i e s --steps --", "none"),
    ("run i -- e --steps", "run i e --steps 1000000"),
    ("run i e -", "run i e - 1000000"),
    ("run i e s --help", "none"),
    ("-", "none"),
    ("--", "none"),
    ("--steps=7", "none"),
];

/// The words with a space before each.
fn joined(alloc: Global, words: &[&str]) -> Result<String, NoMemory> {
    let mut text = String::new(alloc);
    for word in words {
        text.push(' ')?;
        text.push_str(*word)?;
    }
    Ok(text)
}

fn harden_line(alloc: Global, words: &HardenWords<'_>) -> Result<String, NoMemory> {
    let modules = joined(alloc, words.modules.as_slice())?;
    let (image, certificate) = (words.image, words.certificate);
    Ok(format!(in alloc; "harden {image} {certificate}:{modules}")?)
}

fn lower_line(alloc: Global, words: &LowerWords<'_>) -> Result<String, NoMemory> {
    let modules = joined(alloc, words.modules.as_slice())?;
    let image = words.image;
    Ok(format!(in alloc; "lower {image}:{modules}")?)
}

fn interp_line(alloc: Global, words: &InterpWords<'_>) -> Result<String, NoMemory> {
    let modules = joined(alloc, words.modules.as_slice())?;
    let (export, start, steps) = (words.export, words.start, words.steps);
    Ok(format!(in alloc; "interp {export} {start} {steps}:{modules}")?)
}

fn run_line(alloc: Global, words: &RunWords<'_>) -> Result<String, NoMemory> {
    let (image, export, start, steps) = (words.image, words.export, words.start, words.steps);
    Ok(format!(in alloc; "run {image} {export} {start} {steps}")?)
}

fn spec_line(alloc: Global, words: &SpecWords<'_>) -> Result<String, NoMemory> {
    let (image, export, trace, start) = (words.image, words.export, words.trace, words.start);
    Ok(format!(in alloc; "spec {image} {export} {trace} {start}")?)
}

fn twin_line(alloc: Global, name: &str, words: &TwinWords<'_>) -> Result<String, NoMemory> {
    let (image, export, trace) = (words.image, words.export, words.trace);
    let (start, other) = (words.start, words.other_start);
    Ok(format!(in alloc; "{name} {image} {export} {trace} {start} {other}")?)
}

fn predict_line(alloc: Global, words: &PredictWords<'_>) -> Result<String, NoMemory> {
    let (image, export, trace) = (words.image, words.export, words.trace);
    let (start, steps) = (words.start, words.steps);
    Ok(format!(in alloc; "predict {image} {export} {trace} {start} {steps}")?)
}

fn part_line(alloc: Global, words: &PartWords<'_>) -> Result<String, NoMemory> {
    let modules = joined(alloc, words.modules.as_slice())?;
    let role = match words.role {
        Role::Client => "client",
        Role::Library => "library",
    };
    let (image, iface) = (words.image, words.iface);
    Ok(format!(in alloc; "part {role} {image} {iface}:{modules}")?)
}

fn join_line(alloc: Global, words: &JoinWords<'_>) -> Result<String, NoMemory> {
    let (image, iface) = (words.image, words.iface);
    let (client, library) = (words.client, words.library);
    Ok(format!(in alloc; "join {image} {iface} {client} {library}")?)
}

/// What is asked for, as a line.
fn line_of(alloc: Global, request: &Request<'_>) -> Result<String, NoMemory> {
    match request {
        Request::Harden(words) => harden_line(alloc, words),
        Request::Lower(words) => lower_line(alloc, words),
        Request::Interp(words) => interp_line(alloc, words),
        Request::Run(words) => run_line(alloc, words),
        Request::Spec(words) => spec_line(alloc, words),
        Request::Verify(words) => Ok(format!(in alloc;
            "verify {} {}",
            words.image, words.certificate
        )?),
        Request::Twin(words) => twin_line(alloc, "twin", words),
        Request::Forward(words) => twin_line(alloc, "forward", words),
        Request::Predict(words) => predict_line(alloc, words),
        Request::Part(words) => part_line(alloc, words),
        Request::Join(words) => join_line(alloc, words),
        Request::Gen(words) => Ok(format!(in alloc; "gen {} {}", words.seed, words.size)?),
    }
}

/// Whether a request is that line.
fn is_line(alloc: Global, request: &Request<'_>, expected: &str) -> Result<bool, NoMemory> {
    let line = line_of(alloc, request)?;
    Ok(line.as_str() == expected)
}

/// Whether the words ask for that, as a line.
fn ask(alloc: Global, words: &[String], expected: &str) -> Result<bool, NoMemory> {
    match &read_words(alloc, words)? {
        None => Ok(expected == "none"),
        Some(request) => is_line(alloc, request, expected),
    }
}

/// The program's name and the words of a line.
fn words_of(alloc: Global, line: &str) -> Result<Vec<String>, NoMemory> {
    let mut words = Vec::new(alloc);
    words.push(String::from_str(alloc, "blade")?)?;
    for word in line.split(' ') {
        words.push(String::from_str(alloc, word)?)?;
    }
    Ok(words)
}

/// Whether the program's name and the words of a line behind it ask for that, as a line.
fn asks(alloc: Global, line: &str, expected: &str) -> Result<bool, NoMemory> {
    let words = words_of(alloc, line)?;
    ask(alloc, words.as_slice(), expected)
}

/// How many lines ask for what is said before the first that doesn't.
fn told(alloc: Global, lines: &[(&str, &str)]) -> Result<u32, NoMemory> {
    let mut passed = 0u32;
    for (line, expected) in lines {
        if !asks(alloc, *line, *expected)? {
            break;
        }
        passed = passed.wrapping_add(1);
    }
    Ok(passed)
}

#[test]
fn steps_stand_at_most_once_among_the_arguments_of_a_run(rt: HostRuntime) -> Result<(), Fail> {
    assert_eq!(rt; told(rt.alloc(), &OPTIONS)?, 28);
    Ok(())
}

#[test]
fn each_command_has_its_arguments(rt: HostRuntime) -> Result<(), Fail> {
    assert_eq!(rt; told(rt.alloc(), &COMMANDS)?, 27);
    Ok(())
}

#[test]
fn the_commands_that_check_have_their_arguments(rt: HostRuntime) -> Result<(), Fail> {
    assert_eq!(rt; told(rt.alloc(), &CHECKS)?, 30);
    Ok(())
}

#[test]
fn a_seed_and_a_size_have_so_many_digits_and_are_in_range(rt: HostRuntime) -> Result<(), Fail> {
    assert_eq!(rt; told(rt.alloc(), &NUMBERS)?, 30);
    Ok(())
}

#[test]
fn a_run_takes_steps_as_interp_does(rt: HostRuntime) -> Result<(), Fail> {
    assert_eq!(rt; told(rt.alloc(), &OF_RUNS)?, 14);
    Ok(())
}

/// Whether the program's name alone asks for nothing.
fn name_asks_nothing(alloc: Global) -> Result<bool, NoMemory> {
    let words = vec![in alloc; String::from_str(alloc, "blade")?]?;
    ask(alloc, words.as_slice(), "none")
}

#[test]
fn no_words_are_no_request(rt: HostRuntime) -> Result<(), Fail> {
    assert!(rt; ask(rt.alloc(), &[], "none")?);
    assert!(rt; name_asks_nothing(rt.alloc())?);
    assert!(rt; asks(rt.alloc(), "", "none")?);
    Ok(())
}

#[test]
fn a_predict_has_its_steps_and_a_trace_of_its_own(rt: HostRuntime) -> Result<(), Fail> {
    assert_eq!(rt; told(rt.alloc(), &OF_PREDICTIONS)?, 9);
    Ok(())
}

#[test]
fn an_image_of_sides_is_no_file_that_is_read(rt: HostRuntime) -> Result<(), Fail> {
    assert_eq!(rt; told(rt.alloc(), &OF_SIDES)?, 13);
    Ok(())
}
