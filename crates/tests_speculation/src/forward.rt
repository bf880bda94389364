//! The machine that forwards stores. What it shows and what loads find are as `oracles/traces.py` prints them. Directives are letters, as there: `f` fetches,
//! `y` and `n` predict that the condition isn't 0 or that it is, `r` retires, and a digit executes that entry.
use bl_base::{List, NoMemory, Run, Start, Var};
use bl_forward::{ForwardVerdict, Fwd, Seen, compare_forwarding, forward_safe};
use bl_image::decode_image;
use bl_program::WellFormed;
use bl_rob::{Directive, Kind, Observation};
use bl_twin::{Compared, Comparison, compare_runs};
use std::alloc::Global;
use std::test::Fail;
use tests_starts::is_start;

/// The image of a function that stores its argument at place 8 and loads it: the store is at 12, the load at 16.
static STORED: [u8; 97] = [
    0x42, 0x4C, 0x49, 0x4D, 0x01, 0x00, 0x01, 0x01, 0x01, 0x00, 0x00, 0x01, 0x01, 0x7F, 0x00, 0x01,
    0x7F, 0x08, 0x0C, 0x01, 0x03, 0x6D, 0x2F, 0x66, 0x00, 0x04, 0x08, 0x00, 0x00, 0x00, 0x03, 0x01,
    0x08, 0x00, 0x00, 0x00, 0x04, 0x00, 0x01, 0x00, 0x00, 0x01, 0x05, 0x00, 0x03, 0x00, 0x00, 0x01,
    0x04, 0x03, 0x00, 0x05, 0x03, 0x0C, 0x02, 0x36, 0x00, 0x00, 0x00, 0x03, 0x00, 0x04, 0x00, 0x00,
    0x00, 0x06, 0x01, 0x08, 0x00, 0x00, 0x01, 0x07, 0x00, 0x06, 0x00, 0x00, 0x01, 0x04, 0x03, 0x00,
    0x07, 0x03, 0x10, 0x01, 0x00, 0x28, 0x00, 0x08, 0x00, 0x00, 0x06, 0x07, 0x00, 0x00, 0x00, 0x08,
    0x08,
];

/// The image of a function that stores 0x1FF and then 0x17F at place 8, and loads from there into variable 6: 7: v3 = outside 8;
/// 8: test v3; 9: store; 10: v4 = outside 8; 11: test v4; 12: store; 13: v5 = outside 8; 14: test v5; 15: load; 16: out; 17: return.
static STORES: [u8; 102] = [
    0x42, 0x4C, 0x49, 0x4D, 0x01, 0x00, 0x01, 0x01, 0x01, 0x00, 0x00, 0x01, 0x01, 0x7F, 0x00, 0x01,
    0x7F, 0x06, 0x0B, 0x01, 0x03, 0x6D, 0x2F, 0x66, 0x00, 0x00, 0x00, 0x01, 0x03, 0x01, 0x08, 0x00,
    0x00, 0x01, 0x04, 0x03, 0x00, 0x03, 0x03, 0x09, 0x02, 0x36, 0x00, 0x00, 0x01, 0x08, 0x01, 0xFF,
    0x03, 0x00, 0x00, 0x01, 0x04, 0x01, 0x08, 0x00, 0x00, 0x01, 0x04, 0x03, 0x00, 0x04, 0x03, 0x0C,
    0x02, 0x36, 0x00, 0x00, 0x01, 0x08, 0x01, 0xFF, 0x02, 0x00, 0x00, 0x01, 0x05, 0x01, 0x08, 0x00,
    0x00, 0x01, 0x04, 0x03, 0x00, 0x05, 0x03, 0x0F, 0x01, 0x00, 0x28, 0x00, 0x06, 0x00, 0x01, 0x08,
    0x07, 0x00, 0x00, 0x00, 0x06, 0x08,
];

/// The image of a function that stores 5 at place 8; where its argument isn't 0, it loads from there into variable 5 and returns that, else
/// it returns 9: 10 is the test of the argument, 13 the load, and 16 the other branch.
static GUESSED: [u8; 88] = [
    0x42, 0x4C, 0x49, 0x4D, 0x01, 0x00, 0x01, 0x01, 0x01, 0x00, 0x00, 0x01, 0x01, 0x7F, 0x00, 0x01,
    0x7F, 0x05, 0x0B, 0x01, 0x03, 0x6D, 0x2F, 0x66, 0x00, 0x00, 0x00, 0x01, 0x03, 0x01, 0x08, 0x00,
    0x00, 0x01, 0x04, 0x03, 0x00, 0x03, 0x03, 0x09, 0x02, 0x36, 0x00, 0x00, 0x01, 0x08, 0x01, 0x05,
    0x03, 0x00, 0x01, 0x0B, 0x10, 0x00, 0x00, 0x01, 0x04, 0x01, 0x08, 0x00, 0x00, 0x01, 0x04, 0x03,
    0x00, 0x04, 0x03, 0x0D, 0x01, 0x00, 0x28, 0x00, 0x05, 0x00, 0x01, 0x08, 0x07, 0x00, 0x00, 0x00,
    0x05, 0x08, 0x07, 0x00, 0x00, 0x01, 0x09, 0x08,
];

/// Of the image of two stores and a load: where the first store begins.
fn first_at(place: u8) -> [(usize, u8); 2] {
    [(30, place), (45, place)]
}

/// Where the second one begins.
fn second_at(place: u8) -> [(usize, u8); 2] {
    [(54, place), (69, place)]
}

/// The kind and the width of both stores.
fn stored_by(kind: u8, width: u8) -> [(usize, u8); 4] {
    [(34, width), (41, kind), (58, width), (65, kind)]
}

/// The kind and the width of the second store.
fn second_by(kind: u8, width: u8) -> [(usize, u8); 2] {
    [(58, width), (65, kind)]
}

/// The kind and the width of the load.
fn loaded_by(kind: u8, width: u8) -> [(usize, u8); 2] {
    [(82, width), (90, kind)]
}

/// The load is protected.
static PROTECTED: [(usize, u8); 1] = [(89, 8)];

/// An image with other bytes at some places.
fn patched(alloc: Global, image: &[u8], patches: &[&[(usize, u8)]]) -> Result<Vec<u8>, NoMemory> {
    let mut bytes = image.to_vec(alloc)?;
    for patch in patches {
        for (place, byte) in *patch {
            if *place < bytes.len() {
                bytes[*place] = *byte;
            }
        }
    }
    Ok(bytes)
}

/// The program of such an image; where there is none, that is answered like want of memory.
fn program_of(
    alloc: Global,
    image: &[u8],
    patches: &[&[(usize, u8)]],
) -> Result<WellFormed, NoMemory> {
    let bytes = patched(alloc, image, patches)?;
    match decode_image(alloc, &bytes) {
        Ok(program) => Ok(program),
        Err(_) => Err(NoMemory),
    }
}

/// A directive by its letter.
fn directive_of(letter: u8) -> Directive {
    match letter {
        b'f' => Directive::Fetch,
        b'y' => Directive::Predict(true),
        b'n' => Directive::Predict(false),
        b'r' => Directive::Retire,
        _ => Directive::Exec(u32::from(letter % 16)),
    }
}

/// Directives by their letters.
fn directives_of(alloc: Global, letters: &[u8]) -> Result<Vec<Directive>, NoMemory> {
    let mut directives = Vec::new(alloc);
    for letter in letters {
        directives.push(directive_of(*letter))?;
    }
    Ok(directives)
}

/// A start of one argument.
fn start_of(alloc: Global, argument: u64) -> Result<Start, NoMemory> {
    let mut args = List::new(alloc);
    args.push(argument)?;
    Ok(Start {
        args,
        patches: List::new(alloc),
    })
}

/// What the last of these directives shows; None where one of them isn't enabled.
fn last_seen(alloc: Global, fwd: &mut Fwd<'_, 32>, letters: &[u8]) -> Option<Seen> {
    let mut last = None;
    for letter in letters {
        match fwd.step(alloc, directive_of(*letter)) {
            Ok(seen) => last = Some(seen),
            Err(_) => return None,
        }
    }
    last
}

/// The machine of a program's first function from an argument; one that doesn't fit is answered like want of memory.
fn begun<'p>(
    alloc: Global,
    program: &'p WellFormed,
    argument: u64,
) -> Result<Fwd<'p, 32>, NoMemory> {
    let start = start_of(alloc, argument)?;
    if !is_start(alloc, program, 0, &start)? {
        return Err(NoMemory);
    }
    Fwd::begin(alloc, program, 0, &start)
}

// ---- one load behind two stores

/// All that is fetched of two stores and a load; the load is entry 8, behind the stores 2 and 5 and the guards 1, 4 and 7.
static FETCHED: [u8; 9] = *b"fnffnffnf";

/// A load of place 8 that took the value of a store, behind the guards 1, 4 and 7.
static FORWARDED: Seen = Seen::Forward {
    address: 8,
    guards: 0b1001_0010,
};

/// One that read memory.
static READ: Seen = Seen::Plain(Observation::Read {
    address: 8,
    guards: 0b1001_0010,
});

/// What the load is asked for.
#[derive(Clone, Copy)]
enum Asked<'a> {
    /// Those directives behind the fetches end with that, and the load's value is then that one once all is retired.
    Loads(&'a [u8], Seen, u64),
    /// Those directives behind the fetches are enabled, and the load isn't behind them.
    Waits(&'a [u8]),
}

/// Whether the machine does what is asked.
fn does(alloc: Global, fwd: &mut Fwd<'_, 32>, asked: Asked<'_>) -> bool {
    let fetched = last_seen(alloc, fwd, &FETCHED).is_some();
    match asked {
        Asked::Loads(letters, wanted, value) => {
            fetched
                && last_seen(alloc, fwd, letters) == Some(wanted)
                && last_seen(alloc, fwd, b"013467rrrrrrrrr").is_some()
                && fwd.register(1, Var(6)) == value
        }
        Asked::Waits(letters) => {
            fetched
                && last_seen(alloc, fwd, letters).is_some()
                && !fwd.enabled(Directive::Exec(8))
                && last_seen(alloc, fwd, b"8").is_none()
        }
    }
}

/// Whether the machine of a program does it from the argument 0.
fn does_from_start(
    alloc: Global,
    program: &WellFormed,
    asked: Asked<'_>,
) -> Result<bool, NoMemory> {
    let mut fwd = begun(alloc, program, 0)?;
    Ok(does(alloc, &mut fwd, asked))
}

/// Whether that of two stores and a load with these patches does.
fn does_with(
    alloc: Global,
    patches: &[&[(usize, u8)]],
    asked: Asked<'_>,
) -> Result<bool, NoMemory> {
    let program = program_of(alloc, &STORES, patches)?;
    does_from_start(alloc, &program, asked)
}

/// Whether a load so patched ends so and has that value.
fn is_loaded(
    alloc: Global,
    patches: &[&[(usize, u8)]],
    letters: &[u8],
    wanted: Seen,
    value: u64,
) -> Result<bool, NoMemory> {
    does_with(alloc, patches, Asked::Loads(letters, wanted, value))
}

/// Whether a load so patched waits.
fn is_refused(alloc: Global, patches: &[&[(usize, u8)]], letters: &[u8]) -> Result<bool, NoMemory> {
    does_with(alloc, patches, Asked::Waits(letters))
}

/// Whether the last store that meets the load's range decides.
fn does_the_last_decide(alloc: Global) -> Result<bool, NoMemory> {
    Ok(
        is_loaded(alloc, &[], b"258", FORWARDED, 0x17F)?
            && is_loaded(alloc, &[], b"528", FORWARDED, 0x17F)?
            && is_loaded(alloc, &[&second_at(12)], b"258", FORWARDED, 0x1FF)?
            && is_loaded(alloc, &[&first_at(10)], b"258", FORWARDED, 0x17F)?,
    )
}

#[test]
fn the_last_store_that_meets_the_range_decides(rt: HostRuntime) -> Result<(), Fail> {
    assert!(rt; does_the_last_decide(rt.alloc())?);
    Ok(())
}

#[test]
fn a_load_that_no_store_meets_reads_memory(rt: HostRuntime) -> Result<(), Fail> {
    assert!(rt; is_loaded(rt.alloc(), &[&first_at(4), &second_at(12)], b"258", READ, 0)?);
    Ok(())
}

/// Whether a load waits behind a store of another range that meets its own.
fn does_it_wait_for_other_ranges(alloc: Global) -> Result<bool, NoMemory> {
    Ok(
        is_refused(alloc, &[&second_at(10)], b"25")?
            && is_refused(alloc, &[&second_at(5)], b"25")?
            && is_refused(alloc, &[&second_by(0x3A, 1)], b"25")?
            && is_refused(alloc, &[&second_by(0x37, 8)], b"25")?
            && is_refused(alloc, &[&second_by(0x3A, 1), &second_at(11)], b"25")?,
    )
}

#[test]
fn a_load_waits_behind_a_store_that_meets_it_in_part(rt: HostRuntime) -> Result<(), Fail> {
    assert!(rt; does_it_wait_for_other_ranges(rt.alloc())?);
    Ok(())
}

#[test]
fn a_load_waits_behind_a_pending_store(rt: HostRuntime) -> Result<(), Fail> {
    assert!(rt; is_refused(rt.alloc(), &[], b"2")?);
    assert!(rt; is_refused(rt.alloc(), &[], b"5")?);
    assert!(rt; is_refused(rt.alloc(), &[&second_at(12)], b"2")?);
    Ok(())
}

/// The loads of 8 bits with what they make of 0xFF.
static BYTES: [(u8, u64); 4] = [
    (0x2C, 0xFFFF_FFFF),
    (0x2D, 0xFF),
    (0x30, 0xFFFF_FFFF_FFFF_FFFF),
    (0x31, 0xFF),
];

/// Whether a load of 8 bits behind stores of that kind makes that of 0x1FF, and 0x7F of 0x17F.
fn is_extended(alloc: Global, store: u8, load: u8, value: u64) -> Result<bool, NoMemory> {
    let stores = stored_by(store, 1);
    let load = loaded_by(load, 1);
    let elsewhere = second_at(12);
    Ok(
        is_loaded(
            alloc,
            &[&stores, &load, &elsewhere],
            b"258",
            FORWARDED,
            value,
        )? && is_loaded(alloc, &[&stores, &load], b"258", FORWARDED, 0x7F)?,
    )
}

/// How many of the loads of 8 bits extend what stores of that kind narrow.
fn extended(alloc: Global, store: u8) -> Result<usize, NoMemory> {
    for (i, (load, value)) in BYTES.iter().enumerate() {
        if !is_extended(alloc, store, *load, *value)? {
            return Ok(i);
        }
    }
    Ok(BYTES.len())
}

#[test]
fn a_forwarded_value_is_narrowed_and_extended(rt: HostRuntime) -> Result<(), Fail> {
    assert!(rt; extended(rt.alloc(), 0x3A)? == 4);
    assert!(rt; extended(rt.alloc(), 0x3C)? == 4);
    Ok(())
}

/// Whether a protected load of a program is held with a forwarded value until the guards before it are gone.
fn is_held_in(alloc: Global, program: &WellFormed) -> Result<bool, NoMemory> {
    let mut fwd = begun(alloc, program, 0)?;
    Ok(
        last_seen(alloc, &mut fwd, &FETCHED).is_some()
            && last_seen(alloc, &mut fwd, b"f258") == Some(FORWARDED)
            && is_released(alloc, &mut fwd),
    )
}

/// Whether that of two stores and a load is.
fn is_held(alloc: Global) -> Result<bool, NoMemory> {
    let program = program_of(alloc, &STORES, &[&PROTECTED])?;
    is_held_in(alloc, &program)
}

/// Whether entry 8 is held, and what reads it waits until it is released.
fn is_released(alloc: Global, fwd: &mut Fwd<'_, 32>) -> bool {
    let held = matches!(fwd.entry(8), Some((_, Kind::Held)));
    let waits = !fwd.enabled(Directive::Exec(8)) && !fwd.enabled(Directive::Exec(9));
    let nothing = Some(Seen::Plain(Observation::Nothing));
    held && waits
        && last_seen(alloc, fwd, b"0134678") == nothing
        && matches!(fwd.entry(8), Some((_, Kind::Done)))
        && last_seen(alloc, fwd, b"9rrrrrrrrr") == nothing
        && fwd.register(1, Var(6)) == 0x17F
}

#[test]
fn a_protected_load_is_held_with_a_forwarded_value(rt: HostRuntime) -> Result<(), Fail> {
    assert!(rt; is_held(rt.alloc())?);
    Ok(())
}

// ---- a forwarded value under a wrong guess

/// What the load behind the wrong guess shows.
static GUESS: Seen = Seen::Forward {
    address: 8,
    guards: 0b10_1010,
};

/// Whether the load behind a wrong guess takes the value that is stored, and the guess is then judged.
fn is_judged(alloc: Global, fwd: &mut Fwd<'_, 32>) -> bool {
    last_seen(alloc, fwd, b"fnfyfnf26") == Some(GUESS)
        && last_seen(alloc, fwd, b"3") == Some(Seen::Plain(Observation::Rollback(3)))
}

/// Whether it is so in a program, and nothing is left of it.
fn is_rolled_back_in(alloc: Global, program: &WellFormed) -> Result<bool, NoMemory> {
    let mut fwd = begun(alloc, program, 0)?;
    let gone = is_judged(alloc, &mut fwd) && has_gone_back(alloc, &mut fwd);
    let returned = returns(alloc, &fwd, 9)?;
    Ok(gone && returned)
}

/// Whether it is so in that of the wrong guess.
fn is_rolled_back(alloc: Global) -> Result<bool, NoMemory> {
    let program = program_of(alloc, &GUESSED, &[])?;
    is_rolled_back_in(alloc, &program)
}

/// Whether the machine goes on from 16 with four entries, and variable 5 is 0 at its end.
fn has_gone_back(alloc: Global, fwd: &mut Fwd<'_, 32>) -> bool {
    let front = matches!(fwd.front(), Some(position) if position.0 == 16);
    front
        && fwd.entry(4).is_none()
        && last_seen(alloc, fwd, b"ff014rrrrrr").is_some()
        && fwd.register(1, Var(5)) == 0
        && fwd.byte(8) == 5
        && fwd.retired() == 6
}

/// Whether the machine has returned that alone.
fn returns(alloc: Global, fwd: &Fwd<'_, 32>, value: u64) -> Result<bool, NoMemory> {
    let outcome = fwd.outcome(alloc)?;
    Ok(has_returned(&outcome, value))
}

/// Whether a run has returned that alone.
fn has_returned(outcome: &Option<Run>, value: u64) -> bool {
    match outcome {
        Some(Run::Returned { values, .. }) => matches!(values.as_slice(), [only] if *only == value),
        _ => false,
    }
}

#[test]
fn a_wrong_guess_takes_a_forwarded_value_with_it(rt: HostRuntime) -> Result<(), Fail> {
    assert!(rt; is_rolled_back(rt.alloc())?);
    Ok(())
}

// ---- a value that is stored and loaded

/// All that is fetched of a store and a load, and what is executed of it, the load last.
static TRACE: [u8; 15] = *b"ffffnfffnf12569";

/// What is observed of it before the load.
static FRONT: &[u8] =
    b"public differ\nnone\nnone\nnone\nnone\nnone\nnone\nnone\nnone\nnone\nnone\nnone\nnone\nwrite 8 guards 4\nnone\n";

/// How the runs of a program from two starts compare on the trace, where stores are forwarded or aren't; starts that don't fit are answered like
/// want of memory.
fn compared_from(
    alloc: Global,
    program: &WellFormed,
    starts: (&Start, &Start),
    forwards: bool,
) -> Result<Compared, NoMemory> {
    let (one, other) = starts;
    if !is_start(alloc, program, 0, one)? || !is_start(alloc, program, 0, other)? {
        return Err(NoMemory);
    }
    let directives = directives_of(alloc, &TRACE)?;
    if forwards {
        return compare_forwarding(alloc, program, 0, one, other, &directives);
    }
    compare_runs(alloc, program, 0, one, other, &directives)
}

/// How those from 5 and 7 do.
fn compared_of(alloc: Global, program: &WellFormed, forwards: bool) -> Result<Compared, NoMemory> {
    let one = start_of(alloc, 5)?;
    let other = start_of(alloc, 7)?;
    compared_from(alloc, program, (&one, &other), forwards)
}

/// Whether a text is what is observed before the load and that behind it.
fn ends_with(text: &[u8], end: &[u8]) -> bool {
    match text.strip_prefix(FRONT) {
        Some(rest) => rest == end,
        None => false,
    }
}

/// Whether a comparison is that one, and its text ends so.
fn is_compared(compared: &Compared, wanted: Comparison, end: &[u8]) -> bool {
    compared.comparison == wanted && ends_with(compared.text.as_slice(), end)
}

/// Whether the runs of a store and a load from 5 and 7 compare so.
fn compares(
    alloc: Global,
    patches: &[&[(usize, u8)]],
    forwards: bool,
    wanted: Comparison,
    end: &[u8],
) -> Result<bool, NoMemory> {
    let program = program_of(alloc, &STORED, patches)?;
    let compared = compared_of(alloc, &program, forwards)?;
    Ok(is_compared(&compared, wanted, end))
}

#[test]
fn two_runs_forward_alike(rt: HostRuntime) -> Result<(), Fail> {
    let end = b"forward 8 guards 4 8\nequal 15\n";
    assert!(rt; compares(rt.alloc(), &[], true, Comparison::Equal, end)?);
    assert!(rt; compares(rt.alloc(), &[], false, Comparison::Stuck, b"stuck 15\n")?);
    Ok(())
}

/// The store is one of 8 bits.
static NARROW: [(usize, u8); 2] = [(48, 1), (55, 0x3A)];

#[test]
fn two_runs_are_stuck_at_a_load_that_is_wider(rt: HostRuntime) -> Result<(), Fail> {
    assert!(rt;
        compares(
            rt.alloc(),
            &[&NARROW],
            true,
            Comparison::Stuck,
            b"stuck 15\n"
        )?
    );
    Ok(())
}

/// Whether the verdict on a program is that it is safe.
fn is_safe(alloc: Global, program: &WellFormed) -> Result<bool, NoMemory> {
    let verdict = forward_safe(alloc, program)?;
    Ok(matches!(&verdict, ForwardVerdict::Safe))
}

/// Whether that on the store and the load is.
fn is_stored_safe(alloc: Global) -> Result<bool, NoMemory> {
    let program = program_of(alloc, &STORED, &[])?;
    is_safe(alloc, &program)
}

#[test]
fn a_load_that_no_sink_reads_is_safe(rt: HostRuntime) -> Result<(), Fail> {
    assert!(rt; is_stored_safe(rt.alloc())?);
    Ok(())
}

/// A machine of a program from the argument 5, with room for one entry; where that doesn't fit, it is answered like want of memory.
fn begun_with_one<'p>(alloc: Global, program: &'p WellFormed) -> Result<Fwd<'p, 1>, NoMemory> {
    let start = start_of(alloc, 5)?;
    if !is_start(alloc, program, 0, &start)? {
        return Err(NoMemory);
    }
    Fwd::begin(alloc, program, 0, &start)
}

/// Whether it has no room for a second entry.
fn is_full_with_one(alloc: Global, fwd: &mut Fwd<'_, 1>) -> bool {
    let fetched = fwd.step(alloc, Directive::Fetch).is_ok();
    fetched && !fwd.enabled(Directive::Fetch) && fwd.step(alloc, Directive::Fetch).is_err()
}

/// Whether each command in turn then leads to a load by memory.
fn reads_in_turn(alloc: Global, fwd: &mut Fwd<'_, 1>) -> Result<bool, NoMemory> {
    let directives = directives_of(alloc, b"rf0rf0rf0rn0rf0rf0rf0rn0rf0rf0rfr")?;
    let seen = fwd.observe(alloc, &directives)?;
    Ok(matches!(seen.made.as_slice().get(26), Some(seen) if *seen == FROM_MEMORY))
}

/// Whether it has returned 5.
fn has_returned_five(alloc: Global, fwd: &Fwd<'_, 1>) -> Result<bool, NoMemory> {
    let outcome = fwd.outcome(alloc)?;
    Ok(has_returned(&outcome, 5))
}

/// Whether a program runs so, one command in turn.
fn runs_in_turn(alloc: Global, program: &WellFormed) -> Result<bool, NoMemory> {
    let mut fwd = begun_with_one(alloc, program)?;
    let full = is_full_with_one(alloc, &mut fwd);
    let read = reads_in_turn(alloc, &mut fwd)?;
    let returned = has_returned_five(alloc, &fwd)?;
    Ok(full && read && returned)
}

/// Whether the store and the load do.
fn is_in_turn(alloc: Global) -> Result<bool, NoMemory> {
    let program = program_of(alloc, &STORED, &[])?;
    runs_in_turn(alloc, &program)
}

/// A load of place 8 that read memory behind no guard.
static FROM_MEMORY: Seen = Seen::Plain(Observation::Read {
    address: 8,
    guards: 0,
});

#[test]
fn a_buffer_of_one_entry_never_forwards(rt: HostRuntime) -> Result<(), Fail> {
    assert!(rt; is_in_turn(rt.alloc())?);
    Ok(())
}
