//! The files of the system as a shelf. It doesn't expose its contents.
ghost use Rattle.std.specs.Prelude.{◌≡◌, ◌+◌, ◌≤◌, [], None, Option, IfOk, OnOk, OnErr, length, ◌↔◌, Ok, Err, Some, IfSome};
ghost use Rattle.std.specs.{Option.option_map, IoError.error_kind};
ghost use Rattle.bl_outside.specs.{Opened.fitting, Opened.is_fitting, declared.shelf.ShelfError.TheVariants.Memory};
ghost use Rattle.bl_outside.specs.Reading.{IsBehind, IsOpenedAt, IsRead};
ghost use Rattle.bl_outside.specs.Shelf.{Files as KnownFiles, FetchFaults, KeepFaults, Gives, GivesPart, faults_after_fetch, faults_after_keep, most_asked};

use crate::reading::{read_on, skip};
use crate::shelf::{Shelf, ShelfError};
use crate::whole_file::write_file;
use bl_base::Text;
use std::alloc::Global;
use std::fs::File;
use std::io;
use std::io::{Error, ErrorKind};
use std::marker::Model;
use std::random::RandomSource;
use std::rt::Files;

/// Reads and writes the files of a runtime. Each call that answers Failed is counted, and its name
/// noted; the name is copied before the system is called, so that a fault takes no memory. Contracts
/// see the faults.
///
/// The file of the last `part` stays open, and the next one reads on where its name and its place fit. A refusal and a `keep` close it.
/// Of a file that is open as many bytes were passed as its place says.
#[derive(Drop)]
pub struct FileShelf<'r, R: Files> {
    alloc: Global,
    rt: &'r R,
    opened: Option<Opened<R::File>>,
    reads: u64,
    writes: u64,
    last: Text,
}

/// A file that is open, its name, and how many of its bytes were read.
#[derive(Drop)]
struct Opened<F> {
    name: Text,
    file: F,
    place: u64,
}

impl<'r, R: Files> Model for FileShelf<'r, R> {
    ghost use Rattle.std.specs.Prelude.{IfSome};
    ghost use Rattle.bl_outside.specs.Reading.{IsBehind};
    ghost use Rattle.bl_outside.specs.Shelf.{Faults};

    ghost Value = { Faults };

    ghost view = { λ s. record { reads = s.reads; writes = s.writes; last = s.last } };

    ghost invariant = { λ s. IfSome s.opened (λ opened. IsBehind R.File.remaining opened.place opened.file) };
}

impl<'r, R: Files> FileShelf<'r, R> {
    /// A shelf over the runtime's files, without faults; takes no memory.
    pub fn new(alloc: Global, rt: &'r R) -> FileShelf<'r, R>
        ensures { result ≡ record { reads = 0; writes = 0; last = [] } }
    {
        FileShelf {
            alloc,
            rt,
            opened: None,
            reads: 0,
            writes: 0,
            last: Text::of(Vec::new(alloc)),
        }
    }

    /// What a system's error at that name means; counts a read fault but for want of memory.
    fn read_fault(&mut self, name: Text, error: Error) -> ShelfError
        ensures faults { FetchFaults {X = Unit {0}} (Err result) self.old self.new name }
        ensures exact { self.new ≡ faults_after_fetch {X = Unit {0}} (Err result) self.old name }
    {
        let cause = cause_of(error);
        if cause == ShelfError::Failed {
            self.reads = self.reads.saturating_add(1);
            self.last = name;
        }
        cause
    }

    /// What a system's error at that name means; counts a write fault but for want of memory.
    fn write_fault(&mut self, name: Text, error: Error) -> ShelfError
        ensures faults { KeepFaults (Err result) self.old self.new name }
        ensures exact { self.new ≡ faults_after_keep (Err result) self.old name }
    {
        let cause = cause_of(error);
        if cause == ShelfError::Failed {
            self.writes = self.writes.saturating_add(1);
            self.last = name;
        }
        cause
    }
}

/// Memory for want of memory in the system, else Failed.
fn cause_of(error: Error) -> ShelfError
    ensures { (result ≡ Memory) ↔ (error_kind error ≡ ErrorKind.OutOfMemory) }
{
    match error.kind() {
        ErrorKind::OutOfMemory => ShelfError::Memory,
        _ => ShelfError::Failed,
    }
}

/// The first bytes of a file, at most so many.
fn read_file<R: Files>(alloc: Global, rt: &R, name: &str, most: u64) -> io::Result<Vec<u8>>
    ensures bound { IfOk result (λ bytes. length bytes.items ≤ most) }
    ensures front { IfOk result (λ bytes. IsRead R.File.remaining 0 most bytes.items) }
{
    let mut opened = File::open(rt, name)?;
    read_on(alloc, &mut opened, most)
}

/// Whether an open file can be read on at that place of that name.
fn fits<F>(opened: &Opened<F>, name: &str, from: u64) -> bool
    ensures { result ≡ is_fitting opened.now name.now from }
{
    opened.place == from && opened.name.as_slice() == name.as_bytes()
}

/// The file that is open, where it can be read on at that place of that name.
fn fitting<F: Drop>(opened: Option<Opened<F>>, name: &str, from: u64) -> Option<F>
    ensures { result ≡ fitting opened name.now from }
{
    match opened {
        Some(opened) => {
            if fits(&opened, name, from) {
                Some(opened.file)
            } else {
                None
            }
        }
        None => None,
    }
}

/// The file of that name, opened anew, behind the bytes before a place. None where it ends before.
fn open_behind<R: Files>(rt: &R, name: &str, from: u64) -> io::Result<Option<R::File>>
    ensures { IfOk result (λ found. IsOpenedAt R.File.remaining from found) }
{
    let mut file = File::open(rt, name)?;
    if skip(&mut file, from)? {
        Ok(Some(file))
    } else {
        Ok(None)
    }
}

/// The file of that name at a place: the one that is open where name and place fit, else one that is opened anew. None where it ends
/// before.
fn open_at<R: Files>(
    rt: &R,
    opened: Option<Opened<R::File>>,
    name: &str,
    from: u64,
) -> io::Result<Option<R::File>>
    requires { IfSome opened (λ opened. IsBehind R.File.remaining opened.place opened.file) }
    ensures open { IfSome (fitting opened name.now from) (λ file. result ≡ Ok (Some file)) }
    ensures at_place { IfOk result (λ found. IsOpenedAt R.File.remaining from found) }
{
    match fitting(opened, name, from) {
        Some(file) => Ok(Some(file)),
        None => open_behind(rt, name, from),
    }
}

/// What a part read: its bytes, and the file where it can be read on.
#[derive(Drop)]
struct Piece<F> {
    bytes: Vec<u8>,
    file: Option<F>,
}

/// The bytes of a file from a place on, at most so many.
fn read_part<R: Files>(
    alloc: Global,
    rt: &R,
    opened: Option<Opened<R::File>>,
    name: &str,
    from: u64,
    most: u64,
) -> io::Result<Piece<R::File>>
    requires { IfSome opened (λ opened. IsBehind R.File.remaining opened.place opened.file) }
    ensures bound { IfOk result (λ piece. length piece.bytes.items ≤ most) }
    ensures read { IfOk result (λ piece. IsRead R.File.remaining from most piece.bytes.items) }
    ensures at_place { IfOk result (λ piece. IfSome piece.file (IsBehind R.File.remaining (from + length piece.bytes.items))) }
{
    let Some(mut file) = open_at(rt, opened, name, from)? else {
        return Ok(Piece {
            bytes: Vec::new(alloc),
            file: None,
        });
    };
    let bytes = read_on(alloc, &mut file, most)?;
    Ok(Piece {
        bytes,
        file: Some(file),
    })
}

/// A file that stays open, where it can be read on.
fn kept_open<F: Drop>(name: Text, file: Option<F>, place: u64) -> Option<Opened<F>>
    ensures { result ≡ option_map (λ f. record { name = name; file = f; place = place }) file }
{
    match file {
        Some(file) => Some(Opened { name, file, place }),
        None => None,
    }
}

impl<'r, R: Files + RandomSource> Shelf for FileShelf<'r, R> {
    ghost files = { λ _. None };

    ghost faults = { λ s. s };

    fn fetch(&mut self, name: &str, most: u64) -> Result<Vec<u8>, ShelfError>
        requires asked { most ≤ most_asked }
        ensures bound { IfOk result (λ bytes. length bytes.items ≤ most + 1) }
        ensures found { IfOk result (λ bytes. Gives None name.now most bytes.items) }
        ensures files { ◌≡◌ {A = Option KnownFiles} None None }
        ensures faults { FetchFaults result self.old self.new name.now }

        // Each read fault counts one.
        ensures exact { self.new ≡ faults_after_fetch result self.old name.now }

        // The bytes are the first ones of a file that was opened.
        ensures read { IfOk result (λ bytes. IsRead R.File.remaining 0 (most + 1) bytes.items) }
    {
        let noted = Text::copy_of(self.alloc, name.as_bytes())?;
        match read_file(self.alloc, self.rt, name, most + 1) {
            Ok(bytes) => Ok(bytes),
            Err(e) => Err(self.read_fault(noted, e)),
        }
    }

    fn part(&mut self, name: &str, from: u64, most: u64) -> Result<Vec<u8>, ShelfError>
        requires asked { from + most ≤ most_asked }
        ensures bound { IfOk result (λ bytes. length bytes.items ≤ most) }
        ensures found { IfOk result (λ bytes. GivesPart None name.now from most bytes.items) }
        ensures files { ◌≡◌ {A = Option KnownFiles} None None }
        ensures faults { FetchFaults result self.old self.new name.now }

        // Each read fault counts one.
        ensures exact { self.new ≡ faults_after_fetch result self.old name.now }

        // The bytes are those of a file that was opened, from the place on.
        ensures read { IfOk result (λ bytes. IsRead R.File.remaining from most bytes.items) }
    {
        let (alloc, rt) = (self.alloc, self.rt);
        let noted = Text::copy_of(alloc, name.as_bytes())?;
        let opened = self.opened.take();
        match read_part(alloc, rt, opened, name, from, most) {
            Ok(piece) => {
                let Piece { bytes, file } = piece;
                let place = from + bytes.len() as u64;
                self.opened = kept_open(noted, file, place);
                Ok(bytes)
            }
            Err(e) => Err(self.read_fault(noted, e)),
        }
    }

    fn keep(&mut self, name: &str, bytes: &[u8]) -> Result<(), ShelfError>
        ensures kept { OnOk result (◌≡◌ {A = Option KnownFiles} None None) }
        ensures refused { OnErr result (◌≡◌ {A = Option KnownFiles} None None) }
        ensures faults { KeepFaults result self.old self.new name.now }

        // Each write fault counts one.
        ensures exact { self.new ≡ faults_after_keep result self.old name.now }
    {
        self.opened = None;
        let noted = Text::copy_of(self.alloc, name.as_bytes())?;
        match write_file(self.alloc, self.rt, name, bytes) {
            Ok(()) => Ok(()),
            Err(e) => Err(self.write_fault(noted, e)),
        }
    }
}
