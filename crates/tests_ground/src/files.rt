//! The shelf over the files of the runtime. By hand: what is read from a place on is what was kept there.
use crate::shelves::{fails, gives, reads, stops};
use bl_base::NoMemory;
use bl_outside::{FileShelf, Shelf};
use std::alloc::Global;
use std::fs::remove_file;
use std::random::RandomSource;
use std::rt::Files;
use std::test::Fail;

/// Whether a file is given back up to one byte beyond the limit, and its fetch fails once it is removed.
fn is_given_back<R: Files + RandomSource>(alloc: Global, rt: &R, name: &str) -> bool {
    let mut shelf = FileShelf::new(alloc, rt);
    let kept = shelf.keep(name, b"bytes").is_ok();
    let given = gives(&mut shelf, name, 3, b"byte");
    let removed = remove_file(rt, name).is_ok();
    kept && given && removed && fails(&mut shelf, name, 3)
}

#[test]
fn a_file_shelf_gives_back_what_it_kept(rt: HostRuntime) -> Result<(), Fail> {
    assert!(rt; is_given_back(rt.alloc(), &rt, "tests_basics_kept"));
    Ok(())
}

/// That many bytes, which differ within each read.
fn long(alloc: Global, count: u64) -> Result<Vec<u8>, NoMemory> {
    let mut bytes = Vec::new(alloc);
    for number in 0..count {
        bytes.push(u8::try_from(number % 251).unwrap_or(0))?;
    }
    Ok(bytes)
}

/// Whether a file is given back whole, and its first 15,000 bytes where one less is asked for.
fn is_read_whole<R: Files + RandomSource>(alloc: Global, rt: &R, name: &str, bytes: &[u8]) -> bool {
    let mut shelf = FileShelf::new(alloc, rt);
    let kept = shelf.keep(name, bytes).is_ok();
    let whole = gives(&mut shelf, name, 20_000, bytes);
    let front = match bytes.get(..15_000) {
        Some(front) => gives(&mut shelf, name, 14_999, front),
        None => false,
    };
    let removed = remove_file(rt, name).is_ok();
    kept && whole && front && removed
}

/// Whether that holds of 20,000 bytes.
fn are_read_whole<R: Files + RandomSource>(alloc: Global, rt: &R) -> Result<bool, NoMemory> {
    let bytes = long(alloc, 20_000)?;
    Ok(is_read_whole(alloc, rt, "tests_basics_long", &bytes))
}

#[test]
fn a_file_shelf_reads_a_file_whole_that_takes_several_reads(rt: HostRuntime) -> Result<(), Fail> {
    assert!(rt; are_read_whole(rt.alloc(), &rt)?);
    Ok(())
}

/// Whether the pieces of 20,000 bytes are read one after another, with another file between them, from a place before, and behind the end.
fn is_read_in_pieces<F: Shelf>(shelf: &mut F, name: &str, other: &str, bytes: &[u8]) -> bool {
    let (Some(front), Some(behind)) = (bytes.get(..9_000), bytes.get(9_000..18_000)) else {
        return false;
    };
    let (Some(end), Some(middle)) = (bytes.get(18_000..), bytes.get(100..150)) else {
        return false;
    };
    reads(shelf, name, 0, 9_000, front)
        && reads(shelf, name, 9_000, 9_000, behind)
        && reads(shelf, other, 0, 3, b"oth")
        && reads(shelf, name, 18_000, 9_000, end)
        && reads(shelf, name, 100, 50, middle)
        && reads(shelf, name, 20_000, 9_000, b"")
        && reads(shelf, name, 25_000, 9_000, b"")
}

/// Whether that holds of files of those names, which are kept before.
fn is_kept_in_pieces<R: Files + RandomSource>(rt: &R, alloc: Global, bytes: &[u8]) -> bool {
    let (name, other) = ("tests_basics_pieces", "tests_basics_between");
    let mut shelf = FileShelf::new(alloc, rt);
    let kept = shelf.keep(name, bytes).is_ok() && shelf.keep(other, b"other").is_ok();
    let read = kept && is_read_in_pieces(&mut shelf, name, other, bytes);
    let removed = remove_file(rt, name).is_ok() && remove_file(rt, other).is_ok();
    read && removed
}

/// Whether that holds of 20,000 bytes.
fn are_kept_in_pieces<R: Files + RandomSource>(alloc: Global, rt: &R) -> Result<bool, NoMemory> {
    let bytes = long(alloc, 20_000)?;
    Ok(is_kept_in_pieces(rt, alloc, &bytes))
}

#[test]
fn a_file_shelf_is_read_in_pieces(rt: HostRuntime) -> Result<(), Fail> {
    assert!(rt; are_kept_in_pieces(rt.alloc(), &rt)?);
    Ok(())
}

/// Whether a file that is removed is read on, but not once it would have to be opened anew, and not on after that refusal.
fn is_read_on<R: Files + RandomSource>(alloc: Global, rt: &R, name: &str) -> bool {
    let mut shelf = FileShelf::new(alloc, rt);
    let kept = shelf.keep(name, b"two pieces").is_ok();
    let begun = reads(&mut shelf, name, 0, 3, b"two");
    let removed = remove_file(rt, name).is_ok();
    kept && begun
        && removed
        && reads(&mut shelf, name, 3, 4, b" pie")
        && reads(&mut shelf, name, 7, 4, b"ces")
        && stops(&mut shelf, name, 0, 3)
        && stops(&mut shelf, name, 10, 3)
}

#[test]
fn a_file_shelf_reads_on_where_name_and_place_fit(rt: HostRuntime) -> Result<(), Fail> {
    assert!(rt; is_read_on(rt.alloc(), &rt, "tests_basics_open"));
    Ok(())
}

/// Whether a file is opened anew where another one stands open at that place, and where it was kept since.
fn are_told_apart<R: Files + RandomSource>(alloc: Global, rt: &R, name: &str, other: &str) -> bool {
    let mut shelf = FileShelf::new(alloc, rt);
    let kept = shelf.keep(name, b"ab12").is_ok() && shelf.keep(other, b"cd34").is_ok();
    let apart = reads(&mut shelf, name, 0, 2, b"ab") && reads(&mut shelf, other, 2, 2, b"34");
    let begun = reads(&mut shelf, name, 0, 2, b"ab");
    let anew = shelf.keep(name, b"wxyz").is_ok() && reads(&mut shelf, name, 2, 2, b"yz");
    let removed = remove_file(rt, name).is_ok() && remove_file(rt, other).is_ok();
    kept && apart && begun && anew && removed
}

#[test]
fn a_file_shelf_reads_on_in_one_file_alone(rt: HostRuntime) -> Result<(), Fail> {
    assert!(rt; are_told_apart(rt.alloc(), &rt, "tests_basics_one", "tests_basics_other"));
    Ok(())
}

/// Whether a file of that name has those bytes.
fn has<R: Files + RandomSource>(alloc: Global, rt: &R, name: &str, bytes: &[u8]) -> bool {
    gives(&mut FileShelf::new(alloc, rt), name, 100, bytes)
}

/// Whether these bytes are kept under that name.
fn keeps<R: Files + RandomSource>(alloc: Global, rt: &R, name: &str, bytes: &[u8]) -> bool {
    FileShelf::new(alloc, rt).keep(name, bytes).is_ok()
}

/// Whether a file is made where there is none, and replaced where there is one.
fn is_replaced<R: Files + RandomSource>(alloc: Global, rt: &R, name: &str) -> bool {
    let made = keeps(alloc, rt, name, b"old bytes") && has(alloc, rt, name, b"old bytes");
    let new = keeps(alloc, rt, name, b"new") && has(alloc, rt, name, b"new");
    let removed = remove_file(rt, name).is_ok();
    made && new && removed
}

#[test]
fn a_file_shelf_replaces_what_stands(rt: HostRuntime) -> Result<(), Fail> {
    assert!(rt; is_replaced(rt.alloc(), &rt, "tests_basics_replaced"));
    Ok(())
}
