//! A file that is written where it stands, and put back where that fails.
use crate::reading::read_on;
use bl_base::Quantity;
use std::alloc::Global;
use std::fs::{Files, OpenFile, OpenOptions};
use std::io::{Error, ErrorKind, Result, Seek, SeekFrom, Write};

/// Writes these bytes over those of a file that stands there. Its old bytes are read first, and written back after a fault; a file that
/// can't be read, or is longer than any that is read, is refused as it is.
pub(crate) fn write_over<R: Files>(alloc: Global, rt: &R, name: &str, bytes: &[u8]) -> Result<()> {
    let most = Quantity::Certificate.limit();
    let mut file = OpenOptions::new().read(true).write(true).open(rt, name)?;
    let old = read_on(alloc, &mut file, most + 1)?;
    if old.len() as u64 > most {
        return Err(Error::from(ErrorKind::FileTooLarge));
    }
    let written = overwrite(&mut file, old.len(), bytes);
    if written.is_err() {
        let _ = put_back(&mut file, &old);
    }
    written
}

/// Gives a file these bytes in place of so many others. What is longer is written first, so that want of room shows before an old
/// byte is gone.
fn overwrite<F: Write + Seek + OpenFile>(file: &mut F, count: usize, bytes: &[u8]) -> Result<()> {
    let (front, behind) = bytes.split_at(count.min(bytes.len()));
    write_at(file, count as u64, behind)?;
    write_at(file, 0, front)?;
    file.set_len(bytes.len() as u64)?;
    file.sync_all()
}

/// Gives a file back its old bytes.
fn put_back<F: Write + Seek + OpenFile>(file: &mut F, old: &[u8]) -> Result<()> {
    file.set_len(old.len() as u64)?;
    write_at(file, 0, old)?;
    file.sync_all()
}

/// Writes bytes to a file from a place on.
fn write_at<F: Write + Seek>(file: &mut F, place: u64, bytes: &[u8]) -> Result<()> {
    file.seek(SeekFrom::Start(place))?;
    file.write_all(bytes)
}
