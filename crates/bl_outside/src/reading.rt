//! Reading on in a file that is open, whatever it gives at once.
ghost use Rattle.std.specs.Prelude.{◌≤◌, length, IfOk};
ghost use Rattle.bl_outside.specs.Reading.{ReadsOn, Skips};

use std::alloc::Global;
use std::io::{Read, Result};

/// The next bytes of a file, at most so many. Each turn takes at least one byte or ends.
pub(crate) fn read_on<F: Read>(alloc: Global, file: &mut F, most: u64) -> Result<Vec<u8>>
    ensures bound { IfOk result (λ bytes. length bytes.items ≤ most) }
    ensures front { IfOk result (λ bytes. ReadsOn (F.remaining file.old) (F.remaining file.new) most bytes.items) }
{
    let mut bytes = Vec::new(alloc);
    let mut piece = [0u8; 8192];
    while (bytes.len() as u64) < most {
        let wanted = (most - bytes.len() as u64).min(8192) as usize;
        match file.read(&mut piece[..wanted])? {
            0 => return Ok(bytes),
            n => bytes.extend_from_slice(&piece[..n])?,
        }
    }
    Ok(bytes)
}

/// Reads past the next bytes of a file; says whether it has so many. Each turn takes at least one byte or ends.
pub(crate) fn skip<F: Read>(file: &mut F, count: u64) -> Result<bool>
    ensures { IfOk result (λ all. Skips (F.remaining file.old) (F.remaining file.new) count all) }
{
    let mut left = count;
    let mut piece = [0u8; 8192];
    while left > 0 {
        let wanted = left.min(8192) as usize;
        match file.read(&mut piece[..wanted])? {
            0 => return Ok(false),
            n => left -= n as u64,
        }
    }
    Ok(true)
}
