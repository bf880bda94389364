//! A file that is written beside another and renamed over it.
ghost use Rattle.std.specs.Prelude.{◌↔◌, IfOk, IsOk, IsTrue};

use std::alloc::Global;
use std::fs::{File, Files, Metadata, OpenFile};
use std::io::{Error, ErrorKind, Result, Write};
use std::os::unix::fs::MetadataExt;
use std::path::{Path, PathBuf};
use std::random::RandomSource;

/// How many names are tried for a file beside.
const MOST_NAMES: u32 = 100;

/// A file that was made beside another, and its path.
#[derive(Drop)]
struct Beside<F> {
    path: PathBuf,
    file: F,
}

/// Writes a file beside that path and renames it; says whether the folder takes one that stands for the old one. Where it isn't renamed
/// what stands at the path is as it was, and the file beside is removed.
pub(crate) fn put<R: Files + RandomSource>(
    alloc: Global,
    rt: &R,
    target: &str,
    old: Option<&Metadata>,
    bytes: &[u8],
) -> Result<bool> {
    let Some(beside) = open_beside(alloc, rt, target)? else {
        return Ok(false);
    };
    let path = beside.path;
    let written = fill(rt, path.as_path().as_str(), beside.file, old, bytes);
    let done = match written {
        Ok(true) => moved(rt.rename(path.as_path().as_str(), target)),
        other => other,
    };
    if !matches!(done, Ok(true)) {
        let _ = rt.remove_file(path.as_path().as_str());
    }
    done
}

/// Whether a file was renamed; no where the place can't be renamed to.
fn moved(renamed: Result<()>) -> Result<bool>
    ensures { IfOk result (λ all. IsTrue all ↔ IsOk renamed) }
{
    match renamed {
        Ok(()) => Ok(true),
        Err(e) => match e.kind() {
            ErrorKind::ResourceBusy | ErrorKind::CrossesDevices | ErrorKind::PermissionDenied => {
                Ok(false)
            }
            _ => Err(e),
        },
    }
}

/// A name that nobody else can guess.
fn new_name<R: RandomSource>(alloc: Global, rt: &R) -> Result<String> {
    let mut bytes = [0u8; 8];
    rt.fill_bytes(&mut bytes)?;
    let number = u64::from_le_bytes(bytes);
    Ok(format!(in alloc; ".blade-{number:016x}.tmp")?)
}

/// A new file in the folder of a path; none where the folder takes no file.
fn open_beside<R: Files + RandomSource>(
    alloc: Global,
    rt: &R,
    target: &str,
) -> Result<Option<Beside<R::File>>> {
    for _ in 0..MOST_NAMES {
        let name = new_name(alloc, rt)?;
        let path = Path::new(target).with_file_name(alloc, name.as_str())?;
        match File::create_new(rt, path.as_path().as_str()) {
            Ok(file) => return Ok(Some(Beside { path, file })),
            Err(e) => match e.kind() {
                ErrorKind::AlreadyExists => {}
                ErrorKind::PermissionDenied | ErrorKind::ReadOnlyFilesystem => return Ok(None),
                _ => return Err(e),
            },
        }
    }
    Err(Error::from(ErrorKind::AlreadyExists))
}

/// Gives the file the owner and the permissions of an old one, then the bytes, and closes it; says whether the owner could be
/// given.
fn fill<R: Files>(
    rt: &R,
    path: &str,
    file: R::File,
    old: Option<&Metadata>,
    bytes: &[u8],
) -> Result<bool> {
    let mut file = file;
    if let Some(old) = old {
        if !give(rt, path, &file.metadata()?, old) {
            return Ok(false);
        }
        file.set_permissions(old.permissions())?;
    }
    file.write_all(bytes)?;
    file.sync_all()?;
    Ok(true)
}

/// Gives a file the owner of an old one, where it has another; says whether it has it now.
fn give<R: Files>(rt: &R, path: &str, new: &Metadata, old: &Metadata) -> bool {
    (new.uid() == old.uid() && new.gid() == old.gid())
        || rt.chown(path, Some(old.uid()), Some(old.gid())).is_ok()
}
