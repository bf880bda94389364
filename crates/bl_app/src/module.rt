//! The files of a request's modules.
ghost use Rattle.std.specs.Prelude.{◌≡◌, ◌++◌, IfOk, map};
ghost use Rattle.bl_app.specs.CompileJobs.{module_read};
ghost use Rattle.bl_job.specs.WorkAnswers.{file_in, read_in};

use bl_base::{NoMemory, Quantity};
use bl_job::{Read, list_reads};
use std::alloc::Global;

/// Files, and then those of modules, in order, each of as many bytes as a module may have.
pub fn module_reads<'a>(
    alloc: Global,
    files: &[(&'a str, Quantity)],
    modules: &[&'a str],
) -> Result<Vec<Read<'a>>, NoMemory>
    ensures { IfOk result (λ reads. map read_in reads.items ≡ map file_in files.now ++ map module_read (map (λ word. word.now) modules.now)) }
{
    let mut reads = list_reads(alloc, files)?;
    for word in modules {
        reads.push(Read {
            name: *word,
            quantity: Quantity::Module,
        })?;
    }
    Ok(reads)
}
