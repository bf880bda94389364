//! The verdict on an image.
use bl_base::{Label, NoMemory};
use bl_ct::{CtVerdict, constant_time};
use bl_graph::{Origin, graph};
use bl_image::decode_image;
use std::alloc::Global;

/// The verdict on the program of an image; bytes that are none are answered like want of memory.
pub(crate) fn verdict(alloc: Global, image: &[u8]) -> Result<CtVerdict, NoMemory> {
    let Ok(program) = decode_image(alloc, image) else {
        return Err(NoMemory);
    };
    let graph = graph(alloc, &program)?;
    let verdict = constant_time(alloc, &program, &graph)?;
    Ok(verdict)
}

/// Whether the labels of the program's variables are these.
pub(crate) fn has_labels(alloc: Global, image: &[u8], labels: &[Label]) -> Result<bool, NoMemory> {
    match &verdict(alloc, image)? {
        CtVerdict::Yes(found) => Ok(found.as_slice() == labels),
        CtVerdict::No(_) => Ok(false),
    }
}

/// Whether the program has a secret chain, and it is that one.
pub(crate) fn leaks(
    alloc: Global,
    image: &[u8],
    origin: Origin,
    through: &[u32],
    end: u32,
) -> Result<bool, NoMemory> {
    match &verdict(alloc, image)? {
        CtVerdict::Yes(_) => Ok(false),
        CtVerdict::No(chain) => {
            let sites = chain.through.as_slice();
            let mut same = sites.len() == through.len();
            for (site, position) in sites.iter().zip(through) {
                same = same && site.0 == *position;
            }
            Ok(same && chain.origin == origin && chain.end.0 == end)
        }
    }
}
