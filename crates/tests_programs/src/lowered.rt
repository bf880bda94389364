//! The image of one module as a program of its own.
use bl_base::NoMemory;
use bl_image::encode;
use bl_lower::lower;
use bl_wasm::Linked;
use std::alloc::Global;
use tests_linked::linked;
use tests_samples::EMPTY;

/// The image of what is linked; None where it is not lowered.
fn image_of(alloc: Global, tree: Linked) -> Result<Option<Vec<u8>>, NoMemory> {
    match lower(alloc, tree) {
        Ok(program) => Ok(Some(encode(alloc, &program)?)),
        Err(_) => Ok(None),
    }
}

/// Whether the image of what is linked is these bytes.
fn has_image(alloc: Global, tree: Linked, image: &[u8]) -> Result<bool, NoMemory> {
    match image_of(alloc, tree)? {
        Some(bytes) => Ok(bytes.as_slice() == image),
        None => Ok(false),
    }
}

/// Whether the image of the module that the bytes spell, under the name "m", is these bytes.
pub fn is_image(alloc: Global, module: &[u8], image: &[u8]) -> Result<bool, NoMemory> {
    match linked(alloc, &[("m", module)])? {
        Some(Ok(tree)) => has_image(alloc, tree, image),
        _ => Ok(false),
    }
}

/// The same of the module of those sections.
pub fn is_image_of(alloc: Global, sections: &[u8], image: &[u8]) -> Result<bool, NoMemory> {
    let mut module = EMPTY.to_vec(alloc)?;
    module.extend_from_slice(sections)?;
    is_image(alloc, &module, image)
}
