//! The names of modules, by their files.
ghost use Rattle.std.specs.{Prelude.◌≡◌, Prelude.nat_eq, List.after_last};
ghost use Rattle.bl_text.specs.Names.{module_name as module_name_of, without_ending as name_without_ending};

/// The name of the module in a file: what stands behind the last `/` of its word, without one final
/// `.wasm`.
pub fn module_name(word: &str) -> &str
    ensures { result.now ≡ module_name_of word.now }
{
    without_ending(base_name(word))
}

/// A name without one final `.wasm`.
fn without_ending(name: &str) -> &str
    ensures { result.now ≡ name_without_ending name.now }
{
    match name.strip_suffix(".wasm") {
        Some(front) => front,
        None => name,
    }
}

/// What stands behind the last `/`, or all where there is none.
fn base_name(path: &str) -> &str
    ensures { result.now ≡ after_last (nat_eq 47) path.now }
{
    match path.rsplit_once('/') {
        Some((_, name)) => name,
        None => path,
    }
}
