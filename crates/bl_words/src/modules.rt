//! The modules of a request: their files' words.
ghost use Rattle.std.specs.Prelude.{◌≡◌, ◌↔◌, IfOk, IsTrue};
ghost use Rattle.std.specs.Option.{option_map};
ghost use Rattle.clap.specs.Walk.{texts};
ghost use Rattle.bl_text.specs.Names.{AreNamedApart};
ghost use Rattle.bl_words.specs.Requests.{modules_of};

use bl_base::{List, NoMemory};
use bl_text::module_name;
use std::alloc::Global;
use std::collections::BTreeSet;

/// The modules of a request: at least one; None where there is none. Linear in the words.
pub fn modules_of<'a>(alloc: Global, words: &[&'a str]) -> Result<Option<List<&'a str>>, NoMemory>
    ensures { IfOk result (λ found. option_map texts found ≡ modules_of (texts words.now)) }
{
    if words.is_empty() {
        return Ok(None);
    }
    Ok(Some(List::of(words.to_vec(alloc)?)))
}

/// Whether no two modules have one name. Linear in the words, but for the logarithm of their number.
pub fn are_named_apart(alloc: Global, words: &[&str]) -> Result<bool, NoMemory>
    ensures { IfOk result (λ apart. IsTrue apart ↔ AreNamedApart (texts words.now)) }
{
    let mut names = BTreeSet::new(alloc);
    for word in words {
        if !names.insert(module_name(*word).as_bytes())? {
            return Ok(false);
        }
    }
    Ok(true)
}
