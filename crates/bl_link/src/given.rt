//! What the imports of a part are given.
ghost use Rattle.std.specs.Prelude.{◌≡◌, ◌∷◌, ◌++◌, ◌<◌, ◌^◌, length, nat_eq, IfOk};
ghost use Rattle.std.specs.List.{list_any};
ghost use Rattle.bl_link.specs.{LinkAnswers.Gives, ImportMatches.all_given, ImportMatches.given as given_of};

use crate::error::LinkError;
use crate::matching::matches;
use crate::names::qualified;
use crate::store::{External, Store};
use bl_base::List;
use bl_wasm::{Import, Module};
use std::alloc::Global;

/// Whether a solidus is in the name.
fn has_solidus(name: &[u8]) -> bool
    ensures { result ≡ list_any (nat_eq 0x2F) name.now }
{
    name.contains(&b'/')
}

/// What an import is given, by the number of its part and its own.
fn one_given(
    alloc: Global,
    store: &Store,
    wasm: &Module,
    part: u32,
    place: u32,
    import: &Import,
) -> Result<External, LinkError>
    ensures { Gives result (given_of store.now wasm.now part (place, import.now)) }
{
    if has_solidus(import.from.as_slice()) {
        return Err(LinkError::Unknown {
            part,
            import: place,
        });
    }
    let Ok(name) = qualified(alloc, import.from.as_slice(), import.name.as_slice()) else {
        return Err(LinkError::Memory);
    };
    let Some(value) = store.exports.find(name.as_slice()) else {
        return Err(LinkError::Unknown {
            part,
            import: place,
        });
    };
    if matches(store, wasm, import.kind, value) {
        Ok(value)
    } else {
        Err(LinkError::Mismatch {
            part,
            import: place,
        })
    }
}

/// What the imports of a part are given, in order.
pub(crate) fn given(
    alloc: Global,
    store: &Store,
    wasm: &Module,
    part: u32,
) -> Result<List<External>, LinkError>
    requires { length wasm.now.imports < 2 ^ 32 }
    ensures { Gives result (all_given store.now wasm.now part) }
{
    let mut values = List::new(alloc);
    let imports = wasm.imports.as_slice();
    for place in 0..imports.len() {
        match one_given(alloc, store, wasm, part, place as u32, &imports[place]) {
            Ok(value) => {
                if values.push(value).is_err() {
                    return Err(LinkError::Memory);
                }
            }
            Err(error) => return Err(error),
        }
    }
    Ok(values)
}
