//! ROLE of `part`.
ghost use Rattle.std.specs.Prelude.{◌≡◌};
ghost use Rattle.bl_words.specs.Requests.{role_of};

use bl_base::Role;

/// The side of an interface that a word names.
pub fn read_role(word: &str) -> Option<Role>
    ensures { result ≡ role_of word.now }
{
    match word {
        "client" => Some(Role::Client),
        "library" => Some(Role::Library),
        _ => None,
    }
}
