//! What stands behind its size (WebAssembly 1.0, sections 5.5.2 and 5.5.13).
ghost use Rattle.std.specs.Prelude.{◌≡◌, ◌≤◌, ◌<◌, ◌↔◌, IsTrue, length, slice_get, IfSome, IfNone};
ghost use Rattle.bl_wasm.specs.Values.{byte_vec};
ghost use Rattle.bl_code.specs.ReaderAnswers.{IsAt, NoneAt};

/// Whether that byte stands at that place.
pub(crate) fn stands_at(bytes: &[u8], at: usize, byte: u8) -> bool
    ensures stands { IsTrue result ↔ (slice_get bytes.now at ≡ Some byte) }
    ensures inside { IsTrue result → at < length bytes.now }
{
    bytes.get(at) == Some(&byte)
}

/// The bytes behind the size that begins at `at`, as many as it says, and the place after them. None exactly where no
/// size begins there, or fewer bytes are left.
pub(crate) fn sized_at(bytes: &[u8], at: usize) -> Option<(&[u8], usize)>
    requires { at ≤ length bytes.now }
    ensures found { IfSome result (λ found. IsAt byte_vec bytes.now at found.1 found.0.now) }
    ensures none { IfNone result (NoneAt byte_vec bytes.now at) }
{
    let Some((size, place)) = bl_leb::read_u32(bytes, at) else {
        return None;
    };
    let size = size as usize;
    if bytes.len() - place < size {
        return None;
    }
    let end = place + size;
    Some((&bytes[place..end], end))
}
