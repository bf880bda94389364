//! Numbers written as bytes.
ghost use Rattle.std.specs.Prelude.{◌≡◌, ℕ, ◌^◌, ◌<◌, take, vec_len, OnOk, OnErr};
ghost use Rattle.bl_leb.specs.Numbers.{IsUnsigned, IsSigned, IsSignedNumber};
ghost use Rattle.bl_leb.specs.Spellings.{IsShortest, Appends};

use bl_base::NoMemory;

/// Appends the bytes of the shortest spelling, at whatever width the number has, one by one. A refusal may
/// leave some of them. The recursion goes as deep as the spelling is long, at most 10 bytes.
fn push_unsigned_bytes(to: &mut Vec<u8>, v: u64) -> Result<(), NoMemory>
    ensures ok { OnOk result ((width : ℕ) → v < 2 ^ width →
        Appends (IsShortest (IsUnsigned width)) to.old.items to.new.items v) }
    ensures err { OnErr result (take (vec_len to.old) to.new.items ≡ to.old.items) }
{
    if v < 128 {
        to.push(v as u8)?;
        return Ok(());
    }
    to.push((v % 128) as u8 + 128)?;
    push_unsigned_bytes(to, v / 128)
}

/// Appends the shortest spelling, at whatever width the number has. A refusal leaves the bytes as they were.
fn push_unsigned(to: &mut Vec<u8>, v: u64) -> Result<(), NoMemory>
    ensures ok { OnOk result ((width : ℕ) → v < 2 ^ width →
        Appends (IsShortest (IsUnsigned width)) to.old.items to.new.items v) }
    ensures err { OnErr result (to.new.items ≡ to.old.items) }
{
    let len = to.len();
    let pushed = push_unsigned_bytes(to, v);
    if pushed.is_err() {
        to.truncate(len);
    }
    pushed
}

/// Appends the shortest spelling of an unsigned number of 32 bits (WebAssembly 1.0, section 5.2.2), 1 to 5
/// bytes. A refusal leaves the bytes as they were.
pub fn push_u32(to: &mut Vec<u8>, v: u32) -> Result<(), NoMemory>
    ensures ok { OnOk result (Appends (IsShortest (IsUnsigned 32)) to.old.items to.new.items v) }
    ensures err { OnErr result (to.new.items ≡ to.old.items) }
{
    push_unsigned(to, u64::from(v))
}

/// Appends the shortest spelling of an unsigned number of 64 bits (WebAssembly 1.0, section 5.2.2), 1 to 10
/// bytes. A refusal leaves the bytes as they were.
pub fn push_u64(to: &mut Vec<u8>, v: u64) -> Result<(), NoMemory>
    ensures ok { OnOk result (Appends (IsShortest (IsUnsigned 64)) to.old.items to.new.items v) }
    ensures err { OnErr result (to.new.items ≡ to.old.items) }
{
    push_unsigned(to, v)
}

/// Appends the bytes of the shortest spelling, at whatever width the number has, one by one. A refusal may
/// leave some of them. The recursion goes as deep as the spelling is long, at most 5 bytes.
fn push_signed_bytes(to: &mut Vec<u8>, v: i32) -> Result<(), NoMemory>
    ensures ok { OnOk result ((width : ℕ) → IsSignedNumber width v →
        Appends (IsShortest (IsSigned width)) to.old.items to.new.items v) }
    ensures err { OnErr result (take (vec_len to.old) to.new.items ≡ to.old.items) }
{
    let low = v.rem_euclid(128) as u8;
    if (-64..64).contains(&v) {
        to.push(low)?;
        return Ok(());
    }
    to.push(low + 128)?;
    push_signed_bytes(to, v.div_euclid(128))
}

/// Appends the shortest spelling of a signed number of 32 bits (WebAssembly 1.0, section 5.2.2), 1 to 5
/// bytes. A refusal leaves the bytes as they were.
pub fn push_i32(to: &mut Vec<u8>, v: i32) -> Result<(), NoMemory>
    ensures ok { OnOk result (Appends (IsShortest (IsSigned 32)) to.old.items to.new.items v) }
    ensures err { OnErr result (to.new.items ≡ to.old.items) }
{
    let len = to.len();
    let pushed = push_signed_bytes(to, v);
    if pushed.is_err() {
        to.truncate(len);
    }
    pushed
}
