//! Laws of the spellings of numbers, at every width. Each function is its contract alone.
ghost use Rattle.std.specs.Prelude.{◌≡◌, ℕ, ℤ, ◌+◌, ◌-◌, ◌*◌, ◌^◌, ◌<◌, ◌≤◌, List, [], ◌∷◌, ◌++◌, length};
ghost use Rattle.bl_leb.specs.Numbers.{IsUnsigned, IsSigned, IsSignedNumber};
ghost use Rattle.bl_leb.specs.Spellings.{IsSpelledAt, IsShortest};

/// Bytes spell at most one number of a width.
pub fn one_value()
    ensures unsigned { (width : ℕ) (bytes : List ℕ) (v w : ℕ) →
        IsUnsigned width bytes v → IsUnsigned width bytes w → v ≡ w }
    ensures signed { (width : ℕ) (bytes : List ℕ) (v w : ℤ) →
        IsSigned width bytes v → IsSigned width bytes w → v ≡ w }
{}

/// Spellings of all widths are prefix-free; so what is read does not depend on what follows.
pub fn one_end()
    ensures unsigned { (width other : ℕ) (a b x y : List ℕ) (v w : ℕ) →
        IsUnsigned width a v → IsUnsigned other b w → a ++ x ≡ b ++ y → a ≡ b }
    ensures signed { (width other : ℕ) (a b x y : List ℕ) (v w : ℤ) →
        IsSigned width a v → IsSigned other b w → a ++ x ≡ b ++ y → a ≡ b }
{}

/// At a place of bytes at most one number of a width is spelled, and its spelling ends at one place.
pub fn one_number()
    ensures unsigned { (width : ℕ) (bytes : List ℕ) (at end other v w : ℕ) →
        IsSpelledAt (IsUnsigned width) bytes at end v → IsSpelledAt (IsUnsigned width) bytes at other w →
        (end ≡ other) × (v ≡ w) }
    ensures signed { (width : ℕ) (bytes : List ℕ) (at end other : ℕ) (v w : ℤ) →
        IsSpelledAt (IsSigned width) bytes at end v → IsSpelledAt (IsSigned width) bytes at other w →
        (end ≡ other) × (v ≡ w) }
{}

/// A number has at most one shortest spelling of a width.
pub fn one_shortest()
    ensures unsigned { (width : ℕ) (a b : List ℕ) (v : ℕ) →
        IsShortest (IsUnsigned width) a v → IsShortest (IsUnsigned width) b v → a ≡ b }
    ensures signed { (width : ℕ) (a b : List ℕ) (v : ℤ) →
        IsShortest (IsSigned width) a v → IsShortest (IsSigned width) b v → a ≡ b }
{}

/// What is spelled in so many bits is a number of so many bits.
pub fn in_range()
    ensures unsigned { (width : ℕ) (bytes : List ℕ) (v : ℕ) → IsUnsigned width bytes v → v < 2 ^ width }
    ensures signed { (width : ℕ) (bytes : List ℕ) (v : ℤ) → IsSigned width bytes v → IsSignedNumber width v }
{}

/// A spelling in N bits, N above 0, has at least one byte and at most N / 7, rounded up.
pub fn few_bytes()
    ensures unsigned { (width : ℕ) (bytes : List ℕ) (v : ℕ) → 0 < width →
        IsUnsigned width bytes v → (1 ≤ length bytes) × (7 * length bytes < width + 7) }
    ensures signed { (width : ℕ) (bytes : List ℕ) (v : ℤ) → 0 < width →
        IsSigned width bytes v → (1 ≤ length bytes) × (7 * length bytes < width + 7) }
{}

/// What is spelled is spelled where it stands, whatever is before and behind it; so what was written is read
/// again.
pub fn read_again()
    ensures unsigned { (width : ℕ) (before bytes after : List ℕ) (v : ℕ) → IsUnsigned width bytes v →
        IsSpelledAt (IsUnsigned width) (before ++ bytes ++ after) (length before) (length before + length bytes) v }
    ensures signed { (width : ℕ) (before bytes after : List ℕ) (v : ℤ) → IsSigned width bytes v →
        IsSpelledAt (IsSigned width) (before ++ bytes ++ after) (length before) (length before + length bytes) v }
{}

/// The shortest spelling of an unsigned number is the one whose last byte is no 0 behind another byte.
pub fn shortest_by_last_byte()
    ensures one { (width n v : ℕ) → IsUnsigned width (n ∷ []) v → IsShortest (IsUnsigned width) (n ∷ []) v }
    ensures last { (width last v : ℕ) (bytes : List ℕ) → IsUnsigned width (bytes ++ last ∷ []) v →
        0 < last → IsShortest (IsUnsigned width) (bytes ++ last ∷ []) v }
    ensures longer { (width first v : ℕ) (bytes : List ℕ) →
        ¬ IsShortest (IsUnsigned width) (first ∷ bytes ++ 0 ∷ []) v }
{}
