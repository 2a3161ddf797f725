// What holds of the definitions.
ghost use Rattle.std.specs.Prelude.{◌≡◌, ◌↔◌, ◌++◌, ◌<◌, ◌^◌, ℕ, List};
ghost use Rattle.el_base.specs.Compact.{EncodesCompact, compact};

/// No encoding of a CompactSize begins another one, so bytes begin with at most one number. It does nothing
/// when it runs.
pub fn compact_is_prefix_free()
    ensures { (a b x y : List ℕ) (m n : ℕ) → EncodesCompact a m → EncodesCompact b n → a ++ x ≡ b ++ y
        → (m ≡ n) × (a ≡ b) × (x ≡ y) }
{}

/// A number below 2^64 has exactly one encoding as a CompactSize, and no other number has any. It does
/// nothing when it runs.
pub fn compact_is_the_encoding()
    ensures { (bytes : List ℕ) (n : ℕ) → EncodesCompact bytes n ↔ ((n < 2 ^ 64) × (bytes ≡ compact n)) }
{}
