// Numbers in decimal.
ghost use Rattle.std.specs.Prelude.{◌≡◌, ℕ, ◌<◌, ◌≤◌, ◌^◌, MatchOption};
ghost use Rattle.el_lines.specs.NodeLines.{ShowsNumber};

/// The number below the bound that the text shows, by at most `most` digits, of which the first may be zeros;
/// None exactly where it shows none. Takes no memory.
pub fn number_of(text: &[u8], most: usize, bound: u64) -> Option<u64>
    requires some { 0 < bound }
    ensures { MatchOption result
        ((n : ℕ) → ShowsNumber text.now most bound n → ⊥)
        (λ n. ShowsNumber text.now most bound n) }
{
    if text.is_empty() || text.len() > most {
        return None;
    }
    let mut number = 0u64;
    for &byte in text {
        if !byte.is_ascii_digit() {
            return None;
        }
        let more = u128::from(number) * 10 + u128::from(byte - b'0');
        if more >= u128::from(bound) {
            return None;
        }
        number = more as u64;
    }
    Some(number)
}
