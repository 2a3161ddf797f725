// The names of block files.
ghost use Rattle.std.specs.Prelude.{◌≡◌, ◌+◌, ◌/◌, ◌%◌, ◌<◌, ◌≤◌, ◌⊎◌, ◌++◌, ℕ, IfSome, IfNone, [], ◌∷◌};
ghost use Rattle.el_net.specs.Paths.{file_name, five_digits};

use el_outside::MOST_FILES;

// The number of a decimal digit.
fn digit(byte: u8) -> Option<u32>
    ensures digit { IfSome result (λ d. (d < 10) × (byte ≡ 48 + d)) }
    ensures none { IfNone result ((byte < 48) ⊎ (58 ≤ byte)) }
{
    if byte.is_ascii_digit() {
        Some(u32::from(byte - b'0'))
    } else {
        None
    }
}

// The number that five digits give.
fn number(digits: [u8; 5]) -> Option<u32>
    ensures number { IfSome result (λ n. (n < MOST_FILES) × (digits ≡ five_digits n)) }
    ensures none { IfNone result ((n : ℕ) → digits ≡ five_digits n → ⊥) }
{
    let [a, b, c, d, e] = digits;
    let front = (digit(a)? * 10 + digit(b)?) * 10 + digit(c)?;
    Some((front * 10 + digit(d)?) * 10 + digit(e)?)
}

/// The number of the block file that has the name; None where it is the name of no block file.
pub fn file_number(name: &str) -> Option<u32>
    ensures named { IfSome result (λ n. (n < MOST_FILES) × (name.now ≡ file_name n)) }
    ensures none { IfNone result ((n : ℕ) → name.now ≡ file_name n → ⊥) }
{
    match name.as_bytes() {
        [b'b', b'l', b'k', a, b, c, d, e, b'.', b'd', b'a', b't'] => number([*a, *b, *c, *d, *e]),
        _ => None,
    }
}
