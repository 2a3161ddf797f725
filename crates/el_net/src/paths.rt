// Paths, put together in room that is there.
ghost use Rattle.std.specs.Prelude.{◌≡◌, ◌+◌, ◌%◌, ◌≤◌, [], ◌∷◌, ◌++◌, length, string_bytes, string_len, string_capacity};

// The last decimal digit, in ASCII.
fn last_digit(n: u32) -> char
    ensures { result ≡ 48 + n % 10 }
{
    match n % 10 {
        0 => '0',
        1 => '1',
        2 => '2',
        3 => '3',
        4 => '4',
        5 => '5',
        6 => '6',
        7 => '7',
        8 => '8',
        _ => '9',
    }
}

/// Puts the last decimal digit after the path, in room that is there.
pub fn put_digit(path: &mut String, n: u32)
    requires { string_len path.old + 1 ≤ string_capacity path.old }
    ensures digit { string_bytes path.new ≡ string_bytes path.old ++ (48 + n % 10) ∷ [] }
    ensures len { string_len path.new ≡ string_len path.old + 1 }
    ensures room { string_capacity path.old ≤ string_capacity path.new }
{
    let _ = path.push(last_digit(n));
}

/// Puts the text after the path, in room that is there.
pub fn put_text(path: &mut String, text: &str)
    requires { string_len path.old + length text.now ≤ string_capacity path.old }
    ensures text { string_bytes path.new ≡ string_bytes path.old ++ text.now }
    ensures len { string_len path.new ≡ string_len path.old + length text.now }
    ensures room { string_capacity path.old ≤ string_capacity path.new }
{
    let _ = path.push_str(text);
}
