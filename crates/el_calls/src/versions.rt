// Versions of the protocol, as clients write them.
ghost use Rattle.std.specs.Prelude.{◌≡◌, ◌<◌, ◌+◌, ◌*◌, ℕ, length, take, drop, Some, None, IfSome, IfNone, false};
ghost use Rattle.std.specs.List.{list_all};
ghost use Rattle.el_sessions.specs.declared.session.Version as shape;
ghost use Rattle.el_calls.specs.Versions as defined;
ghost use Rattle.el_calls.specs.Versions.{cut_at_dot};

use crate::call::VersionParts;
use el_json::Param;
use el_sessions::Version;

// A digit.
fn digit_of(b: u8) -> Option<u16>
    ensures digit { result ≡ defined.digit_of b }
    ensures below { IfSome result (λ n. n < 10) }
{
    if b.is_ascii_digit() {
        Some(u16::from(b - b'0'))
    } else {
        None
    }
}

// The number that goes on with a digit.
fn next_digit(before: Option<u16>, b: u8) -> Option<u16>
    requires { IfSome before (λ n. n < 1000) }
    ensures next { result ≡ defined.next_digit before b }
    ensures below { IfSome result (λ n. IfSome before (λ m. n < m * 10 + 10)) }
{
    let n = before?;
    let d = digit_of(b)?;
    Some(n * 10 + d)
}

// One to four digits.
fn part_of(text: &[u8]) -> Option<u16>
    ensures { result ≡ defined.part_of text.now }
{
    match text {
        [a] => digit_of(*a),
        [a, b] => next_digit(digit_of(*a), *b),
        [a, b, c] => next_digit(next_digit(digit_of(*a), *b), *c),
        [a, b, c, d] => next_digit(next_digit(next_digit(digit_of(*a), *b), *c), *d),
        _ => None,
    }
}

// Where the first dot stands.
fn dot_in(text: &[u8]) -> Option<usize>
    ensures some { IfSome result (λ i. (i < length text.now)
        × (cut_at_dot text.now ≡ (take i text.now, Some (drop (i + 1) text.now)))) }
    ensures none { IfNone result (cut_at_dot text.now ≡ (text.now, None)) }
{
    for i in 0..text.len() {
        if text[i] == b'.' {
            return Some(i);
        }
    }
    None
}

// The version with this first part, of which the others are the text after its dot.
fn version_after(first: &[u8], rest: &[u8]) -> Option<VersionParts>
    ensures { result ≡ defined.version_with first.now (cut_at_dot rest.now) }
{
    match dot_in(rest) {
        Some(i) => {
            let major = part_of(first)?;
            let minor = part_of(&rest[..i])?;
            let patch = part_of(&rest[i + 1..])?;
            Some(VersionParts {
                major,
                minor,
                patch,
            })
        }
        None => {
            let major = part_of(first)?;
            let minor = part_of(rest)?;
            Some(VersionParts {
                major,
                minor,
                patch: 0,
            })
        }
    }
}

// A version of one to three parts.
fn version_of(text: &[u8]) -> Option<VersionParts>
    ensures { result ≡ defined.version_of text.now }
{
    match dot_in(text) {
        Some(i) => version_after(&text[..i], &text[i + 1..]),
        None => {
            let major = part_of(text)?;
            Some(VersionParts {
                major,
                minor: 0,
                patch: 0,
            })
        }
    }
}

// A version in a text.
fn version_in(param: &Param) -> Option<VersionParts>
    ensures { result ≡ defined.version_in param.now }
{
    match param.text() {
        Some(text) => version_of(text.as_bytes()),
        None => None,
    }
}

// The first and the second of two.
fn both_of(first: &Param, second: &Param) -> Option<(VersionParts, VersionParts)>
    ensures { result ≡ defined.versions_with None (Some (first.now, second.now)) }
{
    let first = version_in(first)?;
    let second = version_in(second)?;
    Some((first, second))
}

// One version that stands for both.
fn twice(text: &[u8]) -> Option<(VersionParts, VersionParts)>
    ensures { result ≡ defined.versions_with (Some text.now) None }
{
    let version = version_of(text)?;
    Some((version, version))
}

/// The least and the most version that a client takes: two, or one that stands for both.
pub fn versions_in(param: &Param) -> Option<(VersionParts, VersionParts)>
    ensures { result ≡ defined.versions_in param.now }
{
    match param.text() {
        Some(text) => twice(text.as_bytes()),
        None => match param.pair() {
            Some((first, second)) => both_of(&first, &second),
            None => None,
        },
    }
}

// Whether the one version is not above the other.
fn is_up_to(one: VersionParts, other: VersionParts) -> bool
    ensures { result ≡ defined.is_up_to one other }
{
    one.major < other.major
        || (one.major == other.major
            && (one.minor < other.minor || (one.minor == other.minor && one.patch <= other.patch)))
}

// The versions that are served, the greatest first.
const SERVED: [Version; 3] = [Version::V142, Version::V141, Version::V14];

/// The greatest of the versions that are served.
pub const PROTOCOL_MAX: Version = Version::V142;

/// The least of the versions that are served.
pub const PROTOCOL_MIN: Version = Version::V14;

/// The parts of a version that is served.
pub fn parts_of(version: Version) -> VersionParts
    ensures { result ≡ defined.parts_of version }
{
    let patch = match version {
        Version::V14 => 0,
        Version::V141 => 1,
        Version::V142 => 2,
    };
    VersionParts {
        major: 1,
        minor: 4,
        patch,
    }
}

/// A version that is served, as it is written.
pub fn text_of(version: Version) -> &'static str
    ensures { result.now ≡ defined.text_of version }
{
    match version {
        Version::V14 => "1.4",
        Version::V141 => "1.4.1",
        Version::V142 => "1.4.2",
    }
}

// Whether the version lies from the first to the second.
fn lies_within(least: VersionParts, most: VersionParts, version: Version) -> bool
    ensures { result ≡ defined.lies_within least most version }
{
    is_up_to(least, parts_of(version)) && is_up_to(parts_of(version), most)
}

// The first of the versions that lies from the first to the second.
fn first_within(versions: &[Version], least: VersionParts, most: VersionParts) -> Option<Version>
    ensures { result ≡ defined.first_within versions.now least most }
{
    for version in versions {
        if lies_within(least, most, *version) {
            return Some(*version);
        }
    }
    None
}

/// The greatest of the versions that are served which lies from the first to the second; None exactly where
/// none does (Electrum Protocol 1.4.2, `server.version`).
pub fn greatest_shared(least: VersionParts, most: VersionParts) -> Option<Version>
    ensures first { result ≡ defined.greatest_shared least most }
    ensures greatest { IfSome result (defined.IsGreatest least most) }
    ensures none { IfNone result ((other : shape.Version) → defined.lies_within least most other ≡ false) }
{
    first_within(&SERVED, least, most)
}
