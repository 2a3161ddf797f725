// The calls of a disk in memory that fail.
ghost use Rattle.std.specs.Prelude.{◌≡◌, ◌≤◌, length, take, if◌then◌else◌};
ghost use Rattle.el_mem_disk.specs.Failing.{is_failing, residue_of};

use el_fakes::is_listed;

/// What a failing write leaves of its bytes.
#[derive(Clone, Copy, Debug, PartialEq, Eq)]
pub enum Residue {
    /// None of them.
    Nothing,
    /// As many of the first ones.
    Front(usize),
    /// All of them.
    All,
}

/// The calls that are to fail, by their numbers, counted from 1 on over all calls.
#[derive(Debug, Drop)]
pub struct FailingCalls {
    /// These fail.
    pub listed: Vec<u64>,
    /// This one fails, and each later one: a crash.
    pub from: Option<u64>,
    /// What each write among them leaves.
    pub residue: Residue,
}

// Whether the call with this number fails.
pub(crate) fn fails(failing: &FailingCalls, call: u64) -> bool
    ensures { result ≡ is_failing failing.now call }
{
    let is_from = match failing.from {
        Some(first) => first <= call,
        None => false,
    };
    is_from || is_listed(failing.listed.as_slice(), call)
}

// How many of the bytes a failing write leaves.
fn left(residue: Residue, len: usize) -> usize
    ensures exact { result ≡ residue_of residue len }
    ensures within { result ≤ len }
{
    match residue {
        Residue::Nothing => 0,
        Residue::Front(count) => count.min(len),
        Residue::All => len,
    }
}

// The bytes that are seen after a write: all, or those that it leaves where it fails.
pub(crate) fn front(fails: bool, residue: Residue, bytes: &[u8]) -> &[u8]
    ensures exact { result.now
        ≡ if fails then take (residue_of residue (length bytes.now)) bytes.now else bytes.now }
    ensures within { length result.now ≤ length bytes.now }
{
    if fails {
        return &bytes[..left(residue, bytes.len())];
    }
    bytes
}
