// What the answers of the system's calls on sockets mean.
ghost use Rattle.std.specs.Prelude.{◌≡◌, ◌≢◌, ◌↔◌, IsTrue, IfOk, IfErr, IfSome, IsErr, None, Some, Ok, false};
ghost use Rattle.std.specs.IoError.{error_kind, raw_os_error};
ghost use Rattle.el_sockets.specs.Calls.{LacksRoom};

use std::io;
use std::io::ErrorKind;

/// Out of memory, of `errno(3)` as Linux has it.
const ENOMEM: i32 = 12;

/// Too many open files in the system.
const ENFILE: i32 = 23;

/// Too many open files in the process.
const EMFILE: i32 = 24;

/// Too many descriptors are watched, or no space.
const ENOSPC: i32 = 28;

/// No memory for a socket's buffers.
const ENOBUFS: i32 = 105;

/// Why an accept opened nobody.
#[derive(Clone, Copy, Debug, PartialEq, Eq)]
pub enum Nobody {
    /// No connection waits.
    NoneWaits,
    /// A connection was aborted before it was accepted, or a signal came.
    PassedOver,
    /// A connection waits still, and the system had no room for it.
    NoRoom,
}

/// How many bytes a read gave or a write took; None where it would have had to wait, or where a signal came.
pub fn done(called: io::Result<usize>) -> io::Result<Option<usize>>
    ensures done { IfOk called (λ n. result ≡ Ok (Some n)) }
    ensures given { IfOk result (λ found. IfSome found (λ n. called ≡ Ok n)) }
    ensures waits { IfErr called (λ e. error_kind e ≡ ErrorKind.WouldBlock → result ≡ Ok None) }
    ensures interrupted { IfErr called (λ e. error_kind e ≡ ErrorKind.Interrupted → result ≡ Ok None) }
    ensures failed { IfErr called (λ e. error_kind e ≢ ErrorKind.WouldBlock
        → error_kind e ≢ ErrorKind.Interrupted → IsErr result) }
{
    match called {
        Ok(n) => Ok(Some(n)),
        Err(e) if e.kind() == ErrorKind::WouldBlock => Ok(None),
        Err(e) if e.kind() == ErrorKind::Interrupted => Ok(None),
        Err(e) => Err(e),
    }
}

/// Whether a call would have had to wait.
pub fn waits(called: &io::Result<usize>) -> bool
    ensures done { IfOk called.now (λ n. result ≡ false) }
    ensures waits { IfErr called.now (λ e. IsTrue result ↔ (error_kind e ≡ ErrorKind.WouldBlock)) }
{
    matches!(called, Err(e) if e.kind() == ErrorKind::WouldBlock)
}

/// Why an accept that was refused opened nobody; a failure where that isn't known.
pub fn why_nobody(error: io::Error) -> io::Result<Nobody>
    ensures no_room { LacksRoom (raw_os_error error) → result ≡ Ok Nobody.NoRoom }
    ensures none_waits { (LacksRoom (raw_os_error error) → ⊥) → error_kind error ≡ ErrorKind.WouldBlock
        → result ≡ Ok Nobody.NoneWaits }
    ensures aborted { (LacksRoom (raw_os_error error) → ⊥) → error_kind error ≡ ErrorKind.ConnectionAborted
        → result ≡ Ok Nobody.PassedOver }
    ensures interrupted { (LacksRoom (raw_os_error error) → ⊥) → error_kind error ≡ ErrorKind.Interrupted
        → result ≡ Ok Nobody.PassedOver }
    ensures failed { (LacksRoom (raw_os_error error) → ⊥) → error_kind error ≢ ErrorKind.WouldBlock
        → error_kind error ≢ ErrorKind.ConnectionAborted → error_kind error ≢ ErrorKind.Interrupted
        → IsErr result }
{
    if lacks_room(&error) {
        return Ok(Nobody::NoRoom);
    }
    match error.kind() {
        ErrorKind::WouldBlock => Ok(Nobody::NoneWaits),
        ErrorKind::ConnectionAborted | ErrorKind::Interrupted => Ok(Nobody::PassedOver),
        _ => Err(error),
    }
}

/// Whether a call was refused since the system had no descriptor or no memory left.
pub fn lacks_room(error: &io::Error) -> bool
    ensures { IsTrue result ↔ LacksRoom (raw_os_error error.now) }
{
    matches!(
        error.raw_os_error(),
        Some(ENOMEM | ENFILE | EMFILE | ENOSPC | ENOBUFS)
    )
}
