// Reads and writes that are gone on with until all is done.
ghost use Rattle.std.specs.Prelude.{◌≡◌, ◌≤◌, ◌-◌, ℕ, length, min, IfOk, OnOk};
ghost use Rattle.el_outside.specs.Disk.{over, Torn};
ghost use Rattle.el_open_files.specs.Calls.{IsFront, Idle, ChangesFile};

use crate::open_files::OpenFiles;
use std::io;
use std::io::ErrorKind;

// Fills the front of the buffer with what the file has from the place on, until it is full or the file ends.
// A call that was interrupted is made again.
pub(crate) fn fill_at<F: OpenFiles>(
    files: &mut F,
    file: &F::File,
    at: u64,
    buf: &mut [u8],
) -> io::Result<usize>
    ensures within { IfOk result (λ n. n ≤ length buf.old) }
    ensures front { F.tells → (f : ℕ) → F.is_file file.now f
        → IfOk result (λ n. IsFront at n buf.new (F.seen files.new f)) }
    ensures count { F.tells → (f : ℕ) → F.is_file file.now f
        → IfOk result (λ n. n ≡ min (length buf.old) (length (F.seen files.new f) - at)) }
    ensures idle { F.tells → Idle F.seen F.moment F.left_since F.is_named files.old files.new }
{
    let mut done = 0usize;
    for _ in 0..u64::MAX {
        let Some(place) = at.checked_add(done as u64) else {
            return Err(io::Error::from(ErrorKind::InvalidInput));
        };
        match files.read_at(file, place, &mut buf[done..]) {
            Ok(n) if n == 0 || n == buf.len() - done => return Ok(done + n),
            Ok(n) => done += n,
            Err(e) if e.kind() == ErrorKind::Interrupted => {}
            Err(e) => return Err(e),
        }
    }
    Err(io::Error::from(ErrorKind::Interrupted))
}

// Writes all of the bytes from the place on. A call that was interrupted is made again.
pub(crate) fn write_all<F: OpenFiles>(
    files: &mut F,
    file: &F::File,
    at: u64,
    bytes: &[u8],
) -> io::Result<()>
    ensures written { F.tells → (f : ℕ) → F.is_file file.now f → at ≤ length (F.seen files.old f)
        → OnOk result (F.seen files.new f ≡ over (F.seen files.old f) at bytes.now) }
    ensures changes { F.tells → (f : ℕ) → F.is_file file.now f → at ≤ length (F.seen files.old f)
        → ChangesFile F.seen F.moment F.left_since F.is_named f (Torn at (length bytes.now)) files.old
        files.new }
{
    let mut done = 0usize;
    for _ in 0..u64::MAX {
        if done >= bytes.len() {
            return Ok(());
        }
        let Some(place) = at.checked_add(done as u64) else {
            return Err(io::Error::from(ErrorKind::InvalidInput));
        };
        match files.write_at(file, place, &bytes[done..]) {
            Ok(0) => return Err(io::Error::from(ErrorKind::WriteZero)),
            Ok(n) => done += n,
            Err(e) if e.kind() == ErrorKind::Interrupted => {}
            Err(e) => return Err(e),
        }
    }
    Err(io::Error::from(ErrorKind::Interrupted))
}
