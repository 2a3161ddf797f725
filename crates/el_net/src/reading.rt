// What files have, read whole.
ghost use Rattle.std.specs.Prelude.{◌≡◌, ◌≢◌, ◌≤◌, ◌-◌, ℕ, length, min, IfOk, IfErr, IsErr, None, Ok, Some};
ghost use Rattle.std.specs.IoError.{error_kind};
ghost use Rattle.el_outside.specs.Files.{AllGrow};
ghost use Rattle.el_open_files.specs.Calls.{IsFront};

use crate::folder::Folder;
use std::fs::File;
use std::io;
use std::io::ErrorKind;
use std::os::unix::fs::FileExt;

/// Fills the front of the buffer with what the file has from the place on, until it is full or the file ends.
/// A call that was interrupted is made again.
pub fn fill_at<F: Folder>(
    folder: &mut F,
    file: &F::File,
    at: u64,
    buf: &mut [u8],
) -> io::Result<usize>
    ensures within { IfOk result (λ n. n ≤ length buf.old) }
    ensures front { F.tells → (f : ℕ) → F.is_file file.now f
        → IfOk result (λ n. IsFront at n buf.new (F.bytes folder.new f)) }
    ensures count { F.tells → (f : ℕ) → F.is_file file.now f
        → IfOk result (λ n. n ≡ min (length buf.old) (length (F.bytes folder.new f) - at)) }
    ensures grows { F.tells → AllGrow (F.bytes folder.old) (F.bytes folder.new) }
{
    let mut done = 0usize;
    for _ in 0..u64::MAX {
        let Some(place) = at.checked_add(done as u64) else {
            return Err(io::Error::from(ErrorKind::InvalidInput));
        };
        match folder.read_at(file, place, &mut buf[done..]) {
            Ok(n) if n == 0 || n == buf.len() - done => return Ok(done + n),
            Ok(n) => done += n,
            Err(e) if e.kind() == ErrorKind::Interrupted => {}
            Err(e) => return Err(e),
        }
    }
    Err(io::Error::from(ErrorKind::Interrupted))
}

/// The file that a call of `open` found: none where no file has that name, and a failure where it was
/// refused for another cause.
pub fn found(opened: io::Result<File>) -> io::Result<Option<File>>
    ensures present { IfOk opened (λ file. result ≡ Ok (Some file)) }
    ensures absent { IfErr opened (λ e. error_kind e ≡ ErrorKind.NotFound → result ≡ Ok None) }
    ensures refused { IfErr opened (λ e. error_kind e ≢ ErrorKind.NotFound → IsErr result) }
{
    match opened {
        Ok(file) => Ok(Some(file)),
        Err(e) if e.kind() == ErrorKind::NotFound => Ok(None),
        Err(e) => Err(e),
    }
}

/// Fills the front of the buffer from the place on, until it is full or the file ends.
pub fn read_at(file: &File, at: u64, buf: &mut [u8]) -> io::Result<usize>
    ensures { IfOk result (λ n. n ≤ length buf.old) }
{
    let mut done = 0usize;
    for _ in 0..u64::MAX {
        if done >= buf.len() {
            return Ok(done);
        }
        match file.read_at(&mut buf[done..], at.saturating_add(done as u64)) {
            Ok(0) => return Ok(done),
            Ok(n) => done += n,
            Err(e) if e.kind() == ErrorKind::Interrupted => {}
            Err(e) => return Err(e),
        }
    }
    Ok(done)
}
