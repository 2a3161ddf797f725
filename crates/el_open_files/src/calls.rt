// What a disk is asked, of files that are open by number.
ghost use Rattle.std.specs.Prelude.{◌≡◌, ◌≤◌, ◌-◌, length, take, drop, min, IfOk, OnOk};
ghost use Rattle.el_outside.specs.Disk.{over, Torn, Cut, OnDisk};
ghost use Rattle.el_outside.specs.Moments.{LeftNow};
ghost use Rattle.el_open_files.specs.Calls.{Idle, ChangesFile, Settles};
ghost use Rattle.el_open_files.specs.OpenFiles.{Held, StayOpen};

use crate::finding::{file_at, make_open};
use crate::moving::{fill_at, write_all};
use crate::open_files::OpenFiles;
use std::io;
use std::io::ErrorKind;

// A file's size; 0 for one that isn't there.
pub(crate) fn size_of<F: OpenFiles>(
    files: &mut F,
    places: &mut [Option<F::File>],
    file: u32,
) -> io::Result<u64>
    requires held { Held F.tells F.is_file F.is_named files.old places.old }
    ensures held { Held F.tells F.is_file F.is_named files.new places.new }
    ensures stay { StayOpen places.old places.new }
    ensures size { F.tells → IfOk result (λ n. n ≡ length (F.seen files.new file)) }
    ensures idle { F.tells → Idle F.seen F.moment F.left_since F.is_named files.old files.new }
{
    make_open(files, places, file, false)?;
    match file_at(places, file) {
        Some(it) => files.len(it),
        None => Ok(0),
    }
}

// What a file has from the place on.
pub(crate) fn read_from<F: OpenFiles>(
    files: &mut F,
    places: &mut [Option<F::File>],
    file: u32,
    at: u64,
    buf: &mut [u8],
) -> io::Result<usize>
    requires held { Held F.tells F.is_file F.is_named files.old places.old }
    ensures held { Held F.tells F.is_file F.is_named files.new places.new }
    ensures stay { StayOpen places.old places.new }
    ensures within { IfOk result (λ n. n ≤ length buf.old) }
    ensures filled { F.tells → IfOk result (λ n.
        take n buf.new ≡ take n (drop at (F.seen files.new file))) }
    ensures count { F.tells → IfOk result (λ n.
        n ≡ min (length buf.old) (length (F.seen files.new file) - at)) }
    ensures idle { F.tells → Idle F.seen F.moment F.left_since F.is_named files.old files.new }
{
    make_open(files, places, file, false)?;
    match file_at(places, file) {
        Some(it) => fill_at(files, it, at, buf),
        None => Ok(0),
    }
}

// Writes to a file, which is made if it isn't there.
pub(crate) fn write_to<F: OpenFiles>(
    files: &mut F,
    places: &mut [Option<F::File>],
    file: u32,
    at: u64,
    bytes: &[u8],
) -> io::Result<()>
    requires held { Held F.tells F.is_file F.is_named files.old places.old }
    requires place { F.tells → at ≤ length (F.seen files.old file) }
    ensures held { Held F.tells F.is_file F.is_named files.new places.new }
    ensures stay { StayOpen places.old places.new }
    ensures written { F.tells → OnOk result
        (F.seen files.new file ≡ over (F.seen files.old file) at bytes.now) }
    ensures changes { F.tells → ChangesFile F.seen F.moment F.left_since F.is_named
        file (Torn at (length bytes.now)) files.old files.new }
{
    make_open(files, places, file, true)?;
    match file_at(places, file) {
        Some(it) => write_all(files, it, at, bytes),
        None => Err(io::Error::from(ErrorKind::NotFound)),
    }
}

// Cuts a file to a size; one that isn't there has none to lose.
pub(crate) fn cut_to<F: OpenFiles>(
    files: &mut F,
    places: &mut [Option<F::File>],
    file: u32,
    len: u64,
) -> io::Result<()>
    requires held { Held F.tells F.is_file F.is_named files.old places.old }
    requires shorter { F.tells → len ≤ length (F.seen files.old file) }
    ensures held { Held F.tells F.is_file F.is_named files.new places.new }
    ensures stay { StayOpen places.old places.new }
    ensures cut { F.tells → OnOk result (F.seen files.new file ≡ take len (F.seen files.old file)) }
    ensures changes { F.tells → ChangesFile F.seen F.moment F.left_since F.is_named
        file (Cut len) files.old files.new }
{
    make_open(files, places, file, false)?;
    match file_at(places, file) {
        Some(it) => files.set_len(it, len),
        None => Ok(()),
    }
}

// Makes what was written to a file durable.
pub(crate) fn make_durable<F: OpenFiles>(
    files: &mut F,
    places: &mut [Option<F::File>],
    file: u32,
) -> io::Result<()>
    requires held { Held F.tells F.is_file F.is_named files.old places.old }
    ensures held { Held F.tells F.is_file F.is_named files.new places.new }
    ensures stay { StayOpen places.old places.new }
    ensures durable { F.tells → OnOk result
        (OnDisk file (F.seen files.new) (LeftNow F.moment F.left_since files.new)) }
    ensures same { F.tells → OnOk result (F.seen files.new ≡ F.seen files.old) }
    ensures settles { F.tells → Settles F.seen F.moment F.left_since F.is_named
        file files.old files.new }
{
    make_open(files, places, file, false)?;
    match file_at(places, file) {
        Some(it) => files.sync(it),
        None => Ok(()),
    }
}
