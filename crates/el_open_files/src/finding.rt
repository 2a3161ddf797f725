// Files that are found, opened once, and made by their first write.
ghost use Rattle.std.specs.Prelude.{◌≡◌, ℕ, None, Ok, IfOk, IfSome, IfNone, OnOk};
ghost use Rattle.el_open_files.specs.Calls.{Idle};
ghost use Rattle.el_open_files.specs.OpenFiles.{opened, IsOpen, Held, IsUnmade, StayOpen};

use crate::open_files::OpenFiles;
use std::io;
use std::io::ErrorKind;

// The file, if it is there. Its name is on the disk then, also where an earlier life made the file and was
// stopped before that.
fn look<F: OpenFiles>(files: &mut F, file: u32) -> io::Result<Option<F::File>>
    ensures found { IfOk result (λ found. IfSome found (λ it.
        IsOpen F.tells F.is_file F.is_named files.new file it)) }
    ensures absent { F.tells → IfOk result (λ found. IfNone found
        (IsUnmade F.seen F.moment F.left_since file files.new)) }
    ensures idle { F.tells → Idle F.seen F.moment F.left_since F.is_named files.old files.new }
{
    let found = files.open(file)?;
    files.sync_folder()?;
    Ok(found)
}

// The file, which is made. Its name is on the disk then.
fn make<F: OpenFiles>(files: &mut F, file: u32) -> io::Result<F::File>
    ensures made { IfOk result (λ it. IsOpen F.tells F.is_file F.is_named files.new file it) }
    ensures idle { F.tells → Idle F.seen F.moment F.left_since F.is_named files.old files.new }
{
    let made = files.create(file)?;
    files.sync_folder()?;
    Ok(made)
}

// The file, if it is there, or one that is made.
fn find<F: OpenFiles>(files: &mut F, file: u32, makes: bool) -> io::Result<Option<F::File>>
    ensures found { IfOk result (λ found. IfSome found (λ it.
        IsOpen F.tells F.is_file F.is_named files.new file it)) }
    ensures absent { F.tells → IfOk result (λ found. IfNone found
        (IsUnmade F.seen F.moment F.left_since file files.new)) }
    ensures idle { F.tells → Idle F.seen F.moment F.left_since F.is_named files.old files.new }
{
    match look(files, file)? {
        None if makes => Ok(Some(make(files, file)?)),
        found => Ok(found),
    }
}

// Opens the file, unless it is open, if it is there; or makes it.
pub(crate) fn make_open<F: OpenFiles>(
    files: &mut F,
    places: &mut [Option<F::File>],
    file: u32,
    makes: bool,
) -> io::Result<()>
    requires held { Held F.tells F.is_file F.is_named files.old places.old }
    ensures held { Held F.tells F.is_file F.is_named files.new places.new }
    ensures absent { F.tells → OnOk result (IfNone (opened places.new file)
        (IsUnmade F.seen F.moment F.left_since file files.new)) }
    // For a file that is open nothing is asked.
    ensures open { IfSome (opened places.old file) (λ it. (result ≡ Ok tt) × (files.new ≡ files.old)) }
    ensures stay { StayOpen places.old places.new }
    ensures idle { F.tells → Idle F.seen F.moment F.left_since F.is_named files.old files.new }
{
    match places.get(file as usize) {
        None => return Err(io::Error::from(ErrorKind::InvalidInput)),
        Some(Some(_)) => return Ok(()),
        Some(None) => {}
    }
    places[file as usize] = find(files, file, makes)?;
    Ok(())
}

// The file, where it is open.
pub(crate) fn file_at<I>(places: &[Option<I>], file: u32) -> Option<&I>
    ensures open { IfSome result (λ it. opened places.now file ≡ Some it.now) }
    ensures shut { IfNone result (opened places.now file ≡ None) }
{
    match places.get(file as usize) {
        Some(Some(it)) => Some(it),
        Some(None) => None,
        None => None,
    }
}
