// The block files of a folder, as the system's calls give them.
ghost use Rattle.std.specs.Prelude.{◌≡◌, ◌⊎◌, ◌≤◌, ◌-◌, ℕ, [], length, IfOk, IfSome, IfNone};
ghost use Rattle.el_outside.specs.Files.{AllGrow};
ghost use Rattle.el_open_files.specs.Calls.{IsFront};

use el_outside::MOST_FILES;
use std::io;

/// The block files of a folder by number, from 0 on, each call as the system makes it: a read may give a part
/// of what it is asked for, and a signal may interrupt it. Others write to the files meanwhile: they may gain
/// more after the bytes that they have. A file that isn't there has no bytes. Where a folder tells, nothing
/// is made ahead in its files: what is read in parts is read at several moments.
pub trait Folder {
    ghost use Rattle.std.specs.Prelude.{◌≡◌, ◌≤◌, ℕ, List, []};

    /// An open file.
    type File: Drop;

    /// Whether the folder tells what its files hold. One in memory does, a real one doesn't.
    ghost tells: { Type 0 };

    /// The bytes of each file, by its number.
    ghost bytes: { Self → ℕ → List ℕ };

    /// The number of the highest file plus 1, or 0.
    ghost file_count: { Self → ℕ };

    /// No file after the highest one has bytes.
    ghost none_after: { (folder : Self) (file : ℕ)
        → tells → file_count folder ≤ file → bytes folder file ≡ [] };

    /// The open file is the one of that number.
    ghost is_file: { Self.File → ℕ → Type 0 };

    /// Looks whether the folder is there; a failure where it isn't.
    fn look(&mut self) -> io::Result<()>
        ensures { tells → AllGrow (bytes self.old) (bytes self.new) };

    /// The number of the highest file plus 1, or 0.
    fn count(&mut self) -> io::Result<u32>
        ensures few { IfOk result (λ n. n ≤ MOST_FILES) }
        ensures number { tells → IfOk result (λ n. n ≡ file_count self.new) }
        ensures grows { tells → AllGrow (bytes self.old) (bytes self.new) };

    /// Opens a file, if it is there.
    fn open(&mut self, file: u32) -> io::Result<Option<Self::File>>
        ensures found { IfOk result (λ found. IfSome found (λ it. is_file it file)) }
        ensures absent { tells → IfOk result (λ found. IfNone found (bytes self.new file ≡ [])) }
        ensures grows { tells → AllGrow (bytes self.old) (bytes self.new) };

    /// The size of a file in bytes.
    fn len(&mut self, file: &Self::File) -> io::Result<u64>
        ensures len { tells → (f : ℕ) → is_file file.now f
            → IfOk result (λ n. n ≡ length (bytes self.new f)) }
        ensures grows { tells → AllGrow (bytes self.old) (bytes self.new) };

    /// Fills a front of the buffer with what the file has from the place on, and answers how many bytes those
    /// are: 0 only at the file's end, or where the buffer has no room.
    fn read_at(&mut self, file: &Self::File, at: u64, buf: &mut [u8]) -> io::Result<usize>
        ensures within { IfOk result (λ n. n ≤ length buf.old) }
        ensures front { tells → (f : ℕ) → is_file file.now f
            → IfOk result (λ n. IsFront at n buf.new (bytes self.new f)) }
        ensures end { tells → (f : ℕ) → is_file file.now f
            → IfOk result (λ n. n ≡ 0 → (length buf.old ≡ 0) ⊎ (length (bytes self.new f) ≤ at)) }

        ensures grows { tells → AllGrow (bytes self.old) (bytes self.new) };
}
