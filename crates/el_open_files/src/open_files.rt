// Files that are opened by number, as the system's calls give them.
ghost use Rattle.std.specs.Prelude.{◌≡◌, ◌⊎◌, ◌<◌, ◌≤◌, ℕ, length, take, [], true, false, IfOk, IfErr, IfSome, IfNone, OnOk};
ghost use Rattle.std.specs.IoError.{error_kind};
ghost use Rattle.el_outside.specs.Disk.{over, Torn, Cut, NothingNew, OnDisk};
ghost use Rattle.el_outside.specs.Moments.{LeftNow};
ghost use Rattle.el_open_files.specs.Calls.{IsFront, Idle, ChangesFile, Settles};

use std::io;
use std::io::ErrorKind;

/// The files of a folder by number, from 0 on, each call as the system makes it: a read or a write may do a
/// part of what it is asked for, and a signal may interrupt it. A file that was written is on the disk once
/// it and, since it was made, the folder were synced. A file that isn't there has no bytes. Nobody else
/// changes the files.
pub trait OpenFiles {
    ghost use Rattle.std.specs.Prelude.{◌≡◌, ◌<◌, ◌≤◌, ℕ, Bool, length};
    ghost use Rattle.el_outside.specs.Disk.{Image};
    ghost use Rattle.el_outside.specs.Moments.{LeftNow};
    ghost use Rattle.el_outside.specs.declared.archive.TheConstants.{SIZE_LIMIT};

    /// An open file.
    type File: Drop;

    /// Whether the folder tells what its files hold, and what a crash may leave of them. One in memory does,
    /// a real one doesn't.
    ghost tells: { Type 0 };

    /// The bytes of each file, as a read gives them.
    ghost seen: { Self → Image };

    /// The moment, by a clock that `begin` moves on.
    ghost moment: { Self → ℕ };

    /// What a crash at some moment from that one on might have left.
    ghost left_since: { Self → ℕ → Image → Type 0 };

    /// Whether the file stands in the folder.
    ghost has: { Self → ℕ → Bool };

    /// The file's name is on the disk.
    ghost is_named: { Self → ℕ → Type 0 };

    /// The open file is the one of that number.
    ghost is_file: { Self.File → ℕ → Type 0 };

    /// What a crash from a moment on might have left, one from an earlier moment on might have left too.
    ghost earlier: { (files : Self) (t u : ℕ) (c : Image)
        → tells → t ≤ u → left_since files u c → left_since files t c };

    /// The files as they read are one of the images that a crash now may leave.
    ghost reads_an_image: { (files : Self) → tells → LeftNow moment left_since files (seen files) };

    /// Every file has fewer bytes than a file of a device may have.
    ghost small: { (files : Self) (f : ℕ) → tells → length (seen files f) < SIZE_LIMIT };

    /// Calls for one request begin. The system isn't called: time passes, and that is all.
    fn begin(&mut self)
        ensures ticks { tells → moment self.old < moment self.new }
        ensures idle { tells → Idle seen moment left_since is_named self.old self.new };

    /// Opens a file, if it is there.
    fn open(&mut self, file: u32) -> io::Result<Option<Self::File>>
        ensures found { IfOk result (λ found. IfSome found (λ it. is_file it file)) }
        ensures there { tells → IfOk result (λ found. IfSome found (λ it. has self.new file ≡ true)) }
        ensures absent { tells → IfOk result (λ found. IfNone found (has self.new file ≡ false)) }
        ensures empty { tells → IfOk result (λ found. IfNone found (seen self.new file ≡ [])) }

        ensures idle { tells → Idle seen moment left_since is_named self.old self.new };

    /// Opens a file, and makes it if it isn't there.
    fn create(&mut self, file: u32) -> io::Result<Self::File>
        ensures made { IfOk result (λ it. is_file it file) }
        ensures there { tells → OnOk result (has self.new file ≡ true) }
        ensures idle { tells → Idle seen moment left_since is_named self.old self.new };

    /// Makes durable which files stand in the folder.
    fn sync_folder(&mut self) -> io::Result<()>
        ensures named { tells → OnOk result ((f : ℕ) → has self.old f ≡ true → is_named self.new f) }
        ensures absent { tells → OnOk result ((f : ℕ) → has self.old f ≡ false
            → OnDisk f (seen self.new) (LeftNow moment left_since self.new)) }
        ensures idle { tells → Idle seen moment left_since is_named self.old self.new };

    /// The size of a file in bytes.
    fn len(&mut self, file: &Self::File) -> io::Result<u64>
        ensures len { tells → (f : ℕ) → is_file file.now f → IfOk result (λ n. n ≡ length (seen self.new f)) }
        ensures idle { tells → Idle seen moment left_since is_named self.old self.new };

    /// Fills a front of the buffer with what the file has from the place on, and answers how many bytes those
    /// are: 0 only at the file's end, or where the buffer has no room.
    fn read_at(&mut self, file: &Self::File, at: u64, buf: &mut [u8]) -> io::Result<usize>
        ensures within { IfOk result (λ n. n ≤ length buf.old) }
        ensures front { tells → (f : ℕ) → is_file file.now f
            → IfOk result (λ n. IsFront at n buf.new (seen self.new f)) }
        ensures end { tells → (f : ℕ) → is_file file.now f
            → IfOk result (λ n. n ≡ 0 → (length buf.old ≡ 0) ⊎ (length (seen self.new f) ≤ at)) }

        ensures idle { tells → Idle seen moment left_since is_named self.old self.new };

    /// Writes a front of the bytes over what is there from the place on, and past the end, and answers how
    /// many those are. Until a sync a crash may leave any bytes in the range of all of them, also after a
    /// failure, or what it might have left before. A call that was interrupted wrote nothing.
    fn write_at(&mut self, file: &Self::File, at: u64, bytes: &[u8]) -> io::Result<usize>
        ensures within { IfOk result (λ n. n ≤ length bytes.now) }
        ensures written { tells → (f : ℕ) → is_file file.now f → at ≤ length (seen self.old f)
            → IfOk result (λ n. seen self.new f ≡ over (seen self.old f) at (take n bytes.now)) }

        ensures interrupted { tells → IfErr result (λ e.
            error_kind e ≡ ErrorKind.Interrupted → seen self.new ≡ seen self.old) }
        ensures changes { tells → (f : ℕ) → is_file file.now f → at ≤ length (seen self.old f)
            → ChangesFile seen moment left_since is_named f (Torn at (length bytes.now)) self.old self.new }
        ensures still { tells → NothingNew
            (LeftNow moment left_since self.new) (LeftNow moment left_since self.old) };

    /// Cuts a file to a size. Until a sync a crash may leave any size from the new one to the old one, also
    /// after a failure.
    fn set_len(&mut self, file: &Self::File, len: u64) -> io::Result<()>
        ensures cut { tells → (f : ℕ) → is_file file.now f → len ≤ length (seen self.old f)
            → OnOk result (seen self.new f ≡ take len (seen self.old f)) }
        ensures changes { tells → (f : ℕ) → is_file file.now f → len ≤ length (seen self.old f)
            → ChangesFile seen moment left_since is_named f (Cut len) self.old self.new };

    /// After it, a crash leaves of a file whose name is on the disk what a read gives. A sync that fails may
    /// have reached the disk in part.
    fn sync(&mut self, file: &Self::File) -> io::Result<()>
        ensures durable { tells → (f : ℕ) → is_file file.now f → is_named self.old f
            → OnOk result (OnDisk f (seen self.new) (LeftNow moment left_since self.new)) }
        ensures same { tells → OnOk result (seen self.new ≡ seen self.old) }
        ensures settles { tells → (f : ℕ) → is_file file.now f
            → Settles seen moment left_since is_named f self.old self.new };
}
