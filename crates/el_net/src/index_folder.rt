// A real folder of the files of an index.
ghost use Rattle.std.specs.Prelude.{◌≡◌, ◌+◌, ◌≤◌, ◌++◌, [], length, IfOk, string_bytes, string_len, string_capacity};
ghost use Rattle.el_net.specs.Paths.{index_path, lock_path};

use crate::paths::{put_digit, put_text};
use crate::reading::found;
use el_base::OutOfMemory;
use el_open_files::{FileDisk, OpenFiles};
use std::alloc::Global;
use std::fs::{File, OpenOptions};
use std::io;
use std::marker::Model;
use std::os::unix::fs::FileExt;
use std::rt::Files;

/// The files of an index in a folder: file N, below 100, has the name `NN.idx`, in two digits. The first call
/// that opens one locks the folder by the file `lock` beside them, which is none of theirs, and the system
/// unlocks it when this is let go or the program ends, however it ends. Where the folder can't be had, or
/// another program holds it, each call that opens fails. What real files hold is beyond any contract:
/// contracts see the folder's path.
#[derive(Drop)]
pub struct IndexFolder<R: Files<File = File>> {
    rt: R,
    folder: String,
    // The path of the file that was opened last, in room that fits any file's.
    path: String,
    // The lock's file, once the folder is locked.
    lock: Option<File>,
    // Why the folder couldn't be locked. No clause speaks of it.
    refusal: Option<io::Error>,
}

impl<R: Files<File = File>> Model for IndexFolder<R> {
    ghost use Rattle.std.specs.Prelude.{ℕ, List, ◌+◌, ◌≤◌, string_bytes, string_len, string_capacity};

    ghost Value = { List ℕ };

    ghost view = { λ folder. string_bytes folder.folder };

    ghost invariant = { λ folder. string_len folder.folder + 7 ≤ string_capacity folder.path };
}

// Makes the path that of the file in the folder. It takes no memory, since the room is there.
fn put_path(path: &mut String, folder: &str, file: u32)
    requires { length folder.now + 7 ≤ string_capacity path.old }
    ensures path { string_bytes path.new ≡ index_path folder.now file }
    ensures room { string_capacity path.old ≤ string_capacity path.new }
{
    path.clear();
    put_text(path, folder);
    put_text(path, "/");
    put_digit(path, file / 10);
    put_digit(path, file);
    put_text(path, ".idx");
}

// Makes the path that of the folder's lock. It takes no memory, since the room is there.
fn put_lock_path(path: &mut String, folder: &str)
    requires { length folder.now + 7 ≤ string_capacity path.old }
    ensures path { string_bytes path.new ≡ lock_path folder.now }
    ensures room { string_capacity path.old ≤ string_capacity path.new }
{
    path.clear();
    put_text(path, folder);
    put_text(path, "/lock");
}

// Options of a file that is read and written.
fn writing() -> OpenOptions {
    let mut options = OpenOptions::new();
    options.read(true);
    options.write(true);
    options
}

// Options of a file that is read and written, and made if it isn't there.
fn making() -> OpenOptions {
    let mut options = writing();
    options.create(true);
    options
}

/// The files of an index in the folder of that path as a disk, none of them open, and room for their paths:
/// no call takes memory of its own.
pub fn index_files<R: Files<File = File> + Drop>(
    rt: R,
    alloc: Global,
    folder: &str,
) -> Result<FileDisk<IndexFolder<R>>, OutOfMemory>
    ensures { IfOk result (λ disk. disk ≡ record { files = folder.now; made = 0; faults = 0 }) }
{
    let files = IndexFolder::new(rt, alloc, folder)?;
    FileDisk::over(files, alloc)
}

impl<R: Files<File = File> + Drop> IndexFolder<R> {
    /// The folder of that path, and room for the paths of its files. It is looked for as a file is opened.
    pub fn new(rt: R, alloc: Global, folder: &str) -> Result<IndexFolder<R>, OutOfMemory>
        ensures { IfOk result (λ it. it ≡ folder.now) }
    {
        let path = String::with_capacity(alloc, folder.len() + 7)?;
        let folder = String::from_str(alloc, folder)?;
        Ok(IndexFolder {
            rt,
            folder,
            path,
            lock: None,
            refusal: None,
        })
    }

    /// The folder's path.
    pub fn folder(&self) -> &str
        ensures { result.now ≡ self.now }
    {
        self.folder.as_str()
    }

    /// Why the folder couldn't be locked: `WouldBlock` where another program holds it.
    pub fn refusal(&self) -> Option<io::Error> {
        self.refusal
    }

    // Locks the folder, unless it is locked.
    fn hold(&mut self) -> io::Result<()>
        ensures { self.new ≡ self.old }
    {
        if self.lock.is_some() {
            return Ok(());
        }
        match self.lock_file() {
            Ok(file) => {
                self.lock = Some(file);
                Ok(())
            }
            Err(error) => {
                self.refusal = Some(error);
                Err(error)
            }
        }
    }

    // The lock's file, which is made if it isn't there, and locked.
    fn lock_file(&mut self) -> io::Result<File>
        ensures { self.new ≡ self.old }
    {
        put_lock_path(&mut self.path, self.folder.as_str());
        let file = making().open(&self.rt, self.path.as_str())?;
        match file.try_lock() {
            Ok(()) => Ok(file),
            Err(error) => Err(io::Error::from(error)),
        }
    }
}

impl<R: Files<File = File> + Drop> OpenFiles for IndexFolder<R> {
    ghost use Rattle.std.specs.Prelude.{[], false};

    type File = File;

    ghost tells = { ⊥ };

    ghost seen = { λ folder f. [] };

    ghost moment = { λ folder. 0 };

    ghost left_since = { λ folder t c. ⊥ };

    ghost has = { λ folder f. false };

    ghost is_named = { λ folder f. ⊥ };

    ghost is_file = { λ it f. Unit {0} };

    ghost earlier = { λ folder t u c told le left. absurd told };

    ghost reads_an_image = { λ folder told. absurd told };

    ghost small = { λ folder f told. absurd told };

    fn begin(&mut self) {}

    fn open(&mut self, file: u32) -> io::Result<Option<File>> {
        self.hold()?;
        put_path(&mut self.path, self.folder.as_str(), file);
        found(writing().open(&self.rt, self.path.as_str()))
    }

    fn create(&mut self, file: u32) -> io::Result<File> {
        self.hold()?;
        put_path(&mut self.path, self.folder.as_str(), file);
        making().open(&self.rt, self.path.as_str())
    }

    fn sync_folder(&mut self) -> io::Result<()> {
        let mut options = OpenOptions::new();
        options.read(true);
        options.open(&self.rt, self.folder.as_str())?.sync_all()
    }

    fn len(&mut self, file: &File) -> io::Result<u64> {
        Ok(file.metadata()?.len())
    }

    fn read_at(&mut self, file: &File, at: u64, buf: &mut [u8]) -> io::Result<usize> {
        file.read_at(buf, at)
    }

    fn write_at(&mut self, file: &File, at: u64, bytes: &[u8]) -> io::Result<usize> {
        file.write_at(bytes, at)
    }

    fn set_len(&mut self, file: &File, len: u64) -> io::Result<()> {
        file.set_len(len)
    }

    fn sync(&mut self, file: &File) -> io::Result<()> {
        file.sync_data()
    }
}
