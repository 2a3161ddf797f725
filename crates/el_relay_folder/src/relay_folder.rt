// A real folder of transactions that wait.
ghost use Rattle.std.specs.Prelude.{◌≡◌, ◌++◌, IfOk, string_bytes};
ghost use Rattle.el_base.specs.Shown.{shown};
ghost use Rattle.el_relay_folder.specs.Paths.{tx_path, part_path, in_folder};

use crate::outbox::Outbox;
use el_base::{Hash32, OutOfMemory};
use std::alloc::{AllocGlobal, Global};
use std::fs::{DirEntry, File, OpenOptions, exists, read_dir, remove_file, rename};
use std::io;
use std::io::{ErrorKind, Write};
use std::marker::Model;
use std::rt::Files;

/// A folder of transactions that wait: the file of one has its shown txid as name, and `.tx` after it, and
/// `.tx.part` while it is written. What real files hold is beyond any contract: contracts see the folder's
/// path. A path takes memory as it is made.
#[derive(Drop)]
pub struct RelayFolder<R: Files<File = File>> {
    rt: R,
    alloc: Global,
    folder: String,
}

impl<R: Files<File = File>> Model for RelayFolder<R> {
    ghost use Rattle.std.specs.Prelude.{ℕ, List, string_bytes};

    ghost Value = { List ℕ };

    ghost view = { λ folder. string_bytes folder.folder };
}

/// A transaction's file that is being written.
#[derive(Drop)]
pub struct TxDraft {
    id: Hash32,
    file: File,
}

// The shown text of a txid.
fn shown_text(alloc: Global, id: &Hash32) -> io::Result<String>
    ensures { IfOk result (λ text. string_bytes text ≡ shown id.now.0) }
{
    let mut outer = id.0;
    outer.reverse();
    let text = hex::encode(alloc, outer.as_slice())?;
    Ok(text)
}

// The path of a transaction's file in a folder, whose name ends so.
fn path_in(alloc: Global, folder: &str, id: &Hash32, end: &str) -> io::Result<String>
    ensures { IfOk result (λ path. string_bytes path ≡ in_folder folder.now id.now end.now) }
{
    let name = shown_text(alloc, id)?;
    let mut path = String::from_str(alloc, folder)?;
    path.push_str("/")?;
    path.push_str(name.as_str())?;
    path.push_str(end)?;
    Ok(path)
}

// The path of a transaction's file in a folder.
fn own_path(alloc: Global, folder: &str, id: &Hash32) -> io::Result<String>
    ensures { IfOk result (λ path. string_bytes path ≡ tx_path folder.now id.now) }
{
    path_in(alloc, folder, id, ".tx")
}

// The path of a transaction's file in a folder while it is written.
fn draft_path(alloc: Global, folder: &str, id: &Hash32) -> io::Result<String>
    ensures { IfOk result (λ path. string_bytes path ≡ part_path folder.now id.now) }
{
    path_in(alloc, folder, id, ".tx.part")
}

// Whether an entry of the folder is a transaction's file under its name.
fn is_waiting<R: Files + Drop>(entry: io::Result<DirEntry<R>>) -> io::Result<bool> {
    match entry {
        Ok(entry) => Ok(entry.file_name().ends_with(".tx")),
        Err(e) if e.kind() == ErrorKind::InvalidFilename => Ok(false),
        Err(e) => Err(e),
    }
}

// Options of a file that is written, made if it isn't there, and cut.
fn making() -> OpenOptions {
    let mut options = OpenOptions::new();
    options.write(true);
    options.create(true);
    options.truncate(true);
    options
}

impl<R: Files<File = File> + Drop> RelayFolder<R> {
    /// The folder of that path. It is looked for at each call.
    pub fn new(rt: R, alloc: Global, folder: &str) -> Result<RelayFolder<R>, OutOfMemory>
        ensures { IfOk result (λ it. it ≡ folder.now) }
    {
        let folder = String::from_str(alloc, folder)?;
        Ok(RelayFolder { rt, alloc, folder })
    }

    /// The folder's path.
    pub fn folder(&self) -> &str
        ensures { result.now ≡ self.now }
    {
        self.folder.as_str()
    }

    // Removes the file of a transaction that was being written.
    fn remove(&self, id: &Hash32) -> io::Result<()> {
        let path = draft_path(self.alloc, self.folder.as_str(), id)?;
        remove_file(&self.rt, path.as_str())
    }

    // Puts the file of a transaction under its name.
    fn rename(&self, id: &Hash32) -> io::Result<()> {
        let from = draft_path(self.alloc, self.folder.as_str(), id)?;
        let to = own_path(self.alloc, self.folder.as_str(), id)?;
        rename(&self.rt, from.as_str(), to.as_str())
    }
}

impl<R: Files<File = File> + AllocGlobal + Clone + Drop> Outbox for RelayFolder<R> {
    ghost use Rattle.std.specs.Prelude.{[]};
    ghost use Rattle.el_relay_folder.specs.Outboxes.{empty_draft};

    type Draft = TxDraft;

    ghost tells = { ⊥ };

    ghost files = { λ folder. record { put = []; lasting = [] } };

    ghost draft = { λ file. empty_draft file.id };

    fn has(&mut self, id: &Hash32) -> io::Result<bool> {
        let path = own_path(self.alloc, self.folder.as_str(), id)?;
        exists(&self.rt, path.as_str())
    }

    fn waiting(&mut self) -> io::Result<u64> {
        let mut count = 0u64;
        for entry in read_dir(&self.rt, self.folder.as_str())? {
            if is_waiting(entry)? {
                count = count.saturating_add(1);
            }
        }
        Ok(count)
    }

    fn create(&mut self, id: &Hash32) -> io::Result<TxDraft> {
        let path = draft_path(self.alloc, self.folder.as_str(), id)?;
        let file = making().open(&self.rt, path.as_str())?;
        Ok(TxDraft { id: *id, file })
    }

    fn write(&mut self, file: &mut TxDraft, text: &[u8]) -> io::Result<usize> {
        file.file.write(text)
    }

    fn sync(&mut self, file: &mut TxDraft) -> io::Result<()> {
        file.file.sync_all()
    }

    fn discard(&mut self, file: TxDraft) {
        let _ = self.remove(&file.id);
    }

    fn put(&mut self, file: TxDraft) -> io::Result<()> {
        let renamed = self.rename(&file.id);
        if renamed.is_err() {
            let _ = self.remove(&file.id);
        }
        renamed
    }

    fn sync_folder(&mut self) -> io::Result<()> {
        let mut options = OpenOptions::new();
        options.read(true);
        options.open(&self.rt, self.folder.as_str())?.sync_all()
    }
}
