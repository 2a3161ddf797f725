// A transaction's file, written and put under its name.
ghost use Rattle.std.specs.Prelude.{◌≡◌, true, IfOk, OnOk};
ghost use Rattle.el_relay_folder.specs.Outboxes.{empty_draft, with_more_text, durable, HasFile, PutsNone, PutsOnly};

use crate::outbox::Outbox;
use el_base::Hash32;
use std::io;
use std::io::ErrorKind;

/// How many files may stand under their names before another one is put.
pub const MOST_WAITING: u64 = 10_000;

// Adds all of the text after what the file has. A call that was interrupted is made again.
fn write_all<F: Outbox>(outbox: &mut F, file: &mut F::Draft, text: &[u8]) -> io::Result<()>
    ensures written { F.tells → OnOk result (F.draft file.new ≡ with_more_text (F.draft file.old) text.now) }
    ensures none { F.tells → PutsNone (F.files outbox.old) (F.files outbox.new) }
{
    let mut done = 0usize;
    for _ in 0..u64::MAX {
        match outbox.write(file, &text[done..]) {
            Ok(n) if n == text.len() - done => return Ok(()),
            Ok(0) => return Err(io::Error::from(ErrorKind::WriteZero)),
            Ok(n) => done += n,
            Err(e) if e.kind() == ErrorKind::Interrupted => {}
            Err(e) => return Err(e),
        }
    }
    Err(io::Error::from(ErrorKind::Interrupted))
}

// Writes the text into a file that has none, and makes it durable.
fn fill<F: Outbox>(outbox: &mut F, file: &mut F::Draft, text: &[u8]) -> io::Result<()>
    ensures written { F.tells
        → OnOk result (F.draft file.new ≡ durable (with_more_text (F.draft file.old) text.now)) }
    ensures none { F.tells → PutsNone (F.files outbox.old) (F.files outbox.new) }
{
    write_all(outbox, file, text)?;
    outbox.sync(file)
}

// Writes a file for the transaction with that text, all of which is on the disk then.
fn write_draft<F: Outbox>(outbox: &mut F, id: &Hash32, text: &[u8]) -> io::Result<F::Draft>
    ensures written { F.tells → IfOk result (λ file.
        F.draft file ≡ durable (with_more_text (empty_draft id.now) text.now)) }
    ensures none { F.tells → PutsNone (F.files outbox.old) (F.files outbox.new) }
{
    let mut file = outbox.create(id)?;
    match fill(outbox, &mut file, text) {
        Ok(()) => Ok(file),
        Err(e) => {
            outbox.discard(file);
            Err(e)
        }
    }
}

// Fails where as many files stand under their names as may.
fn expect_room<F: Outbox>(outbox: &mut F) -> io::Result<()>
    ensures { F.tells → PutsNone (F.files outbox.old) (F.files outbox.new) }
{
    if outbox.waiting()? < MOST_WAITING {
        Ok(())
    } else {
        Err(io::Error::from(ErrorKind::StorageFull))
    }
}

// Writes a file for one more transaction, with that text, all of which is on the disk then.
fn write_more<F: Outbox>(outbox: &mut F, id: &Hash32, text: &[u8]) -> io::Result<F::Draft>
    ensures written { F.tells → IfOk result (λ file.
        F.draft file ≡ durable (with_more_text (empty_draft id.now) text.now)) }
    ensures none { F.tells → PutsNone (F.files outbox.old) (F.files outbox.new) }
{
    expect_room(outbox)?;
    write_draft(outbox, id, text)
}

// Puts a file of the transaction with that text under its name, unless one stands there.
fn put_file<F: Outbox>(outbox: &mut F, id: &Hash32, text: &[u8]) -> io::Result<()>
    ensures put { F.tells → OnOk result (HasFile (F.files outbox.new).put id.now) }
    ensures only { F.tells → PutsOnly (record { txid = id.now; text = text.now })
        (F.files outbox.old) (F.files outbox.new) }
{
    if outbox.has(id)? {
        return Ok(());
    }
    let file = write_more(outbox, id, text)?;
    outbox.put(file)
}

/// Puts a file of the transaction with that text under its name, unless one stands there. It is on the disk
/// then.
pub fn keep_file<F: Outbox>(outbox: &mut F, id: &Hash32, text: &[u8]) -> io::Result<()>
    ensures lasting { F.tells → OnOk result (HasFile (F.files outbox.new).lasting id.now) }
    ensures only { F.tells → PutsOnly (record { txid = id.now; text = text.now })
        (F.files outbox.old) (F.files outbox.new) }
{
    put_file(outbox, id, text)?;
    outbox.sync_folder()
}
