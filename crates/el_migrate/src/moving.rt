// All rows of an index of format 1 are moved into the files of format 2.
ghost use Rattle.std.specs.Prelude.{◌≡◌, ◌≢◌, ◌⊎◌, ◌<◌, ◌≤◌, ◌+◌, ◌*◌, ◌^◌, ◌∷◌, ℕ, List, [], length, IfOk, OnOk, IfErr};
ghost use Rattle.el_outside.specs.Counts.{HasCause, CountsOnly};
ghost use Rattle.el_outside.specs.Disk.{Image};
ghost use Rattle.el_row_formats.specs.declared.limits.TheConstants.{MIN_HEAD_BITS, MAX_HEAD_BITS};
ghost use Rattle.el_row_formats.specs.declared.table.Table.{Table};
ghost use Rattle.el_row_formats.specs.Tables.{size_of};
ghost use Rattle.el_row_formats.specs.OldRowBytes.{old_size_of};
ghost use Rattle.el_rows.specs.Changes.{count_at};
ghost use Rattle.el_tables.specs.ChainLists.{ListedBlock};
ghost use Rattle.el_tables.specs.Lists.{Lists};
ghost use Rattle.el_tables.specs.Tables.{HeadCounts};
ghost use Rattle.el_redo.specs.declared.faults.OpenFault.TheVariants as fault;
ghost use Rattle.el_redone.specs.Steps.{EachNow, Leaves, AreOnDisk};
ghost use Rattle.el_redone.specs.declared.steps.TheConstants.{ROOT};
ghost use Rattle.el_pages.specs.declared.layout.TheConstants.{FORMAT_1, FORMAT_2};
ghost use Rattle.el_pages.specs.Layouts.{file_of};
ghost use Rattle.el_migrate.specs.within.Moving.{AreHeads, IsMoved, HasOnlyRows, HasOldRows, HasOldFiles, new_rows};
ghost use Rattle.el_migrate.specs.within.Moved.{HaveOldRows, HaveNewRows, AreGrown, IsMetaWritten, new_count};

use crate::heads::no_heads;
use crate::old_pages::OldPages;
use crate::runs::{BUFFER, move_table, write_heads};
use crate::watch::Watch;
use el_base::OutOfMemory;
use el_outside::{Disk, DiskFailed};
use el_pages::meta_row_of;
use el_redo::OpenFault;
use el_redone::{Span, sync_files};
use el_row_formats::{TABLES, Table, bucket_count};
use std::alloc::Global;

// Cuts the files of format 2 to nothing, the redo file too, and syncs them.
fn clear_files<D: Disk>(disk: &mut D) -> Result<(), DiskFailed>
    ensures empty { D.tells → OnOk result ((f : ℕ) → 20 ≤ f → f < 30 → D.seen disk.new f ≡ []) }
    ensures others { D.tells → (f : ℕ) → (f < 20) ⊎ (30 ≤ f) → D.seen disk.new f ≡ D.seen disk.old f }
    ensures crash { D.tells → (files : Image) → EachNow ⟦<D as Disk>⟧ (HasOldFiles files) disk.old
        → Leaves ⟦<D as Disk>⟧ (HasOldFiles files) disk.old disk.new }
    ensures cause { HasCause (D.faults disk.old) (D.faults disk.new) result }
{
    for file in 20..30 {
        disk.cut(file, 0)?;
        disk.sync(file)?;
    }
    Ok(())
}

// A table without buckets.
fn move_plain<D: Disk, W: Watch>(
    disk: &mut D,
    t: Table,
    pages: &OldPages,
    old: &mut [u8],
    new: &mut [u8],
    watch: &mut W,
) -> Result<(), DiskFailed>
    requires old_long { length old.old ≡ 65536 }
    requires long { length new.old ≡ 65536 }
    requires empty { D.tells → D.seen disk.old (file_of FORMAT_2 t) ≡ [] }
    ensures old_long { length old.new ≡ length old.old }
    ensures long { length new.new ≡ length new.old }
    ensures rows { D.tells → (heads : HeadCounts) (bs : List ListedBlock) (l : Lists) (buckets : ℕ)
        → IsMoved t → t ≢ Table.Txs → t ≢ Table.Scripts
        → HasOldRows heads bs l t (count_at pages.now t) (D.seen disk.old (file_of FORMAT_1 t))
        → count_at pages.now t * old_size_of t ≤ length (D.seen disk.old (file_of FORMAT_1 t))
        → OnOk result (HasOnlyRows t (D.seen disk.new (file_of FORMAT_2 t)) (new_rows buckets bs l t)
        (count_at pages.now t)) }
    ensures grown { D.tells → OnOk result (count_at pages.now t * size_of t
        ≡ length (D.seen disk.new (file_of FORMAT_2 t))) }
    ensures others { D.tells → (f : ℕ) → f ≢ file_of FORMAT_2 t → D.seen disk.new f ≡ D.seen disk.old f }
    ensures crash { D.tells → (files : Image) → EachNow ⟦<D as Disk>⟧ (HasOldFiles files) disk.old
        → Leaves ⟦<D as Disk>⟧ (HasOldFiles files) disk.old disk.new }
    ensures cause { HasCause (D.faults disk.old) (D.faults disk.new) result }
{
    let mut none = [0];
    move_table(disk, &mut none, t, pages.count(t), old, new, watch)
}

// Transactions and the heads of their buckets.
fn move_txs<D: Disk, W: Watch>(
    disk: &mut D,
    links: &mut [u64],
    pages: &OldPages,
    old: &mut [u8],
    new: &mut [u8],
    watch: &mut W,
) -> Result<(), DiskFailed>
    requires some { 0 < length links.old }
    requires limit { length links.old ≤ 2 ^ 24 }
    requires old_long { length old.old ≡ 65536 }
    requires long { length new.old ≡ 65536 }
    requires empty { D.tells → D.seen disk.old 22 ≡ [] }
    requires no_heads { D.tells → D.seen disk.old 23 ≡ [] }
    ensures old_long { length old.new ≡ length old.old }
    ensures long { length new.new ≡ length new.old }
    ensures rows { D.tells → (heads : HeadCounts) (bs : List ListedBlock) (l : Lists)
        → HasOldRows heads bs l Table.Txs (count_at pages.now Table.Txs) (D.seen disk.old 2)
        → count_at pages.now Table.Txs * old_size_of Table.Txs ≤ length (D.seen disk.old 2)
        → AreHeads links.old []
        → OnOk result (HasOnlyRows Table.Txs (D.seen disk.new 22) (new_rows (length links.old) bs l Table.Txs)
        (count_at pages.now Table.Txs)
        × HasOnlyRows Table.TxHeads (D.seen disk.new 23) (new_rows (length links.old) bs l Table.TxHeads)
        (length links.old)) }
    ensures grown { D.tells → OnOk result
        ((count_at pages.now Table.Txs * size_of Table.Txs ≡ length (D.seen disk.new 22))
        × (length links.old * 8 ≡ length (D.seen disk.new 23))) }
    ensures others { D.tells → (f : ℕ) → f ≢ 22 → f ≢ 23 → D.seen disk.new f ≡ D.seen disk.old f }
    ensures crash { D.tells → (files : Image) → EachNow ⟦<D as Disk>⟧ (HasOldFiles files) disk.old
        → Leaves ⟦<D as Disk>⟧ (HasOldFiles files) disk.old disk.new }
    ensures cause { HasCause (D.faults disk.old) (D.faults disk.new) result }
{
    move_table(
        disk,
        links,
        Table::Txs,
        pages.count(Table::Txs),
        old,
        new,
        watch,
    )?;
    write_heads(disk, links, Table::TxHeads, new)
}

// Scripts and the heads of their buckets.
fn move_scripts<D: Disk, W: Watch>(
    disk: &mut D,
    links: &mut [u64],
    pages: &OldPages,
    old: &mut [u8],
    new: &mut [u8],
    watch: &mut W,
) -> Result<(), DiskFailed>
    requires some { 0 < length links.old }
    requires limit { length links.old ≤ 2 ^ 24 }
    requires old_long { length old.old ≡ 65536 }
    requires long { length new.old ≡ 65536 }
    requires empty { D.tells → D.seen disk.old 26 ≡ [] }
    requires no_heads { D.tells → D.seen disk.old 27 ≡ [] }
    ensures old_long { length old.new ≡ length old.old }
    ensures long { length new.new ≡ length new.old }
    ensures rows { D.tells → (heads : HeadCounts) (bs : List ListedBlock) (l : Lists)
        → HasOldRows heads bs l Table.Scripts (count_at pages.now Table.Scripts) (D.seen disk.old 6)
        → count_at pages.now Table.Scripts * old_size_of Table.Scripts ≤ length (D.seen disk.old 6)
        → AreHeads links.old []
        → OnOk result (HasOnlyRows Table.Scripts (D.seen disk.new 26)
        (new_rows (length links.old) bs l Table.Scripts) (count_at pages.now Table.Scripts)
        × HasOnlyRows Table.ScriptHeads (D.seen disk.new 27)
        (new_rows (length links.old) bs l Table.ScriptHeads)
        (length links.old)) }
    ensures grown { D.tells → OnOk result
        ((count_at pages.now Table.Scripts * size_of Table.Scripts ≡ length (D.seen disk.new 26))
        × (length links.old * 8 ≡ length (D.seen disk.new 27))) }
    ensures others { D.tells → (f : ℕ) → f ≢ 26 → f ≢ 27 → D.seen disk.new f ≡ D.seen disk.old f }
    ensures crash { D.tells → (files : Image) → EachNow ⟦<D as Disk>⟧ (HasOldFiles files) disk.old
        → Leaves ⟦<D as Disk>⟧ (HasOldFiles files) disk.old disk.new }
    ensures cause { HasCause (D.faults disk.old) (D.faults disk.new) result }
{
    move_table(
        disk,
        links,
        Table::Scripts,
        pages.count(Table::Scripts),
        old,
        new,
        watch,
    )?;
    write_heads(disk, links, Table::ScriptHeads, new)
}

// What the moving takes of memory: the heads of transactions and of scripts, and two buffers.
#[derive(Drop)]
struct Room {
    txs: Vec<u64>,
    scripts: Vec<u64>,
    from: Vec<u8>,
    to: Vec<u8>,
}

// Room for 2^bits buckets of each kind.
fn take_room(alloc: Global, bits: u32) -> Result<Room, OutOfMemory>
    requires { bits ≤ MAX_HEAD_BITS }
    ensures txs { IfOk result (λ room. (length room.txs.items ≡ 2 ^ bits) × AreHeads room.txs.items []) }
    ensures scripts { IfOk result (λ room. (length room.scripts.items ≡ 2 ^ bits)
        × AreHeads room.scripts.items []) }
    ensures from_long { IfOk result (λ room. length room.from.items ≡ 65536) }
    ensures to_long { IfOk result (λ room. length room.to.items ≡ 65536) }
{
    Ok(Room {
        txs: no_heads(alloc, bits)?,
        scripts: no_heads(alloc, bits)?,
        from: vec![in alloc; 0u8; BUFFER]?,
        to: vec![in alloc; 0u8; BUFFER]?,
    })
}

// Moves all rows into the files of format 2, which are empty.
fn move_tables<D: Disk, W: Watch>(
    disk: &mut D,
    pages: &OldPages,
    txs: &mut [u64],
    scripts: &mut [u64],
    from: &mut [u8],
    to: &mut [u8],
    watch: &mut W,
) -> Result<(), DiskFailed>
    requires some { 0 < length txs.old }
    requires as_many { length scripts.old ≡ length txs.old }
    requires limit { length txs.old ≤ 2 ^ 24 }
    requires from_long { length from.old ≡ 65536 }
    requires to_long { length to.old ≡ 65536 }
    requires empty { D.tells → (f : ℕ) → 20 ≤ f → f < 30 → D.seen disk.old f ≡ [] }
    ensures rows { D.tells → (heads : HeadCounts) (bs : List ListedBlock) (l : Lists) (bits : ℕ)
        → HaveOldRows heads bs l pages.now (D.seen disk.old) → AreHeads txs.old []
        → AreHeads scripts.old [] → length txs.old ≡ 2 ^ bits
        → OnOk result (HaveNewRows bits bs l pages.now (D.seen disk.new)) }
    ensures grown { D.tells → (bits : ℕ) → length txs.old ≡ 2 ^ bits
        → OnOk result (AreGrown bits pages.now (D.seen disk.new)) }
    ensures others { D.tells → (f : ℕ) → (f < 21) ⊎ (28 < f) → D.seen disk.new f ≡ D.seen disk.old f }
    ensures crash { D.tells → (files : Image) → EachNow ⟦<D as Disk>⟧ (HasOldFiles files) disk.old
        → Leaves ⟦<D as Disk>⟧ (HasOldFiles files) disk.old disk.new }
    ensures cause { HasCause (D.faults disk.old) (D.faults disk.new) result }
{
    move_plain(disk, Table::Blocks, pages, from, to, watch)?;
    move_txs(disk, txs, pages, from, to, watch)?;
    move_plain(disk, Table::Outs, pages, from, to, watch)?;
    move_plain(disk, Table::Ins, pages, from, to, watch)?;
    move_scripts(disk, scripts, pages, from, to, watch)?;
    move_plain(disk, Table::Entries, pages, from, to, watch)
}

// How many rows each table of format 2 has.
fn counts_of(pages: &OldPages, bits: u32) -> [u64; TABLES]
    requires { bits ≤ MAX_HEAD_BITS }
    ensures { (t : Table) → count_at result t ≡ new_count bits pages.now t }
{
    let heads = bucket_count(bits);
    [
        pages.count(Table::Blocks),
        pages.count(Table::Txs),
        heads,
        pages.count(Table::Outs),
        pages.count(Table::Ins),
        pages.count(Table::Scripts),
        heads,
        pages.count(Table::Entries),
    ]
}

// Writes the meta row and a closed gate, and brings all files of format 2 to the disk.
fn close_files<D: Disk>(
    disk: &mut D,
    magic: [u8; 4],
    bits: u32,
    pages: &OldPages,
) -> Result<(), DiskFailed>
    requires most { bits ≤ MAX_HEAD_BITS }
    requires no_meta { D.tells → D.seen disk.old 20 ≡ [] }
    requires no_redo { D.tells → D.seen disk.old 29 ≡ [] }
    ensures written { D.tells → OnOk result (IsMetaWritten magic bits pages.now (D.seen disk.new)) }
    ensures durable { D.tells → OnOk result (AreOnDisk ⟦<D as Disk>⟧ 20 30 disk.new) }
    ensures others { D.tells → OnOk result ((f : ℕ) → f ≢ 20 → f ≢ 29
        → D.seen disk.new f ≡ D.seen disk.old f) }
    ensures beside { D.tells → (f : ℕ) → (f < 20) ⊎ (29 < f) → D.seen disk.new f ≡ D.seen disk.old f }
    ensures crash { D.tells → (files : Image) → EachNow ⟦<D as Disk>⟧ (HasOldFiles files) disk.old
        → Leaves ⟦<D as Disk>⟧ (HasOldFiles files) disk.old disk.new }
    ensures cause { HasCause (D.faults disk.old) (D.faults disk.new) result }
{
    let row = meta_row_of(magic, bits, &counts_of(pages, bits));
    disk.write_at(20, 0, &row)?;
    disk.write_at(29, 0, &[0])?;
    sync_files(
        disk,
        Span {
            first: 20,
            redo: 30,
        },
    )
}

// Writes all of format 2 but its root. Until then a crash leaves format 1 and the root as they are.
pub(crate) fn write_new<D: Disk, W: Watch>(
    alloc: Global,
    disk: &mut D,
    magic: [u8; 4],
    bits: u32,
    pages: &OldPages,
    watch: &mut W,
) -> Result<(), OpenFault>
    requires { bits ≤ MAX_HEAD_BITS }
    ensures rows { D.tells → (heads : HeadCounts) (bs : List ListedBlock) (l : Lists)
        → HaveOldRows heads bs l pages.now (D.seen disk.old)
        → OnOk result (HaveNewRows bits bs l pages.now (D.seen disk.new)) }
    ensures grown { D.tells → OnOk result (AreGrown bits pages.now (D.seen disk.new)) }
    ensures written { D.tells → OnOk result (IsMetaWritten magic bits pages.now (D.seen disk.new)) }
    ensures durable { D.tells → OnOk result (AreOnDisk ⟦<D as Disk>⟧ 20 30 disk.new) }
    ensures others { D.tells → (f : ℕ) → (f < 20) ⊎ (29 < f) → D.seen disk.new f ≡ D.seen disk.old f }
    ensures crash { D.tells → (files : Image) → EachNow ⟦<D as Disk>⟧ (HasOldFiles files) disk.old
        → Leaves ⟦<D as Disk>⟧ (HasOldFiles files) disk.old disk.new }
    ensures only { IfErr result (λ e. (e ≡ fault.DiskFailed) ⊎ (e ≡ fault.Memory)) }
    ensures cause { CountsOnly (D.faults disk.old) (D.faults disk.new) fault.DiskFailed result }
{
    let mut room = match take_room(alloc, bits) {
        Ok(room) => room,
        Err(OutOfMemory) => return Err(OpenFault::Memory),
    };
    clear_files(disk)?;
    move_tables(
        disk,
        pages,
        room.txs.as_mut_slice(),
        room.scripts.as_mut_slice(),
        room.from.as_mut_slice(),
        room.to.as_mut_slice(),
        watch,
    )?;
    close_files(disk, magic, bits, pages)?;
    Ok(())
}
