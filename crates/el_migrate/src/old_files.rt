// The checks of an index of format 1: the meta row, and that each table's file has its rows.
ghost use Rattle.std.specs.Prelude.{◌≡◌, ◌≢◌, ◌⊎◌, ◌≤◌, ◌<◌, ◌+◌, ◌*◌, ℕ, List, length, take, drop, OnOk, IfOk, IfErr, IsTrue, ◌↔◌};
ghost use Rattle.std.specs.Int.{w32, w64, from_le_bytes};
ghost use Rattle.el_outside.specs.Counts.{HasCause, CountsOnly};
ghost use Rattle.el_outside.specs.Disk.{NothingNew};
ghost use Rattle.el_outside.specs.Moments.{LeftNow, Passes};
ghost use Rattle.el_row_formats.specs.declared.table.Table.{Table};
ghost use Rattle.el_rows.specs.Changes.{count_at};
ghost use Rattle.el_redo.specs.declared.faults.OpenFault.TheVariants as fault;
ghost use Rattle.el_redone.specs.Steps.{Leaves};
ghost use Rattle.el_pages.specs.declared.layout.TheConstants.{FORMAT_1};
ghost use Rattle.el_pages.specs.Layouts.{file_of, size_in, limit_in};
ghost use Rattle.el_pages.specs.Records.{meta_of};
ghost use Rattle.el_recovery.specs.Checks.{Found, bad_index, word, count_told, IsBadCount, IsBadSize, sizes_in};
ghost use Rattle.el_recovery.specs.within.Checking.{AreSoManyBytes};
ghost use Rattle.el_migrate.specs.OldChecks.{HasOldHeads, IsOldHead, IsBadOldHead, IsBadOldHeads, IsBadOldRow, IsBadOldFiles};
ghost use Rattle.el_migrate.specs.OldIndexes.{old_head_bytes, HasOldCounts};
ghost use Rattle.el_migrate.specs.declared.old_files.TheConstants.{OLD_BUCKETS};

use el_outside::{Disk, DiskFailed};
use el_pages::{FORMAT_1, LETTERS};
use el_recovery::{file_sizes, number_in, read_whole};
use el_redo::OpenFault;
use el_row_formats::{TABLES, Table};

/// How many rows each table of heads has in an index of format 1 with blocks.
pub const OLD_BUCKETS: u64 = 65536;

// The number in four bytes of the meta row.
fn word_at(meta: &[u8; 76], at: usize) -> u64
    requires { at + 4 ≤ 76 }
    ensures word { result ≡ word meta.now at }
    ensures bytes { AreSoManyBytes meta.now 76 }
{
    let word = [meta[at], meta[at + 1], meta[at + 2], meta[at + 3]];
    u64::from(u32::from_le_bytes(word))
}

// The network's magic, as a number in four bytes.
fn network_of(magic: &[u8; 4]) -> u64
    ensures number { result ≡ from_le_bytes w32 magic.now }
    ensures bytes { AreSoManyBytes magic.now 4 }
{
    let [a, b, c, d] = *magic;
    u64::from(u32::from_le_bytes([a, b, c, d]))
}

// The number in eight bytes of the meta row.
fn count_in(meta: &[u8; 76], at: usize) -> u64
    requires { at + 8 ≤ 76 }
    ensures { result ≡ from_le_bytes w64 (take 8 (drop at meta.now)) }
{
    let count = [
        meta[at],
        meta[at + 1],
        meta[at + 2],
        meta[at + 3],
        meta[at + 4],
        meta[at + 5],
        meta[at + 6],
        meta[at + 7],
    ];
    u64::from_le_bytes(count)
}

// Whether the meta row begins with the letters, this format and this network's magic.
fn check_head(meta: &[u8; 76], magic: [u8; 4]) -> Result<(), OpenFault>
    ensures ok { OnOk result (IsOldHead FORMAT_1 (from_le_bytes w32 magic) meta.now) }
    ensures bytes { OnOk result (AreSoManyBytes meta.now 76 × AreSoManyBytes magic 4) }
    ensures bad { IfErr result (λ e. (found : Found) × (e ≡ bad_index found)
        × IsBadOldHead FORMAT_1 (from_le_bytes w32 magic) meta.now found) }
{
    let letters = word_at(meta, 0);
    if letters != LETTERS {
        return Err(OpenFault::BadIndex {
            file: 0,
            wanted: LETTERS,
            found: letters,
        });
    }
    let format = word_at(meta, 4);
    if format != 1 {
        return Err(OpenFault::BadIndex {
            file: 0,
            wanted: 1,
            found: format,
        });
    }
    let network = word_at(meta, 8);
    let wanted = network_of(&magic);
    if network != wanted {
        return Err(OpenFault::BadIndex {
            file: 0,
            wanted,
            found: network,
        });
    }
    Ok(())
}

// The counts in the meta row.
fn read_counts(meta: &[u8; 76]) -> [u64; TABLES]
    ensures { (t : Table) → count_at result t ≡ count_told FORMAT_1 meta.now t }
{
    [
        count_in(meta, 12),
        count_in(meta, 20),
        count_in(meta, 28),
        count_in(meta, 36),
        count_in(meta, 44),
        count_in(meta, 52),
        count_in(meta, 60),
        count_in(meta, 68),
    ]
}

// Whether no table has rows.
fn are_empty(counts: &[u64; TABLES]) -> bool
    ensures { IsTrue result ↔ ((t : Table) → count_at counts.now t ≡ 0) }
{
    for t in Table::ALL {
        if number_in(counts, t) != 0 {
            return false;
        }
    }
    true
}

// Whether this table of heads has all its rows.
fn check_head_count(counts: &[u64; TABLES], t: Table) -> Result<(), OpenFault>
    ensures ok { OnOk result (count_at counts.now t ≡ OLD_BUCKETS) }
    ensures bad { IfErr result (λ e. (count_at counts.now t ≢ OLD_BUCKETS)
        × (e ≡ bad_index (file_of FORMAT_1 t, OLD_BUCKETS, count_at counts.now t))) }
{
    let found = number_in(counts, t);
    if found != OLD_BUCKETS {
        return Err(OpenFault::BadIndex {
            file: FORMAT_1.file(t),
            wanted: OLD_BUCKETS,
            found,
        });
    }
    Ok(())
}

// Whether the tables of heads have the rows that they may have.
fn check_heads(counts: &[u64; TABLES]) -> Result<(), OpenFault>
    ensures ok { OnOk result (HasOldHeads (count_at counts.now)) }
    ensures bad { IfErr result (λ e. (found : Found) × (e ≡ bad_index found)
        × IsBadOldHeads FORMAT_1 (count_at counts.now) found) }
{
    if are_empty(counts) {
        return Ok(());
    }
    check_head_count(counts, Table::TxHeads)?;
    check_head_count(counts, Table::ScriptHeads)?;
    Ok(())
}

// Whether each count is at most its limit.
fn check_counts(counts: &[u64; TABLES]) -> Result<(), OpenFault>
    ensures ok { OnOk result ((t : Table) → count_at counts.now t ≤ limit_in FORMAT_1 t) }
    ensures bad { IfErr result (λ e. (found : Found) × (e ≡ bad_index found)
        × IsBadCount FORMAT_1 (count_at counts.now) found) }
{
    for t in Table::ALL {
        let count = number_in(counts, t);
        let limit = FORMAT_1.limit(t);
        if count > limit {
            return Err(OpenFault::BadIndex {
                file: FORMAT_1.file(t),
                wanted: limit,
                found: count,
            });
        }
    }
    Ok(())
}

// Whether each table's file, of this size, has its rows.
fn check_sizes(counts: &[u64; TABLES], sizes: &[u64; TABLES]) -> Result<(), OpenFault>
    requires limited { (t : Table) → count_at counts.now t ≤ limit_in FORMAT_1 t }
    ensures ok { OnOk result ((t : Table)
        → count_at counts.now t * size_in FORMAT_1 t ≤ count_at sizes.now t) }
    ensures bad { IfErr result (λ e. (found : Found) × (e ≡ bad_index found)
        × IsBadSize FORMAT_1 (count_at counts.now) (count_at sizes.now) found) }
{
    for t in Table::ALL {
        let size = FORMAT_1.size(t);
        let count = number_in(counts, t);
        let wanted = count * size as u64;
        let found = number_in(sizes, t);
        if found < wanted {
            return Err(OpenFault::BadIndex {
                file: FORMAT_1.file(t),
                wanted,
                found,
            });
        }
    }
    Ok(())
}

// The counts in a meta row, where it and they are as they have to be.
fn check_meta(meta: &[u8; 76], magic: [u8; 4]) -> Result<[u64; TABLES], OpenFault>
    ensures told { IfOk result (λ counts. (t : Table) → count_at counts t ≡ count_told FORMAT_1 meta.now t) }
    ensures head { IfOk result (λ counts. IsOldHead FORMAT_1 (from_le_bytes w32 magic) meta.now) }
    ensures is { IfOk result (λ counts. meta.now ≡ meta_of (old_head_bytes magic) counts) }
    ensures heads { IfOk result (λ counts. HasOldHeads (count_at counts)) }
    ensures limited { IfOk result (λ counts. (t : Table) → count_at counts t ≤ limit_in FORMAT_1 t) }
    ensures bad { IfErr result (λ e. (found : Found) × (e ≡ bad_index found)
        × IsBadOldRow FORMAT_1 (from_le_bytes w32 magic) meta.now found) }
{
    check_head(meta, magic)?;
    let counts = read_counts(meta);
    check_heads(&counts)?;
    check_counts(&counts)?;
    Ok(counts)
}

// The meta row at the front of its file; zeros in place of bytes that a read didn't give.
fn read_meta<D: Disk>(disk: &mut D) -> Result<[u8; 76], DiskFailed>
    ensures read { D.tells → 76 ≤ length (D.seen disk.old 0)
        → IfOk result (λ meta. meta ≡ take 76 (D.seen disk.old 0)) }
    ensures seen { D.tells → D.seen disk.new ≡ D.seen disk.old }
    ensures crash { D.tells → NothingNew
        (LeftNow D.moment D.left_since disk.old) (LeftNow D.moment D.left_since disk.new) }
    ensures time { D.tells → Passes D.moment D.left_since disk.old disk.new }
    ensures called { D.calls disk.new ≡ D.calls disk.old + 1 }
    ensures cause { HasCause (D.faults disk.old) (D.faults disk.new) result }
{
    let mut meta = [0; 76];
    let _ = read_whole(disk, 0, 0, &mut meta)?;
    Ok(meta)
}

// Checks the files of an index in format 1, and answers how many rows each table has.
pub(crate) fn check_old_files<D: Disk>(
    disk: &mut D,
    magic: [u8; 4],
) -> Result<[u64; TABLES], OpenFault>
    ensures has { D.tells → IfOk result (λ counts.
        HasOldCounts magic (D.seen disk.old) counts) }
    ensures heads { IfOk result (λ counts. HasOldHeads (count_at counts)) }
    ensures limited { IfOk result (λ counts. (t : Table) → count_at counts t ≤ limit_in FORMAT_1 t) }
    ensures bad { D.tells → IfErr result (λ e. (e ≡ fault.DiskFailed) ⊎ ((found : Found)
        × (e ≡ bad_index found)
        × IsBadOldFiles FORMAT_1 (from_le_bytes w32 magic) (D.seen disk.old 0)
        (sizes_in FORMAT_1 (D.seen disk.old)) found)) }
    ensures only { IfErr result (λ e. (e ≡ fault.DiskFailed) ⊎ ((found : Found) × (e ≡ bad_index found))) }
    ensures seen { D.tells → D.seen disk.new ≡ D.seen disk.old }
    ensures crash { D.tells → Leaves ⟦<D as Disk>⟧ (LeftNow D.moment D.left_since disk.old)
        disk.old disk.new }
    ensures calls { D.calls disk.new ≤ D.calls disk.old + 10 }
    ensures cause { CountsOnly (D.faults disk.old) (D.faults disk.new) fault.DiskFailed result }
{
    let size = disk.size(0)?;
    if size == 0 {
        return Ok([0; TABLES]);
    }
    if size < 76 {
        return Err(OpenFault::BadIndex {
            file: 0,
            wanted: 76,
            found: size,
        });
    }
    let meta = read_meta(disk)?;
    let counts = check_meta(&meta, magic)?;
    let sizes = file_sizes(disk, &FORMAT_1)?;
    check_sizes(&counts, &sizes)?;
    Ok(counts)
}
