// The checks of an opening on the files: the meta row, and that each table's file has its rows.
ghost use Rattle.std.specs.Prelude.{◌≡◌, ◌≢◌, ◌⊎◌, ◌≤◌, ◌<◌, ◌+◌, ◌*◌, ℕ, List, length, take, drop, OnOk, IfOk, IfErr};
ghost use Rattle.std.specs.Int.{w32, w64, from_le_bytes};
ghost use Rattle.el_outside.specs.Counts.{HasCause, CountsOnly};
ghost use Rattle.el_outside.specs.Disk.{NothingNew};
ghost use Rattle.el_outside.specs.Moments.{LeftNow, Passes};
ghost use Rattle.el_row_formats.specs.declared.table.Table.{Table};
ghost use Rattle.el_row_formats.specs.Tables.{index_of, number_of, limit_of};
ghost use Rattle.el_row_formats.specs.declared.limits.TheConstants.{MIN_HEAD_BITS, MAX_HEAD_BITS};
ghost use Rattle.el_rows.specs.Changes.{count_at};
ghost use Rattle.el_redo.specs.RedoBody.{head_bytes};
ghost use Rattle.el_redo.specs.declared.faults.OpenFault.TheVariants as fault;
ghost use Rattle.el_redone.specs.Steps.{Leaves};
ghost use Rattle.el_pages.specs.declared.layout.TheConstants.{FORMAT_2};
ghost use Rattle.el_pages.specs.Layouts.{file_of, size_in, limit_in};
ghost use Rattle.el_pages.specs.Records.{meta_of};
ghost use Rattle.el_pages.specs.Indexes.{HasCounts};
ghost use Rattle.el_recovery.specs.Checks.{Found, bad_index, word, bits_told, count_told, HasBits, HasHeadOfEachBucket, IsHead, IsBadHead, IsBadHeads, IsBadCount, IsBadSize, IsBadRow, IsBadFiles, sizes_in};
ghost use Rattle.el_recovery.specs.within.Checking.{AreSoManyBytes};

use crate::checking::{file_sizes, number_in};
use crate::redoing::read_whole;
use el_outside::{Disk, DiskFailed};
use el_pages::{FORMAT_2, LETTERS};
use el_redo::OpenFault;
use el_row_formats::{MAX_HEAD_BITS, MIN_HEAD_BITS, TABLES, Table, bucket_count};

// The number in four bytes of the meta row.
fn word_at(meta: &[u8; 80], at: usize) -> u64
    requires { at + 4 ≤ 80 }
    ensures word { result ≡ word meta.now at }
    ensures bytes { AreSoManyBytes meta.now 80 }
{
    let word = [meta[at], meta[at + 1], meta[at + 2], meta[at + 3]];
    u64::from(u32::from_le_bytes(word))
}

// The network's magic, as a number in four bytes.
fn network_of(magic: &[u8; 4]) -> u64
    ensures number { result ≡ from_le_bytes w32 magic.now }
    ensures bytes { AreSoManyBytes magic.now 4 }
{
    let [a, b, c, d] = *magic;
    u64::from(u32::from_le_bytes([a, b, c, d]))
}

// The number in eight bytes of the meta row.
fn count_in(meta: &[u8; 80], at: usize) -> u64
    requires { at + 8 ≤ 80 }
    ensures { result ≡ from_le_bytes w64 (take 8 (drop at meta.now)) }
{
    let count = [
        meta[at],
        meta[at + 1],
        meta[at + 2],
        meta[at + 3],
        meta[at + 4],
        meta[at + 5],
        meta[at + 6],
        meta[at + 7],
    ];
    u64::from_le_bytes(count)
}

// How many bits the number of a bucket has, where that may be.
fn check_bits(meta: &[u8; 80]) -> Result<u32, OpenFault>
    ensures ok { IfOk result (λ bits. (bits ≡ bits_told meta.now) × HasBits bits) }
    ensures bad { IfErr result (λ e. (HasBits (bits_told meta.now) → ⊥)
        × (e ≡ bad_index (20, MIN_HEAD_BITS, bits_told meta.now))) }
{
    let bits = word_at(meta, 12);
    if bits < u64::from(MIN_HEAD_BITS) || bits > u64::from(MAX_HEAD_BITS) {
        return Err(OpenFault::BadIndex {
            file: 20,
            wanted: u64::from(MIN_HEAD_BITS),
            found: bits,
        });
    }
    Ok(bits as u32)
}

// Whether the meta row begins with the letters, this format and this network's magic, and how many bits the
// number of a bucket has.
fn check_head(meta: &[u8; 80], magic: [u8; 4]) -> Result<u32, OpenFault>
    ensures ok { OnOk result (IsHead FORMAT_2 (from_le_bytes w32 magic) meta.now) }
    ensures bits { IfOk result (λ bits. (bits ≡ bits_told meta.now) × HasBits bits) }
    ensures bytes { OnOk result (AreSoManyBytes meta.now 80 × AreSoManyBytes magic 4) }
    ensures bad { IfErr result (λ e. (found : Found) × (e ≡ bad_index found)
        × IsBadHead FORMAT_2 (from_le_bytes w32 magic) meta.now found) }
{
    let letters = word_at(meta, 0);
    if letters != LETTERS {
        return Err(OpenFault::BadIndex {
            file: 20,
            wanted: LETTERS,
            found: letters,
        });
    }
    let format = word_at(meta, 4);
    if format != 2 {
        return Err(OpenFault::BadIndex {
            file: 20,
            wanted: 2,
            found: format,
        });
    }
    let network = word_at(meta, 8);
    let wanted = network_of(&magic);
    if network != wanted {
        return Err(OpenFault::BadIndex {
            file: 20,
            wanted,
            found: network,
        });
    }
    check_bits(meta)
}

// The counts in the meta row.
fn read_counts(meta: &[u8; 80]) -> [u64; TABLES]
    ensures { (t : Table) → count_at result t ≡ count_told FORMAT_2 meta.now t }
{
    [
        count_in(meta, 16),
        count_in(meta, 24),
        count_in(meta, 32),
        count_in(meta, 40),
        count_in(meta, 48),
        count_in(meta, 56),
        count_in(meta, 64),
        count_in(meta, 72),
    ]
}

// Whether this table of heads has so many rows.
fn check_head_count(counts: &[u64; TABLES], t: Table, rows: u64) -> Result<(), OpenFault>
    ensures ok { OnOk result (count_at counts.now t ≡ rows) }
    ensures bad { IfErr result (λ e. (count_at counts.now t ≢ rows)
        × (e ≡ bad_index (file_of FORMAT_2 t, rows, count_at counts.now t))) }
{
    let found = number_in(counts, t);
    if found != rows {
        return Err(OpenFault::BadIndex {
            file: FORMAT_2.file(t),
            wanted: rows,
            found,
        });
    }
    Ok(())
}

// Whether each table of heads has a row for each bucket.
fn check_heads(counts: &[u64; TABLES], bits: u32) -> Result<(), OpenFault>
    requires { bits ≤ MAX_HEAD_BITS }
    ensures ok { OnOk result (HasHeadOfEachBucket bits (count_at counts.now)) }
    ensures bad { IfErr result (λ e. (found : Found) × (e ≡ bad_index found)
        × IsBadHeads FORMAT_2 bits (count_at counts.now) found) }
{
    let rows = bucket_count(bits);
    check_head_count(counts, Table::TxHeads, rows)?;
    check_head_count(counts, Table::ScriptHeads, rows)?;
    Ok(())
}

// Whether each count is at most its limit.
fn check_counts(counts: &[u64; TABLES]) -> Result<(), OpenFault>
    ensures ok { OnOk result ((t : Table) → count_at counts.now t ≤ limit_in FORMAT_2 t) }
    ensures bad { IfErr result (λ e. (found : Found) × (e ≡ bad_index found)
        × IsBadCount FORMAT_2 (count_at counts.now) found) }
{
    for t in Table::ALL {
        let count = number_in(counts, t);
        let limit = FORMAT_2.limit(t);
        if count > limit {
            return Err(OpenFault::BadIndex {
                file: FORMAT_2.file(t),
                wanted: limit,
                found: count,
            });
        }
    }
    Ok(())
}

// Whether each table's file, of this size, has its rows.
fn check_sizes(counts: &[u64; TABLES], sizes: &[u64; TABLES]) -> Result<(), OpenFault>
    requires limited { (t : Table) → count_at counts.now t ≤ limit_in FORMAT_2 t }
    ensures ok { OnOk result ((t : Table)
        → count_at counts.now t * size_in FORMAT_2 t ≤ count_at sizes.now t) }
    ensures bad { IfErr result (λ e. (found : Found) × (e ≡ bad_index found)
        × IsBadSize FORMAT_2 (count_at counts.now) (count_at sizes.now) found) }
{
    for t in Table::ALL {
        let size = FORMAT_2.size(t);
        let count = number_in(counts, t);
        let wanted = count * size as u64;
        let found = number_in(sizes, t);
        if found < wanted {
            return Err(OpenFault::BadIndex {
                file: FORMAT_2.file(t),
                wanted,
                found,
            });
        }
    }
    Ok(())
}

// What a meta row tells of an index: how many bits the number of a bucket has, and how many rows each table
// has.
#[derive(Clone, Copy)]
pub(crate) struct MetaRow {
    pub bits: u32,
    pub counts: [u64; TABLES],
}

// What a meta row tells, where it is as it has to be.
fn check_meta(meta: &[u8; 80], magic: [u8; 4]) -> Result<MetaRow, OpenFault>
    ensures told { IfOk result (λ row. (t : Table) → count_at row.counts t ≡ count_told FORMAT_2 meta.now t) }
    ensures bits { IfOk result (λ row. (row.bits ≡ bits_told meta.now) × HasBits row.bits) }
    ensures head { IfOk result (λ row. IsHead FORMAT_2 (from_le_bytes w32 magic) meta.now) }
    ensures is { IfOk result (λ row. meta.now ≡ meta_of (head_bytes magic row.bits) row.counts) }
    ensures heads { IfOk result (λ row. HasHeadOfEachBucket row.bits (count_at row.counts)) }
    ensures limited { IfOk result (λ row. (t : Table) → count_at row.counts t ≤ limit_in FORMAT_2 t) }
    ensures bad { IfErr result (λ e. (found : Found) × (e ≡ bad_index found)
        × IsBadRow FORMAT_2 (from_le_bytes w32 magic) meta.now found) }
{
    let bits = check_head(meta, magic)?;
    let counts = read_counts(meta);
    check_heads(&counts, bits)?;
    check_counts(&counts)?;
    Ok(MetaRow { bits, counts })
}

// The meta row at the front of its file; zeros in place of bytes that a read didn't give.
fn read_meta<D: Disk>(disk: &mut D) -> Result<[u8; 80], DiskFailed>
    ensures read { D.tells → 80 ≤ length (D.seen disk.old 20)
        → IfOk result (λ meta. meta ≡ take 80 (D.seen disk.old 20)) }
    ensures seen { D.tells → D.seen disk.new ≡ D.seen disk.old }
    ensures crash { D.tells → NothingNew
        (LeftNow D.moment D.left_since disk.old) (LeftNow D.moment D.left_since disk.new) }
    ensures time { D.tells → Passes D.moment D.left_since disk.old disk.new }
    ensures called { D.calls disk.new ≡ D.calls disk.old + 1 }
    ensures cause { HasCause (D.faults disk.old) (D.faults disk.new) result }
{
    let mut meta = [0; 80];
    let _ = read_whole(disk, 20, 0, &mut meta)?;
    Ok(meta)
}

// Checks the files of an index in format 2, and answers what its meta row tells.
pub(crate) fn check_files<D: Disk>(disk: &mut D, magic: [u8; 4]) -> Result<MetaRow, OpenFault>
    ensures has { D.tells → IfOk result (λ row.
        HasCounts FORMAT_2 (head_bytes magic row.bits) (D.seen disk.old) row.counts) }
    ensures bits { IfOk result (λ row. HasBits row.bits) }
    ensures heads { IfOk result (λ row. HasHeadOfEachBucket row.bits (count_at row.counts)) }
    ensures limited { IfOk result (λ row. (t : Table) → count_at row.counts t ≤ limit_of t) }
    ensures bad { D.tells → IfErr result (λ e. (e ≡ fault.DiskFailed) ⊎ ((found : Found)
        × (e ≡ bad_index found)
        × IsBadFiles FORMAT_2 (from_le_bytes w32 magic) (D.seen disk.old 20)
        (sizes_in FORMAT_2 (D.seen disk.old)) found)) }
    ensures only { IfErr result (λ e. (e ≡ fault.DiskFailed) ⊎ ((found : Found) × (e ≡ bad_index found))) }
    ensures seen { D.tells → D.seen disk.new ≡ D.seen disk.old }
    ensures crash { D.tells → Leaves ⟦<D as Disk>⟧ (LeftNow D.moment D.left_since disk.old)
        disk.old disk.new }
    ensures calls { D.calls disk.new ≤ D.calls disk.old + 10 }
    ensures cause { CountsOnly (D.faults disk.old) (D.faults disk.new) fault.DiskFailed result }
{
    let size = disk.size(20)?;
    if size < 80 {
        return Err(OpenFault::BadIndex {
            file: 20,
            wanted: 80,
            found: size,
        });
    }
    let meta = read_meta(disk)?;
    let row = check_meta(&meta, magic)?;
    let sizes = file_sizes(disk, &FORMAT_2)?;
    check_sizes(&row.counts, &sizes)?;
    Ok(row)
}
