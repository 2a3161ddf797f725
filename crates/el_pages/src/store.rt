// A store of tables in files.
ghost use Rattle.std.specs.Prelude.{◌≡◌, ◌↔◌, ◌⊎◌, ◌≤◌, ◌<◌, ◌^◌, ℕ, length, IfOk, IfErr, IfSome};
ghost use Rattle.el_outside.specs.Disk.{Image};
ghost use Rattle.el_row_formats.specs.declared.table.Table.{Table};
ghost use Rattle.el_row_formats.specs.Tables.{limit_of};
ghost use Rattle.el_row_formats.specs.declared.limits.TheConstants.{MIN_HEAD_BITS, MAX_HEAD_BITS};
ghost use Rattle.el_rows.specs.Changes.{count_at};

use crate::caching::{cached_row, change_pages};
use crate::committing::commit_on;
use crate::meta::counts_of;
use el_base::GhostCount;
use el_outside::{Disk, DiskFailed};
use el_page_cache::PageCache;
use el_redo::NetworkMagic;
use el_row_formats::{TABLES, Table};
use el_rows::{CommitFault, Rows, Sealed};
use std::alloc::Global;
use std::marker::PhantomData;
use std::snapshot::Snapshot;

// How many bytes the buffer has through which a redo record and changed rows are written.
const BUFFER: usize = 65536;

// The buffer through which they are written, where there is memory for it.
fn take_buffer(alloc: Global) -> Option<Vec<u8>>
    ensures { IfSome result (λ v. length v.items ≡ 65536) }
{
    vec![in alloc; 0u8; BUFFER].ok()
}

/// Tables in the files of a disk, for the network that its type names: row i of a table stands in its file
/// from i row sizes on. A row is read with its page, which is then kept: of the pages that were used last, up
/// to 4,096 are in memory. A commit takes no memory: through a buffer that was taken at the opening it writes
/// a redo record, and then the rows, those that follow one another in a table by one call as far as the
/// buffer has room; and each commit is in all files or in none. After one that met a disk fault the store is
/// no longer live, and the disk is opened again.
#[derive(Drop)]
pub struct Pages<D: Disk, N: NetworkMagic> {
    network: PhantomData<N>,
    disk: D,
    // The disk at the last commit, or at the opening.
    told: Snapshot<D>,
    // How many bits the number of a bucket has.
    bits: u32,
    counts: [u64; TABLES],
    buffer: Vec<u8>,
    cache: PageCache,
    reads: GhostCount,
    ghost least: { MIN_HEAD_BITS ≤ bits },
    ghost most: { bits ≤ MAX_HEAD_BITS },
    ghost limited: { (t : Table) → count_at counts t ≤ limit_of t },
    ghost big: { 256 ≤ length buffer.items },
}

impl<D: Disk, N: NetworkMagic> Pages<D, N> {
    ghost use Rattle.el_row_formats.specs.Tables.{Tables};
    ghost use Rattle.el_redo.specs.RedoBody.{head_bytes};
    ghost use Rattle.el_pages.specs.declared.layout.TheConstants.{FORMAT_2};
    ghost use Rattle.el_pages.specs.Indexes.{HasCounts, IsRooted, ShowsFor, tables_in};
    ghost use Rattle.el_pages.specs.Stores.{disk_below, rows_of, bits_of, IsLive};
    ghost use Rattle.el_redone.specs.Steps.{IsAtRest};

    /// The store over a disk on which format 2 is live, and whose files are at rest and have tables with
    /// these counts, in an index with 2^bits buckets. It takes a buffer of 65,536 bytes, through which its
    /// commits write, and a cache with no pages; where there is no memory for them, the disk comes back.
    pub fn new(alloc: Global, disk: D, bits: u32, counts: [u64; TABLES]) -> Result<Pages<D, N>, D>
        requires least { MIN_HEAD_BITS ≤ bits }
        requires most { bits ≤ MAX_HEAD_BITS }
        requires limited { (t : Table) → count_at counts t ≤ limit_of t }
        ensures live { IfOk result (λ store. (D.tells → IsAtRest ⟦<D as Disk>⟧ 20 29 disk)
            → (D.tells → IsRooted (D.seen disk))
            → (D.tells → HasCounts FORMAT_2 (head_bytes N.magic bits) (D.seen disk) counts) → IsLive store) }
        ensures bits { IfOk result (λ store. bits_of store ≡ bits) }
        ensures counts { IfOk result (λ store. (t : Table)
            → ⟦<Pages<D, N> as Rows>⟧.counts store t ≡ count_at counts t) }
        ensures rows { IfOk result (λ store. rows_of store ≡ tables_in FORMAT_2 (D.seen disk) counts) }
        ensures disk { IfOk result (λ store. disk_below store ≡ disk) }
        ensures back { IfErr result (λ d. d ≡ disk) }
    {
        let Some(buffer) = take_buffer(alloc) else {
            return Err(disk);
        };
        let Some(cache) = PageCache::new(alloc) else {
            return Err(disk);
        };
        Ok(Pages {
            network: PhantomData,
            told: Snapshot::of(&disk),
            disk,
            bits,
            counts,
            buffer,
            cache,
            reads: GhostCount::new(),
        })
    }

    /// The disk, as it stands, also after a failure. What a crash leaves of the store is what it leaves of
    /// the disk.
    pub fn into_disk(self) -> D
        ensures disk { result ≡ disk_below self }
        ensures moment { ⟦<Pages<D, N> as Rows>⟧.moment self ≡ D.moment result }
        ensures left { D.tells → (t : ℕ) (image : Image)
            → ⟦<Pages<D, N> as Rows>⟧.left_since self t image ↔ D.left_since result t image }
        ensures beside { (f : ℕ) → (f < 20) ⊎ (29 < f)
            → ⟦<Pages<D, N> as Rows>⟧.beside self f ≡ D.seen result f }
        ensures shows { (image : Image) (heads : ℕ) (tables : Tables)
            → ⟦<Pages<D, N> as Rows>⟧.shows image heads tables ↔ ShowsFor N.magic image heads tables }
        ensures faults { ⟦<Pages<D, N> as Rows>⟧.faults self ≡ D.faults result }
    {
        let Pages {
            network: _,
            disk,
            told: _,
            bits: _,
            counts: _,
            buffer: _,
            cache: _,
            reads: _,
        } = self;
        disk
    }
}

impl<D: Disk, N: NetworkMagic> Rows for Pages<D, N> {
    ghost use Rattle.std.specs.Prelude.{◌≡◌, ◌^◌, ℕ};
    ghost use Rattle.el_outside.specs.Disk.{Image};
    ghost use Rattle.el_redo.specs.RedoBody.{head_bytes};
    ghost use Rattle.el_rows.specs.Changes.{count_at};
    ghost use Rattle.el_pages.specs.Indexes.{ShowsFor};
    ghost use Rattle.el_pages.specs.Stores.{IsKept, kept_shows, beside_in, lists_in, lists_long};

    ghost tells = { D.tells };

    ghost tells_crash = { D.tells };

    ghost lists = { λ s. lists_in ⟦<D as Disk>⟧ s.told.value s.counts };

    ghost counts = { λ s t. count_at s.counts t };

    ghost heads = { λ s. 2 ^ s.bits };

    ghost is_live = { λ s. D.tells
        → IsKept ⟦<D as Disk>⟧ (head_bytes N.magic s.bits) s.disk s.told.value s.counts s.cache };

    ghost moment = { λ s. D.moment s.disk };

    ghost Left = { Image };

    ghost shows = { λ image heads tables. ShowsFor N.magic image heads tables };

    ghost left_since = { λ s t image. D.tells × D.left_since s.disk t image };

    ghost beside = { λ s. beside_in (D.seen s.disk) };

    ghost faults = { λ s. D.faults s.disk };

    ghost reads = { λ s. s.reads };

    ghost counted = { λ s t told. lists_long ⟦<D as Disk>⟧ s.told.value s.counts t };

    ghost earlier = { λ s t u image le left.
        (left.0, D.earlier s.disk t u image left.0 le left.1) };

    ghost leaves_lists = { λ s image told live left.
        kept_shows ⟦<D as Disk>⟧ N.magic s.bits s.disk s.told.value s.counts s.cache image s.least s.most
        (live told) left.1 };

    fn count(&self, t: Table) -> u64 {
        self.counts[t.index()]
    }

    fn row(&mut self, t: Table, i: u64, buf: &mut [u8]) -> Result<(), DiskFailed> {
        self.reads.tick();
        let alloc = *self.buffer.allocator();
        cached_row(&mut self.disk, &mut self.cache, alloc, t, i, buf)
    }

    fn commit(&mut self, sealed: &Sealed) -> Result<(), CommitFault> {
        match commit_on(
            &mut self.disk,
            &mut self.buffer,
            N::magic(),
            self.bits,
            &self.counts,
            sealed,
        ) {
            Ok(()) => {}
            Err(DiskFailed) => return Err(CommitFault::DiskFailed),
        }
        change_pages(&mut self.cache, sealed);
        self.told = Snapshot::of(&self.disk);
        self.counts = counts_of(sealed);
        Ok(())
    }
}
