// The trait of ledgers: a chain that can be asked and moved.
ghost use Rattle.std.specs.Prelude.{◌≡◌, ◌≢◌, ◌≤◌, ◌+◌, ◌-◌, ◌*◌, ℕ, List, [], ◌++◌, length, Some, Option, IfOk, IfErr, IfSome, MatchOption, OnOk, IsErrOf};
ghost use Rattle.std.specs.Thread.{IsSync};
ghost use Rattle.el_base.specs.declared.hash.Hash32 as shape;
ghost use Rattle.el_outside.specs.Counts.{HasCause, CountsOnly, OnlyReads};
ghost use Rattle.el_outside.specs.Disk.{Image};
ghost use Rattle.el_outside.specs.Moments.{KeepsBelow, LeavesOnly};
ghost use Rattle.el_chain.specs.Chains.{Chain, zero_hash};
ghost use Rattle.el_chain.specs.Faults.{IsGood};
ghost use Rattle.el_chain.specs.History.{history};
ghost use Rattle.el_model.specs.Queries as asked;
ghost use Rattle.el_model.specs.Queries.{height_of, tip_of, header_at, place_at, hashes_to, txids_at, blocks_in};
ghost use Rattle.el_chain.specs.Moves.{target, IsPlan, FitsChain, Moves, StoodAt, IsRefused, InFlight, last_hash};
ghost use Rattle.el_chain.specs.Touches.{AreTouched};
ghost use Rattle.el_model.specs.Keeping.{Quiet, Either};
ghost use Rattle.el_chain.specs.declared.moves.MoveFault.TheVariants as stop;

use crate::fault::QueryFault;
use el_base::Hash32;
use el_chain::{Coin, Entry, MoveFault, Moved, Plan, Spot};
use el_outside::{Archive, DiskFailed, Pace, Place};
use el_tx::Outpoint;
use std::alloc::Global;
use std::thread::Threads;

/// A chain that can be asked and moved. Every call but `height` and `tip` asks that the ledger is live, and
/// every call but `go` leaves it as it was, whatever it answers. A clause on content holds for every chain
/// that the ledger stands for: chains that differ in witnesses alone may stand for the same.
pub trait Ledger {
    /// The ledger stands for the chain.
    ghost stands: { Self → Chain → Type 0 };

    /// It may be called: no commit on its device has failed since it was opened.
    ghost is_live: { Self → Type 0 };

    /// The height of the last block.
    ghost height: { Self → Option ℕ };

    /// The hash of the last block.
    ghost tip: { Self → Option shape.Hash32 };

    /// Into how many buckets its rows are put.
    ghost buckets: { Self → ℕ };

    /// How often its device has failed; it stands still at 2^64 - 1.
    ghost faults: { Self → ℕ };

    /// How many rows were read since it was opened: each row that a call reads raises it by one.
    ghost reads: { Self → ℕ };

    /// Whether it tells what a crash may leave. One in memory alone doesn't.
    ghost tells_crash: { Type 0 };

    /// What a crash may leave, as an image of a disk.
    ghost Left: { Type 0 };

    /// What is left stands for the chain.
    ghost means: { Left → Chain → Type 0 };

    /// The moment, as a number that doesn't fall.
    ghost moment: { Self → ℕ };

    /// What a crash at some moment from that one on might have left, during a call or between two.
    ghost left_since: { Self → ℕ → Left → Type 0 };

    /// What the disk below holds beside the ledger: the bytes of each file that is none of the ledger's, and
    /// none for the ledger's own. It is told as what a crash leaves is, and each call keeps it.
    ghost beside: { Self → Image };

    /// The height of the last block; None exactly for no blocks.
    fn height(&self) -> Option<u32>
        ensures { result ≡ height self.now };

    /// The hash of the last block, in inner order; None exactly for no blocks.
    fn tip(&self) -> Option<Hash32>
        ensures { result ≡ tip self.now };

    /// The 80 bytes of the header of that height (Bitcoin's serialization).
    fn header(&mut self, h: u32) -> Result<[u8; 80], DiskFailed>
        requires live { is_live self.old }
        requires within { MatchOption (height self.old) ⊥ (λ top. h ≤ top) }

        ensures header { (chain : Chain) → stands self.old chain
            → IfOk result (λ bytes. header_at chain h ≡ Some bytes) }
        ensures rows { reads self.new ≤ reads self.old + 1 }

        ensures quiet { Quiet is_live height tip buckets stands
            (KeepsBelow tells_crash moment left_since beside) self.old self.new }

        ensures cause { HasCause (faults self.old) (faults self.new) result };

    /// Where the block of that height stands in the block files.
    fn place(&mut self, h: u32) -> Result<Place, DiskFailed>
        requires live { is_live self.old }
        requires within { MatchOption (height self.old) ⊥ (λ top. h ≤ top) }

        ensures place { (chain : Chain) → stands self.old chain
            → IfOk result (λ place. place_at chain h ≡ Some place) }
        ensures rows { reads self.new ≤ reads self.old + 1 }

        ensures quiet { Quiet is_live height tip buckets stands
            (KeepsBelow tells_crash moment left_since beside) self.old self.new }

        ensures cause { HasCause (faults self.old) (faults self.new) result };

    /// The block hashes of heights 0 to `upto`, in inner order.
    fn hashes(&mut self, alloc: Global, upto: u32) -> Result<Vec<Hash32>, QueryFault>
        requires live { is_live self.old }
        requires within { MatchOption (height self.old) ⊥ (λ top. upto ≤ top) }

        ensures hashes { (chain : Chain) → stands self.old chain
            → IfOk result (λ found. found.items ≡ hashes_to chain upto) }
        // Also where no chain is told.
        ensures len { IfOk result (λ found. length found.items ≡ upto + 1) }
        ensures rows { reads self.new ≤ reads self.old + (upto + 1) }

        ensures quiet { Quiet is_live height tip buckets stands
            (KeepsBelow tells_crash moment left_since beside) self.old self.new }

        ensures cause { CountsOnly (faults self.old) (faults self.new) QueryFault.DiskFailed result };

    /// The history of a script hash (Electrum Protocol 1.4, `blockchain.scripthash.get_history`).
    fn history(&mut self, alloc: Global, script_hash: &Hash32) -> Result<Vec<Entry>, QueryFault>
        requires live { is_live self.old }

        ensures history { (chain : Chain) → stands self.old chain
            → IfOk result (λ found. found.items ≡ history chain script_hash.now.0) }
        ensures rows { (chain : Chain) → stands self.old chain
            → reads self.new ≤ reads self.old
            + (1 + asked.scripts_in_bucket chain (buckets self.old) script_hash.now.0
            + 2 * length (history chain script_hash.now.0)) }

        ensures quiet { Quiet is_live height tip buckets stands
            (KeepsBelow tells_crash moment left_since beside) self.old self.new }

        ensures cause { CountsOnly (faults self.old) (faults self.new) QueryFault.DiskFailed result };

    /// The coins of a script hash, in chain order of their transactions, then by index.
    fn unspent(&mut self, alloc: Global, script_hash: &Hash32) -> Result<Vec<Coin>, QueryFault>
        requires live { is_live self.old }

        ensures unspent { (chain : Chain) → stands self.old chain
            → IfOk result (λ found. found.items ≡ asked.unspent chain script_hash.now.0) }
        ensures rows { (chain : Chain) → stands self.old chain
            → reads self.new ≤ reads self.old
            + (1 + asked.scripts_in_bucket chain (buckets self.old) script_hash.now.0
            + 2 * length (history chain script_hash.now.0)
            + asked.outputs_of_history chain script_hash.now.0) }

        ensures quiet { Quiet is_live height tip buckets stands
            (KeepsBelow tells_crash moment left_since beside) self.old self.new }

        ensures cause { CountsOnly (faults self.old) (faults self.new) QueryFault.DiskFailed result };

    /// What the coins of a script hash hold together, in satoshi.
    fn balance(&mut self, script_hash: &Hash32) -> Result<u64, DiskFailed>
        requires live { is_live self.old }

        ensures balance { (chain : Chain) → stands self.old chain
            → IfOk result (λ sum. sum ≡ asked.balance chain script_hash.now.0) }
        ensures rows { (chain : Chain) → stands self.old chain
            → reads self.new ≤ reads self.old
            + (1 + asked.scripts_in_bucket chain (buckets self.old) script_hash.now.0) }

        ensures quiet { Quiet is_live height tip buckets stands
            (KeepsBelow tells_crash moment left_since beside) self.old self.new }

        ensures cause { HasCause (faults self.old) (faults self.new) result };

    /// Where the newest transaction with that txid, in inner order, stands; None exactly where the chain has
    /// none.
    fn find_tx(&mut self, txid: &Hash32) -> Result<Option<Spot>, DiskFailed>
        requires live { is_live self.old }

        ensures spot { (chain : Chain) → stands self.old chain
            → IfOk result (λ found. found ≡ asked.find_tx chain txid.now) }
        ensures rows { (chain : Chain) → stands self.old chain
            → reads self.new ≤ reads self.old
            + (2 + asked.txs_in_bucket chain (buckets self.old) txid.now.0) }

        ensures quiet { Quiet is_live height tip buckets stands
            (KeepsBelow tells_crash moment left_since beside) self.old self.new }

        ensures cause { HasCause (faults self.old) (faults self.new) result };

    /// The txids of the block of that height, in inner order, as its transactions stand.
    fn block_txids(&mut self, alloc: Global, h: u32) -> Result<Vec<Hash32>, QueryFault>
        requires live { is_live self.old }
        requires within { MatchOption (height self.old) ⊥ (λ top. h ≤ top) }

        ensures txids { (chain : Chain) → stands self.old chain
            → IfOk result (λ found. txids_at chain h ≡ Some found.items) }
        ensures rows { (chain : Chain) → stands self.old chain
            → IfSome (txids_at chain h) (λ ids. reads self.new ≤ reads self.old + (1 + length ids)) }

        ensures quiet { Quiet is_live height tip buckets stands
            (KeepsBelow tells_crash moment left_since beside) self.old self.new }

        ensures cause { CountsOnly (faults self.old) (faults self.new) QueryFault.DiskFailed result };

    /// The coin of an outpoint; None exactly where the chain's coins lack it.
    fn coin(&mut self, o: &Outpoint) -> Result<Option<Coin>, DiskFailed>
        requires live { is_live self.old }

        ensures coin { (chain : Chain) → stands self.old chain
            → IfOk result (λ found. found ≡ asked.coin_of chain o.now) }

        ensures quiet { Quiet is_live height tip buckets stands
            (KeepsBelow tells_crash moment left_since beside) self.old self.new }

        ensures cause { HasCause (faults self.old) (faults self.new) result };

    /// The transaction that took the coin of the newest output with that outpoint; None exactly where there
    /// is none.
    fn spender(&mut self, o: &Outpoint) -> Result<Option<Entry>, DiskFailed>
        requires live { is_live self.old }

        ensures spender { (chain : Chain) → stands self.old chain
            → IfOk result (λ found. found ≡ asked.spender chain o.now) }

        ensures quiet { Quiet is_live height tip buckets stands
            (KeepsBelow tells_crash moment left_since beside) self.old self.new }

        ensures cause { HasCause (faults self.old) (faults self.new) result };

    /// One move: `back` blocks are taken back and the blocks of `forward` are put in their place, all of it
    /// or nothing. Their bytes are read from the block files. What can be prepared of them side by side may
    /// be, in threads of the runtime; each piece of that enters the pace as it begins. Nothing that is
    /// answered depends on either.
    ///
    /// # Errors
    ///
    /// In this order: `ArchiveFailed`; `Changed` for the first block whose bytes don't begin with its header;
    /// `BadBlock` or `Refused` for the first block in chain order that has a fault. After `DiskFailed`
    /// nothing says that the ledger is live; every other refusal changes nothing.
    fn go<W: Threads + Sync, A: Archive>(
        &mut self,
        rt: &W,
        alloc: Global,
        plan: &Plan,
        archive: &mut A,
        pace: &(dyn Pace + Sync),
    ) -> Result<Moved, MoveFault>
        requires sync { IsSync W.row }
        requires live { is_live self.old }
        requires plan { IsPlan plan.now }
        requires fits { (chain : Chain) → stands self.old chain → FitsChain plan.now chain }

        // The ledger then stands for the target, and a crash since the start may have left the old chain or
        // the target.
        ensures moved { (chain : Chain) → stands self.old chain → IfOk result (λ m. (blocks : Chain)
            × Moves (StoodAt ⟦<A as Archive>⟧ (A.bytes archive.old) (A.bytes archive.new))
            chain plan.now blocks
            × stands self.new (target plan.now chain blocks)
            × AreTouched plan.now chain blocks m.touched
            × (tells_crash → LeavesOnly moment left_since self.old self.new
            (Either means chain (target plan.now chain blocks)))) }
        ensures answer { IfOk result (λ m. (m.tip ≡ tip self.new) × (m.height ≡ height self.new)) }
        // Also where no chain is told: the hash is that of the last block that was put in, and the height
        // goes by the numbers of blocks.
        ensures last { IfOk result (λ m. plan.now.forward ≢ []
            → tip self.new ≡ Some (last_hash zero_hash plan.now.forward)) }
        ensures top { IfOk result (λ m. blocks_in m.height
            ≡ (blocks_in (height self.old) - plan.now.back) + length plan.now.forward) }

        ensures live { OnOk result (is_live self.new) }
        // After any other refusal it is as it was, and a crash leaves the old chain alone.
        ensures unchanged { IfErr result (λ e. e ≢ stop.DiskFailed
            → Quiet is_live height tip buckets stands
            (KeepsBelow tells_crash moment left_since beside) self.old self.new) }
        // Whatever it answers, the files beside the ledger's own stay.
        ensures beside { tells_crash → beside self.new ≡ beside self.old }
        ensures crash_failed { (chain : Chain) → stands self.old chain → IsErrOf result MoveFault.DiskFailed
            → (next : Chain) × InFlight
            (StoodAt ⟦<A as Archive>⟧ (A.bytes archive.old) (A.bytes archive.new)) chain plan.now next
            × (tells_crash → LeavesOnly moment left_since self.old self.new (Either means chain next)) }

        ensures refused { (chain : Chain) → stands self.old chain
            → IfErr result (IsRefused
            (StoodAt ⟦<A as Archive>⟧ (A.bytes archive.old) (A.bytes archive.new)) chain plan.now) }
        ensures cause { CountsOnly (faults self.old) (faults self.new) MoveFault.DiskFailed result }
        // Each block is read once at most.
        ensures calls { A.calls archive.new ≤ A.calls archive.old + length plan.now.forward }
        ensures reads { OnlyReads A.tells (A.bytes archive.old) (A.bytes archive.new) (A.faults archive.old)
            (A.faults archive.new)
            MoveFault.ArchiveFailed result };

    /// Height and tip are the chain's.
    ghost height_is: { (l : Self) (chain : Chain) → stands l chain → height l ≡ height_of chain };

    ghost tip_is: { (l : Self) (chain : Chain) → stands l chain → tip l ≡ tip_of chain };

    /// A ledger stands for good chains alone.
    ghost good: { (l : Self) (chain : Chain) → stands l chain → IsGood chain };

    /// The moments from a later one on are among those from an earlier one on.
    ghost earlier: { (l : Self) (t u : ℕ) (left : Left) → t ≤ u → left_since l u left → left_since l t left };

    /// Between calls a live ledger leaves its own chain alone.
    ghost leaves_own: { (l : Self) (chain : Chain) (left : Left) → tells_crash → is_live l → stands l chain
        → left_since l (moment l) left → means left chain };
}
