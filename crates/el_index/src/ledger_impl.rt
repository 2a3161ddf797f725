// The index as a ledger.
ghost use Rattle.std.specs.Prelude.{◌≡◌, ◌≤◌};
ghost use Rattle.el_row_formats.specs.Tables.{limit_of};
ghost use Rattle.el_row_formats.specs.declared.table.Table.{Table};
ghost use Rattle.el_row_formats.specs.declared.table.Table.TheVariants as table;
ghost use Rattle.el_schema.specs.Standing.{buckets_in};
ghost use Rattle.el_index.specs.Means.{top, IsIndexOf, Means};
ghost use Rattle.el_index.specs.within.Laws as laws;

use crate::index::Index;
use el_base::Hash32;
use el_chain::{Coin, Entry, MoveFault, Moved, Plan, Spot, Touched};
use el_model::{Ledger, QueryFault, read_all};
use el_outside::{Archive, DiskFailed, Pace, Place};
use el_queries::{
    balance, block_txids, coin, find_tx, hashes, header, history, place, spender, unspent,
};
use el_row_formats::Table;
use el_rows::{Rows, Txn};
use el_tx::Outpoint;
use std::alloc::Global;
use std::thread::Threads;

// The height of the last of so many blocks.
fn top_of(count: u64) -> Option<u32>
    requires { count ≤ limit_of Table.Blocks }
    ensures { result ≡ top count }
{
    match count {
        0 => None,
        n => Some((n - 1) as u32),
    }
}

impl<R: Rows> Ledger for Index<R> {
    ghost stands = { λ l chain. IsIndexOf R.tells (R.heads l.rows) (R.lists l.rows) l.tip chain };

    ghost is_live = { λ l. R.is_live l.rows };

    ghost height = { λ l. top (R.counts l.rows table.Blocks) };

    ghost tip = { λ l. l.tip };

    ghost buckets = { λ l. buckets_in (R.lists l.rows) };

    ghost faults = { λ l. R.faults l.rows };

    ghost reads = { λ l. R.reads l.rows };

    ghost tells_crash = { R.tells_crash };

    ghost Left = { R.Left };

    ghost means = { λ left chain. Means R.shows left chain };

    ghost moment = { λ l. R.moment l.rows };

    ghost left_since = { λ l since left. R.left_since l.rows since left };

    ghost beside = { λ l. R.beside l.rows };

    ghost height_is = { λ l chain stands. laws.height_is R.tells (R.heads l.rows) (R.lists l.rows) l.tip
        (R.counts l.rows table.Blocks) chain (R.counted l.rows table.Blocks) stands };

    ghost tip_is = { λ l chain stands. laws.tip_is R.tells (R.heads l.rows) (R.lists l.rows) l.tip chain
        stands };

    ghost good = { λ l chain stands. laws.good R.tells (R.heads l.rows) (R.lists l.rows) l.tip chain stands };

    ghost earlier = { λ l t u left le since. R.earlier l.rows t u left le since };

    ghost leaves_own = { λ l chain left told live stands since. laws.leaves_own R.shows R.tells
        (R.heads l.rows) (R.lists l.rows) l.tip chain left stands
        (R.leaves_lists l.rows left told live since) };

    fn height(&self) -> Option<u32> {
        top_of(self.rows.count(Table::Blocks))
    }

    fn tip(&self) -> Option<Hash32> {
        self.tip
    }

    fn header(&mut self, h: u32) -> Result<[u8; 80], DiskFailed> {
        let mut txn = Txn::new(self.alloc, &mut self.rows);
        let found = header(&mut txn, h)?;
        Ok(found)
    }

    fn place(&mut self, h: u32) -> Result<Place, DiskFailed> {
        let mut txn = Txn::new(self.alloc, &mut self.rows);
        let found = place(&mut txn, h)?;
        Ok(found)
    }

    fn hashes(&mut self, alloc: Global, upto: u32) -> Result<Vec<Hash32>, QueryFault> {
        let mut txn = Txn::new(self.alloc, &mut self.rows);
        let found = hashes(alloc, &mut txn, upto)?;
        Ok(found)
    }

    fn history(&mut self, alloc: Global, script_hash: &Hash32) -> Result<Vec<Entry>, QueryFault> {
        let mut txn = Txn::new(self.alloc, &mut self.rows);
        let found = history(alloc, &mut txn, script_hash)?;
        Ok(found)
    }

    fn unspent(&mut self, alloc: Global, script_hash: &Hash32) -> Result<Vec<Coin>, QueryFault> {
        let mut txn = Txn::new(self.alloc, &mut self.rows);
        let found = unspent(alloc, &mut txn, script_hash)?;
        Ok(found)
    }

    fn balance(&mut self, script_hash: &Hash32) -> Result<u64, DiskFailed> {
        let mut txn = Txn::new(self.alloc, &mut self.rows);
        let found = balance(&mut txn, script_hash)?;
        Ok(found)
    }

    fn find_tx(&mut self, txid: &Hash32) -> Result<Option<Spot>, DiskFailed> {
        let mut txn = Txn::new(self.alloc, &mut self.rows);
        let found = find_tx(&mut txn, txid)?;
        Ok(found)
    }

    fn block_txids(&mut self, alloc: Global, h: u32) -> Result<Vec<Hash32>, QueryFault> {
        let mut txn = Txn::new(self.alloc, &mut self.rows);
        let found = block_txids(alloc, &mut txn, h)?;
        Ok(found)
    }

    fn coin(&mut self, o: &Outpoint) -> Result<Option<Coin>, DiskFailed> {
        let mut txn = Txn::new(self.alloc, &mut self.rows);
        let found = coin(&mut txn, o)?;
        Ok(found)
    }

    fn spender(&mut self, o: &Outpoint) -> Result<Option<Entry>, DiskFailed> {
        let mut txn = Txn::new(self.alloc, &mut self.rows);
        let found = spender(&mut txn, o)?;
        Ok(found)
    }

    fn go<W: Threads + Sync, A: Archive>(
        &mut self,
        rt: &W,
        alloc: Global,
        plan: &Plan,
        archive: &mut A,
        pace: &(dyn Pace + Sync),
    ) -> Result<Moved, MoveFault> {
        let texts = read_all(alloc, archive, plan.forward.as_slice())?;
        let mut touched = Touched::new(alloc);
        let tip = self.change(rt, alloc, plan, texts.as_slice(), &mut touched, &pace)?;
        // The list says that no script hash stands twice.
        let _listed = touched.list();
        self.tip = tip;
        Ok(Moved {
            tip,
            height: top_of(self.rows.count(Table::Blocks)),
            touched,
        })
    }
}
