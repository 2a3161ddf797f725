// The balance of a script hash.
ghost use Rattle.std.specs.Prelude.{◌≡◌, ◌≤◌, ◌+◌, IfOk};
ghost use Rattle.el_chain.specs.Chains.{Chain};
ghost use Rattle.el_model.specs.Queries as asked;
ghost use Rattle.el_rows.specs.Transaction.{with_edits, reads_in, disk_failed, ReadsRows};
ghost use Rattle.el_schema.specs.Standing.{StandFor, buckets_in};

use el_base::Hash32;
use el_outside::DiskFailed;
use el_rows::{Rows, Txn};
use el_script::found_script;

/// What the coins of a script hash hold together, in satoshi; the hash is in inner order. It takes no memory
/// and changes nothing. It fails with `DiskFailed` exactly where the device did.
pub fn balance<R: Rows>(t: &mut Txn<'_, R>, script_hash: &Hash32) -> Result<u64, DiskFailed>
    requires live { R.is_live t.old.rows.now }
    ensures balance { (chain : Chain) → R.tells → StandFor (with_edits t.old) chain
        → IfOk result (λ sum. sum ≡ asked.balance chain script_hash.now.0) }
    // It reads one head, and rows of scripts in the hash's bucket alone.
    ensures rows { (chain : Chain) → R.tells → StandFor (with_edits t.old) chain
        → reads_in t.new ≤ reads_in t.old
        + (1 + asked.scripts_in_bucket chain (buckets_in (with_edits t.old)) script_hash.now.0) }
    ensures read { ReadsRows disk_failed t.old t.new result }
{
    match found_script(t, script_hash)? {
        Some(script) => Ok(script.row.balance),
        None => Ok(0),
    }
}
