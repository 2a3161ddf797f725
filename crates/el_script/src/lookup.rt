// Scripts by their hashes.
ghost use Rattle.std.specs.Prelude.{◌≡◌, ◌<◌, ◌≤◌, ◌+◌, ℕ, List, length, IfOk, None};
ghost use Rattle.std.specs.Option.{ForSome};
ghost use Rattle.el_row_formats.specs.declared.table.Table.{Table};
ghost use Rattle.el_rows.specs.Transaction.{with_edits, reads_in, disk_failed, ReadsRows};
ghost use Rattle.el_tables.specs.ChainLists.{ListedBlock};
ghost use Rattle.el_tables.specs.Lists.{Lists};
ghost use Rattle.el_tables.specs.Tables.{HeadCounts};
ghost use Rattle.el_schema.specs.Rows.{Hold};
ghost use Rattle.el_buckets.specs.Buckets.{bucket_size, newest_of};
ghost use Rattle.el_script.specs.Found.{HasHeads, script_in};

use el_base::Hash32;
use el_buckets::{Buckets, find, find_row};
use el_outside::DiskFailed;
use el_row_formats::ScriptRow;
use el_rows::{Rows, Txn};

/// The greatest number of a script with that hash, and none exactly where there is none. It takes no memory
/// and changes nothing.
pub fn find_script<R: Rows>(t: &mut Txn<'_, R>, s: &Hash32) -> Result<Option<u64>, DiskFailed>
    requires live { R.is_live t.old.rows.now }
    ensures newest { (counts : HeadCounts) (bs : List ListedBlock) (l : Lists) → R.tells
        → Hold counts bs l (with_edits t.old) → 0 < counts.scripts
        → IfOk result (λ n. n ≡ newest_of s.now l.scripts) }
    // It reads one head, and rows of scripts in the hash's bucket alone.
    ensures rows { (counts : HeadCounts) (bs : List ListedBlock) (l : Lists) → R.tells
        → Hold counts bs l (with_edits t.old) → 0 < counts.scripts
        → reads_in t.new ≤ reads_in t.old + 1 + bucket_size counts.scripts s.now l.scripts }
    // What follows holds over any rows.
    ensures none { length (with_edits t.old Table.ScriptHeads) ≡ 0 → IfOk result (λ n. n ≡ None) }
    ensures below { IfOk result (λ n. ForSome n (λ k. k < length (with_edits t.old Table.Scripts))) }
    ensures read { ReadsRows disk_failed t.old t.new result }
{
    Ok(find(t, Buckets::ScriptHashes, s)?.newest)
}

/// A script that is there.
#[derive(Clone, Copy, Debug, PartialEq, Eq)]
pub struct FoundScript {
    /// Its number, from 0, in the order in which scripts were first met.
    pub number: u64,
    /// Its row.
    pub row: ScriptRow,
}

/// The newest script with that hash, with its row, and none exactly where there is none. It takes no memory
/// and changes nothing.
pub fn found_script<R: Rows>(
    t: &mut Txn<'_, R>,
    script_hash: &Hash32,
) -> Result<Option<FoundScript>, DiskFailed>
    requires live { R.is_live t.old.rows.now }
    ensures found { (counts : HeadCounts) (bs : List ListedBlock) (l : Lists) → R.tells
        → Hold counts bs l (with_edits t.old) → HasHeads counts l
        → IfOk result (λ f. f ≡ script_in script_hash.now counts l) }
    // It reads one head, and rows of scripts in the hash's bucket alone, each once.
    ensures rows { (counts : HeadCounts) (bs : List ListedBlock) (l : Lists) → R.tells
        → Hold counts bs l (with_edits t.old) → HasHeads counts l
        → reads_in t.new ≤ reads_in t.old + 1 + bucket_size counts.scripts script_hash.now l.scripts }
    ensures read { ReadsRows disk_failed t.old t.new result }
{
    let mut row = [0; 64];
    let found = find_row(t, Buckets::ScriptHashes, script_hash, &mut row)?;
    match found.newest {
        Some(number) => {
            let row = ScriptRow::read(&row);
            Ok(Some(FoundScript { number, row }))
        }
        None => Ok(None),
    }
}
