// Tables whose rows are found by a hash.
ghost use Rattle.std.specs.Prelude.{◌≡◌, ◌<◌, ◌≤◌, length, Option};
ghost use Rattle.el_row_formats.specs.Tables.{size_of};
ghost use Rattle.el_row_formats.specs.RowBytes.{tx_row_bytes, script_row_bytes, FitsTxRow, FitsScriptRow};
ghost use Rattle.el_row_formats.specs.declared.tx_row.TxRow as tx_shape;
ghost use Rattle.el_row_formats.specs.declared.script_row.ScriptRow as script_shape;
ghost use Rattle.el_tables.specs.Tables.{bucket_in};
ghost use Rattle.el_buckets.specs.Buckets.{rows_table, heads_of, below};

use el_base::Hash32;
use el_row_formats::{ScriptRow, Table, TxRow};

/// Two tables: rows that are found by a hash, and the heads of their buckets.
#[derive(Clone, Copy, Debug, PartialEq, Eq)]
pub enum Buckets {
    /// Transactions, by txid.
    Txids,
    /// Scripts, by script hash.
    ScriptHashes,
}

impl Buckets {
    /// The table of the rows.
    pub fn rows(self) -> Table
        ensures { result ≡ rows_table self }
    {
        match self {
            Buckets::Txids => Table::Txs,
            Buckets::ScriptHashes => Table::Scripts,
        }
    }

    /// The table of the heads.
    pub fn heads(self) -> Table
        ensures { result ≡ heads_of self }
    {
        match self {
            Buckets::Txids => Table::TxHeads,
            Buckets::ScriptHashes => Table::ScriptHeads,
        }
    }

    // The hash of a row, and its link to the next in its bucket.
    pub(crate) fn hash_and_next(self, row: &[u8]) -> (Hash32, Option<u64>)
        requires { length row.now ≡ size_of (rows_table self) }
        ensures tx { (r : tx_shape.TxRow) → self ≡ Buckets.Txids → FitsTxRow r → tx_row_bytes r ≡ row.now
            → (result.0 ≡ r.txid) × (result.1 ≡ r.next) }
        ensures script { (r : script_shape.ScriptRow) → self ≡ Buckets.ScriptHashes → FitsScriptRow r
            → script_row_bytes r ≡ row.now → (result.0 ≡ r.script) × (result.1 ≡ r.next) }
    {
        match self {
            Buckets::Txids => {
                let row = TxRow::read(row);
                (row.txid, row.next)
            }
            Buckets::ScriptHashes => {
                let row = ScriptRow::read(row);
                (row.script, row.next)
            }
        }
    }
}

/// A link that isn't below n is none.
pub fn if_below(link: Option<u64>, n: u64) -> Option<u64>
    ensures { result ≡ below n link }
{
    match link {
        Some(m) if m < n => Some(m),
        _ => None,
    }
}

/// The bucket of a hash among so many: the number of its first three bytes, the lowest first, modulo their
/// count.
#[tactic(auto, unfolding(el_tables::specs::Tables::bucket_in))]
pub fn bucket_of(hash: &Hash32, count: u64) -> u64
    requires { 0 < count }
    ensures bucket { result ≡ bucket_in count hash.now }
    ensures within { result < count }
{
    let [a, b, c, ..] = hash.0;
    (u64::from(a) + 256 * u64::from(b) + 65536 * u64::from(c)) % count
}
