// The status of a history.
ghost use Rattle.std.specs.Prelude.{◌≡◌, ◌++◌, ℕ, List, flat_map};
ghost use Rattle.el_status.specs.Hashing.{HasHashed};
ghost use Rattle.el_status.specs.Statuses.{entry_part, pool_part, text_of, status_of_text};

use el_base::Hash32;
use el_chain::Entry;
use el_mempool::PoolEntry;
use el_status::StatusHash;

// Hashes the confirmed ones. Takes no memory.
fn hash_confirmed(hash: &mut StatusHash, entries: &[Entry])
    ensures { (text : List ℕ) → HasHashed hash.old text
        → HasHashed hash.new (text ++ flat_map entry_part entries.now) }
{
    for entry in entries {
        hash.confirmed(entry);
    }
}

// Hashes those that no block has yet. Takes no memory.
fn hash_unconfirmed(hash: &mut StatusHash, entries: &[PoolEntry])
    ensures { (text : List ℕ) → HasHashed hash.old text
        → HasHashed hash.new (text ++ flat_map pool_part entries.now) }
{
    for entry in entries {
        hash.unconfirmed(entry);
    }
}

/// The status of these entries. Takes no memory.
pub fn status_of(confirmed: &[Entry], unconfirmed: &[PoolEntry]) -> Option<Hash32>
    ensures { result ≡ status_of_text (text_of confirmed.now unconfirmed.now) }
{
    let mut hash = StatusHash::new();
    hash_confirmed(&mut hash, confirmed);
    hash_unconfirmed(&mut hash, unconfirmed);
    hash.finish()
}
