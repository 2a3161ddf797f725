// A status without its text.
ghost use Rattle.std.specs.Prelude.{◌≡◌, ◌++◌, ◌∷◌, ℕ, List, [], flat_map};
ghost use Rattle.std.specs.Fmt.{decimal, signed_decimal};
ghost use Rattle.el_status.specs.Hashing.{HasHashed};
ghost use Rattle.el_status.specs.Statuses as spec;
ghost use Rattle.el_status.specs.Statuses.{part, entry_part, pool_part, status_of_text};

use el_base::Hash32;
use el_chain::Entry;
use el_mempool::PoolEntry;
use itoa::{Buffer, Integer};
use sha2::{Digest, Sha256};

/// The hash of the text of a status, of which one part after the other comes. It takes no memory, however
/// long the text is.
#[derive(Drop)]
pub struct StatusHash {
    hasher: Sha256,
    any: bool,
}

// Adds a transaction with that txid and height. Takes no memory.
fn feed<D: Digest, I: Integer>(hasher: &mut D, txid: &Hash32, height: I)
    ensures { (m : List ℕ) → D.holds hasher.old m
        → D.holds hasher.new (m ++ part txid.now (I.text height)) }
{
    let mut digits = Buffer::new();
    hasher.update(txid.shown());
    hasher.update(b":");
    hasher.update(digits.format(height));
    hasher.update(b":");
}

impl StatusHash {
    /// Of no text. Takes no memory.
    pub fn new() -> StatusHash
        ensures { HasHashed result [] }
    {
        StatusHash {
            hasher: Sha256::new(),
            any: false,
        }
    }

    /// Adds a confirmed transaction. Takes no memory.
    pub fn confirmed(&mut self, entry: &Entry)
        ensures { (text : List ℕ) → HasHashed self.old text
            → HasHashed self.new (text ++ entry_part entry.now) }
    {
        feed(&mut self.hasher, &entry.txid, entry.height);
        self.any = true;
    }

    /// Adds one that no block has yet. Takes no memory.
    pub fn unconfirmed(&mut self, entry: &PoolEntry)
        ensures { (text : List ℕ) → HasHashed self.old text
            → HasHashed self.new (text ++ pool_part entry.now) }
    {
        feed(&mut self.hasher, &entry.txid, entry.flag);
        self.any = true;
    }

    /// The status, in inner order, which is told by its hex digits, the first byte first; None exactly for no
    /// text. Takes no memory.
    pub fn finish(self) -> Option<Hash32>
        ensures { (text : List ℕ) → HasHashed self text → result ≡ status_of_text text }
    {
        if self.any {
            Some(Hash32(self.hasher.finalize()))
        } else {
            None
        }
    }
}
