// The way of a wallet's transactions to the node.
ghost use Rattle.std.specs.Prelude.{◌≡◌, ◌+◌};
ghost use Rattle.el_outside.specs.Counts.{HasCause};
ghost use Rattle.el_outside.specs.Relays.{GoesOnBy};

/// What a relay says of a transaction.
#[derive(Clone, Copy, Debug, PartialEq, Eq)]
pub enum Verdict {
    /// It passes the transaction on.
    Taken,
    /// It doesn't.
    Refused,
}

/// A call of the relay failed.
#[derive(Clone, Copy, Debug, PartialEq, Eq, thiserror::Error)]
#[error("relay failed")]
pub struct RelayFailed;

/// What passes the transactions of wallets on to the node.
pub trait Relay {
    ghost use Rattle.std.specs.Prelude.{ℕ, List};
    ghost use Rattle.el_outside.specs.Relays.{Offer};

    /// Whether the relay tells what it was offered. One in memory does, a real one doesn't.
    ghost tells: { Type 0 };

    /// What it was offered, in order, with its answers. A call that failed need not be among them.
    ghost offers: { Self → List Offer };

    /// How many calls were made, with no bound. It stands in contracts alone.
    ghost calls: { Self → ℕ };

    /// How often a call has failed; it stands still at 2^64 - 1.
    ghost faults: { Self → ℕ };

    /// Offers the bytes of a transaction to be passed on. After a failure nobody knows whether it will be.
    fn offer(&mut self, bytes: &[u8]) -> Result<Verdict, RelayFailed>
        ensures offered { tells → GoesOnBy (offers self.old) (offers self.new) bytes.now result }
        ensures called { calls self.new ≡ calls self.old + 1 }
        ensures cause { HasCause (faults self.old) (faults self.new) result };
}
