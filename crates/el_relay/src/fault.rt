// Why a transaction is not broadcast.
ghost use Rattle.std.specs.Prelude.{◌≡◌};
ghost use Rattle.el_relay.specs.declared.fault.OfferFault.TheVariants as refusal;

use el_base::OutOfMemory;
use std::alloc::AllocError;

/// Why a transaction is not broadcast: the first in this order that stands. `Memory` may come in the place of
/// any but `Off`, before the relay was asked.
#[derive(Clone, Copy, Debug, PartialEq, Eq, thiserror::Error)]
pub enum OfferFault {
    /// There is no relay.
    #[error("no relay")]
    Off,
    /// The bytes are not one whole transaction.
    #[error("not a transaction")]
    Form,
    /// An input names no output, as a coinbase's does.
    #[error("coinbase not relayed")]
    CoinbaseForm,
    /// The relay refused it in this call.
    #[error("refused by relay")]
    Refused,
    /// The call of the relay failed.
    #[error("relay failed")]
    RelayFailed,
    /// Out of memory.
    #[error("out of memory")]
    Memory,
}

impl From<OutOfMemory> for OfferFault {
    ghost from_gives = { λ _ e. e ≡ refusal.Memory };

    fn from(_: OutOfMemory) -> Self {
        OfferFault::Memory
    }
}

impl From<AllocError> for OfferFault {
    ghost from_gives = { λ _ e. e ≡ refusal.Memory };

    fn from(_: AllocError) -> Self {
        OfferFault::Memory
    }
}
