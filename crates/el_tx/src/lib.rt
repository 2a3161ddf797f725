//! Bitcoin's transactions and block headers: their encodings, read and written, and their hashes.
#![tactic(auto)]

mod decode;
mod encode;
mod fault;
mod hashing;
mod header;
mod header_laws;
mod laws;
mod own;
mod reading;
mod reading_parts;
mod size;
mod tx_view;
mod types;
mod view_size;
mod views;

pub use decode::{decode_tx, view_tx};
pub use encode::encode_tx;
pub use fault::TxFault;
pub use hashing::{is_coinbase, txid, vsize, weight};
pub use header::{block_hash, decode_header, encode_header};
pub use header_laws::headers_differ_in_encoding;
pub use laws::{
    each_has_one_encoding, each_is_read_or_faults, first_fault_is_one, no_encoding_begins_another,
    nothing_encoded_faults,
};
pub use own::own_tx;
pub use size::{Sizes, sizes_of};
pub use tx_view::TxView;
pub use types::{Header, MAX_MONEY, Outpoint, Tx, TxIn, TxOut};
pub use views::{BytesView, TxInView, TxOutView};
