// The bytes of rows, written by hand from the layout of the tables.
ghost use Rattle.std.specs.Prelude.{◌<◌};
ghost use Rattle.el_row_formats.specs.RowBytes.{number_limit, FitsHeadRow, state_by};

use el_base::Hash32;
use el_outside::Place;
use el_row_formats::{BlockRow, EntryRow, HeadRow, InRow, OutRow, ScriptRow, State, TxRow};

const HASH: [u8; 32] = [5; 32];

// What a block's row has after the header.
const AFTER_HEADER: &[u8] = &[
    1, 0, 0, 0, 2, 0, 0, 0, 0, 0, 0, 0, 3, 0, 0, 0, 4, 0, 0, 0, 0, 0, 0, 0, 2, 1, 0, 0, 6, 0, 0, 0,
    0, 0, 0, 0,
];

// And in format 1.
const OLD_AFTER_HEADER: &[u8] = &[
    1, 0, 0, 0, 2, 0, 0, 0, 0, 0, 0, 0, 3, 0, 0, 0, 4, 0, 0, 0, 2, 1, 0, 0, 6, 0, 0, 0, 0, 0, 0, 0,
];

// Whether a block's row has its bytes and is read from them.
fn block_has_its_bytes() -> bool {
    let place = Place {
        file: 1,
        offset: 2,
        len: 3,
    };
    let block = BlockRow {
        header: [6; 80],
        place,
        first_tx: 4,
        txs: 258,
        sum: 6,
    };
    let mut bytes = [0; 116];
    block.write(&mut bytes);
    let mut old = [6; 112];
    old[80..].copy_from_slice(OLD_AFTER_HEADER);
    let has_header = &bytes[..80] == [6; 80].as_slice();
    let is_read = BlockRow::read(&bytes) == block && BlockRow::read_old(&old) == block;
    has_header && &bytes[80..] == AFTER_HEADER && is_read
}

// What a transaction's row has after the txid.
const AFTER_TXID: &[u8] = &[
    1, 0, 0, 0, 81, 0, 0, 0, 3, 0, 0, 0, 4, 0, 0, 0, 0, 0, 0, 0, 5, 0, 0, 0, 6, 0, 0, 0, 0, 0, 0,
    0, 7, 0, 0, 0, 0, 0, 0, 0, 0, 0, 0, 0, 0, 1, 0, 0, 0, 0, 0, 0,
];

// And in format 1.
const OLD_AFTER_TXID: &[u8] = &[
    1, 0, 0, 0, 81, 0, 0, 0, 3, 0, 0, 0, 4, 0, 0, 0, 5, 0, 0, 0, 6, 0, 0, 0, 7, 0, 0, 0, 0, 0, 0,
    0, 0, 1, 0, 0,
];

// Whether a transaction's row has its bytes and is read from them.
fn tx_has_its_bytes() -> bool {
    let tx = TxRow {
        txid: Hash32(HASH),
        height: 1,
        start: 81,
        len: 3,
        first_out: 4,
        outs: 5,
        first_in: 6,
        ins: 7,
        older: None,
        next: Some(255),
    };
    let mut bytes = [0; 84];
    tx.write(&mut bytes);
    let mut old = [5; 68];
    old[32..].copy_from_slice(OLD_AFTER_TXID);
    let has_txid = &bytes[..32] == HASH.as_slice();
    let is_read = TxRow::read(&bytes) == tx && TxRow::read_old(&old) == tx;
    has_txid && &bytes[32..] == AFTER_TXID && is_read
}

// What a script's row has after the script hash.
const AFTER_SCRIPT: &[u8] = &[
    1, 0, 0, 0, 0, 0, 0, 0, 2, 0, 0, 0, 0, 0, 0, 0, 2, 0, 0, 0, 0, 0, 0, 0, 0, 242, 5, 42, 1, 0, 0,
    0,
];

// And in format 1.
const OLD_AFTER_SCRIPT: &[u8] = &[
    1, 0, 0, 0, 2, 0, 0, 0, 2, 0, 0, 0, 0, 242, 5, 42, 1, 0, 0, 0,
];

// Whether a script's row has its bytes and is read from them.
fn script_has_its_bytes() -> bool {
    let script = ScriptRow {
        script: Hash32(HASH),
        next: Some(0),
        last: Some(1),
        entries: 2,
        balance: 5_000_000_000,
    };
    let mut bytes = [0; 64];
    script.write(&mut bytes);
    let mut old = [5; 52];
    old[32..].copy_from_slice(OLD_AFTER_SCRIPT);
    let has_hash = &bytes[..32] == HASH.as_slice();
    let is_read = ScriptRow::read(&bytes) == script && ScriptRow::read_old(&old) == script;
    has_hash && &bytes[32..] == AFTER_SCRIPT && is_read
}

#[test]
fn rows_have_their_bytes(rt: HostRuntime) {
    assert!(rt; block_has_its_bytes());
    assert!(rt; tx_has_its_bytes());
    assert!(rt; script_has_its_bytes());
}

// Whether an output's row of this state is read from its bytes, and has them where its kind is one that is
// written. The state is told by two numbers: which input, and which kind.
fn output_has_its_bytes(state: State, by: u8, kind: u8) -> bool
    requires { state_by state < number_limit }
{
    let wanted = [
        1, 0, 0, 0, 0, 0, 0, 0, 0, 2, 0, 0, 0, 0, 0, 0, 7, 0, 0, 0, 0, 0, 0, 0, kind, by, 0, 0, 0,
        0, 0, 0, 0,
    ];
    let old = [
        1, 0, 0, 0, 0, 2, 0, 0, 0, 0, 0, 0, 7, 0, 0, 0, kind, by, 0, 0, 0,
    ];
    let row = OutRow {
        tx: 1,
        value: 512,
        script: 7,
        state,
    };
    let mut bytes = [0; 33];
    row.write(&mut bytes);
    let is_read = OutRow::read(&wanted) == row && OutRow::read_old(&old) == row;
    is_read && (bytes == wanted || kind == 9)
}

#[test]
fn outputs_have_their_bytes(rt: HostRuntime) {
    assert!(rt; output_has_its_bytes(State::Unspent, 0, 0));
    assert!(rt; output_has_its_bytes(State::Spent(3), 3, 1));
    assert!(rt; output_has_its_bytes(State::Buried(3), 3, 2));
    assert!(rt; output_has_its_bytes(State::Buried(3), 3, 9));
}

// Whether a head has these bytes and is read from them.
fn head_has_its_bytes(row: &HeadRow, wanted: [u8; 8]) -> bool
    requires { FitsHeadRow row.now }
{
    let mut bytes = [9; 8];
    row.write(&mut bytes);
    bytes == wanted && HeadRow::read(&wanted) == *row
}

// Whether an input's row has its bytes and is read from them.
fn input_has_its_bytes() -> bool {
    let mut bytes = [9; 8];
    InRow { out: 513 }.write(&mut bytes);
    let is_read = InRow::read(&bytes) == InRow { out: 513 };
    let is_old = InRow::read_old(&[1, 2, 0, 0]) == InRow { out: 513 };
    bytes == [1, 2, 0, 0, 0, 0, 0, 0] && is_read && is_old
}

// Whether an entry's row has its bytes and is read from them.
fn entry_has_its_bytes() -> bool {
    let entry = EntryRow {
        tx: 1,
        script: 2,
        before: Some(2),
    };
    let wanted = [
        1, 0, 0, 0, 0, 0, 0, 0, 2, 0, 0, 0, 0, 0, 0, 0, 3, 0, 0, 0, 0, 0, 0, 0,
    ];
    let mut bytes = [9; 24];
    entry.write(&mut bytes);
    let old = [1, 0, 0, 0, 2, 0, 0, 0, 3, 0, 0, 0];
    bytes == wanted && EntryRow::read(&bytes) == entry && EntryRow::read_old(&old) == entry
}

#[test]
fn short_rows_have_their_bytes(rt: HostRuntime) {
    let last = HeadRow {
        head: Some(18_446_744_073_709_551_614),
    };
    assert!(rt; head_has_its_bytes(&HeadRow { head: None }, [0; 8]));
    assert!(rt; head_has_its_bytes(&last, [255; 8]));
    assert!(rt; HeadRow::read_old(&[0; 4]) == HeadRow { head: None });
    assert!(rt; HeadRow::read_old(&[1, 2, 0, 0]) == HeadRow { head: Some(512) });
    assert!(rt; input_has_its_bytes());
    assert!(rt; entry_has_its_bytes());
}
