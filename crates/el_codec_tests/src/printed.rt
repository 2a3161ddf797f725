// What is printed of each fault.
use el_base::{CompactFault, Hash32, HexFault, OutOfMemory, Short};
use el_block::BlockFault;
use el_tx::TxFault;
use std::alloc::Global;
use std::fmt::Display;
use std::test::Fail;

// Whether the fault is printed so.
fn prints<F: Display>(alloc: Global, fault: &F, wanted: &str) -> Result<bool, Fail> {
    Ok(format!(in alloc; "{fault}")?.as_str() == wanted)
}

#[test]
fn prints_faults_of_bytes(rt: HostRuntime) -> Result<(), Fail> {
    assert!(rt; prints(rt.alloc(), &Short { place: 7 }, "bytes end too early at 7")?);
    assert!(rt; prints(rt.alloc(), &OutOfMemory, "out of memory")?);
    for (fault, wanted) in [
        (
            CompactFault::Short { place: 8 },
            "bytes end within the number at 8",
        ),
        (
            CompactFault::LongSpelling { place: 9 },
            "the number at 9 has a shorter encoding",
        ),
    ] {
        assert!(rt; prints(rt.alloc(), &fault, wanted)?);
    }
    for (fault, wanted) in [
        (
            HexFault::BadLength { found: 63 },
            "a shown hash has 64 digits, not 63",
        ),
        (HexFault::BadDigit { place: 5 }, "no hex digit at 5"),
    ] {
        assert!(rt; prints(rt.alloc(), &fault, wanted)?);
    }
    Ok(())
}

#[test]
fn prints_faults_of_transactions(rt: HostRuntime) -> Result<(), Fail> {
    for (fault, wanted) in [
        (
            TxFault::Short { place: 7 },
            "bytes end within the field at 7",
        ),
        (
            TxFault::LongSpelling { place: 8 },
            "the number at 8 has a shorter encoding",
        ),
        (TxFault::BadFlag { place: 5 }, "the flag at 5 is not 1"),
        (TxFault::EmptyWitness, "every witness is empty"),
        (TxFault::NoInputs, "no inputs"),
        (TxFault::NoOutputs, "no outputs"),
        (TxFault::Money { output: 3 }, "output 3 has too much money"),
        (TxFault::Memory, "out of memory"),
    ] {
        assert!(rt; prints(rt.alloc(), &fault, wanted)?);
    }
    Ok(())
}

#[test]
fn prints_faults_of_blocks(rt: HostRuntime) -> Result<(), Fail> {
    let hash = Hash32([0; 32]);
    for (fault, text) in [
        (BlockFault::Short, "fewer than 80 bytes"),
        (
            BlockFault::Count(CompactFault::Short { place: 80 }),
            "number of transactions: bytes end within the number at 80",
        ),
        (BlockFault::NoTransactions, "no transactions"),
        (
            BlockFault::Tx {
                index: 3,
                fault: TxFault::NoOutputs,
            },
            "transaction 3: no outputs",
        ),
        (
            BlockFault::Trailing { place: 285 },
            "bytes after the block at 285",
        ),
        (
            BlockFault::FirstNotCoinbase,
            "the first transaction is no coinbase",
        ),
        (
            BlockFault::LaterCoinbase { index: 2 },
            "transaction 2 is a coinbase too",
        ),
        (
            BlockFault::SameTxid {
                first: 1,
                second: 3,
            },
            "transactions 1 and 3 have one txid",
        ),
        (
            BlockFault::BadMerkle {
                header: hash,
                found: hash,
            },
            "the Merkle root is not the header's",
        ),
        (
            BlockFault::Heavy { weight: 4_000_001 },
            "the block weighs 4000001",
        ),
        (BlockFault::from(OutOfMemory), "out of memory"),
    ] {
        assert!(rt; prints(rt.alloc(), &fault, text)?);
    }
    Ok(())
}
