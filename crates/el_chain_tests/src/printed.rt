// What is printed of each fault.
use el_base::{Hash32, OutOfMemory};
use el_chain::ConnectFault;
use el_files::{ReadFault, ScanFault};
use el_headers::PathFault;
use el_laws::Stop;
use el_model::QueryFault;
use el_outside::{ArchiveFailed, DiskFailed};
use std::alloc::{AllocError, AllocFailed, Global};
use std::fmt::Display;
use std::test::Fail;

// The first fault, counted from 0, that isn't printed as the text beside it.
fn not_printed<F: Display>(alloc: Global, rows: &[(F, &str)]) -> Result<Option<usize>, Fail> {
    for (number, (fault, text)) in rows.iter().enumerate() {
        if format!(in alloc; "{fault}")?.as_str() != *text {
            return Ok(Some(number));
        }
    }
    Ok(None)
}

#[test]
fn prints_faults_of_chains(rt: HostRuntime) -> Result<(), Fail> {
    let rows = [
        (ConnectFault::DiskFailed, "index device failed"),
        (
            ConnectFault::MissingCoin { tx: 3, input: 1 },
            "transaction 3: no coin for input 1",
        ),
        (
            ConnectFault::Money { supply: 9 },
            "all coins hold 9 satoshi",
        ),
        (
            ConnectFault::Full { table: 1, rows: 9 },
            "table 1 is full at 9 rows",
        ),
        (ConnectFault::from(OutOfMemory), "out of memory"),
        (ConnectFault::from(AllocError), "out of memory"),
        (
            ConnectFault::from(AllocFailed { value: 7u8 }),
            "out of memory",
        ),
    ];
    assert_eq!(rt; not_printed(rt.alloc(), rows.as_slice())?, None);
    Ok(())
}

#[test]
fn prints_faults_of_queries(rt: HostRuntime) -> Result<(), Fail> {
    let rows = [
        (QueryFault::from(DiskFailed), "index device failed"),
        (QueryFault::from(OutOfMemory), "out of memory"),
        (QueryFault::from(AllocError), "out of memory"),
        (
            QueryFault::from(AllocFailed { value: 7u8 }),
            "out of memory",
        ),
    ];
    assert_eq!(rt; not_printed(rt.alloc(), rows.as_slice())?, None);
    Ok(())
}

#[test]
fn prints_stops(rt: HostRuntime) -> Result<(), Fail> {
    let rows = [
        (Stop::DiskFailed, "index device failed"),
        (Stop::Refused, "move refused"),
        (Stop::from(OutOfMemory), "out of memory"),
    ];
    assert_eq!(rt; not_printed(rt.alloc(), rows.as_slice())?, None);
    Ok(())
}

#[test]
fn prints_faults_of_scans(rt: HostRuntime) -> Result<(), Fail> {
    let rows = [
        (ScanFault::from(ArchiveFailed), "block files failed"),
        (ScanFault::from(OutOfMemory), "out of memory"),
    ];
    assert_eq!(rt; not_printed(rt.alloc(), rows.as_slice())?, None);
    Ok(())
}

#[test]
fn prints_faults_of_reads(rt: HostRuntime) -> Result<(), Fail> {
    let changed = ReadFault::Changed {
        wanted: Hash32([0; 32]),
        found: None,
    };
    let rows = [
        (ReadFault::from(ArchiveFailed), "block files failed"),
        (ReadFault::from(ScanFault::Memory), "out of memory"),
        (ReadFault::from(OutOfMemory), "out of memory"),
        (changed, "block files changed"),
    ];
    assert_eq!(rt; not_printed(rt.alloc(), rows.as_slice())?, None);
    Ok(())
}

#[test]
fn prints_faults_of_paths(rt: HostRuntime) -> Result<(), Fail> {
    let memory = PathFault::from(OutOfMemory);
    assert!(rt; PathFault::from(AllocError) == memory);
    assert!(rt; PathFault::from(AllocFailed { value: 7u8 }) == memory);
    let rows = [
        (PathFault::Unknown, "unknown header"),
        (
            PathFault::Unconnected,
            "header without a path from the genesis",
        ),
        (memory, "out of memory"),
    ];
    assert_eq!(rt; not_printed(rt.alloc(), rows.as_slice())?, None);
    Ok(())
}
