// The printed texts of faults.

use el_base::OutOfMemory;
use el_outside::{ArchiveFailed, DiskFailed, LinkFailed, SendFault};
use el_redo::OpenFault;
use el_rows::{AppendFault, CommitFault};
use std::alloc::Global;
use std::fmt::Display;
use std::test::Fail;

// Whether the fault is printed so.
fn prints<T: Display>(alloc: Global, fault: &T, wanted: &str) -> Result<bool, Fail> {
    let printed = format!(in alloc; "{fault}")?;
    Ok(printed.as_str() == wanted)
}

#[test]
fn device_faults(rt: HostRuntime) -> Result<(), Fail> {
    let alloc = rt.alloc();
    assert!(rt; prints(alloc, &ArchiveFailed, "block files failed")?);
    assert!(rt; prints(alloc, &DiskFailed, "index device failed")?);
    assert!(rt; prints(alloc, &LinkFailed, "link failed")?);
    assert!(rt; prints(alloc, &SendFault::Gone, "the peer is gone")?);
    assert!(rt; prints(alloc, &SendFault::Memory, "out of memory")?);
    Ok(())
}

#[test]
fn row_faults(rt: HostRuntime) -> Result<(), Fail> {
    let alloc = rt.alloc();
    let full = AppendFault::Full { table: 4, rows: 9 };
    assert!(rt; prints(alloc, &full, "table 4 is full with 9 rows")?);
    assert!(rt; prints(alloc, &AppendFault::from(OutOfMemory), "out of memory")?);
    assert!(rt; prints(alloc, &CommitFault::from(DiskFailed), "disk failed")?);
    assert!(rt; prints(alloc, &CommitFault::from(OutOfMemory), "out of memory")?);
    Ok(())
}

#[test]
fn opening_faults(rt: HostRuntime) -> Result<(), Fail> {
    let alloc = rt.alloc();
    let index = OpenFault::BadIndex {
        file: 10,
        wanted: 1,
        found: 7,
    };
    assert!(rt; prints(alloc, &index, "bad index: file 10 wanted 1 found 7")?);
    assert!(rt; prints(alloc, &OpenFault::DiskFailed, "index device failed")?);
    assert!(rt; prints(alloc, &OpenFault::Memory, "out of memory")?);
    Ok(())
}
