// The earlier moments of a disk in memory. They stand in contracts alone, and have no bound.
ghost use Rattle.std.specs.Prelude.{◌≡◌, ◌∷◌};
ghost use Rattle.el_mem_disk.specs.DiskFiles.{file_numbered};
ghost use Rattle.el_mem_disk.specs.within.DiskPast.{known_at};

use crate::disk_file::DiskFile;
use std::snapshot::Snapshot;

/// The files at each moment before: none, or those before, and one more.
#[cycle(disk_past)]
#[derive(Drop)]
pub(crate) enum DiskPast {
    Nothing,
    After(Snapshot<DiskPast>, Snapshot<Vec<DiskFile>>),
}

// These moments, and one more.
pub(crate) fn then(past: &DiskPast, files: &Vec<DiskFile>) -> DiskPast
    ensures { known_at result ≡ (λ f. (file_numbered files.now.items f).kept) ∷ known_at past.now }
{
    DiskPast::After(Snapshot::of(past), Snapshot::of(files))
}
