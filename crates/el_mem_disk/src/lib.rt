//! A disk in memory, which tells its files and what a crash may leave of them, one that tells nothing, and a
//! folder of open files over the first.
#![tactic(auto)]

mod disk;
mod disk_file;
mod disk_files;
mod disk_past;
mod failing;
mod laws;
mod mem_folder;
mod silent_disk;

pub use disk::MemDisk;
pub use failing::{FailingCalls, Residue};
pub use laws::every_image_is_chosen;
pub use mem_folder::{MemFolder, NumberedFile};
pub use silent_disk::SilentDisk;
