//! A disk over files that are open: the trait of a folder's open files, as the system's calls give them, and
//! the disk that a folder of them makes.
#![tactic(auto)]

mod calls;
mod file_disk;
mod finding;
mod moving;
mod open_files;

pub use file_disk::{FileDisk, FileFailure};
pub use open_files::OpenFiles;
