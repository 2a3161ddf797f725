//! The opening of a store over files: the commit that waits in the redo file is checked and made, and the
//! files are checked.
#![tactic(auto)]

mod checking;
mod files;
mod finishing;
mod laws;
mod opening;
mod redoing;
mod waiting;

pub use checking::{file_sizes, number_in};
pub use laws::an_image_stands_for_one_index;
pub use opening::{finish, open_pages};
pub use redoing::read_whole;
