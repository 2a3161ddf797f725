//! Lines of clients as JSON-RPC 2.0: a line is read as a request or as a batch of requests, parameters are
//! read by place or by name, and answers are printed. The one crate that reads and prints JSON.
#![tactic(auto)]

mod answer;
mod elements;
mod params;
mod printing;
mod reading;
mod request;

pub use answer::{Answer, Answers, Members, print_answer};
pub use elements::Elements;
pub use params::{Names, Param, Params, Places};
pub use reading::read_line;
pub use request::{Envelope, Item, LineFault, Request};
