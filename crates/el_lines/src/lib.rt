//! What comes over a link: the bytes of a peer are cut into lines, a line of a node is read by its grammar,
//! and the answers to the node are printed.
#![tactic(auto)]

mod answer_room;
mod bytes;
mod laws;
mod limits;
mod line_buffer;
mod node_answer;
mod node_line;
mod number;
mod printing;

pub use answer_room::{ANSWER_SIZE, AnswerRoom};
pub use laws::{cuts_do_not_matter, node_line_says_one_thing, pieces_do_not_matter};
pub use limits::{IDLE_ROOM, LINE_LIMIT, NODE_LINE_LIMIT};
pub use line_buffer::{LineBuffer, LineEvent};
pub use node_answer::{Flaw, NodeAnswer, NodeRefusal, move_refused, pool_refused};
pub use node_line::{NodeLine, NodeLineFault, read_node_line};
pub use number::number_of;
pub use printing::answer_text;
