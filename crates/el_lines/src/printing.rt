// The text of what a node is answered.
ghost use Rattle.std.specs.Prelude.{◌≡◌, ◌<◌, ◌≤◌, ◌+◌, ◌++◌, ◌∷◌, [], length, None, Some};
ghost use Rattle.std.specs.Fmt.{decimal};
ghost use Rattle.el_base.specs.Shown.{shown};
ghost use Rattle.el_lines.specs.NodeAnswers as answers;

use crate::answer_room::{ANSWER_SIZE, AnswerRoom, and_then};
use crate::limits::NODE_LINE_LIMIT;
use crate::node_answer::{Flaw, NodeAnswer, NodeRefusal};
use el_base::{Bytes, Hash32};
use itoa::Buffer;

// A word and what stands after it, ended by byte 10.
fn word_line(room: AnswerRoom, word: &[u8], rest: &[u8]) -> Bytes
    requires { length word.now + length rest.now < ANSWER_SIZE }
    ensures { result ≡ word.now ++ (rest.now ++ 10 ∷ []) }
{
    let line = and_then(room.into_vec(), word);
    let line = and_then(line, rest);
    let line = and_then(line, b"\n");
    Bytes::from_vec(line)
}

// A word and a hash as it is shown, ended by byte 10.
fn hash_line(room: AnswerRoom, word: &[u8], hash: Hash32) -> Bytes
    requires { length word.now ≤ 32 }
    ensures { result ≡ word.now ++ (shown hash.0 ++ 10 ∷ []) }
{
    word_line(room, word, hash.shown().as_slice())
}

// A line of fixed words.
fn fixed_line(room: AnswerRoom, line: &[u8]) -> Bytes
    requires { length line.now ≤ ANSWER_SIZE }
    ensures { result ≡ line.now }
{
    Bytes::from_vec(and_then(room.into_vec(), line))
}

// A word and a number, ended by byte 10.
fn number_line(room: AnswerRoom, word: &[u8], number: usize) -> Bytes
    requires { length word.now ≤ 32 }
    ensures { result ≡ word.now ++ (decimal number ++ 10 ∷ []) }
{
    let mut digits = Buffer::new();
    word_line(room, word, digits.format(number).as_bytes())
}

// A word, a text and a number, the latter two with a blank between.
fn pair_line(room: AnswerRoom, word: &[u8], text: &[u8], number: u64) -> Bytes
    requires { length word.now + length text.now ≤ 96 }
    ensures { result ≡ word.now ++ (text.now ++ 32 ∷ (decimal number ++ 10 ∷ [])) }
{
    let mut digits = Buffer::new();
    let line = and_then(room.into_vec(), word);
    let line = and_then(line, text);
    let line = and_then(line, b" ");
    let line = and_then(line, digits.format(number).as_bytes());
    let line = and_then(line, b"\n");
    Bytes::from_vec(line)
}

// A word and two numbers with a blank between.
fn numbers_line(room: AnswerRoom, word: &[u8], first: u64, second: u64) -> Bytes
    requires { length word.now ≤ 32 }
    ensures { result ≡ word.now ++ (decimal first ++ 32 ∷ (decimal second ++ 10 ∷ [])) }
{
    let mut digits = Buffer::new();
    pair_line(room, word, digits.format(first).as_bytes(), second)
}

// The text of `refused bad B WORD`.
#[tactic(auto, unfolding(crate::specs::NodeAnswers::bad_text))]
fn bad_line(room: AnswerRoom, block: Hash32, flaw: Flaw) -> Bytes
    ensures { result ≡ answers.bad_text block flaw }
{
    let line = and_then(room.into_vec(), b"refused bad ");
    let line = and_then(line, block.shown().as_slice());
    let line = and_then(line, b" ");
    let line = and_then(line, flaw.word().as_bytes());
    let line = and_then(line, b"\n");
    Bytes::from_vec(line)
}

// The text of a refusal.
#[tactic(auto, unfolding(crate::specs::NodeAnswers::refusal_text))]
fn refusal_line(room: AnswerRoom, refusal: NodeRefusal) -> Bytes
    ensures { result ≡ answers.refusal_text refusal }
{
    match refusal {
        NodeRefusal::Line => fixed_line(room, b"refused line\n"),
        NodeRefusal::Long => number_line(room, b"refused long ", NODE_LINE_LIMIT),
        NodeRefusal::Place => fixed_line(room, b"refused place\n"),
        NodeRefusal::Genesis(hash) => hash_line(room, b"refused genesis ", hash),
        NodeRefusal::Unknown(hash) => hash_line(room, b"refused unknown ", hash),
        NodeRefusal::Unconnected(hash) => hash_line(room, b"refused unconnected ", hash),
        NodeRefusal::Deep(back) => number_line(room, b"refused deep ", back),
        NodeRefusal::Archive => fixed_line(room, b"refused archive\n"),
        NodeRefusal::Changed(hash) => hash_line(room, b"refused changed ", hash),
        NodeRefusal::Bad { block, flaw } => bad_line(room, block, flaw),
        NodeRefusal::Form => fixed_line(room, b"refused form\n"),
        NodeRefusal::Coinbase => fixed_line(room, b"refused coinbase\n"),
        NodeRefusal::Confirmed(txid) => hash_line(room, b"refused confirmed ", txid),
        NodeRefusal::Known(txid) => hash_line(room, b"refused known ", txid),
        NodeRefusal::Missing { txid, index } => pair_line(
            room,
            b"refused missing ",
            txid.shown().as_slice(),
            u64::from(index),
        ),
        NodeRefusal::Conflict(txid) => hash_line(room, b"refused conflict ", txid),
        NodeRefusal::Overspends { taken, given } => {
            numbers_line(room, b"refused overspends ", taken, given)
        }
        NodeRefusal::Full { count, bytes } => numbers_line(room, b"refused full ", count, bytes),
        NodeRefusal::Absent(txid) => hash_line(room, b"refused absent ", txid),
    }
}

// The text of `at H N`.
#[tactic(auto, unfolding(crate::specs::NodeAnswers::at_text))]
fn at_line(room: AnswerRoom, tip: Hash32, height: u32) -> Bytes
    ensures { result ≡ answers.at_text (Some tip) (Some height) }
{
    pair_line(room, b"at ", tip.shown().as_slice(), u64::from(height))
}

// The text of where a chain ends; of no blocks nothing is said.
#[tactic(auto, unfolding(crate::specs::NodeAnswers::at_text))]
fn end_line(room: AnswerRoom, tip: Option<Hash32>, height: Option<u32>) -> Bytes
    ensures { result ≡ answers.at_text tip height }
{
    match (tip, height) {
        (Some(tip), Some(height)) => at_line(room, tip, height),
        _ => Bytes::from_vec(room.into_vec()),
    }
}

/// The line that tells the node the answer, ended by byte 10. It takes no memory.
#[tactic(auto, unfolding(crate::specs::NodeAnswers::text_of))]
pub fn answer_text(room: AnswerRoom, answer: &NodeAnswer) -> Bytes
    ensures { result ≡ answers.text_of answer.now }
{
    match *answer {
        NodeAnswer::Block(hash) => hash_line(room, b"block ", hash),
        NodeAnswer::At { tip, height } => end_line(room, tip, height),
        NodeAnswer::Tx(txid) => hash_line(room, b"tx ", txid),
        NodeAnswer::Gone(txid) => hash_line(room, b"gone ", txid),
        NodeAnswer::Refused(refusal) => refusal_line(room, refusal),
    }
}
