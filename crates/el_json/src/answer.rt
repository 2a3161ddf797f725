// Values of JSON that contracts see as plain data.
ghost use Rattle.std.specs.Prelude.{◌≡◌, ◌≤◌, ◌∷◌, ◌++◌, [], Some, OnOk, OnErr, IfOk};
ghost use Rattle.serde_json.specs.Data.{null, boolean, number, string, array, object, depth, unsigned, no_members, put as with_member};
ghost use Rattle.serde_json.specs.Find.{of_integer};
ghost use Rattle.serde_json.specs.Read.{max_depth};
ghost use Rattle.serde_json.specs.View.{view, items_of};
ghost use Rattle.serde_json.specs.Written.{compact_text};
ghost use Rattle.el_json.specs.Lines.{value_of, IsPrintable};

use crate::printing::compact_text;
use el_base::{OutOfMemory, Text};
use serde_json::{Map, Value as Json};
use std::alloc::Global;
use std::marker::Model;

/// A value of JSON (RFC 8259), which contracts see as plain data: null, true or false, a number, a text, a
/// list, or members. Members have each name once, and stand in byte order of their names. A number is a whole
/// one of 64 bits, with or without a sign, or a float; none of the server's own answers has a float.
#[derive(Debug, Drop)]
pub struct Answer {
    value: Json,
}

impl Model for Answer {
    ghost use Rattle.serde_json.specs.Data.{Data};
    ghost use Rattle.serde_json.specs.View as json;
    ghost use Rattle.el_json.specs.within.Codes.{coded_data};

    ghost Value = { Data };

    ghost coded = { coded_data };

    ghost view = { λ a. json.view a.value };
}

impl Answer {
    // The value of a line or of a part of one.
    pub(crate) fn from_json(value: Json) -> Answer
        ensures { result ≡ view value }
    {
        Answer { value }
    }

    /// JSON's null.
    pub fn null() -> Answer
        ensures { result ≡ null }
    {
        Answer { value: Json::Null }
    }

    /// True or false.
    pub fn flag(is: bool) -> Answer
        ensures { result ≡ boolean is }
    {
        Answer {
            value: Json::Bool(is),
        }
    }

    /// A whole number that isn't negative.
    pub fn number(n: u64) -> Answer
        ensures { result ≡ number (unsigned n) }
    {
        Answer {
            value: Json::from(n),
        }
    }

    /// A whole number with a sign.
    pub fn signed(n: i64) -> Answer
        ensures { result ≡ number (of_integer n) }
    {
        Answer {
            value: Json::from(n),
        }
    }

    /// A text. Takes no memory.
    pub fn text(text: Text) -> Answer
        ensures { result ≡ string text }
    {
        Answer {
            value: Json::String(text.into_string()),
        }
    }

    /// A copy of a text. Fails only where memory runs out.
    pub fn from_str(alloc: Global, text: &str) -> Result<Answer, OutOfMemory>
        ensures { IfOk result (λ a. a ≡ string text.now) }
    {
        let value = Json::try_from_str(alloc, text)?;
        Ok(Answer { value })
    }

    /// The compact text: without blanks, members in byte order of their names. Fails only where memory runs
    /// out.
    pub fn compact(&self, alloc: Global) -> Result<Vec<u8>, OutOfMemory>
        requires { IsPrintable self.now }
        ensures text { IfOk result (λ text. text.items ≡ compact_text self.now) }
        ensures reads_back { IfOk result (λ text. depth self.now ≤ max_depth
            → value_of text.items ≡ Some self.now) }
    {
        let text = compact_text(alloc, &self.value)?;
        Ok(text)
    }
}

/// The answer's compact text and byte 10, which ends a message (Electrum Protocol 1.4). Without that byte it
/// is a line that is read as the answer itself, unless its lists and members nest deeper than a reader
/// follows. Fails only where memory runs out.
pub fn print_answer(alloc: Global, answer: &Answer) -> Result<Vec<u8>, OutOfMemory>
    requires { IsPrintable answer.now }
    ensures text { IfOk result (λ text. text.items ≡ compact_text answer.now ++ 10 ∷ []) }
    ensures reads_back { OnOk result (depth answer.now ≤ max_depth
        → value_of (compact_text answer.now) ≡ Some answer.now) }
{
    let mut text = answer.compact(alloc)?;
    text.push(b'\n')?;
    Ok(text)
}

/// A list of answers that is being made, which contracts see as a list.
#[derive(Debug, Drop)]
pub struct Answers {
    list: Vec<Json>,
}

impl Model for Answers {
    ghost use Rattle.std.specs.Prelude.{List, map};
    ghost use Rattle.serde_json.specs.Data.{Data};
    ghost use Rattle.serde_json.specs.View as json;
    ghost use Rattle.el_json.specs.within.Codes.{coded_list_of_data};

    ghost Value = { List Data };

    ghost coded = { coded_list_of_data };

    ghost view = { λ a. map json.view a.list.items };
}

impl Answers {
    /// None yet. Takes no memory.
    pub fn new(alloc: Global) -> Answers
        ensures { result ≡ [] }
    {
        Answers {
            list: Vec::new(alloc),
        }
    }

    /// Adds one at the end. Fails only where memory runs out.
    pub fn push(&mut self, answer: Answer) -> Result<(), OutOfMemory>
        ensures ok { OnOk result (self.new ≡ self.old ++ answer ∷ []) }
        ensures err { OnErr result (self.new ≡ self.old) }
    {
        self.list.push(answer.value)?;
        Ok(())
    }

    /// The list as an answer. Takes no memory.
    pub fn into_answer(self) -> Answer
        ensures { result ≡ array (items_of self) }
    {
        Answer {
            value: Json::Array(self.list),
        }
    }
}

/// Members of an object that is being made. They stand in byte order of their names.
#[derive(Drop)]
pub struct Members {
    map: Map<String, Json>,
}

impl Model for Members {
    ghost use Rattle.serde_json.specs.Data.{Members as Said};
    ghost use Rattle.serde_json.specs.View.{members_view};
    ghost use Rattle.el_json.specs.within.Codes.{coded_members};

    ghost Value = { Said };

    ghost coded = { coded_members };

    ghost view = { λ m. members_view m.map.entries };
}

impl Members {
    /// None yet. Takes no memory.
    pub fn new(alloc: Global) -> Members
        ensures { result ≡ no_members }
    {
        Members {
            map: Map::new(alloc),
        }
    }

    /// Puts a member in its place; one that has the name goes. Fails only where memory runs out, and then
    /// changes nothing.
    pub fn put(&mut self, alloc: Global, name: &str, answer: Answer) -> Result<(), OutOfMemory>
        ensures ok { OnOk result (self.new ≡ with_member name.now answer self.old) }
        ensures err { OnErr result (self.new ≡ self.old) }
    {
        serde_json::put(&mut self.map, alloc, name, answer.value)?;
        Ok(())
    }

    /// The object as an answer. Takes no memory.
    pub fn into_answer(self) -> Answer
        ensures { result ≡ object self }
    {
        Answer {
            value: Json::Object(self.map),
        }
    }
}
