// What a line of a client can be (JSON-RPC 2.0).
use crate::answer::Answer;
use crate::elements::Elements;
use crate::params::Params;
use el_base::Text;

/// A request (JSON-RPC 2.0, section 4). Its version of JSON-RPC is not looked at.
#[derive(Drop)]
pub struct Request {
    /// Null, a text or a whole number of 64 bits. None in a notification (JSON-RPC 2.0, section 4.1), which
    /// takes effect and gets no reply.
    pub id: Option<Answer>,
    pub method: Text,
    pub params: Params,
}

/// An element of a batch.
#[derive(Drop)]
pub enum Item {
    Good(Request),
    /// It is no request; with the id that the error repeats.
    Invalid(Answer),
}

/// What a line has.
#[derive(Drop)]
pub enum Envelope {
    One(Request),
    /// At least one element (JSON-RPC 2.0, section 6).
    Batch(Elements),
}

/// Why a line was not read (JSON-RPC 2.0, section 5.1).
#[derive(Debug, Drop, thiserror::Error)]
pub enum LineFault {
    /// It is no JSON (code -32700).
    #[error("no JSON")]
    Parse,
    /// It is no request and no batch (code -32600); with the id that the error repeats.
    #[error("no request")]
    Invalid(Answer),
    #[error("out of memory")]
    Memory,
}
