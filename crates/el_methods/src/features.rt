// What the server offers.
ghost use Rattle.std.specs.Prelude.{◌≡◌, IfOk, OnOk, codes};
ghost use Rattle.serde_json.specs.Data.{string, put};
ghost use Rattle.el_calls.specs.Versions.{text_of, protocol_max, protocol_min};
ghost use Rattle.el_methods.specs.Results as defined;
ghost use Rattle.el_methods.specs.Outcomes.{IsAnswer, IsDiskCounted, IsPrintableAnswer};

use crate::stop::Stop;
use crate::texts::shown_of;
use el_base::{Hash32, OutOfMemory};
use el_calls::{PROTOCOL_MAX, PROTOCOL_MIN, Refusal, text_of};
use el_headers::HeaderTree;
use el_json::{Answer, Members};
use std::alloc::Global;

fn add_protocol(alloc: Global, members: &mut Members) -> Result<(), OutOfMemory>
    ensures { OnOk result (members.new ≡ put (codes "protocol_min") (string (text_of protocol_min))
        (put (codes "protocol_max") (string (text_of protocol_max)) members.old)) }
{
    members.put(
        alloc,
        "protocol_max",
        Answer::from_str(alloc, text_of(PROTOCOL_MAX))?,
    )?;
    members.put(
        alloc,
        "protocol_min",
        Answer::from_str(alloc, text_of(PROTOCOL_MIN))?,
    )?;
    Ok(())
}

fn features_value(alloc: Global, genesis: &Hash32) -> Result<Answer, OutOfMemory>
    ensures value { IfOk result (λ a. a ≡ defined.features_value genesis.now) }
    ensures printable { IsPrintableAnswer result }
{
    let mut members = Members::new(alloc);
    members.put(alloc, "genesis_hash", shown_of(alloc, genesis)?)?;
    members.put(alloc, "hash_function", Answer::from_str(alloc, "sha256")?)?;
    members.put(alloc, "hosts", Members::new(alloc).into_answer())?;
    add_protocol(alloc, &mut members)?;
    members.put(alloc, "pruning", Answer::null())?;
    members.put(
        alloc,
        "server_version",
        Answer::from_str(alloc, "el_serve 1.0")?,
    )?;
    Ok(members.into_answer())
}

/// The answer to `server.features` (Electrum Protocol 1.4.2), for the network whose genesis was found.
pub fn features(alloc: Global, tree: &HeaderTree) -> Result<Answer, Stop>
    ensures answer { IsAnswer (defined.features tree.now) result }
    ensures printable { IsPrintableAnswer result }
    ensures counted { IsDiskCounted (λ n. n ≡ 0) result }
{
    let Some(genesis) = tree.genesis() else {
        return Err(Stop::Refused(Refusal::NoBlocks));
    };
    let answer = features_value(alloc, &genesis)?;
    Ok(answer)
}
