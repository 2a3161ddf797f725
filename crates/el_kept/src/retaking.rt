// What a kept transaction takes is exchanged.
ghost use Rattle.std.specs.Prelude.{◌≡◌, true, Some, map};
ghost use Rattle.std.specs.Option.{is_some, option_flatten};
ghost use Rattle.indexmap.specs.IndexMap.{get, insert_entry, IsUnique};
ghost use Rattle.el_chain.specs.Headers.{same_hash};
ghost use Rattle.el_kept.specs.Tables.{undropped, slot, with_takes, same_froms, is_of, retaken, HasEntries};

use crate::table::{Table, kept_under};
use crate::taking::clear_slot;
use el_base::{Hash32, Listed};
use el_mempool::{KeptTx, Source};
use indexmap::IndexMap;

/// What a kept transaction now takes by the outpoints of its inputs.
#[derive(Debug, Drop)]
pub struct Takes {
    /// Its txid, in inner order.
    pub txid: Hash32,
    /// -1 where an input is an output of a kept transaction, else 0.
    pub flag: i8,
    /// What its inputs now hold less what its outputs hold, in satoshi.
    pub fee: u64,
    /// Its inputs, in order, each with what it now takes.
    pub inputs: Listed<Source>,
}

// The entry with that flag and fee and these inputs. Takes no memory.
fn taking(entry: KeptTx, takes: Takes) -> KeptTx
    ensures { result ≡ with_takes entry takes.flag takes.fee takes.inputs }
{
    KeptTx {
        txid: entry.txid,
        flag: takes.flag,
        fee: takes.fee,
        vsize: entry.vsize,
        bytes: entry.bytes,
        inputs: takes.inputs,
        outputs: entry.outputs,
    }
}

// The entry stands in the slot with that txid, which is there.
fn fill_slot(kept: &mut IndexMap<Hash32, Option<KeptTx>>, id: Hash32, entry: KeptTx)
    requires { is_some (get same_hash kept.old id) ≡ true }
    ensures entries { kept.new.entries ≡ insert_entry same_hash kept.old.entries id (Some entry) }
    ensures unique { IsUnique same_hash kept.new }
{
    kept.insert(id, Some(entry)).unwrap();
}

// Whether both take the same outpoints in the same order. Takes no memory.
fn have_same_froms(old: &[Source], new: &[Source]) -> bool
    ensures { result ≡ same_froms old.now new.now }
{
    if old.len() != new.len() {
        return false;
    }
    for (number, source) in old.iter().enumerate() {
        if source.from != new[number].from {
            return false;
        }
    }
    true
}

/// Whether this is told of a kept transaction and the outpoints that it takes. Takes no memory.
pub fn is_of_kept(table: &Table, takes: &Takes) -> bool
    ensures { result ≡ is_of takes.now (slot table.now takes.now.txid) }
{
    match kept_under(table, &takes.txid) {
        Some(entry) => have_same_froms(entry.inputs.as_slice(), takes.inputs.as_slice()),
        None => false,
    }
}

// Whether both are one input that takes the same. Takes no memory.
fn take_same(old: &Source, new: &Source) -> bool
    ensures { result ≡ true → old.now ≡ new.now }
{
    if old.from != new.from {
        return false;
    }
    if old.held.value != new.held.value {
        return false;
    }
    old.held.script == new.held.script
}

// Whether the inputs are the same and take the same. Takes no memory.
fn all_take_same(old: &[Source], new: &[Source]) -> bool
    ensures { result ≡ true → old.now ≡ new.now }
{
    if old.len() != new.len() {
        return false;
    }
    for (number, source) in old.iter().enumerate() {
        if !take_same(source, &new[number]) {
            return false;
        }
    }
    true
}

/// Whether the entry has this flag, this fee and these inputs. Takes no memory.
pub fn is_as_was(entry: &KeptTx, flag: i8, fee: u64, inputs: &[Source]) -> bool
    ensures { result ≡ true → with_takes entry.now flag fee inputs.now ≡ entry.now }
{
    if entry.flag != flag {
        return false;
    }
    if entry.fee != fee {
        return false;
    }
    all_take_same(entry.inputs.as_slice(), inputs)
}

/// The kept transaction takes this from now on; nothing changes where it isn't told of one. Takes no memory.
pub fn retake(table: &mut Table, takes: Takes)
    requires { HasEntries table.old (undropped table.old.kept.entries) }
    ensures { HasEntries table.new (map (retaken takes) (undropped table.old.kept.entries)) }
{
    if !is_of_kept(table, &takes) {
        return;
    }
    let id = takes.txid;
    if let Some(entry) = clear_slot(&mut table.kept, &id) {
        fill_slot(&mut table.kept, id, taking(entry, takes));
    }
}
