// Lines read as requests.
ghost use Rattle.std.specs.Prelude.{◌≡◌, ◌≢◌, ℕ, List, option_map, option_and_then, Some, None, IfOk, IfErr, IsErrOf};
ghost use Rattle.serde_json.specs.Data.{Data, array, object};
ghost use Rattle.serde_json.specs.Find.{get_member, as_str};
ghost use Rattle.serde_json.specs.View.{view, members_view, items_view};
ghost use Rattle.el_json.specs.Lines.{value_of, is_id, echoed_id, params_of, item_with, item_of, one_of, envelope_of, IsReading, HasPrintableId, HasPrintableIds};

use crate::answer::Answer;
use crate::elements::Elements;
use crate::params::{Names, Params, Places};
use crate::request::{Envelope, Item, LineFault, Request};
use el_base::Text;
use serde_json::{Map, Value as Json};
use std::alloc::Global;

fn value_of_line(alloc: Global, line: &[u8]) -> Result<Json, LineFault>
    ensures read { IfOk result (λ v. value_of line.now ≡ Some (view v)) }
    ensures no_json { IsErrOf result LineFault.Parse → value_of line.now ≡ None }
    ensures fault { IfErr result (λ e. (id : Data) → e ≢ LineFault.Invalid id) }
{
    match Json::from_slice(alloc, line) {
        Ok(value) => Ok(value),
        Err(e) => if e.is_memory() {
            Err(LineFault::Memory)
        } else {
            Err(LineFault::Parse)
        },
    }
}

// The member of that name, which is taken out, so that nothing of a line is copied.
fn take_member(map: &mut Map<String, Json>, name: &str) -> Option<Json>
    ensures value { option_map view result ≡ get_member name.now (members_view map.old.entries) }
    ensures others { (other : List ℕ) → (other ≡ name.now → ⊥)
        → get_member other (members_view map.new.entries)
        ≡ get_member other (members_view map.old.entries) }
{
    map.remove(name)
}

fn method_in(value: Option<Json>) -> Option<Text>
    ensures { result ≡ option_and_then as_str (option_map view value) }
{
    match value {
        Some(Json::String(text)) => Some(Text::from_string(text)),
        _ => None,
    }
}

fn params_in(alloc: Global, value: Option<Json>) -> Option<Params>
    ensures { result ≡ params_of (option_map view value) }
{
    match value {
        None => Some(Params::Places(Places::from_vec(Vec::new(alloc)))),
        Some(Json::Null) => Some(Params::Places(Places::from_vec(Vec::new(alloc)))),
        Some(Json::Array(list)) => Some(Params::Places(Places::from_vec(list))),
        Some(Json::Object(map)) => Some(Params::Names(Names::from_map(map))),
        _ => None,
    }
}

fn is_id_in(value: &Option<Json>) -> bool
    ensures { result ≡ is_id (option_map view value.now) }
{
    match value {
        None => true,
        Some(Json::Null) => true,
        Some(Json::String(_)) => true,
        Some(Json::Number(n)) => !n.is_f64(),
        Some(_) => false,
    }
}

fn echoed_id_in(value: Option<Json>) -> Answer
    ensures { result ≡ echoed_id (option_map view value) }
{
    if is_id_in(&value) {
        match value {
            Some(id) => Answer::from_json(id),
            None => Answer::null(),
        }
    } else {
        Answer::null()
    }
}

fn id_in(value: Option<Json>) -> Option<Answer>
    ensures { result ≡ option_map view value }
{
    match value {
        Some(id) => Some(Answer::from_json(id)),
        None => None,
    }
}

// A request with these members, or none.
fn item_from(id: Option<Json>, method: Option<Text>, params: Option<Params>) -> Item
    ensures { result ≡ item_with (option_map view id) method params }
{
    match (method, params) {
        (Some(method), Some(params)) => {
            if is_id_in(&id) {
                Item::Good(Request {
                    id: id_in(id),
                    method,
                    params,
                })
            } else {
                Item::Invalid(echoed_id_in(id))
            }
        }
        _ => Item::Invalid(echoed_id_in(id)),
    }
}

fn item_in(alloc: Global, map: Map<String, Json>) -> Item
    ensures { result ≡ item_of (object (members_view map.entries)) }
{
    let mut map = map;
    let id = take_member(&mut map, "id");
    let method = take_member(&mut map, "method");
    let params = take_member(&mut map, "params");
    item_from(id, method_in(method), params_in(alloc, params))
}

// An element of a batch.
pub(crate) fn item_of_value(alloc: Global, value: Json) -> Item
    ensures item { result ≡ item_of (view value) }
    ensures printable { HasPrintableId result }
{
    match value {
        Json::Object(map) => item_in(alloc, map),
        _ => Item::Invalid(Answer::null()),
    }
}

fn batch_in(list: Vec<Json>) -> Result<Envelope, LineFault>
    ensures { result ≡ envelope_of (array (items_view list.items)) }
{
    if list.is_empty() {
        Err(LineFault::Invalid(Answer::null()))
    } else {
        Ok(Envelope::Batch(Elements::from_vec(list)))
    }
}

// An element that stands alone.
fn alone(item: Item) -> Result<Envelope, LineFault>
    ensures { result ≡ one_of item }
{
    match item {
        Item::Good(request) => Ok(Envelope::One(request)),
        Item::Invalid(id) => Err(LineFault::Invalid(id)),
    }
}

fn envelope_in(alloc: Global, value: Json) -> Result<Envelope, LineFault>
    ensures { result ≡ envelope_of (view value) }
{
    match value {
        Json::Array(list) => batch_in(list),
        Json::Object(map) => alone(item_in(alloc, map)),
        Json::Null | Json::Bool(_) | Json::Number(_) | Json::String(_) => {
            Err(LineFault::Invalid(Answer::null()))
        }
    }
}

// The same without the clause on ids.
fn read_envelope(alloc: Global, line: &[u8]) -> Result<Envelope, LineFault>
    ensures { IsReading line.now result }
{
    match value_of_line(alloc, line) {
        Ok(value) => envelope_in(alloc, value),
        Err(fault) => Err(fault),
    }
}

/// Reads a line of a client, which stands without the byte 10 that ended it: a request, or a batch of at
/// least one element (JSON-RPC 2.0, sections 4 and 6).
///
/// # Errors
///
/// `LineFault::Parse` exactly where it is no JSON, `LineFault::Invalid` exactly where it is JSON, but neither
/// a request nor a batch, and `LineFault::Memory` only where memory runs out.
pub fn read_line(alloc: Global, line: &[u8]) -> Result<Envelope, LineFault>
    ensures says { IsReading line.now result }
    // So each reply can be printed; a batch says it of each element.
    ensures printable { HasPrintableIds result }
{
    read_envelope(alloc, line)
}
