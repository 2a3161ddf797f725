// Compact texts, written into one buffer that has room for them from the start.
ghost use Rattle.std.specs.Prelude.{◌≡◌, ◌≤◌, ◌+◌, min, [], true, false, pos, int_lt, Some, IfOk, OnOk};
ghost use Rattle.serde_json.specs.Data.{depth};
ghost use Rattle.serde_json.specs.Read.{max_depth};
ghost use Rattle.serde_json.specs.Written as written;
ghost use Rattle.el_json.specs.Lines.{value_of};
ghost use Rattle.el_json.specs.within.Room as spec;
ghost use Rattle.serde_json.specs.View.{view, number_view, items_view, members_view};
ghost use Rattle.serde_json.specs.Data.{number, unsigned, negative};
ghost use Rattle.serde_json.specs.Find.{is_float};
ghost use Rattle.serde_json.specs.Written.{has_float, items_have_float, members_have_float};
ghost use Rattle.serde_json.specs.Written.{WritesValue, WritesItems, WritesMembers};

use json::Writer;
use serde_json::{Map, Number, Value as Json};
use std::alloc::{AllocError, Global};

// Writes a number below 0.
fn write_negative(n: i64, out: &mut Writer) -> Result<(), AllocError>
    requires { int_lt n (pos 0) ≡ true }
    ensures ok { OnOk result (WritesValue (number (negative n)) out.old.tokens out.new.tokens) }
    ensures before { out.new.before ≡ out.old.before }
{
    out.i64(n)
}

// Writes one that isn't.
fn write_positive(n: u64, out: &mut Writer) -> Result<(), AllocError>
    ensures ok { OnOk result (WritesValue (number (unsigned n)) out.old.tokens out.new.tokens) }
    ensures before { out.new.before ≡ out.old.before }
{
    out.u64(n)
}

// Writes a whole number.
fn write_number(n: &Number, out: &mut Writer) -> Result<(), AllocError>
    requires { is_float (number_view n.now) ≡ false }
    ensures ok { OnOk result (WritesValue (number (number_view n.now)) out.old.tokens out.new.tokens) }
    ensures before { out.new.before ≡ out.old.before }
{
    if let Some(whole) = n.as_u64() {
        return write_positive(whole, out);
    }
    match n.as_i64() {
        Some(whole) if whole < 0 => write_negative(whole, out),
        _ => Err(AllocError),
    }
}

// Writes a value.
#[cycle(write_value)]
fn write_value(value: &Json, out: &mut Writer) -> Result<(), AllocError>
    requires { has_float (view value.now) ≡ false }
    ensures ok { OnOk result (WritesValue (view value.now) out.old.tokens out.new.tokens) }
    ensures before { out.new.before ≡ out.old.before }
{
    match value {
        Json::Null => out.null(),
        Json::Bool(flag) => out.boolean(*flag),
        Json::Number(n) => write_number(n, out),
        Json::String(text) => out.string(text.as_str()),
        Json::Array(list) => {
            out.begin_array()?;
            write_items(list, out)
        }
        Json::Object(map) => {
            out.begin_object()?;
            write_members(map, out)
        }
    }
}

// Writes the rest of a list, with its bracket.
#[cycle(write_value)]
fn write_items(list: &Vec<Json>, out: &mut Writer) -> Result<(), AllocError>
    requires { items_have_float (items_view list.now.items) ≡ false }
    ensures ok { OnOk result (WritesItems (items_view list.now.items) out.old.tokens out.new.tokens) }
    ensures before { out.new.before ≡ out.old.before }
{
    for item in list {
        write_value(item, out)?;
    }
    out.end_array()
}

// Writes the members of an object, with its brace.
#[cycle(write_value)]
fn write_members(map: &Map<String, Json>, out: &mut Writer) -> Result<(), AllocError>
    requires { members_have_float (members_view map.now.entries) ≡ false }
    ensures ok { OnOk result (WritesMembers (members_view map.now.entries) out.old.tokens out.new.tokens) }
    ensures before { out.new.before ≡ out.old.before }
{
    for (name, member) in map.iter() {
        out.key(name.as_str())?;
        write_value(member, out)?;
    }
    out.end_object()
}

// How many bytes the compact text of a value has at most, where its texts need no escapes, with a comma.
#[cycle(room_of)]
fn room_of(value: &Json) -> usize
    ensures { result ≡ min (spec.room (view value.now)) usize.MAX }
{
    match value {
        Json::Null => 5,
        Json::Bool(_) => 6,
        Json::Number(_) => 21,
        Json::String(text) => text.len().saturating_add(3),
        Json::Array(list) => items_room(list),
        Json::Object(map) => members_room(map),
    }
}

#[cycle(room_of)]
fn items_room(list: &Vec<Json>) -> usize
    ensures { result ≡ min (3 + spec.items_room (items_view list.now.items)) usize.MAX }
{
    let mut room = 3usize;
    for item in list {
        room = room.saturating_add(room_of(item));
    }
    room
}

#[cycle(room_of)]
fn members_room(map: &Map<String, Json>) -> usize
    ensures { result ≡ min (3 + spec.members_room (members_view map.now.entries)) usize.MAX }
{
    let mut room = 3usize;
    for (name, member) in map.iter() {
        room = room
            .saturating_add(name.len())
            .saturating_add(3)
            .saturating_add(room_of(member));
    }
    room
}

// A writer that has written nothing, with room for the value's compact text and one byte more, unless a text
// in it needs escapes.
fn writer_for(alloc: Global, value: &Json) -> Result<Writer, AllocError>
    ensures before { IfOk result (λ out. out.before ≡ []) }
    ensures tokens { IfOk result (λ out. out.tokens ≡ []) }
    ensures spare { IfOk result (λ out. out.spare ≡ min (spec.room (view value.now) + 2) usize.MAX) }
{
    let room = room_of(value).saturating_add(2);
    Ok(Writer::new(Vec::with_capacity(alloc, room)?))
}

// The compact text of a value, by a writer that has written nothing and has room for it.
fn text_by(value: &Json, out: Writer) -> Result<Vec<u8>, AllocError>
    requires float { has_float (view value.now) ≡ false }
    requires before { out.before ≡ [] }
    requires tokens { out.tokens ≡ [] }
    requires spare { min (spec.room (view value.now) + 2) usize.MAX ≤ out.spare }
    ensures text { IfOk result (λ text. text.items ≡ written.compact_text (view value.now)) }
    ensures reads_back { IfOk result (λ text. depth (view value.now) ≤ max_depth
        → value_of text.items ≡ Some (view value.now)) }
{
    let mut out = out;
    write_value(value, &mut out)?;
    Ok(out.into_inner())
}

// The compact text of a value without a float, in one buffer that has room for it, and for one byte more,
// unless a text in it needs escapes.
pub(crate) fn compact_text(alloc: Global, value: &Json) -> Result<Vec<u8>, AllocError>
    requires { has_float (view value.now) ≡ false }
    ensures text { IfOk result (λ text. text.items ≡ written.compact_text (view value.now)) }
    ensures reads_back { IfOk result (λ text. depth (view value.now) ≤ max_depth
        → value_of text.items ≡ Some (view value.now)) }
{
    text_by(value, writer_for(alloc, value)?)
}
