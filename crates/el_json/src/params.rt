// Parameters of a request (JSON-RPC 2.0, section 4.2).
ghost use Rattle.std.specs.Prelude.{◌≡◌, ◌↔◌, IsTrue, option_map, is_some};
ghost use Rattle.serde_json.specs.Events.{items_len};
ghost use Rattle.serde_json.specs.Find.{get_item, get_member, as_bool, as_str, as_object};
ghost use Rattle.serde_json.specs.View.{view, items_view, members_view};
ghost use Rattle.el_json.specs.Parameters.{given, has_only, all_among, is_known_name, texts_of, number_in, hash_from_hex, hash_shown, pair_in, pair_of};

use el_base::Hash32;
use serde_json::{Map, Value as Json};
use std::marker::Model;

/// A parameter that is given: a value of JSON, to read.
#[derive(Drop)]
pub struct Param<'v> {
    value: &'v Json,
}

impl<'v> Model for Param<'v> {
    ghost use Rattle.serde_json.specs.Data.{Data};
    ghost use Rattle.serde_json.specs.View as json;
    ghost use Rattle.el_json.specs.within.Codes.{coded_data};

    ghost Value = { Data };

    ghost coded = { coded_data };

    ghost view = { λ p. json.view p.value.now };
}

// The hash that is shown by 64 hex digits in either case.
fn hash_shown(text: &str) -> Option<Hash32>
    ensures { result ≡ hash_shown text.now }
{
    let mut inner = [0u8; 32];
    match hex::decode_to_slice(text, &mut inner) {
        Ok(()) => {
            inner.reverse();
            Some(Hash32(inner))
        }
        Err(_) => None,
    }
}

impl<'v> Param<'v> {
    /// A whole number from 0 to 2^64 - 1.
    pub fn number(&self) -> Option<u64>
        ensures { result ≡ number_in self.now }
    {
        self.value.as_u64()
    }

    /// True or false.
    pub fn flag(&self) -> Option<bool>
        ensures { result ≡ as_bool self.now }
    {
        self.value.as_bool()
    }

    /// A text.
    pub fn text(&self) -> Option<&'v str>
        ensures { option_map (λ t. t.now) result ≡ as_str self.now }
    {
        self.value.as_str()
    }

    /// A hash, shown by 64 hex digits in either case. It is given in inner order.
    pub fn hash(&self) -> Option<Hash32>
        ensures { result ≡ hash_from_hex self.now }
    {
        match self.value.as_str() {
            Some(text) => hash_shown(text),
            None => None,
        }
    }

    /// Whether it is an object.
    pub fn is_object(&self) -> bool
        ensures { result ≡ is_some (as_object self.now) }
    {
        self.value.is_object()
    }

    /// The two values of a list of exactly two.
    pub fn pair(&self) -> Option<(Param<'v>, Param<'v>)>
        ensures { result ≡ pair_in self.now }
    {
        match self.value {
            Json::Array(list) => pair_of(list.as_slice()),
            _ => None,
        }
    }
}

// The two values of exactly two.
fn pair_of<'v>(list: &'v [Json]) -> Option<(Param<'v>, Param<'v>)>
    ensures { result ≡ pair_of (items_view list.now) }
{
    if list.len() != 2 {
        return None;
    }
    Some((Param { value: &list[0] }, Param { value: &list[1] }))
}

/// Parameters by place, first to last.
#[derive(Debug, Drop)]
pub struct Places {
    list: Vec<Json>,
}

impl Model for Places {
    ghost use Rattle.serde_json.specs.Data.{Items};
    ghost use Rattle.serde_json.specs.View.{items_view};
    ghost use Rattle.el_json.specs.within.Codes.{coded_items};

    ghost Value = { Items };

    ghost coded = { coded_items };

    ghost view = { λ p. items_view p.list.items };
}

impl Places {
    // The values of a `Vec`.
    pub(crate) fn from_vec(list: Vec<Json>) -> Places
        ensures { result ≡ items_view list.items }
    {
        Places { list }
    }

    // How many there are.
    fn count(&self) -> usize
        ensures { result ≡ items_len self.now }
    {
        count_of(self.list.as_slice())
    }

    // The one of this place.
    fn at(&self, place: usize) -> Option<Param<'_>>
        ensures { result ≡ get_item place self.now }
    {
        value_at(self.list.as_slice(), place)
    }
}

/// Parameters by name, each once.
#[derive(Drop)]
pub struct Names {
    map: Map<String, Json>,
}

impl Model for Names {
    ghost use Rattle.serde_json.specs.Data.{Members};
    ghost use Rattle.serde_json.specs.View.{members_view};
    ghost use Rattle.el_json.specs.within.Codes.{coded_members};

    ghost Value = { Members };

    ghost coded = { coded_members };

    ghost view = { λ n. members_view n.map.entries };
}

impl Names {
    // The members of an object.
    pub(crate) fn from_map(map: Map<String, Json>) -> Names
        ensures { result ≡ members_view map.entries }
    {
        Names { map }
    }

    // The one of this name.
    fn at(&self, name: &str) -> Option<Param<'_>>
        ensures { result ≡ get_member name.now self.now }
    {
        member_at(&self.map, name)
    }

    // Whether each name is one of these.
    fn are_among(&self, names: &[&str]) -> bool
        ensures { result ≡ all_among (texts_of names.now) self.now }
    {
        names_are_among(&self.map, names)
    }
}

fn count_of(list: &[Json]) -> usize
    ensures { result ≡ items_len (items_view list.now) }
{
    list.len()
}

fn value_at(list: &[Json], place: usize) -> Option<Param<'_>>
    ensures { result ≡ get_item place (items_view list.now) }
{
    if place < list.len() {
        Some(Param {
            value: &list[place],
        })
    } else {
        None
    }
}

fn member_at<'v>(map: &'v Map<String, Json>, name: &str) -> Option<Param<'v>>
    ensures { result ≡ get_member name.now (members_view map.now.entries) }
{
    match map.get(name) {
        Some(value) => Some(Param { value }),
        None => None,
    }
}

// Whether each name of the members is one of these.
fn names_are_among(map: &Map<String, Json>, names: &[&str]) -> bool
    ensures { result ≡ all_among (texts_of names.now) (members_view map.now.entries) }
{
    for (name, _) in map.iter() {
        if !is_one_of(name.as_str(), names) {
            return false;
        }
    }
    true
}

fn is_one_of(name: &str, names: &[&str]) -> bool
    ensures { result ≡ is_known_name (texts_of names.now) name.now }
{
    for other in names {
        if *other == name {
            return true;
        }
    }
    false
}

/// The parameters of a request (JSON-RPC 2.0, section 4.2).
#[derive(Drop)]
pub enum Params {
    /// By place; none where the request has no parameters.
    Places(Places),
    /// By name.
    Names(Names),
}

impl Params {
    /// What is given for the parameter of this place, counted from 0, and name.
    pub fn given(&self, place: usize, name: &str) -> Option<Param<'_>>
        ensures { result ≡ given self.now place name.now }
    {
        match self {
            Params::Places(places) => places.at(place),
            Params::Names(names) => names.at(name),
        }
    }

    /// Whether nothing is given but parameters of these names: by place, no more than there are.
    pub fn has_only(&self, names: &[&str]) -> bool
        ensures { result ≡ has_only (texts_of names.now) self.now }
    {
        match self {
            Params::Places(places) => places.count() <= names.len(),
            Params::Names(given) => given.are_among(names),
        }
    }
}
