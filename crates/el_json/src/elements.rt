// The elements of a batch.
ghost use Rattle.std.specs.Prelude.{◌≡◌, ◌∷◌, [], MatchOption, IfSome};
ghost use Rattle.serde_json.specs.View.{items_view};
ghost use Rattle.std.specs.Vec.Iter.{into_iter_items};
ghost use Rattle.el_json.specs.Lines.{items_of, HasPrintableId};

use crate::reading::item_of_value;
use crate::request::Item;
use serde_json::Value as Json;
use std::alloc::Global;
use std::marker::Model;
use std::vec::IntoIter;

/// The elements of a batch that are left, in order, which contracts see as a list. Each is read as a request
/// when it is taken, so that there is no second list of them.
#[derive(Drop)]
pub struct Elements {
    rest: IntoIter<Json>,
}

impl Model for Elements {
    ghost use Rattle.std.specs.Prelude.{List};
    ghost use Rattle.std.specs.Vec.Iter.{into_iter_items};
    ghost use Rattle.serde_json.specs.View.{items_view};
    ghost use Rattle.el_json.specs.declared.request.Item.{Item as Said};
    ghost use Rattle.el_json.specs.within.ItemCodes.{coded_list_of_items};

    ghost Value = { List Said };

    ghost coded = { coded_list_of_items };

    ghost use Rattle.el_json.specs.Lines.{items_of};

    ghost view = { λ e. items_of (items_view (into_iter_items e.rest)) };
}

// The next of these, read as a request.
fn next_of(alloc: Global, rest: &mut IntoIter<Json>) -> Option<Item>
    ensures item { MatchOption result
        ((items_of (items_view (into_iter_items rest.old)) ≡ [])
        × (items_of (items_view (into_iter_items rest.new)) ≡ []))
        (λ item. items_of (items_view (into_iter_items rest.old))
        ≡ item ∷ items_of (items_view (into_iter_items rest.new))) }
    ensures printable { IfSome result HasPrintableId }
{
    match rest.next() {
        Some(value) => Some(item_of_value(alloc, value)),
        None => None,
    }
}

impl Elements {
    // The values of a list as elements.
    pub(crate) fn from_vec(list: Vec<Json>) -> Elements
        ensures { result ≡ items_of (items_view list.items) }
    {
        Elements {
            rest: list.into_iter(),
        }
    }

    /// Takes the next element; None exactly where none is left. Takes no memory.
    pub fn next(&mut self, alloc: Global) -> Option<Item>
        ensures item { MatchOption result ((self.old ≡ []) × (self.new ≡ []))
            (λ item. self.old ≡ item ∷ self.new) }
        ensures printable { IfSome result HasPrintableId }
    {
        next_of(alloc, &mut self.rest)
    }
}
