//! The places of a struct's fields, sorted by the fields' names.

ghost use Rattle.std.specs.Prelude.{◌≡◌, [], Some, IsTrue};
ghost use Rattle.dagcbor_write.specs.Rows.{names_rise, IsKeyOrder};

use crate::row::FieldRow;
use arrayvec::ArrayVec;
use ipld_tree::{comes_before, key_cmp};

/// The name of a field that is in the map, and its place among those that are.
#[derive(Clone, Copy, Default)]
pub struct Place {
    pub name: &'static str,
    pub at: usize,
}

/// The places of a row that is to be sorted. A row of more fields is written as maps are.
pub type Places = ArrayVec<Place, 16>;

/// Returns whether each name comes after the previous one in key order, and the first is not empty.
fn names_rise(places: &[Place]) -> bool
    ensures { result ≡ names_rise [] places.now }
{
    let mut last = "".as_bytes();
    for place in places {
        let name = place.name.as_bytes();
        if !comes_before(last, name) {
            return false;
        }
        last = name;
    }
    true
}

/// Lists the places of the fields in key order. Returns false if there are too many, or a name is
/// repeated.
pub(crate) fn list_in_order<F: FieldRow>(fields: &F, places: &mut Places) -> bool
    requires { places.old.items ≡ [] }
    ensures { IsTrue result → IsKeyOrder (F.pairs fields.now) (Some places.new.items) }
{
    if !fields.list_places(places) {
        return false;
    }
    places.sort_unstable_by(|a, b| key_cmp(a.name.as_bytes(), b.name.as_bytes()));
    names_rise(places.as_slice())
}
