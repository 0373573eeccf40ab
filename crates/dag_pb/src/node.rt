//! Validates blocks, and walks over their fields and their links.

ghost use Rattle.std.specs.Prelude.{◌≡◌, ◌+◌, ◌∷◌, [], ◌<◌, List, length, MatchResult, MatchOption, IfSome, OnOk, OnErr};
ghost use Rattle.ipld_tree.specs.Cid.{cid_bytes};
ghost use Rattle.dag_pb.specs.Node.{Field, HasNode, BeginsWithField, BeginsWithFields};
ghost use Rattle.dag_pb.specs.Orders.{order_after, field_tag};
ghost use Rattle.dag_pb.specs.Causes.{IsNoNode, StopsIn};
ghost use Rattle.dag_pb.specs.Reads.{link_of, field_of, links_in};

use crate::error::{PbCause, PbError};
use crate::field::{DATA, LINK, PbField, split_field};
use crate::link::PbLink;
use crate::stop::Stop;

/// Which fields came before.
#[derive(Copy, Clone, Debug)]
enum Order {
    Nothing,
    Links,
    DataFirst,
    DataLast,
}

impl Order {
    /// Returns the order after this field too. `None` if the field may not come here.
    fn after(self, field: &PbField<'_>) -> Option<Order>
        ensures { result ≡ order_after self (field_of field.now) }
    {
        match (self, field) {
            (Order::Nothing, PbField::Data(_)) => Some(Order::DataFirst),
            (Order::Nothing, PbField::Link(_)) => Some(Order::Links),
            (Order::Links, PbField::Data(_)) => Some(Order::DataLast),
            (Order::Links, PbField::Link(_)) => Some(Order::Links),
            (Order::DataFirst, PbField::Link(_)) => Some(Order::DataFirst),
            _ => None,
        }
    }
}

/// Validates the bytes as a block of DAG-PB.
pub fn check_node(block: &[u8]) -> Result<(), PbError>
    ensures { MatchResult result (λ _. HasNode block.now) (λ e. IsNoNode block.now e) }
{
    match stop_in(block) {
        None => Ok(()),
        Some(stop) => Err(PbError {
            cause: stop.cause,
            place: block.len() - stop.left,
        }),
    }
}

/// Returns where the bytes stop being a block. `None` if they are one.
fn stop_in(block: &[u8]) -> Option<Stop>
    ensures { MatchOption result (HasNode block.now)
        (λ stop. ¬ HasNode block.now × StopsIn block.now stop) }
{
    let mut order = Order::Nothing;
    let mut rest = block;
    while !rest.is_empty() {
        let (field, following) = match split_field(rest) {
            Ok(found) => found,
            Err(stop) => return Some(stop),
        };
        let Some(next) = order.after(&field) else {
            return Some(Stop::before(PbCause::UnexpectedField(tag_of(&field)), rest));
        };
        order = next;
        rest = following;
    }
    None
}

/// Returns the tag of the field.
fn tag_of(field: &PbField<'_>) -> u64
    ensures { result ≡ field_tag (field_of field.now) }
{
    match field {
        PbField::Link(_) => LINK,
        PbField::Data(_) => DATA,
    }
}

/// Returns the first field, and the fields after it. `None` if there are no more fields. The bytes
/// have to be whole fields of a node.
pub fn next_field(fields: &[u8]) -> Option<(PbField<'_>, &[u8])>
    requires { (row : List Field) × BeginsWithFields fields.now row [] }
    ensures field { (row : List Field) → BeginsWithFields fields.now row []
        → MatchOption result (row ≡ [])
        (λ p. (more : List Field) × BeginsWithFields p.1.now more []
        × (row ≡ field_of p.0 ∷ more)) }
    ensures begins { IfSome result (λ p. BeginsWithField fields.now (field_of p.0) p.1.now) }
    ensures shorter { IfSome result (λ p. length p.1.now < length fields.now) }
{
    if fields.is_empty() {
        return None;
    }
    let Ok(found) = split_field(fields) else {
        unreachable!()
    };
    Some(found)
}

/// Returns the first link, and the fields after it. `None` if there are no more links. The bytes
/// have to be whole fields of a node.
pub fn next_link(fields: &[u8]) -> Option<(PbLink<'_>, &[u8])>
    requires { (row : List Field) × BeginsWithFields fields.now row [] }
    ensures link { (row : List Field) → BeginsWithFields fields.now row []
        → MatchOption result (links_in row ≡ [])
        (λ p. (more : List Field) × BeginsWithFields p.1.now more []
        × (links_in row ≡ link_of p.0 ∷ links_in more)) }
    ensures shorter { IfSome result
        (λ p. length (cid_bytes p.0.hash) + length p.1.now < length fields.now) }
{
    let mut rest = fields;
    while let Some((field, following)) = next_field(rest) {
        if let PbField::Link(link) = field {
            return Some((link, following));
        }
        rest = following;
    }
    None
}
