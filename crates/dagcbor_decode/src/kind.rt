//! The kinds of data.

ghost use Rattle.std.specs.Prelude.{◌≡◌};
ghost use Rattle.dagcbor_decode.specs.TreeKinds.{IsKindAt, IsKindOfFront, kind_at};

/// The kinds of data, as in `Ipld`.
#[derive(Clone, Copy, Debug, PartialEq, Eq)]
pub enum Kind {
    Null,
    Bool,
    Integer,
    String,
    Bytes,
    List,
    Map,
    Link,
}

/// Returns the kind of the item with which the bytes begin.
pub fn kind_of_front(bytes: &[u8]) -> Kind
    ensures { IsKindOfFront bytes.now result }
{
    match bytes.split_first() {
        Some((first, _rest)) => kind_at(*first),
        None => Kind::Null,
    }
}

/// Returns the kind of the item that begins with the byte.
pub fn kind_at(first: u8) -> Kind
    ensures { IsKindAt first result }
{
    kind_by(first)
}

fn kind_by(first: u8) -> Kind
    ensures { result ≡ kind_at first }
{
    match first / 32 {
        0 => Kind::Integer,
        1 => Kind::Integer,
        2 => Kind::Bytes,
        3 => Kind::String,
        4 => Kind::List,
        5 => Kind::Map,
        6 => Kind::Link,
        _ => {
            if first == 0xf6 {
                Kind::Null
            } else {
                Kind::Bool
            }
        }
    }
}
