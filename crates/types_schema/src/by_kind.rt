//! A value whose type depends on the kind of its data.

ghost use Rattle.std.specs.Prelude.{None, codes};
ghost use Rattle.types_schema.specs.Kinds.{no_kind, by_kind};
ghost use Rattle.types_schema.specs.SchemaAnswers.{Makes, PeeksOnce, AnswersByKind};
ghost use Rattle.types_schema.specs.declared.by_kind.ByKind.{ByKind};
ghost use Rattle.types_schema.specs.declared.by_kind.ByKind.TheVariants as kinds;

use serde_ipld_dagcbor::{DecodeError, Deserialize, Deserializer, Kind, Read, ReadResult, Shown};
use std::alloc::Global;

/// A value whose type depends on the kind of its data. Null is not accepted.
#[derive(Debug, Drop)]
pub enum ByKind<B, I, T, Y, L, M, K> {
    Bool(B),
    Integer(I),
    Text(T),
    Bytes(Y),
    List(L),
    Map(M),
    Link(K),
}

/// The type for a kind that is not accepted: any data is refused with `Msg("unknown kind")`.
#[derive(Clone, Copy, Debug, PartialEq, Eq)]
pub struct NoKind;

impl Shown for NoKind {
    ghost View = { Unit {0} };

    ghost meaning = { λ x. tt };

    ghost shape = { no_kind };
}

impl<'de> Deserialize<'de> for NoKind {
    ghost answers = { Makes {V = Unit {0}} (λ x. tt) (λ kind. None) (codes "unknown kind")
        PeeksOnce };

    fn deserialize<R: Read>(_alloc: Global, de: &mut Deserializer<'de, R>) -> ReadResult<Self, R> {
        de.peek_kind()?;
        Err(DecodeError::custom("unknown kind"))
    }
}

impl<B: Shown, I: Shown, T: Shown, Y: Shown, L: Shown, M: Shown, K: Shown> Shown
    for ByKind<B, I, T, Y, L, M, K> {
    ghost View = { ByKind B.View I.View T.View Y.View L.View M.View K.View };

    ghost meaning = { λ v. elim v [
      | kinds.Bool x ↦ kinds.Bool (B.meaning x)
      | kinds.Integer x ↦ kinds.Integer (I.meaning x)
      | kinds.Text x ↦ kinds.Text (T.meaning x)
      | kinds.Bytes x ↦ kinds.Bytes (Y.meaning x)
      | kinds.List x ↦ kinds.List (L.meaning x)
      | kinds.Map x ↦ kinds.Map (M.meaning x)
      | kinds.Link x ↦ kinds.Link (K.meaning x)
    ] };

    ghost shape = { by_kind (record {
      of_bool = B.shape;
      of_integer = I.shape;
      of_text = T.shape;
      of_bytes = Y.shape;
      of_list = L.shape;
      of_map = M.shape;
      of_link = K.shape;
    }) };
}

impl<
    'de,
    B: Deserialize<'de>,
    I: Deserialize<'de>,
    T: Deserialize<'de>,
    Y: Deserialize<'de>,
    L: Deserialize<'de>,
    M: Deserialize<'de>,
    K: Deserialize<'de>,
> Deserialize<'de> for ByKind<B, I, T, Y, L, M, K> {
    ghost answers = { AnswersByKind B.answers I.answers T.answers Y.answers L.answers M.answers
        K.answers };

    fn deserialize<R: Read>(alloc: Global, de: &mut Deserializer<'de, R>) -> ReadResult<Self, R> {
        match de.peek_kind()? {
            Kind::Null => Err(DecodeError::custom("unknown kind")),
            Kind::Bool => {
                let x = B::deserialize(alloc, de)?;
                Ok(ByKind::Bool(x))
            }
            Kind::Integer => {
                let x = I::deserialize(alloc, de)?;
                Ok(ByKind::Integer(x))
            }
            Kind::String => {
                let x = T::deserialize(alloc, de)?;
                Ok(ByKind::Text(x))
            }
            Kind::Bytes => {
                let x = Y::deserialize(alloc, de)?;
                Ok(ByKind::Bytes(x))
            }
            Kind::List => {
                let x = L::deserialize(alloc, de)?;
                Ok(ByKind::List(x))
            }
            Kind::Map => {
                let x = M::deserialize(alloc, de)?;
                Ok(ByKind::Map(x))
            }
            Kind::Link => {
                let x = K::deserialize(alloc, de)?;
                Ok(ByKind::Link(x))
            }
        }
    }
}
