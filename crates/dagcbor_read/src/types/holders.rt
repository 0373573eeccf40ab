//! Types that hold values of another type.

ghost use Rattle.std.specs.Prelude.{Option, option_map, box_value, IfSome, List, map, All, codes};
ghost use Rattle.dagcbor_items.specs.Shapes.{option_of, boxed_of};
ghost use Rattle.dagcbor_read.specs.Collections.{list_of, all_of};
ghost use Rattle.dagcbor_read.specs.Parts.{HandsOptionOn, ReadsInMemory, IfRefused};
ghost use Rattle.dagcbor_read.specs.Parts.{RefusesListAs, RefusesItems};

use crate::access::row::read_rest;
use crate::deserialize::{Deserialize, DeserializeOwned};
use crate::deserializer::Deserializer;
use crate::shown::Shown;
use dagcbor_core::DecodeError;
use dagcbor_heads::{Read, ReadResult};
use std::alloc::Global;

impl<T: Shown> Shown for Option<T> {
    ghost View = { Option T.View };

    ghost meaning = { option_map T.meaning };

    ghost shape = { option_of T.shape };
}

impl<'de, T: Deserialize<'de>> Deserialize<'de> for Option<T> {
    ghost lies = { λ lends o. IfSome o (T.lies lends) };

    ghost answers = { HandsOptionOn T.answers };

    fn deserialize<R: Read>(alloc: Global, de: &mut Deserializer<'de, R>) -> ReadResult<Self, R> {
        de.deserialize_option(alloc)
    }
}

impl<'de, T: DeserializeOwned<'de>> DeserializeOwned<'de> for Option<T> {
    ghost owned = { T.owned };
}

impl<T: Shown> Shown for Box<T> {
    ghost View = { T.View };

    ghost meaning = { λ b. T.meaning (box_value b) };

    ghost shape = { boxed_of T.shape };
}

impl<'de, T: Deserialize<'de>> Deserialize<'de> for Box<T> {
    ghost lies = { λ lends b. T.lies lends (box_value b) };

    ghost answers = { ReadsInMemory box_value T.answers };

    fn deserialize<R: Read>(alloc: Global, de: &mut Deserializer<'de, R>) -> ReadResult<Self, R> {
        let value = T::deserialize(alloc, de)?;
        match Box::new(alloc, value) {
            Ok(boxed) => Ok(boxed),
            Err(_) => Err(DecodeError::OutOfMemory),
        }
    }
}

impl<'de, T: DeserializeOwned<'de>> DeserializeOwned<'de> for Box<T> {
    ghost owned = { T.owned };
}

impl<T: Shown> Shown for Vec<T> {
    ghost View = { List T.View };

    ghost meaning = { λ v. map T.meaning v.items };

    ghost shape = { list_of (all_of T.shape) };
}

impl<'de, T: Deserialize<'de>> Deserialize<'de> for Vec<T> {
    ghost lies = { λ lends v. All (T.lies lends) v.items };

    ghost answers = { IfRefused (RefusesListAs (λ left. left) (RefusesItems T.answers) (codes "array")) };

    fn deserialize<R: Read>(alloc: Global, de: &mut Deserializer<'de, R>) -> ReadResult<Self, R> {
        let items = de.deserialize_seq()?;
        read_rest(alloc, items, de)
    }
}

impl<'de, T: DeserializeOwned<'de>> DeserializeOwned<'de> for Vec<T> {
    ghost owned = { T.owned };
}
