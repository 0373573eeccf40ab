//! How items of any kind are read.

ghost use Rattle.std.specs.Prelude.{refl};
ghost use Rattle.ipld_tree.specs.Ipld.{tree_of};
ghost use Rattle.ipld_tree.specs.Tree.{Tree};
ghost use Rattle.dagcbor_items.specs.Shapes.{ignored_item, any_tree};
ghost use Rattle.dagcbor_items.specs.Looks.{LooksAtAny};
ghost use Rattle.dagcbor_items.specs.LeafReads.{ReadsIgnored};
ghost use Rattle.dagcbor_items.specs.Untyped.{ReadsItem};
ghost use Rattle.dagcbor_items.specs.AnsweredVariants.{OfItem};
ghost use Rattle.dagcbor_read.specs.Parts.{ReadsOnce, ReadsAs};

use crate::deserialize::{Deserialize, DeserializeOwned};
use crate::deserializer::Deserializer;
use crate::shown::Shown;
use dagcbor_heads::{Read, ReadResult};
use ipld_tree::Ipld;
use std::alloc::Global;

/// A type that accepts any item, and keeps nothing of it.
#[derive(Clone, Copy, Debug, PartialEq, Eq)]
pub struct IgnoredAny;

impl Shown for IgnoredAny {
    ghost View = { Unit {0} };

    ghost meaning = { λ _. tt };

    ghost shape = { ignored_item };
}

impl<'de> Deserialize<'de> for IgnoredAny {
    ghost answers = { ReadsAs (λ _. tt) (ReadsOnce ReadsIgnored LooksAtAny OfItem) };

    fn deserialize<R: Read>(alloc: Global, de: &mut Deserializer<'de, R>) -> ReadResult<Self, R> {
        de.deserialize_ignored_any(alloc)?;
        Ok(IgnoredAny)
    }
}

impl<'de> DeserializeOwned<'de> for IgnoredAny {
    ghost owned = { refl };
}

impl Shown for Ipld {
    ghost View = { Tree };

    ghost meaning = { tree_of };

    ghost shape = { any_tree };
}

impl<'de> Deserialize<'de> for Ipld {
    ghost answers = { ReadsOnce ReadsItem LooksAtAny OfItem };

    fn deserialize<R: Read>(alloc: Global, de: &mut Deserializer<'de, R>) -> ReadResult<Self, R> {
        de.deserialize_any(alloc)
    }
}

impl<'de> DeserializeOwned<'de> for Ipld {
    ghost owned = { refl };
}
