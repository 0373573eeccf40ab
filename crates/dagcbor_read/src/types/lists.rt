//! Tuples of one to four parts.

ghost use Rattle.std.specs.Prelude.{refl, codes};
ghost use Rattle.dagcbor_read.specs.Parts.{IfRefused, RefusesListAs, RefusesFirstPart};
ghost use Rattle.dagcbor_read.specs.Collections.{list_of, no_more, first_then, neither};

use crate::access::row::read_tuple;
use crate::deserialize::{Deserialize, DeserializeOwned};
use crate::deserializer::Deserializer;
use crate::shown::Shown;
use dagcbor_heads::{Read, ReadResult};
use std::alloc::Global;

impl<A: Shown> Shown for (A,) {
    ghost View = { A.View × Unit {0} };

    ghost meaning = { λ p. (A.meaning p.0, tt) };

    ghost shape = { list_of (first_then A.shape no_more) };
}

impl<'de, A: Deserialize<'de>> Deserialize<'de> for (A,) {
    ghost lies = { λ lends p. A.lies lends p.0 };

    ghost answers = { IfRefused (RefusesListAs (λ left. 1) (RefusesFirstPart A.answers (λ left old e new. ⊥)) (codes "tuple")) };

    fn deserialize<R: Read>(alloc: Global, de: &mut Deserializer<'de, R>) -> ReadResult<Self, R> {
        let (first, ()) = read_tuple(alloc, 1, de)?;
        Ok((first,))
    }
}

impl<'de, A: DeserializeOwned<'de>> DeserializeOwned<'de> for (A,) {
    ghost owned = { neither A.owned refl };
}

impl<A: Shown, B: Shown> Shown for (A, B) {
    ghost View = { A.View × (B.View × Unit {0}) };

    ghost meaning = { λ p. (A.meaning p.0, (B.meaning p.1, tt)) };

    ghost shape = { list_of (first_then A.shape (first_then B.shape no_more)) };
}

impl<'de, A: Deserialize<'de>, B: Deserialize<'de>> Deserialize<'de> for (A, B) {
    ghost lies = { λ lends p. A.lies lends p.0 × B.lies lends p.1 };

    ghost answers = { IfRefused (RefusesListAs (λ left. 2) (RefusesFirstPart A.answers (RefusesFirstPart B.answers (λ left old e new. ⊥))) (codes "tuple")) };

    fn deserialize<R: Read>(alloc: Global, de: &mut Deserializer<'de, R>) -> ReadResult<Self, R> {
        let (first, (second, ())) = read_tuple(alloc, 2, de)?;
        Ok((first, second))
    }
}

impl<'de, A: DeserializeOwned<'de>, B: DeserializeOwned<'de>> DeserializeOwned<'de> for (A, B) {
    ghost owned = { neither A.owned (neither B.owned refl) };
}

impl<A: Shown, B: Shown, C: Shown> Shown for (A, B, C) {
    ghost View = { A.View × (B.View × (C.View × Unit {0})) };

    ghost meaning = { λ p. (A.meaning p.0, (B.meaning p.1, (C.meaning p.2, tt))) };

    ghost shape = { list_of (first_then A.shape (first_then B.shape (first_then C.shape no_more))) };
}

impl<'de, A: Deserialize<'de>, B: Deserialize<'de>, C: Deserialize<'de>> Deserialize<'de>
    for (A, B, C) {
    ghost lies = { λ lends p. A.lies lends p.0 × B.lies lends p.1 × C.lies lends p.2 };

    ghost answers = { IfRefused (RefusesListAs (λ left. 3) (RefusesFirstPart A.answers (RefusesFirstPart B.answers (RefusesFirstPart C.answers (λ left old e new. ⊥)))) (codes "tuple")) };

    fn deserialize<R: Read>(alloc: Global, de: &mut Deserializer<'de, R>) -> ReadResult<Self, R> {
        let (first, (second, (third, ()))) = read_tuple(alloc, 3, de)?;
        Ok((first, second, third))
    }
}

impl<
    'de,
    A: DeserializeOwned<'de>,
    B: DeserializeOwned<'de>,
    C: DeserializeOwned<'de>,
> DeserializeOwned<'de> for (A, B, C) {
    ghost owned = { neither A.owned (neither B.owned (neither C.owned refl)) };
}

impl<A: Shown, B: Shown, C: Shown, D: Shown> Shown for (A, B, C, D) {
    ghost View = { A.View × (B.View × (C.View × (D.View × Unit {0}))) };

    ghost meaning = { λ p. (A.meaning p.0, (B.meaning p.1, (C.meaning p.2, (D.meaning p.3, tt)))) };

    ghost shape = { list_of (first_then A.shape (first_then B.shape (first_then C.shape (first_then D.shape no_more)))) };
}

impl<
    'de,
    A: Deserialize<'de>,
    B: Deserialize<'de>,
    C: Deserialize<'de>,
    D: Deserialize<'de>,
> Deserialize<'de> for (A, B, C, D) {
    ghost lies = { λ lends p. A.lies lends p.0 × B.lies lends p.1 × C.lies lends p.2 × D.lies lends p.3 };

    ghost answers = { IfRefused (RefusesListAs (λ left. 4) (RefusesFirstPart A.answers (RefusesFirstPart B.answers (RefusesFirstPart C.answers (RefusesFirstPart D.answers (λ left old e new. ⊥))))) (codes "tuple")) };

    fn deserialize<R: Read>(alloc: Global, de: &mut Deserializer<'de, R>) -> ReadResult<Self, R> {
        let (first, (second, (third, (fourth, ())))) = read_tuple(alloc, 4, de)?;
        Ok((first, second, third, fourth))
    }
}

impl<
    'de,
    A: DeserializeOwned<'de>,
    B: DeserializeOwned<'de>,
    C: DeserializeOwned<'de>,
    D: DeserializeOwned<'de>,
> DeserializeOwned<'de> for (A, B, C, D) {
    ghost owned = { neither A.owned (neither B.owned (neither C.owned (neither D.owned refl))) };
}
