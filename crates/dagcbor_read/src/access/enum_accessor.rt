//! Enums: a variant's name alone, or a map of one pair, from the name to what the variant holds.

ghost use Rattle.std.specs.Prelude.{◌≡◌, ◌↔◌, true, IfOk, IfErr, codes};
ghost use Rattle.std.specs.Cow.{IsBorrowedStr};
ghost use Rattle.dagcbor_heads.specs.Looking.{Looks};
ghost use Rattle.dagcbor_read.specs.Deserializers.{de_state, Call, AreOut, Over, LooksAtFirst};
ghost use Rattle.dagcbor_read.specs.Enums.{enum_state, BeginsEnum, SpendsEnum, ReadsName};
ghost use Rattle.dagcbor_read.specs.Enums.{IsOtherForm, EntersMap, EndsUnit, ReadsHeld, BeginsHeld};
ghost use Rattle.dagcbor_read.specs.Enums.{OfForm};
ghost use Rattle.dagcbor_read.specs.Parts.{HandsHeldOn};
ghost use Rattle.dagcbor_read.specs.Accessors.{OfBegin};
ghost use Rattle.dagcbor_items.specs.AnsweredVariants.{OfByte, OfText};

use crate::access::accessor::{Accessor, give_back};
use crate::deserialize::Deserialize;
use crate::deserializer::Deserializer;
use dagcbor_core::DecodeError;
use dagcbor_heads::{Read, ReadResult, peek_one, pull_one, spend_step};
use std::alloc::Global;
use std::borrow::CowStr;

/// An enum that was begun. It holds no `Deserializer`: pass each call the one on which it was
/// begun. It is used once.
#[derive(Drop)]
pub struct EnumAccessor {
    first: u8,
    in_map: bool,
    steps: u8,
}

/// Reads the form of the enum that begins here. The first byte of a text stays, and the byte a1 of
/// a map is taken.
#[tactic(auto, using(dagcbor_items::proofs::PartRefusals::end_byte))]
fn pull_form<R: Read>(reader: &mut R) -> ReadResult<EnumAccessor, R>
    ensures form { BeginsEnum (R.reading reader.old) result (R.reading reader.new) }
    ensures variant { IfErr result OfByte }
    ensures looked { LooksAtFirst (λ a. (enum_state a).in_map) (R.reading reader.old) result
        (R.reading reader.new) }
{
    let first = peek_one("enum", reader)?;
    let in_map = first == 0xa1;
    if in_map {
        pull_one("enum", reader)?;
    } else if first / 32 != 3 {
        return Err(DecodeError::mismatch("enum", first));
    }
    Ok(EnumAccessor {
        first,
        in_map,
        steps: 0,
    })
}

/// Reads the form of the enum that begins here, and spends a step.
#[tactic(auto, using(crate::proofs::Entering::depth_form, crate::proofs::Entering::byte_form))]
pub(crate) fn spend_form<R: Read>(name: &str, reader: &mut R) -> ReadResult<EnumAccessor, R>
    ensures form { SpendsEnum name.now (R.reading reader.old) result (R.reading reader.new) }
    ensures variant { IfErr result OfForm }
    ensures looked { LooksAtFirst (λ a. (enum_state a).in_map) (R.reading reader.old) result
        (R.reading reader.new) }
{
    spend_step(name, reader)?;
    let mut form = pull_form(reader)?;
    form.steps = 1;
    Ok(form)
}

impl EnumAccessor {
    /// Begins an enum without spending a step. It takes no memory.
    pub fn enum_<'de, R: Read>(de: &mut Deserializer<'de, R>) -> ReadResult<EnumAccessor, R>
        ensures form { Over R.reading (Call BeginsEnum) de.old result de.new }
        ensures variant { IfErr result OfByte }
        ensures looked { LooksAtFirst (λ a. (enum_state a).in_map)
            (de_state R.reading de.old).input result (de_state R.reading de.new).input }
    {
        de.begin()?;
        let form = pull_form(&mut de.input)?;
        de.failed = false;
        Ok(form)
    }

    /// Reads the variant's name, as `deserialize_identifier` does.
    pub fn variant<'de, R: Read>(
        self,
        alloc: Global,
        de: &mut Deserializer<'de, R>,
    ) -> ReadResult<(CowStr<'de>, EnumAccessor), R>
        ensures same { IfOk result (λ v. v.1 ≡ self) }
        ensures text { Over R.reading (Call ReadsName) de.old result de.new }
        ensures lent { IfOk result
            (λ v. IsBorrowedStr v.0 ↔ ((de_state R.reading de.old).input.lends ≡ true)) }
        ensures variant { IfErr result OfText }
        ensures looked { Looks 3 (de_state R.reading de.old).input result
            (de_state R.reading de.new).input }
    {
        let name = de.deserialize_identifier(alloc)?;
        Ok((name, self))
    }

    /// Ends a variant that is its name alone, and reads nothing. For a map it returns `Mismatch`
    /// with the enum's first byte.
    pub fn unit_variant<'de, R: Read>(self, de: &mut Deserializer<'de, R>) -> ReadResult<(), R>
        requires { AreOut (enum_state self).steps (de_state R.reading de.old) }
        ensures { Over R.reading (Call (EndsUnit (enum_state self))) de.old result de.new }
    {
        de.begin()?;
        if self.in_map {
            return Err(self.other_form());
        }
        give_back(&mut de.input, usize::from(self.steps));
        de.failed = false;
        Ok(())
    }

    /// Reads what the variant holds. For a name alone it returns `Mismatch` with the enum's first
    /// byte.
    pub fn newtype_variant<'de, T: Deserialize<'de>, R: Read>(
        self,
        alloc: Global,
        de: &mut Deserializer<'de, R>,
    ) -> ReadResult<T, R>
        requires { AreOut (enum_state self).steps (de_state R.reading de.old) }
        ensures part { Over R.reading
            (Call (ReadsHeld T.meaning T.shape (enum_state self))) de.old result de.new }
        ensures lies { IfOk result (T.lies (de_state R.reading de.old).input.lends) }
        ensures answers { Over R.reading
            (HandsHeldOn T.answers (enum_state self)) de.old result de.new }
    {
        self.enter_map(de)?;
        let part = de.read_part(alloc)?;
        give_back(&mut de.input, usize::from(self.steps));
        Ok(part)
    }

    /// Begins the list that the variant holds. The length is not used. The end of the list gives
    /// all steps back. It takes no memory.
    #[tactic(auto, using(crate::proofs::Entering::byte_begin))]
    pub fn tuple_variant<'de, R: Read>(
        self,
        _len: usize,
        de: &mut Deserializer<'de, R>,
    ) -> ReadResult<Accessor<'de>, R>
        ensures begun { Over R.reading
            (Call (BeginsHeld 4 (codes "tuple") (enum_state self))) de.old result de.new }
        ensures variant { IfErr result OfBegin }
        ensures looked { Looks 3 (de_state R.reading de.old).input result
            (de_state R.reading de.new).input }
    {
        self.enter_map(de)?;
        de.begin_items("tuple", 4, self.steps)
    }

    /// Begins the map that the variant holds. The names of its fields are not used. The end of the
    /// map gives all steps back. It takes no memory.
    #[tactic(auto, using(crate::proofs::Entering::byte_begin))]
    pub fn struct_variant<'de, R: Read>(
        self,
        _fields: &[&str],
        de: &mut Deserializer<'de, R>,
    ) -> ReadResult<Accessor<'de>, R>
        ensures begun { Over R.reading
            (Call (BeginsHeld 5 (codes "map") (enum_state self))) de.old result de.new }
        ensures variant { IfErr result OfBegin }
        ensures looked { Looks 3 (de_state R.reading de.old).input result
            (de_state R.reading de.new).input }
    {
        self.enter_map(de)?;
        de.begin_items("map", 5, self.steps)
    }

    fn other_form<E>(&self) -> DecodeError<E>
        ensures { IsOtherForm (enum_state self.now) result }
    {
        DecodeError::mismatch("enum", self.first)
    }

    /// Checks that the enum is a map.
    #[tactic(auto, using(crate::proofs::Entering::other_byte))]
    fn enter_map<'de, R: Read>(&self, de: &mut Deserializer<'de, R>) -> ReadResult<(), R>
        ensures form { Over R.reading
            (Call (EntersMap (enum_state self.now))) de.old result de.new }
        ensures variant { IfErr result OfByte }
    {
        de.begin()?;
        if !self.in_map {
            return Err(self.other_form());
        }
        de.failed = false;
        Ok(())
    }
}
