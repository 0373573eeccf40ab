//! The `Deserializer`: a reader, and whether a call was refused.

ghost use Rattle.std.specs.Prelude.{◌≡◌, [], false, true, MatchResult, Some, IfErr, ◌+◌, ◌≤◌, ◌^◌};
ghost use Rattle.std.specs.Prelude.{◌<◌, IfNone};
ghost use Rattle.std.specs.Prelude.{IfOk, IfSome, codes, pos, negsuc, ◌≤ℤ◌, ◌↔◌, option_map};
ghost use Rattle.dagcbor_core.specs.Steps.{default_steps};
ghost use Rattle.dagcbor_heads.specs.Reading.{fresh_reading};
ghost use Rattle.dagcbor_heads.specs.Inputs.{not_lending};
ghost use Rattle.dagcbor_core.specs.declared.error.DecodeError.TheVariants.{Failed};
ghost use Rattle.dagcbor_heads.specs.Looking.{Looks, LooksOnce, LooksAtTaken};
ghost use Rattle.dagcbor_items.specs.Looks.{LooksAtAny};
ghost use Rattle.dagcbor_read.specs.Deserializers.{de_state, Call, Ends, Over, LooksAtFirst};
ghost use Rattle.dagcbor_items.specs.Entries.{ReadsKey};
ghost use Rattle.dagcbor_items.specs.Majors.{LacksForString};
ghost use Rattle.dagcbor_items.specs.Untyped.{ReadsItem};
ghost use Rattle.dagcbor_items.specs.Links.{ReadsLink};
ghost use Rattle.dagcbor_items.specs.AnsweredVariants.{OfItem, OfLink, OfHead, OfNumber, OfByte};
ghost use Rattle.dagcbor_items.specs.AnsweredVariants.{OfChar, OfText, OfKey};
ghost use Rattle.dagcbor_items.specs.LeafReads.{ReadsUnsigned, ReadsSigned, ReadsU128, ReadsI128};
ghost use Rattle.dagcbor_items.specs.LeafReads.{ReadsNull, ReadsBool, ReadsStr, ReadsOwnedText};
ghost use Rattle.dagcbor_items.specs.LeafReads.{ReadsChar, ReadsByteSlice, ReadsOwnedBytes};
ghost use Rattle.dagcbor_items.specs.LeafReads.{ReadsIgnored};
ghost use Rattle.std.specs.Cow.{IsBorrowedSlice, IsBorrowedStr, cow_str_bytes};
ghost use Rattle.ipld_tree.specs.Tree.{text};
ghost use Rattle.dagcbor_read.specs.Accessors.{ReadsHead, BeginsItems, ReadsKeyAfter, OfBegin};
ghost use Rattle.dagcbor_read.specs.Values.{ReadsPart};
ghost use Rattle.dagcbor_read.specs.Parts.{HandsOn, HandsOptionOn};
ghost use Rattle.dagcbor_read.specs.Options.{ReadsOption, EntersOption};
ghost use Rattle.dagcbor_read.specs.Kinds.{PeeksKind, OfPeek};
ghost use Rattle.dagcbor_read.specs.Enums.{enum_state, SpendsEnum, OfForm};
ghost use Rattle.dagcbor_items.specs.Walks.{GathersLinks};
ghost use Rattle.dagcbor_read.specs.Streams.{stream_state, ReadsNext};

use crate::access::accessor::{Accessor, copied};
use crate::access::enum_accessor::{EnumAccessor, spend_form};
use crate::deserialize::Deserialize;
use crate::stream::StreamDeserializer;
use dagcbor_core::{DecodeError, Name};
use dagcbor_decode::{Kind, kind_at};
use dagcbor_heads::{
    Input, Read, ReadResult, SliceReader, is_at_end, peek_one, pull_one, spend_step,
};
use dagcbor_items::{
    gather_links, pull_bool, pull_char, pull_i128, pull_link, pull_major, pull_null,
    pull_owned_bytes, pull_owned_text, pull_signed, pull_slice, pull_str, pull_u128, pull_unsigned,
    read_any, read_key, skip_any, take_link, take_one_of,
};
use ipld_tree::{Cid, Ipld};
use std::alloc::Global;
use std::borrow::{CowSlice, CowStr};

/// Evaluates `$read` if no call was refused so far, and otherwise returns `Failed`. A refusal also
/// returns from the function, and is remembered.
macro_rules! call {
    ($de:ident, $read:expr) => {{
        $de.begin()?;
        let value = $read?;
        $de.failed = false;
        value
    }};
}

/// Reads values from a slice, which lends its bytes, or from another reader. After any refusal but
/// `TrailingData`, each later reading call returns `Failed`.
#[derive(Drop)]
pub struct Deserializer<'de, R> {
    pub(crate) input: Input<'de, R>,
    pub(crate) failed: bool,
}

impl<'de> Deserializer<'de, SliceReader<'de>> {
    /// Reads from the slice with a budget of `DEFAULT_STEPS`. The bytes are lent.
    pub fn from_slice(bytes: &'de [u8]) -> Deserializer<'de, SliceReader<'de>>
        ensures { de_state (λ r. r) result ≡ record {
          input = fresh_reading (Some bytes.now) default_steps true [];
          failed = false;
        } }
    {
        Deserializer::from_slice_reader(SliceReader::new(bytes))
    }

    /// Reads the bytes that a slice reader has left, with the steps it has left. The bytes are
    /// lent.
    pub fn from_slice_reader(reader: SliceReader<'de>) -> Deserializer<'de, SliceReader<'de>>
        ensures { de_state (λ r. r) result ≡ record { input = reader.entry; failed = false } }
    {
        Deserializer {
            input: Input::Slice(reader),
            failed: false,
        }
    }
}

impl<'de, R: Read> Deserializer<'de, R> {
    /// Reads from the reader. Its bytes are not lent.
    pub fn from_reader(reader: R) -> Deserializer<'de, R>
        ensures { de_state R.reading
            result ≡ record { input = not_lending (R.reading reader); failed = false } }
    {
        Deserializer {
            input: Input::Reader(reader),
            failed: false,
        }
    }

    /// Returns false: DAG-CBOR is a binary format.
    pub fn is_human_readable(&self) -> bool
        ensures { result ≡ false }
    {
        false
    }

    /// Checks that no call was refused so far. Marks this one as refused until it returns.
    pub(crate) fn begin(&mut self) -> ReadResult<(), R>
        ensures { MatchResult result
            (λ _. ((de_state R.reading self.old).failed ≡ false)
            × (de_state R.reading
            self.new ≡ record { input = (de_state R.reading self.old).input; failed = true }))
            (λ e. ((de_state R.reading self.old).failed ≡ true) × (e ≡ Failed)
            × (de_state R.reading self.new ≡ de_state R.reading self.old)) }
    {
        self.check()?;
        self.failed = true;
        Ok(())
    }

    /// Returns the kind of the next item from its first byte, which is not taken.
    pub fn peek_kind(&mut self) -> ReadResult<Kind, R>
        ensures kind { Over R.reading (Call PeeksKind) self.old result self.new }
        ensures variant { IfErr result OfPeek }
        ensures looked { LooksOnce (de_state R.reading self.old).input
            (de_state R.reading self.new).input }
    {
        let first = call!(self, peek_one("item", &mut self.input));
        Ok(kind_at(first))
    }

    /// Reads an item of any kind, no deeper than the steps left.
    pub fn deserialize_any(&mut self, alloc: Global) -> ReadResult<Ipld, R>
        ensures item { Over R.reading (Call ReadsItem) self.old result self.new }
        ensures looked { LooksAtAny (de_state R.reading self.old).input result
            (de_state R.reading self.new).input }
        ensures variant { IfErr result OfItem }
    {
        self.check()?;
        let result = read_any(alloc, &mut self.input);
        self.failed = result.is_err();
        result
    }

    /// Reads a link, and takes no memory.
    pub fn deserialize_cid(&mut self) -> ReadResult<Cid, R>
        ensures link { Over R.reading (Call ReadsLink) self.old result self.new }
        ensures variant { IfErr result OfLink }
        ensures looked { Looks 3 (de_state R.reading self.old).input result
            (de_state R.reading self.new).input }
    {
        self.check()?;
        if let Some(cid) = take_link(&mut self.input) {
            return Ok(cid);
        }
        Ok(call!(self, pull_link(&mut self.input)))
    }

    /// Checks that the input ends here. If a byte is left, it returns `TrailingData`. The byte
    /// stays, and reading may go on.
    pub fn end(&mut self) -> ReadResult<(), R>
        ensures end { Over R.reading Ends self.old result self.new }
        ensures looked { LooksOnce (de_state R.reading self.old).input
            (de_state R.reading self.new).input }
    {
        if call!(self, is_at_end(&mut self.input)) {
            Ok(())
        } else {
            Err(DecodeError::TrailingData)
        }
    }

    #[inline(always)]
    fn unsigned(&mut self, name: &str, greatest: u64) -> ReadResult<u64, R>
        ensures number { Over R.reading
            (Call (ReadsUnsigned name.now (greatest + 1))) self.old result self.new }
        ensures most { IfOk result (λ n. n ≤ greatest) }
        ensures variant { IfErr result OfNumber }
        ensures looked { Looks 3 (de_state R.reading self.old).input result
            (de_state R.reading self.new).input }
    {
        Ok(call!(self, pull_unsigned(name, &mut self.input, greatest)))
    }

    fn signed(&mut self, name: &str, greatest: u64) -> ReadResult<i128, R>
        ensures number { Over R.reading
            (Call (ReadsSigned name.now (greatest + 1))) self.old result self.new }
        ensures least { IfOk result (λ n. negsuc greatest ≤ℤ n) }
        ensures most { IfOk result (λ n. n ≤ℤ pos greatest) }
        ensures variant { IfErr result OfNumber }
        ensures looked { Looks 3 (de_state R.reading self.old).input result
            (de_state R.reading self.new).input }
    {
        Ok(call!(self, pull_signed(name, &mut self.input, greatest)))
    }

    /// Reads a number from 0 to 255.
    #[inline(always)]
    pub fn deserialize_u8(&mut self) -> ReadResult<u8, R>
        ensures number { Over R.reading
            (Call (ReadsUnsigned (codes "u8") (2 ^ 8))) self.old result self.new }
        ensures variant { IfErr result OfNumber }
        ensures looked { Looks 3 (de_state R.reading self.old).input result
            (de_state R.reading self.new).input }
    {
        Ok(self.unsigned("u8", 0xff)? as u8)
    }

    /// Reads a number from 0 to 65,535.
    #[inline(always)]
    pub fn deserialize_u16(&mut self) -> ReadResult<u16, R>
        ensures number { Over R.reading
            (Call (ReadsUnsigned (codes "u16") (2 ^ 16))) self.old result self.new }
        ensures variant { IfErr result OfNumber }
        ensures looked { Looks 3 (de_state R.reading self.old).input result
            (de_state R.reading self.new).input }
    {
        Ok(self.unsigned("u16", 0xffff)? as u16)
    }

    /// Reads a number from 0 to 2^32 - 1.
    #[inline(always)]
    pub fn deserialize_u32(&mut self) -> ReadResult<u32, R>
        ensures number { Over R.reading
            (Call (ReadsUnsigned (codes "u32") (2 ^ 32))) self.old result self.new }
        ensures variant { IfErr result OfNumber }
        ensures looked { Looks 3 (de_state R.reading self.old).input result
            (de_state R.reading self.new).input }
    {
        Ok(self.unsigned("u32", 0xffff_ffff)? as u32)
    }

    /// Reads a number from 0 to 2^64 - 1.
    #[inline(always)]
    pub fn deserialize_u64(&mut self) -> ReadResult<u64, R>
        ensures number { Over R.reading
            (Call (ReadsUnsigned (codes "u64") (2 ^ 64))) self.old result self.new }
        ensures variant { IfErr result OfNumber }
        ensures looked { Looks 3 (de_state R.reading self.old).input result
            (de_state R.reading self.new).input }
    {
        self.unsigned("u64", u64::MAX)
    }

    /// Reads a number from -128 to 127.
    pub fn deserialize_i8(&mut self) -> ReadResult<i8, R>
        ensures number { Over R.reading
            (Call (ReadsSigned (codes "i8") (2 ^ 7))) self.old result self.new }
        ensures variant { IfErr result OfNumber }
        ensures looked { Looks 3 (de_state R.reading self.old).input result
            (de_state R.reading self.new).input }
    {
        Ok(self.signed("i8", 0x7f)? as i8)
    }

    /// Reads a number from -32,768 to 32,767.
    pub fn deserialize_i16(&mut self) -> ReadResult<i16, R>
        ensures number { Over R.reading
            (Call (ReadsSigned (codes "i16") (2 ^ 15))) self.old result self.new }
        ensures variant { IfErr result OfNumber }
        ensures looked { Looks 3 (de_state R.reading self.old).input result
            (de_state R.reading self.new).input }
    {
        Ok(self.signed("i16", 0x7fff)? as i16)
    }

    /// Reads a number from -2^31 to 2^31 - 1.
    pub fn deserialize_i32(&mut self) -> ReadResult<i32, R>
        ensures number { Over R.reading
            (Call (ReadsSigned (codes "i32") (2 ^ 31))) self.old result self.new }
        ensures variant { IfErr result OfNumber }
        ensures looked { Looks 3 (de_state R.reading self.old).input result
            (de_state R.reading self.new).input }
    {
        Ok(self.signed("i32", 0x7fff_ffff)? as i32)
    }

    /// Reads a number from -2^63 to 2^63 - 1.
    pub fn deserialize_i64(&mut self) -> ReadResult<i64, R>
        ensures number { Over R.reading
            (Call (ReadsSigned (codes "i64") (2 ^ 63))) self.old result self.new }
        ensures variant { IfErr result OfNumber }
        ensures looked { Looks 3 (de_state R.reading self.old).input result
            (de_state R.reading self.new).input }
    {
        Ok(self.signed("i64", 0x7fff_ffff_ffff_ffff)? as i64)
    }

    /// Reads any number that is not negative, but no tagged bignum.
    pub fn deserialize_u128(&mut self) -> ReadResult<u128, R>
        ensures number { Over R.reading (Call ReadsU128) self.old result self.new }
        ensures variant { IfErr result OfNumber }
        ensures looked { Looks 4 (de_state R.reading self.old).input result
            (de_state R.reading self.new).input }
    {
        Ok(call!(self, pull_u128(&mut self.input)))
    }

    /// Reads any number, but no tagged bignum.
    pub fn deserialize_i128(&mut self) -> ReadResult<i128, R>
        ensures number { Over R.reading (Call ReadsI128) self.old result self.new }
        ensures variant { IfErr result OfHead }
        ensures looked { Looks 4 (de_state R.reading self.old).input result
            (de_state R.reading self.new).input }
    {
        Ok(call!(self, pull_i128(&mut self.input)))
    }

    /// Reads a null.
    pub fn deserialize_unit(&mut self) -> ReadResult<(), R>
        ensures null { Over R.reading (Call ReadsNull) self.old result self.new }
        ensures variant { IfErr result OfByte }
        ensures looked { Looks 2 (de_state R.reading self.old).input result
            (de_state R.reading self.new).input }
    {
        Ok(call!(self, pull_null(&mut self.input)))
    }

    /// Does what `deserialize_unit` does. The name is not used.
    pub fn deserialize_unit_struct(&mut self, _name: &str) -> ReadResult<(), R>
        ensures null { Over R.reading (Call ReadsNull) self.old result self.new }
        ensures variant { IfErr result OfByte }
        ensures looked { Looks 2 (de_state R.reading self.old).input result
            (de_state R.reading self.new).input }
    {
        self.deserialize_unit()
    }

    /// Reads false or true.
    pub fn deserialize_bool(&mut self) -> ReadResult<bool, R>
        ensures value { Over R.reading (Call ReadsBool) self.old result self.new }
        ensures variant { IfErr result OfByte }
        ensures looked { Looks 2 (de_state R.reading self.old).input result
            (de_state R.reading self.new).input }
    {
        Ok(call!(self, pull_bool(&mut self.input)))
    }

    /// Reads a text, lent if the input lends.
    pub fn deserialize_str(&mut self, alloc: Global) -> ReadResult<CowStr<'de>, R>
        ensures text { Over R.reading (Call (ReadsStr (codes "string"))) self.old result self.new }
        ensures lent { IfOk result
            (λ s. IsBorrowedStr s ↔ ((de_state R.reading self.old).input.lends ≡ true)) }
        ensures memory { IfErr result
            (LacksForString 3 (de_state R.reading self.old).input.left) }
        ensures variant { IfErr result OfText }
        ensures looked { Looks 3 (de_state R.reading self.old).input result
            (de_state R.reading self.new).input }
    {
        Ok(call!(self, pull_str(alloc, "string", &mut self.input)))
    }

    /// Does what `deserialize_str` does.
    pub fn deserialize_identifier(&mut self, alloc: Global) -> ReadResult<CowStr<'de>, R>
        ensures text { Over R.reading (Call (ReadsStr (codes "string"))) self.old result self.new }
        ensures lent { IfOk result
            (λ s. IsBorrowedStr s ↔ ((de_state R.reading self.old).input.lends ≡ true)) }
        ensures memory { IfErr result
            (LacksForString 3 (de_state R.reading self.old).input.left) }
        ensures variant { IfErr result OfText }
        ensures looked { Looks 3 (de_state R.reading self.old).input result
            (de_state R.reading self.new).input }
    {
        self.deserialize_str(alloc)
    }

    /// Reads a byte string, lent if the input lends.
    pub fn deserialize_bytes(&mut self, alloc: Global) -> ReadResult<CowSlice<'de, u8>, R>
        ensures bytes { Over R.reading (Call ReadsByteSlice) self.old result self.new }
        ensures lent { IfOk result
            (λ c. IsBorrowedSlice c ↔ ((de_state R.reading self.old).input.lends ≡ true)) }
        ensures memory { IfErr result
            (LacksForString 2 (de_state R.reading self.old).input.left) }
        ensures variant { IfErr result OfHead }
        ensures looked { Looks 3 (de_state R.reading self.old).input result
            (de_state R.reading self.new).input }
    {
        Ok(call!(self, pull_slice(alloc, &mut self.input)))
    }

    /// Reads a text.
    pub fn deserialize_string(&mut self, alloc: Global) -> ReadResult<String, R>
        ensures text { Over R.reading (Call ReadsOwnedText) self.old result self.new }
        ensures memory { IfErr result
            (LacksForString 3 (de_state R.reading self.old).input.left) }
        ensures variant { IfErr result OfText }
        ensures looked { Looks 3 (de_state R.reading self.old).input result
            (de_state R.reading self.new).input }
    {
        Ok(call!(self, pull_owned_text(alloc, &mut self.input)))
    }

    /// Reads a byte string.
    pub fn deserialize_byte_buf(&mut self, alloc: Global) -> ReadResult<Vec<u8>, R>
        ensures bytes { Over R.reading (Call ReadsOwnedBytes) self.old result self.new }
        ensures memory { IfErr result
            (LacksForString 2 (de_state R.reading self.old).input.left) }
        ensures variant { IfErr result OfHead }
        ensures looked { Looks 3 (de_state R.reading self.old).input result
            (de_state R.reading self.new).input }
    {
        Ok(call!(self, pull_owned_bytes(alloc, &mut self.input)))
    }

    /// Reads a text of one character.
    pub fn deserialize_char(&mut self, alloc: Global) -> ReadResult<char, R>
        ensures character { Over R.reading (Call ReadsChar) self.old result self.new }
        ensures memory { IfErr result
            (LacksForString 3 (de_state R.reading self.old).input.left) }
        ensures variant { IfErr result OfChar }
        ensures looked { Looks 3 (de_state R.reading self.old).input result
            (de_state R.reading self.new).input }
    {
        Ok(call!(self, pull_char(alloc, &mut self.input)))
    }

    /// Checks that no call was refused so far.
    pub(crate) fn check(&self) -> ReadResult<(), R>
        ensures { MatchResult result
            (λ _. (de_state R.reading self.now).failed ≡ false)
            (λ e. ((de_state R.reading self.now).failed ≡ true) × (e ≡ Failed)) }
    {
        if self.failed {
            return Err(DecodeError::Failed);
        }
        Ok(())
    }

    /// Reads a key that comes after the last one. One of the names takes no memory if a slice has
    /// it whole.
    pub(crate) fn read_key(
        &mut self,
        alloc: Global,
        names: &[&'de str],
        last: &Option<CowStr<'de>>,
    ) -> ReadResult<CowStr<'de>, R>
        ensures key { Over R.reading
            (Call (ReadsKey (option_map cow_str_bytes last.now))) self.old result self.new }
        ensures memory { IfErr result
            (LacksForString 3 (de_state R.reading self.old).input.left) }
    {
        self.begin()?;
        if let Some(name) = take_one_of(&mut self.input, last, names) {
            self.failed = false;
            return Ok(CowStr::Borrowed(name));
        }
        let key = read_key(alloc, &mut self.input, last)?;
        self.failed = false;
        Ok(key)
    }

    /// Reads a key that comes after the last one, and returns it twice.
    pub(crate) fn read_key_after(
        &mut self,
        alloc: Global,
        last: &Option<CowStr<'de>>,
    ) -> ReadResult<(CowStr<'de>, CowStr<'de>), R>
        ensures key { Over R.reading
            (Call (ReadsKeyAfter (option_map cow_str_bytes last.now))) self.old result self.new }
        ensures lent { IfOk result
            (λ p. IsBorrowedStr p.0 ↔ ((de_state R.reading self.old).input.lends ≡ true)) }
        ensures memory { IfErr result
            (LacksForString 3 (de_state R.reading self.old).input.left) }
        ensures variant { IfErr result OfKey }
        ensures looked { Looks 3 (de_state R.reading self.old).input result
            (de_state R.reading self.new).input }
    {
        self.begin()?;
        let key = read_key(alloc, &mut self.input, last)?;
        let Ok(copy) = copied(alloc, &key) else {
            return Err(DecodeError::OutOfMemory);
        };
        self.failed = false;
        Ok((key, copy))
    }

    /// Begins a list (4) or map (5). Its end gives back its own step, and `more` others.
    #[inline(always)]
    pub(crate) fn begin_items(
        &mut self,
        name: &str,
        major: u8,
        more: u8,
    ) -> ReadResult<Accessor<'de>, R>
        requires { major < 8 }
        ensures begun { Over R.reading
            (Call (BeginsItems major name.now (more + 1))) self.old result self.new }
        ensures variant { IfErr result OfBegin }
        ensures looked { Looks 3 (de_state R.reading self.old).input result
            (de_state R.reading self.new).input }
    {
        let count = call!(self, enter(name, &mut self.input, major));
        let steps = usize::from(more) + 1;
        Ok(Accessor::new(Name::new(name), major == 5, count as usize, steps))
    }

    /// Begins a list. It takes no memory.
    #[inline(always)]
    pub fn deserialize_seq(&mut self) -> ReadResult<Accessor<'de>, R>
        ensures begun { Over R.reading
            (Call (BeginsItems 4 (codes "array") 1)) self.old result self.new }
        ensures variant { IfErr result OfBegin }
        ensures looked { Looks 3 (de_state R.reading self.old).input result
            (de_state R.reading self.new).input }
    {
        self.begin_items("array", 4, 0)
    }

    /// Begins a list for a tuple. The length is not used. It takes no memory.
    pub fn deserialize_tuple(&mut self, _len: usize) -> ReadResult<Accessor<'de>, R>
        ensures begun { Over R.reading
            (Call (BeginsItems 4 (codes "tuple") 1)) self.old result self.new }
        ensures variant { IfErr result OfBegin }
        ensures looked { Looks 3 (de_state R.reading self.old).input result
            (de_state R.reading self.new).input }
    {
        self.begin_items("tuple", 4, 0)
    }

    /// Begins a list for a tuple struct. The length is not used. It takes no memory.
    pub fn deserialize_tuple_struct(
        &mut self,
        name: &str,
        _len: usize,
    ) -> ReadResult<Accessor<'de>, R>
        ensures begun { Over R.reading (Call (BeginsItems 4 name.now 1)) self.old result self.new }
        ensures variant { IfErr result OfBegin }
        ensures looked { Looks 3 (de_state R.reading self.old).input result
            (de_state R.reading self.new).input }
    {
        self.begin_items(name, 4, 0)
    }

    /// Begins a map. It takes no memory.
    pub fn deserialize_map(&mut self) -> ReadResult<Accessor<'de>, R>
        ensures begun { Over R.reading
            (Call (BeginsItems 5 (codes "map") 1)) self.old result self.new }
        ensures variant { IfErr result OfBegin }
        ensures looked { Looks 3 (de_state R.reading self.old).input result
            (de_state R.reading self.new).input }
    {
        self.begin_items("map", 5, 0)
    }

    /// Begins a map for a struct. The names of the fields are not used. It takes no memory.
    pub fn deserialize_struct(
        &mut self,
        name: &str,
        _fields: &[&str],
    ) -> ReadResult<Accessor<'de>, R>
        ensures begun { Over R.reading (Call (BeginsItems 5 name.now 1)) self.old result self.new }
        ensures variant { IfErr result OfBegin }
        ensures looked { Looks 3 (de_state R.reading self.old).input result
            (de_state R.reading self.new).input }
    {
        self.begin_items(name, 5, 0)
    }

    fn enter_option(&mut self) -> ReadResult<bool, R>
        ensures entered { Over R.reading (Call EntersOption) self.old result self.new }
        ensures looked { LooksAtFirst (λ is_null. is_null) (de_state R.reading self.old).input
            result (de_state R.reading self.new).input }
    {
        Ok(call!(self, enter_option(&mut self.input)))
    }

    /// Reads a value as its type does, and remembers a refusal.
    #[inline(always)]
    pub(crate) fn read_part<T: Deserialize<'de>>(&mut self, alloc: Global) -> ReadResult<T, R>
        ensures part { Over R.reading
            (Call (ReadsPart T.meaning T.shape)) self.old result self.new }
        ensures lies { IfOk result (T.lies (de_state R.reading self.old).input.lends) }
        ensures answers { Over R.reading (HandsOn T.answers) self.old result self.new }
    {
        self.check()?;
        match T::deserialize(alloc, self) {
            Ok(value) => Ok(value),
            Err(e) => {
                self.failed = true;
                Err(e)
            }
        }
    }

    /// Reads the one part of a struct. The name is not used.
    pub fn deserialize_newtype_struct<T: Deserialize<'de>>(
        &mut self,
        alloc: Global,
        _name: &str,
    ) -> ReadResult<T, R>
        ensures part { Over R.reading
            (Call (ReadsPart T.meaning T.shape)) self.old result self.new }
        ensures lies { IfOk result (T.lies (de_state R.reading self.old).input.lends) }
        ensures answers { Over R.reading (HandsOn T.answers) self.old result self.new }
    {
        self.read_part(alloc)
    }

    /// Reads a null as `None`. Any other value takes a step, and as many looks as its type takes.
    pub fn deserialize_option<T: Deserialize<'de>>(
        &mut self,
        alloc: Global,
    ) -> ReadResult<Option<T>, R>
        ensures option { Over R.reading
            (Call (ReadsOption T.meaning T.shape)) self.old result self.new }
        ensures lies { IfOk result
            (λ o. IfSome o (T.lies (de_state R.reading self.old).input.lends)) }
        ensures answers { Over R.reading (HandsOptionOn T.answers) self.old result self.new }
        ensures looked { IfOk result
            (λ o. IfNone o (LooksAtTaken 3 0 (de_state R.reading self.old).input
            (de_state R.reading self.new).input)) }
    {
        if self.enter_option()? {
            return Ok(None);
        }
        let value = self.read_part(alloc)?;
        self.input.step_out();
        Ok(Some(value))
    }

    /// Begins an enum, which takes a step. The names of its variants are not used. It takes no
    /// memory.
    pub fn deserialize_enum(
        &mut self,
        name: &str,
        _variants: &[&str],
    ) -> ReadResult<EnumAccessor, R>
        ensures form { Over R.reading (Call (SpendsEnum name.now)) self.old result self.new }
        ensures variant { IfErr result OfForm }
        ensures looked { LooksAtFirst (λ a. (enum_state a).in_map)
            (de_state R.reading self.old).input result (de_state R.reading self.new).input }
    {
        Ok(call!(self, spend_form(name, &mut self.input)))
    }

    /// Skips an item of any kind. It rejects what `deserialize_any` rejects. Over a slice it takes
    /// no memory.
    pub fn deserialize_ignored_any(&mut self, alloc: Global) -> ReadResult<(), R>
        ensures item { Over R.reading (Call ReadsIgnored) self.old result self.new }
        ensures looked { LooksAtAny (de_state R.reading self.old).input result
            (de_state R.reading self.new).input }
        ensures variant { IfErr result OfItem }
    {
        Ok(call!(self, skip_any(alloc, &mut self.input)))
    }

    /// Reads an item of any kind, and keeps only its links: left to right, with repeats. It rejects
    /// what `deserialize_any` rejects.
    pub fn deserialize_links(&mut self, alloc: Global) -> ReadResult<Vec<Cid>, R>
        ensures links { Over R.reading (Call GathersLinks) self.old result self.new }
        ensures looked { LooksAtAny (de_state R.reading self.old).input result
            (de_state R.reading self.new).input }
        ensures variant { IfErr result OfItem }
    {
        Ok(call!(self, gather_links(alloc, &mut self.input)))
    }

    /// Returns an iterator over the values left in the input.
    pub fn into_iter<T: Deserialize<'de>>(self, alloc: Global) -> StreamDeserializer<'de, R, T>
        ensures { stream_state R.reading
            result ≡ record { source = de_state R.reading self.entry; done = false } }
    {
        StreamDeserializer::new(alloc, self)
    }

    /// Reads a value, or returns `None` if the input ends here. Finding the end takes no byte.
    pub(crate) fn next_value<T: Deserialize<'de>>(
        &mut self,
        alloc: Global,
    ) -> ReadResult<Option<T>, R>
        ensures value { Over R.reading
            (Call (ReadsNext T.meaning T.shape)) self.old result self.new }
        ensures lies { IfOk result
            (λ o. IfSome o (T.lies (de_state R.reading self.old).input.lends)) }
    {
        if call!(self, is_at_end(&mut self.input)) {
            return Ok(None);
        }
        let value = self.read_part(alloc)?;
        Ok(Some(value))
    }
}

/// Spends a step, and takes the head of a list or map.
#[tactic(auto, using(crate::proofs::Entering::begins))]
#[inline(always)]
fn enter<R: Read>(name: &str, reader: &mut R, major: u8) -> ReadResult<u64, R>
    requires { major < 8 }
    ensures head { ReadsHead major name.now (R.reading reader.old) result (R.reading reader.new) }
    ensures looked { Looks 3 (R.reading reader.old) result (R.reading reader.new) }
    ensures variant { IfErr result OfBegin }
{
    spend_step(name, reader)?;
    let (_, count) = pull_major(name, reader, major, major)?;
    Ok(count)
}

/// Takes a null and returns true, or spends a step and returns false if the value is not null.
fn enter_option<R: Read>(reader: &mut R) -> ReadResult<bool, R>
    ensures entered { EntersOption (R.reading reader.old) result (R.reading reader.new) }
    ensures looked { LooksAtFirst (λ is_null. is_null) (R.reading reader.old) result
        (R.reading reader.new) }
{
    let first = peek_one("option", reader)?;
    if first == 0xf6 {
        pull_one("option", reader)?;
        return Ok(true);
    }
    spend_step("option", reader)?;
    Ok(false)
}
