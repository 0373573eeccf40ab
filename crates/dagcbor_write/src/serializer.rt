//! The serializer, and what it writes by itself: leaves.

ghost use Rattle.std.specs.Prelude.{◌≡◌, ◌≤◌, Some, OnOk, IfErr};
ghost use Rattle.std.specs.Prelude.{codes, false, pos, IfSome, IsTrue, ◌||◌};
ghost use Rattle.std.specs.Char.{encode_utf8};
ghost use Rattle.dagcbor_heads.specs.Written.{Writes, WritesAtOnce, WantsMemoryOnlyIf};
ghost use Rattle.ipld_tree.specs.Cid.{cid_bytes};
ghost use Rattle.ipld_tree.specs.Tree.{null, boolean, integer, text, bytes, link, IsTree};
ghost use Rattle.ipld_tree.specs.Spelling.{IsSpellable};
ghost use Rattle.ipld_tree.specs.Spelled.{spelled, spelled_head, spelled_bytes, spelled_tree};
ghost use Rattle.dagcbor_write.specs.Answers.{OnMessage};
ghost use Rattle.std.specs.Fmt.{◌++?◌};
ghost use Rattle.dagcbor_write.specs.Trees.{variant_tree, variant_head};

use crate::serialize::Serialize;
use arrayvec::ArrayVec;
use dagcbor_core::EncodeError;
use dagcbor_heads::{Write, WriteResult, push_head, push_head_at_once, push_headed_at_once};
use ipld_tree::Cid;
use std::alloc::Global;
use std::marker::Model;

/// The message for an integer without a spelling.
const INTEGER_RANGE: &str = "Integer must be within [-u64::MAX-1, u64::MAX] range";

/// The message for an unsigned integer without a spelling.
const UNSIGNED_RANGE: &str = "Unsigned integer must be within [0, u64::MAX] range";

/// A serializer, which writes values to a writer. Contracts see the writer.
#[derive(Drop)]
pub struct Serializer<W> {
    writer: W,
}

impl<W> Model for Serializer<W> {
    ghost Value = { W };

    ghost view = { λ s. s.writer };
}

impl<W> Serializer<W> {
    /// Returns a serializer that appends to what the writer holds.
    pub fn new(writer: W) -> Serializer<W>
        ensures { result ≡ writer }
    {
        Serializer { writer }
    }

    /// Returns the writer, with what was written to it.
    pub fn into_inner(self) -> W
        ensures { result ≡ self }
    {
        let Self { writer } = self;
        writer
    }

    /// Returns the writer, with what was written to it so far.
    pub(crate) fn writer(&self) -> &W
        ensures { result.now ≡ self.now }
    {
        &self.writer
    }

    /// Returns false, because DAG-CBOR is a binary format.
    pub fn is_human_readable(&self) -> bool
        ensures { result ≡ false }
    {
        false
    }
}

impl<W: Write> Serializer<W> {
    /// Appends f4 for false, and f5 for true.
    #[tactic(auto, unfolding(ipld_tree::specs::Spelled::spelled))]
    pub fn serialize_bool(&mut self, v: bool) -> WriteResult<(), W>
        ensures written { Writes (spelled (boolean v))
            (W.written self.old) (W.written self.new) result }
        ensures memory { WantsMemoryOnlyIf W.takes_memory result }
        ensures silent { IfErr result (OnMessage (λ _. ⊥)) }
    {
        self.writer.push(&[if v { 0xf5 } else { 0xf4 }])
    }

    /// Appends the integer as `serialize_i64` does.
    pub fn serialize_i8(&mut self, v: i8) -> WriteResult<(), W>
        ensures written { Writes (spelled (integer v))
            (W.written self.old) (W.written self.new) result }
        ensures memory { WantsMemoryOnlyIf W.takes_memory result }
    {
        self.serialize_i16(v as i16)
    }

    /// Appends the integer as `serialize_i64` does.
    pub fn serialize_i16(&mut self, v: i16) -> WriteResult<(), W>
        ensures written { Writes (spelled (integer v))
            (W.written self.old) (W.written self.new) result }
        ensures memory { WantsMemoryOnlyIf W.takes_memory result }
    {
        self.serialize_i32(v as i32)
    }

    /// Appends the integer as `serialize_i64` does.
    pub fn serialize_i32(&mut self, v: i32) -> WriteResult<(), W>
        ensures written { Writes (spelled (integer v))
            (W.written self.old) (W.written self.new) result }
        ensures memory { WantsMemoryOnlyIf W.takes_memory result }
    {
        self.serialize_i64(v as i64)
    }

    /// Appends a head of major type 0, or of 1 if the integer is negative.
    #[tactic(auto, unfolding(ipld_tree::specs::Spelled::spelled))]
    pub fn serialize_i64(&mut self, v: i64) -> WriteResult<(), W>
        ensures written { Writes (spelled (integer v))
            (W.written self.old) (W.written self.new) result }
        ensures memory { WantsMemoryOnlyIf W.takes_memory result }
    {
        let (major, argument) = if v < 0 { (1, -1 - v) } else { (0, v) };
        push_head(&mut self.writer, major, argument as u64)
    }

    /// Appends a head of major type 0, or of 1 if the integer is negative. A number outside -2^64
    /// to 2^64 - 1 is refused with `Msg("Integer must be within [-u64::MAX-1, u64::MAX] range")`.
    #[tactic(auto, unfolding(ipld_tree::specs::Spelled::spelled))]
    pub fn serialize_i128(&mut self, v: i128) -> WriteResult<(), W>
        ensures written { Writes (spelled (integer v))
            (W.written self.old) (W.written self.new) result }
        ensures memory { WantsMemoryOnlyIf W.takes_memory result }
        ensures message { IfErr result (OnMessage
            (λ m. (m ≡ codes "Integer must be within [-u64::MAX-1, u64::MAX] range")
            × (self.new ≡ self.old))) }
    {
        let (major, magnitude) = if v < 0 { (1, -1 - v) } else { (0, v) };
        match u64::try_from(magnitude) {
            Ok(argument) => push_head(&mut self.writer, major, argument),
            Err(_) => Err(EncodeError::custom(INTEGER_RANGE)),
        }
    }

    /// Appends the integer as `serialize_u64` does.
    pub fn serialize_u8(&mut self, v: u8) -> WriteResult<(), W>
        ensures written { Writes (spelled (integer (pos v)))
            (W.written self.old) (W.written self.new) result }
        ensures memory { WantsMemoryOnlyIf W.takes_memory result }
    {
        self.serialize_u16(v as u16)
    }

    /// Appends the integer as `serialize_u64` does.
    pub fn serialize_u16(&mut self, v: u16) -> WriteResult<(), W>
        ensures written { Writes (spelled (integer (pos v)))
            (W.written self.old) (W.written self.new) result }
        ensures memory { WantsMemoryOnlyIf W.takes_memory result }
    {
        self.serialize_u32(v as u32)
    }

    /// Appends the integer as `serialize_u64` does.
    pub fn serialize_u32(&mut self, v: u32) -> WriteResult<(), W>
        ensures written { Writes (spelled (integer (pos v)))
            (W.written self.old) (W.written self.new) result }
        ensures memory { WantsMemoryOnlyIf W.takes_memory result }
    {
        self.serialize_u64(v as u64)
    }

    /// Appends a head of major type 0.
    #[tactic(auto, unfolding(ipld_tree::specs::Spelled::spelled))]
    pub fn serialize_u64(&mut self, v: u64) -> WriteResult<(), W>
        ensures written { Writes (spelled (integer (pos v)))
            (W.written self.old) (W.written self.new) result }
        ensures memory { WantsMemoryOnlyIf W.takes_memory result }
    {
        push_head(&mut self.writer, 0, v)
    }

    /// Appends a head of major type 0. A number above 2^64 - 1 is refused with
    /// `Msg("Unsigned integer must be within [0, u64::MAX] range")`.
    #[tactic(auto, unfolding(ipld_tree::specs::Spelled::spelled))]
    pub fn serialize_u128(&mut self, v: u128) -> WriteResult<(), W>
        ensures written { Writes (spelled (integer (pos v)))
            (W.written self.old) (W.written self.new) result }
        ensures memory { WantsMemoryOnlyIf W.takes_memory result }
        ensures message { IfErr result (OnMessage
            (λ m. (m ≡ codes "Unsigned integer must be within [0, u64::MAX] range")
            × (self.new ≡ self.old))) }
    {
        match u64::try_from(v) {
            Ok(argument) => push_head(&mut self.writer, 0, argument),
            Err(_) => Err(EncodeError::custom(UNSIGNED_RANGE)),
        }
    }

    /// Appends a text of one character.
    pub fn serialize_char(&mut self, v: char) -> WriteResult<(), W>
        ensures written { Writes (spelled (text (encode_utf8 v)))
            (W.written self.old) (W.written self.new) result }
        ensures memory { WantsMemoryOnlyIf W.takes_memory result }
        ensures well_formed { OnOk result (IsTree (text (encode_utf8 v))) }
    {
        let mut room = [0; 4];
        self.serialize_str(v.encode_utf8(&mut room))
    }

    /// Appends a head of major type 3, and the bytes of the text.
    #[tactic(auto, unfolding(ipld_tree::specs::Spelled::spelled))]
    pub fn serialize_str(&mut self, v: &str) -> WriteResult<(), W>
        ensures written { Writes (spelled (text v.now))
            (W.written self.old) (W.written self.new) result }
        ensures memory { WantsMemoryOnlyIf W.takes_memory result }
        ensures silent { IfErr result (OnMessage (λ _. ⊥)) }
    {
        if counted_at_once(&mut self.writer, 3, v.as_bytes()) {
            return Ok(());
        }
        push_counted(&mut self.writer, 3, v.as_bytes())
    }

    /// Appends a head of major type 2, and the bytes.
    #[tactic(auto, unfolding(ipld_tree::specs::Spelled::spelled))]
    pub fn serialize_bytes(&mut self, v: &[u8]) -> WriteResult<(), W>
        ensures written { Writes (spelled (bytes v.now))
            (W.written self.old) (W.written self.new) result }
        ensures memory { WantsMemoryOnlyIf W.takes_memory result }
        ensures silent { IfErr result (OnMessage (λ _. ⊥)) }
    {
        if counted_at_once(&mut self.writer, 2, v) {
            return Ok(());
        }
        push_counted(&mut self.writer, 2, v)
    }

    /// Appends null, the byte f6.
    #[tactic(auto, unfolding(ipld_tree::specs::Spelled::spelled))]
    pub fn serialize_none(&mut self) -> WriteResult<(), W>
        ensures written { Writes (spelled null) (W.written self.old) (W.written self.new) result }
        ensures memory { WantsMemoryOnlyIf W.takes_memory result }
        ensures silent { IfErr result (OnMessage (λ _. ⊥)) }
    {
        self.writer.push(&[0xf6])
    }

    /// Appends null, the byte f6.
    pub fn serialize_unit(&mut self) -> WriteResult<(), W>
        ensures written { Writes (spelled null) (W.written self.old) (W.written self.new) result }
        ensures memory { WantsMemoryOnlyIf W.takes_memory result }
        ensures silent { IfErr result (OnMessage (λ _. ⊥)) }
    {
        self.serialize_none()
    }

    /// Appends null, the byte f6. The name is ignored.
    pub fn serialize_unit_struct(&mut self, _name: &'static str) -> WriteResult<(), W>
        ensures written { Writes (spelled null) (W.written self.old) (W.written self.new) result }
        ensures memory { WantsMemoryOnlyIf W.takes_memory result }
    {
        self.serialize_unit()
    }

    /// Appends d8 2a, a head of major type 2, a zero byte and the binary form. Each CID has a
    /// spelling, so `Msg` is never returned.
    pub fn serialize_cid(&mut self, cid: &Cid) -> WriteResult<(), W>
        ensures written { Writes (spelled (link (cid_bytes cid.now)))
            (W.written self.old) (W.written self.new) result }
        ensures memory { WantsMemoryOnlyIf W.takes_memory result }
        ensures well_formed { OnOk result (IsTree (link (cid_bytes cid.now))) }
        ensures spellable { IsSpellable (link (cid_bytes cid.now)) }
        ensures silent { IfErr result (OnMessage (λ _. ⊥)) }
    {
        let mut bytes = ArrayVec::new();
        cid.write_bytes(&mut bytes);
        if link_at_once(&mut self.writer, &bytes) {
            return Ok(());
        }
        push_link(&mut self.writer, &bytes)
    }

    /// Appends the head of a list or a map.
    pub(crate) fn push_head(&mut self, major: u8, count: usize) -> WriteResult<(), W>
        requires { major ≤ 7 }
        ensures written { Writes (spelled_head major count)
            (W.written self.old) (W.written self.new) result }
        ensures memory { WantsMemoryOnlyIf W.takes_memory result }
        ensures silent { IfErr result (OnMessage (λ _. ⊥)) }
    {
        push_head(&mut self.writer, major, count as u64)
    }

    /// Appends bytes that are already spelled.
    pub(crate) fn push(&mut self, bytes: &[u8]) -> WriteResult<(), W>
        ensures written { Writes (Some bytes.now) (W.written self.old) (W.written self.new) result }
        ensures memory { WantsMemoryOnlyIf W.takes_memory result }
        ensures silent { IfErr result (OnMessage (λ _. ⊥)) }
    {
        if self.writer.push_at_once(bytes, &[]) {
            return Ok(());
        }
        self.writer.push(bytes)
    }

    /// Appends the spelling of the value alone.
    pub fn serialize_some<T: Serialize>(&mut self, alloc: Global, value: &T) -> WriteResult<(), W>
        ensures written { Writes (spelled_tree (T.tree value.now))
            (W.written self.old) (W.written self.new) result }
        ensures well_formed { OnOk result (IfSome (T.tree value.now) IsTree) }
        ensures memory { WantsMemoryOnlyIf (T.takes_memory || W.takes_memory) result }
        ensures told { IfErr result (OnMessage (T.message value.now)) }
        ensures unsent { IsTrue (T.unsent value.now)
            → IfErr result (OnMessage (λ _. W.written self.new ≡ W.written self.old)) }
    {
        value.serialize(alloc, self)
    }

    /// Appends the spelling of the value alone.
    pub fn serialize_newtype_struct<T: Serialize>(
        &mut self,
        alloc: Global,
        _name: &'static str,
        value: &T,
    ) -> WriteResult<(), W>
        ensures written { Writes (spelled_tree (T.tree value.now))
            (W.written self.old) (W.written self.new) result }
        ensures well_formed { OnOk result (IfSome (T.tree value.now) IsTree) }
        ensures memory { WantsMemoryOnlyIf (T.takes_memory || W.takes_memory) result }
        ensures told { IfErr result (OnMessage (T.message value.now)) }
        ensures unsent { IsTrue (T.unsent value.now)
            → IfErr result (OnMessage (λ _. W.written self.new ≡ W.written self.old)) }
    {
        self.serialize_some(alloc, value)
    }

    /// Appends the variant's name, as a text.
    pub fn serialize_unit_variant(
        &mut self,
        _name: &'static str,
        _index: u32,
        variant: &'static str,
    ) -> WriteResult<(), W>
        ensures written { Writes (spelled (text variant.now))
            (W.written self.old) (W.written self.new) result }
        ensures memory { WantsMemoryOnlyIf W.takes_memory result }
        ensures well_formed { OnOk result (IsTree (text variant.now)) }
    {
        self.serialize_str(variant)
    }

    /// Appends a map of one entry, from the variant's name to the value.
    pub fn serialize_newtype_variant<T: Serialize>(
        &mut self,
        alloc: Global,
        _name: &'static str,
        _index: u32,
        variant: &'static str,
        value: &T,
    ) -> WriteResult<(), W>
        ensures written { Writes (spelled_tree (variant_tree variant.now (T.tree value.now)))
            (W.written self.old) (W.written self.new) result }
        ensures well_formed { OnOk result
            (IfSome (variant_tree variant.now (T.tree value.now)) IsTree) }
        ensures memory { WantsMemoryOnlyIf (T.takes_memory || W.takes_memory) result }
        ensures told { IfErr result (OnMessage (T.message value.now)) }
    {
        self.push_variant(variant)?;
        Serialize::serialize(value, alloc, self)
    }

    /// Appends the head of a map of one entry, and its key.
    pub(crate) fn push_variant(&mut self, name: &str) -> WriteResult<(), W>
        ensures written { Writes (variant_head name.now)
            (W.written self.old) (W.written self.new) result }
        ensures memory { WantsMemoryOnlyIf W.takes_memory result }
        ensures well_formed { OnOk result (IsTree (text name.now)) }
        ensures silent { IfErr result (OnMessage (λ _. ⊥)) }
    {
        self.push_head(5, 1)?;
        self.serialize_str(name)
    }

    /// Appends the head of a map of one entry, its key, and the head of what the variant holds.
    pub(crate) fn push_variant_of(
        &mut self,
        variant: &'static str,
        major: u8,
        len: usize,
    ) -> WriteResult<(), W>
        requires { major ≤ 7 }
        ensures written { Writes (variant_head variant.now ++? spelled_head major len)
            (W.written self.old) (W.written self.new) result }
        ensures memory { WantsMemoryOnlyIf W.takes_memory result }
        ensures well_formed { OnOk result (IsTree (text variant.now)) }
        ensures silent { IfErr result (OnMessage (λ _. ⊥)) }
    {
        self.push_variant(variant)?;
        self.push_head(major, len)
    }
}

/// Each appends a leaf, if the writer has room for it. Else it appends nothing, and returns false.
impl<W: Write> Serializer<W> {
    #[tactic(auto, unfolding(ipld_tree::specs::Spelled::spelled))]
    pub(crate) fn null_at_once(&mut self) -> bool
        ensures { WritesAtOnce (spelled null) (W.written self.old) (W.written self.new) result }
    {
        self.writer.push_at_once(&[0xf6], &[])
    }

    #[tactic(auto, unfolding(ipld_tree::specs::Spelled::spelled))]
    pub(crate) fn bool_at_once(&mut self, v: bool) -> bool
        ensures { WritesAtOnce (spelled (boolean v))
            (W.written self.old) (W.written self.new) result }
    {
        self.writer
            .push_at_once(&[if v { 0xf5 } else { 0xf4 }], &[])
    }

    #[tactic(auto, unfolding(ipld_tree::specs::Spelled::spelled))]
    pub(crate) fn integer_at_once(&mut self, v: i128) -> bool
        ensures { WritesAtOnce (spelled (integer v))
            (W.written self.old) (W.written self.new) result }
    {
        let (major, magnitude) = if v < 0 { (1, -1 - v) } else { (0, v) };
        match u64::try_from(magnitude) {
            Ok(argument) => push_head_at_once(&mut self.writer, major, argument),
            Err(_) => false,
        }
    }

    #[tactic(auto, unfolding(ipld_tree::specs::Spelled::spelled))]
    pub(crate) fn str_at_once(&mut self, v: &str) -> bool
        ensures { WritesAtOnce (spelled (text v.now))
            (W.written self.old) (W.written self.new) result }
    {
        counted_at_once(&mut self.writer, 3, v.as_bytes())
    }

    #[tactic(auto, unfolding(ipld_tree::specs::Spelled::spelled))]
    pub(crate) fn bytes_at_once(&mut self, v: &[u8]) -> bool
        ensures { WritesAtOnce (spelled (bytes v.now))
            (W.written self.old) (W.written self.new) result }
    {
        counted_at_once(&mut self.writer, 2, v)
    }

    pub(crate) fn cid_at_once(&mut self, cid: &Cid) -> bool
        ensures written { WritesAtOnce (spelled (link (cid_bytes cid.now)))
            (W.written self.old) (W.written self.new) result }
        ensures well_formed { IsTree (link (cid_bytes cid.now)) }
    {
        let mut bytes = ArrayVec::new();
        cid.write_bytes(&mut bytes);
        link_at_once(&mut self.writer, &bytes)
    }
}

/// Appends a head of the number of bytes, and the bytes, if they are few and the writer has room
/// for all. Else appends nothing, and returns false.
fn counted_at_once<W: Write>(writer: &mut W, major: u8, payload: &[u8]) -> bool
    requires { major ≤ 7 }
    ensures written { WritesAtOnce (spelled_bytes major payload.now)
        (W.written writer.old) (W.written writer.new) result }
{
    push_headed_at_once(writer, major, payload.len() as u64, payload)
}

/// Appends a head of the number of bytes, and the bytes.
#[inline(never)]
fn push_counted<W: Write>(writer: &mut W, major: u8, payload: &[u8]) -> WriteResult<(), W>
    requires { major ≤ 7 }
    ensures written { Writes (spelled_bytes major payload.now)
        (W.written writer.old) (W.written writer.new) result }
    ensures memory { WantsMemoryOnlyIf W.takes_memory result }
    ensures silent { IfErr result (OnMessage (λ _. ⊥)) }
{
    push_head(writer, major, payload.len() as u64)?;
    writer.push(payload)
}

/// Appends the link to a CID of this binary form, if that has 23 bytes or more and the writer has
/// room for it. Else appends nothing, and returns false.
fn link_at_once<W: Write>(writer: &mut W, cid: &ArrayVec<u8, 86>) -> bool
    ensures written { WritesAtOnce (spelled (link cid.now.items))
        (W.written writer.old) (W.written writer.new) result }
    ensures spellable { IsSpellable (link cid.now.items) }
{
    let count = cid.len() as u8 + 1;
    count >= 24 && writer.push_at_once(&[0xd8, 0x2a, 0x58, count, 0x00], cid.as_slice())
}

/// Appends the link to a CID of this binary form.
#[inline(never)]
fn push_link<W: Write>(writer: &mut W, cid: &ArrayVec<u8, 86>) -> WriteResult<(), W>
    ensures written { Writes (spelled (link cid.now.items))
        (W.written writer.old) (W.written writer.new) result }
    ensures memory { WantsMemoryOnlyIf W.takes_memory result }
    ensures spellable { IsSpellable (link cid.now.items) }
    ensures silent { IfErr result (OnMessage (λ _. ⊥)) }
{
    let count = cid.len() as u64 + 1;
    writer.push(&[0xd8, 0x2a])?;
    push_head(writer, 2, count)?;
    writer.push(&[0x00])?;
    writer.push(cid.as_slice())
}
