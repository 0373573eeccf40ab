//! Values that are one item.

ghost use Rattle.std.specs.Prelude.{◌≡◌, Some, pos, string_bytes, true, false, codes};
ghost use Rattle.std.specs.Char.{encode_utf8};
ghost use Rattle.ipld_tree.specs.Cid.{cid_bytes};
ghost use Rattle.ipld_tree.specs.Tree.{null, boolean, integer, text, bytes, link};

use crate::serialize::Serialize;
use crate::serializer::Serializer;
use dagcbor_heads::{Write, WriteResult};
use ipld_tree::{ByteSlice, Bytes, Cid};
use std::alloc::Global;

impl Serialize for () {
    ghost tree = { λ v. Some null };

    ghost takes_memory = { false };

    fn serialize<W: Write>(&self, _alloc: Global, ser: &mut Serializer<W>) -> WriteResult<(), W> {
        ser.serialize_unit()
    }
}

impl Serialize for bool {
    ghost tree = { λ v. Some (boolean v) };

    ghost takes_memory = { false };

    fn serialize<W: Write>(&self, _alloc: Global, ser: &mut Serializer<W>) -> WriteResult<(), W> {
        ser.serialize_bool(*self)
    }
}

impl Serialize for i8 {
    ghost tree = { λ v. Some (integer v) };

    ghost takes_memory = { false };

    fn serialize<W: Write>(&self, _alloc: Global, ser: &mut Serializer<W>) -> WriteResult<(), W> {
        ser.serialize_i8(*self)
    }
}

impl Serialize for i16 {
    ghost tree = { λ v. Some (integer v) };

    ghost takes_memory = { false };

    fn serialize<W: Write>(&self, _alloc: Global, ser: &mut Serializer<W>) -> WriteResult<(), W> {
        ser.serialize_i16(*self)
    }
}

impl Serialize for i32 {
    ghost tree = { λ v. Some (integer v) };

    ghost takes_memory = { false };

    fn serialize<W: Write>(&self, _alloc: Global, ser: &mut Serializer<W>) -> WriteResult<(), W> {
        ser.serialize_i32(*self)
    }
}

impl Serialize for i64 {
    ghost tree = { λ v. Some (integer v) };

    ghost takes_memory = { false };

    fn serialize<W: Write>(&self, _alloc: Global, ser: &mut Serializer<W>) -> WriteResult<(), W> {
        ser.serialize_i64(*self)
    }
}

impl Serialize for i128 {
    ghost tree = { λ v. Some (integer v) };

    ghost takes_memory = { false };

    ghost message = { λ v m. m ≡ codes "Integer must be within [-u64::MAX-1, u64::MAX] range" };

    ghost unsent = { λ v. true };

    fn serialize<W: Write>(&self, _alloc: Global, ser: &mut Serializer<W>) -> WriteResult<(), W> {
        ser.serialize_i128(*self)
    }
}

impl Serialize for isize {
    ghost tree = { λ v. Some (integer v) };

    ghost takes_memory = { false };

    fn serialize<W: Write>(&self, _alloc: Global, ser: &mut Serializer<W>) -> WriteResult<(), W> {
        ser.serialize_i64(*self as i64)
    }
}

impl Serialize for u8 {
    ghost tree = { λ v. Some (integer (pos v)) };

    ghost takes_memory = { false };

    fn serialize<W: Write>(&self, _alloc: Global, ser: &mut Serializer<W>) -> WriteResult<(), W> {
        ser.serialize_u8(*self)
    }
}

impl Serialize for u16 {
    ghost tree = { λ v. Some (integer (pos v)) };

    ghost takes_memory = { false };

    fn serialize<W: Write>(&self, _alloc: Global, ser: &mut Serializer<W>) -> WriteResult<(), W> {
        ser.serialize_u16(*self)
    }
}

impl Serialize for u32 {
    ghost tree = { λ v. Some (integer (pos v)) };

    ghost takes_memory = { false };

    fn serialize<W: Write>(&self, _alloc: Global, ser: &mut Serializer<W>) -> WriteResult<(), W> {
        ser.serialize_u32(*self)
    }
}

impl Serialize for u64 {
    ghost tree = { λ v. Some (integer (pos v)) };

    ghost takes_memory = { false };

    fn serialize<W: Write>(&self, _alloc: Global, ser: &mut Serializer<W>) -> WriteResult<(), W> {
        ser.serialize_u64(*self)
    }
}

impl Serialize for u128 {
    ghost tree = { λ v. Some (integer (pos v)) };

    ghost takes_memory = { false };

    ghost message = { λ v m. m ≡ codes "Unsigned integer must be within [0, u64::MAX] range" };

    ghost unsent = { λ v. true };

    fn serialize<W: Write>(&self, _alloc: Global, ser: &mut Serializer<W>) -> WriteResult<(), W> {
        ser.serialize_u128(*self)
    }
}

impl Serialize for usize {
    ghost tree = { λ v. Some (integer (pos v)) };

    ghost takes_memory = { false };

    fn serialize<W: Write>(&self, _alloc: Global, ser: &mut Serializer<W>) -> WriteResult<(), W> {
        ser.serialize_u64(*self as u64)
    }
}

impl Serialize for char {
    ghost tree = { λ v. Some (text (encode_utf8 v)) };

    ghost takes_memory = { false };

    fn serialize<W: Write>(&self, _alloc: Global, ser: &mut Serializer<W>) -> WriteResult<(), W> {
        ser.serialize_char(*self)
    }
}

impl Serialize for &str {
    ghost tree = { λ v. Some (text v.now) };

    ghost takes_memory = { false };

    fn serialize<W: Write>(&self, _alloc: Global, ser: &mut Serializer<W>) -> WriteResult<(), W> {
        ser.serialize_str(*self)
    }
}

impl Serialize for String {
    ghost tree = { λ v. Some (text (string_bytes v)) };

    ghost takes_memory = { false };

    fn serialize<W: Write>(&self, _alloc: Global, ser: &mut Serializer<W>) -> WriteResult<(), W> {
        ser.serialize_str(self.as_str())
    }
}

impl Serialize for Bytes {
    ghost tree = { λ v. Some (bytes v.0.items) };

    ghost takes_memory = { false };

    fn serialize<W: Write>(&self, _alloc: Global, ser: &mut Serializer<W>) -> WriteResult<(), W> {
        ser.serialize_bytes(self.0.as_slice())
    }
}

impl Serialize for ByteSlice<'_> {
    ghost tree = { λ v. Some (bytes v.0.now) };

    ghost takes_memory = { false };

    fn serialize<W: Write>(&self, _alloc: Global, ser: &mut Serializer<W>) -> WriteResult<(), W> {
        ser.serialize_bytes(self.0)
    }
}

impl Serialize for Cid {
    ghost tree = { λ c. Some (link (cid_bytes c)) };

    ghost takes_memory = { false };

    fn serialize<W: Write>(&self, _alloc: Global, ser: &mut Serializer<W>) -> WriteResult<(), W> {
        ser.serialize_cid(self)
    }
}
