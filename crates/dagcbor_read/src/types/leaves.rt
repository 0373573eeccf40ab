//! Leaves. The input lends texts and bytes to types that have no memory of their own.

ghost use Rattle.std.specs.Prelude.{◌≡◌, ◌↔◌, refl, ◌^◌, ℕ, ℤ, List, Bool, true, string_bytes};
ghost use Rattle.std.specs.Prelude.{codes};
ghost use Rattle.dagcbor_heads.specs.Looking.{Looks};
ghost use Rattle.dagcbor_items.specs.AnsweredVariants.{OfByte, OfNumber, OfHead, OfChar, OfText, OfLink};
ghost use Rattle.dagcbor_items.specs.LeafReads.{ReadsNull, ReadsBool, ReadsUnsigned, ReadsSigned};
ghost use Rattle.dagcbor_items.specs.LeafReads.{ReadsU128, ReadsI128, ReadsChar, ReadsStr};
ghost use Rattle.dagcbor_items.specs.LeafReads.{ReadsOwnedText, ReadsByteSlice, ReadsOwnedBytes};
ghost use Rattle.dagcbor_items.specs.Links.{ReadsLink};
ghost use Rattle.dagcbor_read.specs.Parts.{ReadsOnce, ReadsStringOnce, ReadsAs, ReadsLent};
ghost use Rattle.std.specs.Cow.{cow_str_bytes, IsBorrowedStr, cow_slice_items, IsBorrowedSlice};
ghost use Rattle.ipld_tree.specs.Cid.{cid_bytes};
ghost use Rattle.dagcbor_items.specs.Shapes.{view_null, view_bool, view_unsigned, view_signed};
ghost use Rattle.dagcbor_items.specs.Shapes.{view_char, view_text, view_bytes, view_link};
ghost use Rattle.dagcbor_items.specs.Shapes.{leaf, owned_leaf, cow_leaf, lent_leaf};

use crate::deserialize::{Deserialize, DeserializeOwned};
use crate::deserializer::Deserializer;
use crate::shown::Shown;
use dagcbor_core::{DecodeError, Name};
use dagcbor_heads::{Read, ReadResult};
use ipld_tree::{ByteSlice, Bytes, Cid};
use std::alloc::Global;
use std::borrow::{CowSlice, CowStr};

impl Shown for () {
    ghost View = { Unit {0} };

    ghost meaning = { λ u. u };

    ghost shape = { leaf view_null };
}

impl<'de> Deserialize<'de> for () {
    ghost answers = { ReadsOnce ReadsNull (Looks 2) OfByte };

    fn deserialize<R: Read>(_alloc: Global, de: &mut Deserializer<'de, R>) -> ReadResult<Self, R> {
        de.deserialize_unit()
    }
}

impl<'de> DeserializeOwned<'de> for () {
    ghost owned = { refl };
}

impl Shown for bool {
    ghost View = { Bool };

    ghost meaning = { λ b. b };

    ghost shape = { leaf view_bool };
}

impl<'de> Deserialize<'de> for bool {
    ghost answers = { ReadsOnce ReadsBool (Looks 2) OfByte };

    fn deserialize<R: Read>(_alloc: Global, de: &mut Deserializer<'de, R>) -> ReadResult<Self, R> {
        de.deserialize_bool()
    }
}

impl<'de> DeserializeOwned<'de> for bool {
    ghost owned = { refl };
}

impl Shown for u8 {
    ghost View = { ℕ };

    ghost meaning = { λ n. n };

    ghost shape = { leaf (view_unsigned (2 ^ 8)) };
}

impl<'de> Deserialize<'de> for u8 {
    ghost answers = { ReadsOnce (ReadsUnsigned (codes "u8") (2 ^ 8)) (Looks 3) OfNumber };

    #[inline(always)]
    fn deserialize<R: Read>(_alloc: Global, de: &mut Deserializer<'de, R>) -> ReadResult<Self, R> {
        de.deserialize_u8()
    }
}

impl<'de> DeserializeOwned<'de> for u8 {
    ghost owned = { refl };
}

impl Shown for u16 {
    ghost View = { ℕ };

    ghost meaning = { λ n. n };

    ghost shape = { leaf (view_unsigned (2 ^ 16)) };
}

impl<'de> Deserialize<'de> for u16 {
    ghost answers = { ReadsOnce (ReadsUnsigned (codes "u16") (2 ^ 16)) (Looks 3) OfNumber };

    #[inline(always)]
    fn deserialize<R: Read>(_alloc: Global, de: &mut Deserializer<'de, R>) -> ReadResult<Self, R> {
        de.deserialize_u16()
    }
}

impl<'de> DeserializeOwned<'de> for u16 {
    ghost owned = { refl };
}

impl Shown for u32 {
    ghost View = { ℕ };

    ghost meaning = { λ n. n };

    ghost shape = { leaf (view_unsigned (2 ^ 32)) };
}

impl<'de> Deserialize<'de> for u32 {
    ghost answers = { ReadsOnce (ReadsUnsigned (codes "u32") (2 ^ 32)) (Looks 3) OfNumber };

    #[inline(always)]
    fn deserialize<R: Read>(_alloc: Global, de: &mut Deserializer<'de, R>) -> ReadResult<Self, R> {
        de.deserialize_u32()
    }
}

impl<'de> DeserializeOwned<'de> for u32 {
    ghost owned = { refl };
}

impl Shown for u64 {
    ghost View = { ℕ };

    ghost meaning = { λ n. n };

    ghost shape = { leaf (view_unsigned (2 ^ 64)) };
}

impl<'de> Deserialize<'de> for u64 {
    ghost answers = { ReadsOnce (ReadsUnsigned (codes "u64") (2 ^ 64)) (Looks 3) OfNumber };

    #[inline(always)]
    fn deserialize<R: Read>(_alloc: Global, de: &mut Deserializer<'de, R>) -> ReadResult<Self, R> {
        de.deserialize_u64()
    }
}

impl<'de> DeserializeOwned<'de> for u64 {
    ghost owned = { refl };
}

impl Shown for usize {
    ghost View = { ℕ };

    ghost meaning = { λ n. n };

    ghost shape = { leaf (view_unsigned (2 ^ 64)) };
}

impl<'de> Deserialize<'de> for usize {
    ghost answers = { ReadsOnce (ReadsUnsigned (codes "u64") (2 ^ 64)) (Looks 3) OfNumber };

    fn deserialize<R: Read>(_alloc: Global, de: &mut Deserializer<'de, R>) -> ReadResult<Self, R> {
        Ok(de.deserialize_u64()? as usize)
    }
}

impl<'de> DeserializeOwned<'de> for usize {
    ghost owned = { refl };
}

impl Shown for i8 {
    ghost View = { ℤ };

    ghost meaning = { λ n. n };

    ghost shape = { leaf (view_signed (2 ^ 7)) };
}

impl<'de> Deserialize<'de> for i8 {
    ghost answers = { ReadsOnce (ReadsSigned (codes "i8") (2 ^ 7)) (Looks 3) OfNumber };

    fn deserialize<R: Read>(_alloc: Global, de: &mut Deserializer<'de, R>) -> ReadResult<Self, R> {
        de.deserialize_i8()
    }
}

impl<'de> DeserializeOwned<'de> for i8 {
    ghost owned = { refl };
}

impl Shown for i16 {
    ghost View = { ℤ };

    ghost meaning = { λ n. n };

    ghost shape = { leaf (view_signed (2 ^ 15)) };
}

impl<'de> Deserialize<'de> for i16 {
    ghost answers = { ReadsOnce (ReadsSigned (codes "i16") (2 ^ 15)) (Looks 3) OfNumber };

    fn deserialize<R: Read>(_alloc: Global, de: &mut Deserializer<'de, R>) -> ReadResult<Self, R> {
        de.deserialize_i16()
    }
}

impl<'de> DeserializeOwned<'de> for i16 {
    ghost owned = { refl };
}

impl Shown for i32 {
    ghost View = { ℤ };

    ghost meaning = { λ n. n };

    ghost shape = { leaf (view_signed (2 ^ 31)) };
}

impl<'de> Deserialize<'de> for i32 {
    ghost answers = { ReadsOnce (ReadsSigned (codes "i32") (2 ^ 31)) (Looks 3) OfNumber };

    fn deserialize<R: Read>(_alloc: Global, de: &mut Deserializer<'de, R>) -> ReadResult<Self, R> {
        de.deserialize_i32()
    }
}

impl<'de> DeserializeOwned<'de> for i32 {
    ghost owned = { refl };
}

impl Shown for i64 {
    ghost View = { ℤ };

    ghost meaning = { λ n. n };

    ghost shape = { leaf (view_signed (2 ^ 63)) };
}

impl<'de> Deserialize<'de> for i64 {
    ghost answers = { ReadsOnce (ReadsSigned (codes "i64") (2 ^ 63)) (Looks 3) OfNumber };

    fn deserialize<R: Read>(_alloc: Global, de: &mut Deserializer<'de, R>) -> ReadResult<Self, R> {
        de.deserialize_i64()
    }
}

impl<'de> DeserializeOwned<'de> for i64 {
    ghost owned = { refl };
}

impl Shown for isize {
    ghost View = { ℤ };

    ghost meaning = { λ n. n };

    ghost shape = { leaf (view_signed (2 ^ 63)) };
}

impl<'de> Deserialize<'de> for isize {
    ghost answers = { ReadsOnce (ReadsSigned (codes "i64") (2 ^ 63)) (Looks 3) OfNumber };

    fn deserialize<R: Read>(_alloc: Global, de: &mut Deserializer<'de, R>) -> ReadResult<Self, R> {
        Ok(de.deserialize_i64()? as isize)
    }
}

impl<'de> DeserializeOwned<'de> for isize {
    ghost owned = { refl };
}

impl Shown for u128 {
    ghost View = { ℕ };

    ghost meaning = { λ n. n };

    ghost shape = { leaf (view_unsigned (2 ^ 128)) };
}

impl<'de> Deserialize<'de> for u128 {
    ghost answers = { ReadsOnce ReadsU128 (Looks 4) OfNumber };

    fn deserialize<R: Read>(_alloc: Global, de: &mut Deserializer<'de, R>) -> ReadResult<Self, R> {
        de.deserialize_u128()
    }
}

impl<'de> DeserializeOwned<'de> for u128 {
    ghost owned = { refl };
}

impl Shown for i128 {
    ghost View = { ℤ };

    ghost meaning = { λ n. n };

    ghost shape = { leaf (view_signed (2 ^ 127)) };
}

impl<'de> Deserialize<'de> for i128 {
    ghost answers = { ReadsOnce ReadsI128 (Looks 4) OfHead };

    fn deserialize<R: Read>(_alloc: Global, de: &mut Deserializer<'de, R>) -> ReadResult<Self, R> {
        de.deserialize_i128()
    }
}

impl<'de> DeserializeOwned<'de> for i128 {
    ghost owned = { refl };
}

impl Shown for char {
    ghost View = { ℕ };

    ghost meaning = { λ c. c };

    ghost shape = { cow_leaf view_char };
}

impl<'de> Deserialize<'de> for char {
    ghost answers = { ReadsStringOnce 3 ReadsChar (Looks 3) OfChar };

    fn deserialize<R: Read>(alloc: Global, de: &mut Deserializer<'de, R>) -> ReadResult<Self, R> {
        de.deserialize_char(alloc)
    }
}

impl<'de> DeserializeOwned<'de> for char {
    ghost owned = { refl };
}

impl Shown for &str {
    ghost View = { List ℕ };

    ghost meaning = { λ s. s.now };

    ghost shape = { lent_leaf view_text };
}

impl<'de> Deserialize<'de> for &'de str {
    ghost answers = { ReadsLent (λ s. s.now) cow_str_bytes IsBorrowedStr (codes "string") (ReadsStringOnce 3 (ReadsStr (codes "string")) (Looks 3) OfText) };

    fn deserialize<R: Read>(alloc: Global, de: &mut Deserializer<'de, R>) -> ReadResult<Self, R> {
        match de.deserialize_str(alloc)? {
            CowStr::Borrowed(text) => Ok(text),
            CowStr::Owned(_) => Err(DecodeError::RequireBorrowed {
                name: Name::new("string"),
            }),
        }
    }
}

/// A text that is lent if the input lends. For that reason it is not `DeserializeOwned`.
impl Shown for CowStr<'_> {
    ghost View = { List ℕ };

    ghost meaning = { cow_str_bytes };

    ghost shape = { cow_leaf view_text };
}

impl<'de> Deserialize<'de> for CowStr<'de> {
    ghost lies = { λ lends s. IsBorrowedStr s ↔ (lends ≡ true) };

    ghost answers = { ReadsStringOnce 3 (ReadsStr (codes "string")) (Looks 3) OfText };

    fn deserialize<R: Read>(alloc: Global, de: &mut Deserializer<'de, R>) -> ReadResult<Self, R> {
        de.deserialize_str(alloc)
    }
}

impl Shown for String {
    ghost View = { List ℕ };

    ghost meaning = { string_bytes };

    ghost shape = { owned_leaf view_text };
}

impl<'de> Deserialize<'de> for String {
    ghost answers = { ReadsStringOnce 3 ReadsOwnedText (Looks 3) OfText };

    fn deserialize<R: Read>(alloc: Global, de: &mut Deserializer<'de, R>) -> ReadResult<Self, R> {
        de.deserialize_string(alloc)
    }
}

impl<'de> DeserializeOwned<'de> for String {
    ghost owned = { refl };
}

impl Shown for Bytes {
    ghost View = { List ℕ };

    ghost meaning = { λ b. b.0.items };

    ghost shape = { owned_leaf view_bytes };
}

impl<'de> Deserialize<'de> for Bytes {
    ghost answers = { ReadsAs (λ b. b.0) (ReadsStringOnce 2 ReadsOwnedBytes (Looks 3) OfHead) };

    fn deserialize<R: Read>(alloc: Global, de: &mut Deserializer<'de, R>) -> ReadResult<Self, R> {
        Ok(Bytes(de.deserialize_byte_buf(alloc)?))
    }
}

impl<'de> DeserializeOwned<'de> for Bytes {
    ghost owned = { refl };
}

impl Shown for ByteSlice<'_> {
    ghost View = { List ℕ };

    ghost meaning = { λ s. s.0.now };

    ghost shape = { lent_leaf view_bytes };
}

impl<'de> Deserialize<'de> for ByteSlice<'de> {
    ghost answers = { ReadsLent (λ s. s.0.now) cow_slice_items IsBorrowedSlice (codes "bytes") (ReadsStringOnce 2 ReadsByteSlice (Looks 3) OfHead) };

    fn deserialize<R: Read>(alloc: Global, de: &mut Deserializer<'de, R>) -> ReadResult<Self, R> {
        match de.deserialize_bytes(alloc)? {
            CowSlice::Borrowed(bytes) => Ok(ByteSlice(bytes)),
            CowSlice::Owned(_) => Err(DecodeError::RequireBorrowed {
                name: Name::new("bytes"),
            }),
        }
    }
}

impl Shown for Cid {
    ghost View = { List ℕ };

    ghost meaning = { cid_bytes };

    ghost shape = { leaf view_link };
}

impl<'de> Deserialize<'de> for Cid {
    ghost answers = { ReadsOnce ReadsLink (Looks 3) OfLink };

    fn deserialize<R: Read>(_alloc: Global, de: &mut Deserializer<'de, R>) -> ReadResult<Self, R> {
        de.deserialize_cid()
    }
}

impl<'de> DeserializeOwned<'de> for Cid {
    ghost owned = { refl };
}
