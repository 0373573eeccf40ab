//! A block as a `Format` of serde: its heads, one by one. The block was validated before, so only
//! what is read is looked at again.

ghost use Rattle.std.specs.Prelude.{◌≤◌, length};

use crate::error::Misfit;
use crate::link::LINK;
use dagcbor_core::{Name as Kept, split_head};
use dagcbor_items::after_item;
use serde::{Case, Format, Kind, Name, find};
use smallvec::SmallVec;
use std::alloc::Global;
use std::str::from_utf8;

/// How far the reading of a link has come.
#[derive(Clone, Copy, Drop, PartialEq, Eq)]
pub(crate) enum LinkStage {
    /// No link is being read.
    Nowhere,
    /// Its map was begun.
    Begun,
    /// Its bytes come next.
    Named,
    /// Its bytes were read.
    Read,
}

/// A place in a block.
#[derive(Drop)]
pub(crate) struct Block<'r> {
    /// What is not read yet.
    rest: &'r [u8],
    /// How many items or entries of the innermost list or map are not read yet.
    left: u64,
    /// The same for the lists and maps around it, the outermost first.
    around: SmallVec<u64, 8>,
    link: LinkStage,
}

#[derive(Clone, Copy, Drop)]
pub(crate) struct Mark<'r> {
    rest: &'r [u8],
    left: u64,
    depth: usize,
    link: LinkStage,
}

/// Returns the argument of the head at the front and the bytes after it, if the head has this major
/// type.
#[inline(always)]
fn split_argument(rest: &[u8], major: u8) -> Option<(u64, &[u8])> {
    match split_head(rest) {
        Some((found, argument, following)) if found == major => Some((argument, following)),
        _ => None,
    }
}

/// Returns the bytes after this name, if it is the key at the front. It does not handle a name in
/// another case, or one with aliases.
#[inline(always)]
fn after_name<'a>(rest: &'a [u8], name: &str) -> Option<&'a [u8]> {
    let (first, following) = rest.split_first()?;
    if name.len() > 23 || usize::from(*first) != 0x60 + name.len() || following.len() < name.len() {
        return None;
    }
    let (key, following) = following.split_at(name.len());
    for (at, byte) in name.as_bytes().iter().enumerate() {
        if key[at] != *byte {
            return None;
        }
    }
    Some(following)
}

/// Returns why an item is not of the expected kind. It builds the result in place, because room for
/// a result that is passed to a call is cleared first.
#[inline(always)]
fn mismatch(rest: &[u8]) -> Misfit {
    match rest.first() {
        Some(first) => Misfit::Mismatch(*first),
        None => Misfit::Unread,
    }
}

/// Takes out the value, or returns the reason why nothing was taken.
macro_rules! taken {
    ($block:ident, $taken:expr) => {
        match $taken {
            Some(taken) => taken,
            None => return Err(mismatch($block.rest)),
        }
    };
}

/// Returns whether this is the name of a link. Only the map of a link is read with this name.
#[inline(always)]
fn is_link_name(names: &[Name<'_>]) -> bool {
    match names {
        [name] => name.case == LINK.case && matches!(name.name.as_bytes(), b"/"),
        _ => false,
    }
}

impl<'r> Block<'r> {
    pub(crate) fn new(alloc: Global, bytes: &'r [u8]) -> Block<'r> {
        Block {
            rest: bytes,
            left: 0,
            around: SmallVec::new(alloc),
            link: LinkStage::Nowhere,
        }
    }

    /// Checks that all was read.
    pub(crate) fn end(&self) -> Result<(), Misfit> {
        if self.rest.is_empty() {
            Ok(())
        } else {
            Err(Misfit::Unread)
        }
    }

    /// Returns the offset in the bytes at which the unread part begins.
    pub(crate) fn place_in(&self, bytes: &[u8]) -> usize
        ensures { result ≤ length bytes.now }
    {
        bytes.len().saturating_sub(self.rest.len())
    }

    /// Takes the head at the front and returns its argument, if it has this major type.
    #[inline(always)]
    fn take_argument(&mut self, major: u8) -> Option<u64> {
        match split_argument(self.rest, major) {
            Some((argument, following)) if self.is_outside() => {
                self.rest = following;
                Some(argument)
            }
            _ => None,
        }
    }

    /// Returns whether the next read is outside a link.
    #[inline(always)]
    fn is_outside(&self) -> bool {
        matches!(self.link, LinkStage::Nowhere)
    }

    /// Takes the string at the front and returns its bytes, if it has this major type.
    #[inline(always)]
    fn take_payload(&mut self, major: u8) -> Option<&'r [u8]> {
        let n = self.take_argument(major)?;
        let rest = self.rest;
        if n > rest.len() as u64 {
            return None;
        }
        let (payload, following) = rest.split_at(n as usize);
        self.rest = following;
        Some(payload)
    }

    #[inline(always)]
    fn take_text(&mut self) -> Option<&'r str> {
        from_utf8(self.take_payload(3)?).ok()
    }

    #[inline(always)]
    fn take_bytes(&mut self) -> Option<&'r [u8]> {
        match self.link {
            LinkStage::Named => self.take_cid(),
            _ => self.take_string(),
        }
    }

    #[inline(never)]
    fn take_string(&mut self) -> Option<&'r [u8]> {
        self.take_payload(2)
    }

    /// Takes the binary form of a CID, after the tag and the zero byte.
    #[inline(always)]
    fn take_cid(&mut self) -> Option<&'r [u8]> {
        let [0xd8, 0x2a, 0x58, count, 0x00, following @ ..] = self.rest else {
            return self.take_any_cid();
        };
        let count = usize::from(*count).saturating_sub(1);
        if count > following.len() {
            return None;
        }
        let (cid, rest) = following.split_at(count);
        self.rest = rest;
        self.link = LinkStage::Read;
        Some(cid)
    }

    /// Takes the binary form of a CID, with heads of any length.
    #[inline(never)]
    fn take_any_cid(&mut self) -> Option<&'r [u8]> {
        let (_, _, payload) = split_head(self.rest)?;
        self.rest = payload;
        self.link = LinkStage::Nowhere;
        let (_, cid) = self.take_payload(2)?.split_first()?;
        self.link = LinkStage::Read;
        Some(cid)
    }

    /// Returns the major type and the argument of the integer at the front, and the bytes after it.
    #[inline(always)]
    fn number(&self) -> Option<(u8, u64, &'r [u8])> {
        match split_head(self.rest) {
            Some((major, argument, following)) if major < 2 && self.is_outside() => {
                Some((major, argument, following))
            }
            _ => None,
        }
    }

    /// Returns the integer at the front, and the bytes after it.
    fn integer(&self) -> Option<(i128, &'r [u8])> {
        let (major, argument, following) = self.number()?;
        let v = argument as i128;
        Some((if major == 0 { v } else { -1 - v }, following))
    }

    /// Enters a list or map of `count` items or entries.
    #[inline(always)]
    fn enter(&mut self, count: u64) -> Result<(), Misfit> {
        match self.around.push(self.left) {
            Ok(()) => {
                self.left = count;
                Ok(())
            }
            Err(_) => Err(Misfit::OutOfMemory),
        }
    }

    /// Returns whether an item or entry comes next. At the end it leaves the list or map.
    #[inline(always)]
    fn comes(&mut self) -> bool {
        if self.left > 0 {
            self.left -= 1;
            return true;
        }
        self.left = self.around.pop().unwrap_or(0);
        false
    }

    /// Takes the key and returns its index among the names.
    #[inline(always)]
    fn take_key(&mut self, names: &[Name<'_>]) -> Option<usize> {
        for (at, name) in names.iter().enumerate() {
            if !matches!(name.case, Case::AsIs) || !name.aliases.is_empty() || name.skipped {
                break;
            }
            if let Some(following) = after_name(self.rest, name.name) {
                self.rest = following;
                return Some(at);
            }
        }
        self.take_name(names)
    }

    /// Takes the text at the front and returns its index among the names.
    #[inline(never)]
    fn take_name(&mut self, names: &[Name<'_>]) -> Option<usize> {
        Some(find(names, self.take_text()?))
    }

    #[inline(never)]
    fn begin_entries(&mut self) -> Result<(), Misfit> {
        let count = taken!(self, self.take_argument(5));
        self.enter(count)
    }

    /// Ends a link, for a reader that expects no name.
    #[inline(never)]
    fn end_link(&mut self) -> Option<Option<usize>> {
        self.next_link_key(&[])
    }

    /// Reads the name of a link, or its end.
    #[inline(always)]
    fn next_link_key(&mut self, names: &[Name<'_>]) -> Option<Option<usize>> {
        match self.link {
            LinkStage::Begun if is_link_name(names) => {
                self.link = LinkStage::Named;
                Some(Some(0))
            }
            LinkStage::Read => {
                self.link = LinkStage::Nowhere;
                Some(None)
            }
            _ => None,
        }
    }
}

impl<'r> Format for Block<'r> {
    type Error = Misfit;

    type Mark = Mark<'r>;

    #[inline(always)]
    fn bool(&mut self, _input: &[u8]) -> Result<bool, Misfit> {
        match self.rest {
            [0xf4, following @ ..] if self.is_outside() => {
                self.rest = following;
                Ok(false)
            }
            [0xf5, following @ ..] if self.is_outside() => {
                self.rest = following;
                Ok(true)
            }
            _ => Err(mismatch(self.rest)),
        }
    }

    #[inline(always)]
    fn i64(&mut self, _input: &[u8]) -> Result<i64, Misfit> {
        let (major, argument, following) = taken!(self, self.number());
        let Ok(v) = i64::try_from(argument) else {
            return Err(Misfit::OutOfRange);
        };
        self.rest = following;
        Ok(if major == 0 { v } else { -1 - v })
    }

    #[inline(always)]
    fn u64(&mut self, _input: &[u8]) -> Result<u64, Misfit> {
        let (major, argument, following) = taken!(self, self.number());
        if major != 0 {
            return Err(Misfit::OutOfRange);
        }
        self.rest = following;
        Ok(argument)
    }

    fn i128(&mut self, _input: &[u8]) -> Result<i128, Misfit> {
        let (v, following) = taken!(self, self.integer());
        self.rest = following;
        Ok(v)
    }

    fn u128(&mut self, _input: &[u8]) -> Result<u128, Misfit> {
        let (found, following) = taken!(self, self.integer());
        let Ok(v) = u128::try_from(found) else {
            return Err(Misfit::OutOfRange);
        };
        self.rest = following;
        Ok(v)
    }

    fn f32(&mut self, _input: &[u8]) -> Result<f32, Misfit> {
        Err(Misfit::Float)
    }

    fn f64(&mut self, _input: &[u8]) -> Result<f64, Misfit> {
        Err(Misfit::Float)
    }

    fn char(&mut self, _input: &[u8]) -> Result<char, Misfit> {
        let text = taken!(self, self.take_text());
        text.parse::<char>().map_err(|_| Misfit::Invalid)
    }

    fn plain_str(&mut self, input: &[u8]) -> Result<(usize, usize), Misfit> {
        let text = taken!(self, self.take_text());
        let end = input.len().saturating_sub(self.rest.len());
        Ok((end.saturating_sub(text.len()), end))
    }

    fn plain_bytes(&mut self, input: &[u8]) -> Result<(usize, usize), Misfit> {
        let bytes = taken!(self, self.take_bytes());
        let end = input.len().saturating_sub(self.rest.len());
        Ok((end.saturating_sub(bytes.len()), end))
    }

    #[inline(always)]
    fn string(&mut self, alloc: Global, _input: &[u8]) -> Result<String, Misfit> {
        let text = taken!(self, self.take_text());
        String::from_str(alloc, text).map_err(|_| Misfit::OutOfMemory)
    }

    fn byte_buf(&mut self, alloc: Global, _input: &[u8]) -> Result<Vec<u8>, Misfit> {
        let bytes = taken!(self, self.take_bytes());
        Vec::from_slice(alloc, bytes).map_err(|_| Misfit::OutOfMemory)
    }

    fn peek(&mut self, _input: &[u8]) -> Result<Kind, Misfit> {
        if let LinkStage::Named = self.link {
            return Ok(Kind::Bytes);
        }
        let Some(first) = self.rest.first() else {
            return Err(Misfit::Unread);
        };
        match *first {
            0x00..=0x1f => Ok(Kind::Unsigned),
            0x20..=0x3f => Ok(Kind::Signed),
            0x40..=0x5f => Ok(Kind::Bytes),
            0x60..=0x7f => Ok(Kind::Str),
            0x80..=0x9f => Ok(Kind::Seq),
            0xa0..=0xdf => Ok(Kind::Map),
            0xf4 | 0xf5 => Ok(Kind::Bool),
            _ => Ok(Kind::Unit),
        }
    }

    #[inline(always)]
    fn take_unit(&mut self, _input: &[u8]) -> Result<bool, Misfit> {
        match self.rest {
            [0xf6, following @ ..] if self.is_outside() => {
                self.rest = following;
                Ok(true)
            }
            _ => Ok(false),
        }
    }

    #[inline(always)]
    fn take_none(&mut self, input: &[u8]) -> Result<bool, Misfit> {
        self.take_unit(input)
    }

    #[inline(always)]
    fn begin_seq(&mut self, _input: &[u8]) -> Result<(), Misfit> {
        let count = taken!(self, self.take_argument(4));
        self.enter(count)
    }

    #[inline(always)]
    fn next_item(&mut self, _input: &[u8]) -> Result<bool, Misfit> {
        Ok(self.comes())
    }

    #[inline(always)]
    fn begin_map(&mut self, _input: &[u8]) -> Result<(), Misfit> {
        if let (Some(0xd8), LinkStage::Nowhere) = (self.rest.first(), self.link) {
            self.link = LinkStage::Begun;
            return Ok(());
        }
        self.begin_entries()
    }

    /// A struct cannot be read from a list of its fields.
    #[inline(always)]
    fn begin_struct(&mut self, _input: &[u8]) -> Result<bool, Misfit> {
        let count = taken!(self, self.take_argument(5));
        self.enter(count)?;
        Ok(false)
    }

    #[inline(always)]
    fn next_key(&mut self, _input: &[u8], names: &[Name<'_>]) -> Result<Option<usize>, Misfit> {
        if is_link_name(names) {
            return Ok(taken!(self, self.next_link_key(names)));
        }
        if !self.is_outside() {
            return Ok(taken!(self, self.end_link()));
        }
        if !self.comes() {
            return Ok(None);
        }
        Ok(Some(taken!(self, self.take_key(names))))
    }

    fn variant(&mut self, _input: &[u8], names: &[Name<'_>]) -> Result<usize, Misfit> {
        Ok(taken!(self, self.take_name(names)))
    }

    fn next_entry(&mut self, _input: &[u8]) -> Result<bool, Misfit> {
        if !self.is_outside() {
            return Err(mismatch(self.rest));
        }
        Ok(self.comes())
    }

    fn skip(&mut self, _input: &[u8]) -> Result<(), Misfit> {
        if !self.is_outside() {
            return Err(mismatch(self.rest));
        }
        match after_item(self.rest) {
            Some(following) => {
                self.rest = following;
                Ok(())
            }
            None => Err(Misfit::Unread),
        }
    }

    fn mark(&mut self) -> Mark<'r> {
        Mark {
            rest: self.rest,
            left: self.left,
            depth: self.around.len(),
            link: self.link,
        }
    }

    fn rewind(&mut self, mark: Mark<'r>) {
        self.rest = mark.rest;
        self.left = mark.left;
        self.link = mark.link;
        self.around.truncate(mark.depth);
    }

    fn release(&mut self, _mark: Mark<'r>) {}

    fn is_fatal(&self, error: &Misfit) -> bool {
        matches!(error, Misfit::OutOfMemory)
    }

    fn missing(&self, name: &str) -> Misfit {
        Misfit::MissingField(Kept::new(name))
    }

    fn duplicate(&self, name: &str) -> Misfit {
        Misfit::DuplicateField(Kept::new(name))
    }

    fn unknown_key(&self) -> Misfit {
        Misfit::UnknownField
    }

    fn unknown_variant(&self) -> Misfit {
        Misfit::UnknownVariant
    }

    fn wrong_len(&self) -> Misfit {
        Misfit::WrongLength
    }

    fn invalid(&self) -> Misfit {
        Misfit::Invalid
    }

    fn no_memory(&self) -> Misfit {
        Misfit::OutOfMemory
    }

    fn custom(&self, message: &str) -> Misfit {
        Misfit::Custom(Kept::new(message))
    }
}
