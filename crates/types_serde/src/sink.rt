//! The bytes of a value, made event by event.

ghost use Rattle.std.specs.Prelude.{◌≡◌, ◌≤◌, ◌+◌, ◌^◌, ◌++◌, [], ◌∷◌, List, length, take, drop, OnOk, IfOk, IfErr};
ghost use Rattle.std.specs.Prelude.{encode_utf8, pos};
ghost use Rattle.serde.specs.Spelling.{spelled as spelled_name};
ghost use Rattle.serde.specs.declared.name.NameKind.TheVariants.{Variant};
ghost use Rattle.dagcbor_core.specs.Head.{head};
ghost use Rattle.ipld_tree.specs.Tree.{Tree, null, boolean, integer, text, IsTree};
ghost use Rattle.types_serde.specs.Building.{State, start, finished, is_link_name, put, put_field, put_key};
ghost use Rattle.types_serde.specs.Building.{put_unit, put_bytes, as_link, begin_key, end_key, flatten};
ghost use Rattle.types_serde.specs.Building.{begin, begin_map, in_list, close, ended_list, close_map};
ghost use Rattle.types_serde.specs.Holds.{IsGood, HoldsAll, StepsBy, MovesTop, PutsSpelling, Lands, put_name};
ghost use Rattle.types_serde.specs.Holds.{BeginsStage, PutsEach};
ghost use Rattle.types_serde.specs.Refusing.{LacksMemory, CidRefused, BytesRefused, ItemRefused, TextRefused, NumberRefused, OnlyAt};

use crate::entries::{are_in_order, push_entries, sort};
use crate::error::Refusal;
use crate::frame::{
    Frame, Stage, append, append_head, append_link, misplaced, replace_after, set_head,
};
use dagcbor_decode::is_cid;
use dagcbor_write::Span;
use serde::{Case, NameKind};
use smallvec::SmallVec;
use std::alloc::Global;
use std::mem;

/// The name of the one entry of a link. Its case is one that no derive sends with it: a renamed
/// field has `AsIs`, and any other name is an identifier.
pub(crate) const LINK_NAME: &str = "/";

pub(crate) const LINK_CASE: Case = Case::Kebab;

/// Returns whether this is the name of a link.
#[inline(always)]
pub(crate) fn is_link_name(name: &str, case: Case) -> bool
    ensures { result ≡ is_link_name name.now case }
{
    matches!(case, Case::Kebab) && matches!(name.as_bytes(), b"/")
}

/// The bytes of what was sent so far.
#[derive(Drop)]
pub(crate) struct Sink {
    alloc: Global,
    /// The bytes of all that is open, the whole value first.
    bytes: Vec<u8>,
    /// Where the entries of the open maps are.
    spans: SmallVec<Span, 8>,
    /// The innermost open value.
    top: Frame,
    /// The open values around it, the whole value first.
    below: SmallVec<Frame, 4>,
    /// Room for bytes that are moved.
    room: Vec<u8>,
    /// Room for a name in another case.
    name: String,
}

impl Sink {
    pub(crate) fn new(alloc: Global, out: Vec<u8>) -> Sink
        requires { out.items ≡ [] }
        ensures { HoldsAll start result }
    {
        Sink {
            alloc,
            bytes: out,
            spans: SmallVec::new(alloc),
            top: Frame::new(Stage::Vacant, 0, 0),
            below: SmallVec::new(alloc),
            room: Vec::new(alloc),
            name: String::new(alloc),
        }
    }

    pub(crate) fn alloc(&self) -> Global {
        self.alloc
    }

    /// Returns the bytes, if one whole value was sent.
    pub(crate) fn into_bytes(self) -> Result<Vec<u8>, Refusal>
        ensures { IfOk result (λ v. (s : State) → HoldsAll s self
            → (t : Tree) × (finished s ≡ Some t) × IsGood t v.items) }
    {
        let Sink {
            bytes,
            top,
            below,
            ..
        } = self;
        match top.stage {
            Stage::Full if below.is_empty() => Ok(bytes),
            _ => Err(Refusal::Misplaced),
        }
    }
}

// Items, which come after all bytes.
impl Sink {
    /// Appends an item that is only a head.
    fn put_head(&mut self, major: u8, argument: u64) -> Result<(), Refusal>
        requires { major ≤ 7 }
        ensures put { OnOk result (PutsSpelling (head major argument) self.old self.new) }
        ensures refused { IfErr result (ItemRefused self.old.top.stage) }
    {
        let from = self.bytes.len();
        append_head(&mut self.bytes, major, argument)?;
        self.land(from)
    }

    /// Appends an item of a head and the bytes after it.
    fn put(&mut self, major: u8, argument: u64, payload: &[u8]) -> Result<(), Refusal>
        requires { major ≤ 7 }
        ensures put { OnOk result (PutsSpelling (head major argument ++ payload.now) self.old self.new) }
        ensures refused { IfErr result (ItemRefused self.old.top.stage) }
    {
        let from = self.bytes.len();
        append(&mut self.bytes, major, argument, payload)?;
        self.land(from)
    }

    /// Notes an item whose bytes go from `from` to the end.
    #[inline(always)]
    fn land(&mut self, from: usize) -> Result<(), Refusal>
        ensures same { (self.new.bytes ≡ self.old.bytes) × (self.new.below ≡ self.old.below) }
        ensures landed { OnOk result (Lands self.old.top.stage from (length self.old.bytes.items)
            self.old.top self.old.spans.items self.new.top self.new.spans.items) }
        ensures refused { IfErr result (ItemRefused self.old.top.stage) }
    {
        match self.top.stage {
            Stage::List => self.land_item(),
            Stage::WantsValue => self.land_value(from),
            Stage::Vacant => {
                self.top.stage = Stage::Full;
                Ok(())
            }
            _ => Err(misplaced(self.top.stage)),
        }
    }

    #[inline(always)]
    fn land_item(&mut self) -> Result<(), Refusal>
        ensures same { (self.new.bytes ≡ self.old.bytes) × (self.new.below ≡ self.old.below)
            × (self.new.spans ≡ self.old.spans) }
        ensures counted { OnOk result
            (self.new.top ≡ record self.old.top { count = self.old.top.count + 1 }) }
        ensures refused { IfErr result (LacksMemory) }
    {
        match self.top.count.checked_add(1) {
            Some(count) => {
                self.top.count = count;
                Ok(())
            }
            None => Err(Refusal::OutOfMemory),
        }
    }

    #[inline(always)]
    fn land_value(&mut self, from: usize) -> Result<(), Refusal>
        ensures same { (self.new.bytes ≡ self.old.bytes) × (self.new.below ≡ self.old.below)
            × (self.new.top ≡ record self.old.top { stage = Stage.Rests }) }
        ensures listed { OnOk result (self.new.spans.items ≡ self.old.spans.items
            ++ (record {
              start = self.old.top.key;
              key_end = from;
              end = length self.old.bytes.items;
            }) ∷ []) }
        ensures refused { IfErr result (LacksMemory) }
    {
        self.top.stage = Stage::Rests;
        let span = Span {
            start: self.top.key,
            key_end: from,
            end: self.bytes.len(),
        };
        match self.spans.push(span) {
            Ok(()) => Ok(()),
            Err(_) => Err(Refusal::OutOfMemory),
        }
    }

    /// Takes the text as a key. Its value comes next.
    #[inline(always)]
    fn wait(&mut self, v: &str) -> Result<(), Refusal>
        ensures top { OnOk result (self.new.top ≡ record self.old.top {
          stage = Stage.WantsValue;
          key = length self.old.bytes.items;
        }) }
        ensures bytes { OnOk result (self.new.bytes.items
            ≡ self.old.bytes.items ++ (head 3 (length v.now) ++ v.now)) }
        ensures text { IsTree (text v.now) }
        ensures rest { (self.new.spans ≡ self.old.spans) × (self.new.below ≡ self.old.below) }
        ensures refused { IfErr result (LacksMemory) }
    {
        let key = self.bytes.len();
        append(&mut self.bytes, 3, v.len() as u64, v.as_bytes())?;
        self.top.key = key;
        self.top.stage = Stage::WantsValue;
        Ok(())
    }
}

// Events that go to the innermost open value.
impl Sink {
    #[tactic(auto, using(crate::proofs::Opening::puts_good, crate::proofs::Leaves::good_true, crate::proofs::Leaves::good_false))]
    pub(crate) fn bool(&mut self, v: bool) -> Result<(), Refusal>
        ensures moved { OnOk result (MovesTop (put (boolean v)) self.old self.new) }
        ensures refused { IfErr result (ItemRefused self.old.top.stage) }
    {
        self.put_head(7, if v { 21 } else { 20 })
    }

    pub(crate) fn unsigned(&mut self, v: u64) -> Result<(), Refusal>
        ensures moved { OnOk result (MovesTop (put (integer (pos v))) self.old self.new) }
        ensures refused { IfErr result (ItemRefused self.old.top.stage) }
    {
        self.put_head(0, v)
    }

    #[tactic(auto, using(crate::proofs::Opening::puts_good, crate::proofs::Leaves::good_unsigned, crate::proofs::Leaves::good_negative))]
    pub(crate) fn signed(&mut self, v: i64) -> Result<(), Refusal>
        ensures moved { OnOk result (MovesTop (put (integer v)) self.old self.new) }
        ensures refused { IfErr result (ItemRefused self.old.top.stage) }
    {
        let (major, argument) = if v < 0 { (1, -1 - v) } else { (0, v) };
        self.put_head(major, argument as u64)
    }

    #[tactic(auto, using(crate::proofs::Opening::puts_good, crate::proofs::Leaves::good_unsigned))]
    pub(crate) fn unsigned_wide(&mut self, v: u128) -> Result<(), Refusal>
        ensures moved { OnOk result (MovesTop (put (integer (pos v))) self.old self.new) }
        ensures refused { IfErr result (NumberRefused (2 ^ 64 ≤ v) self.old.top.stage) }
    {
        match u64::try_from(v) {
            Ok(argument) => self.put_head(0, argument),
            Err(_) => Err(Refusal::OutOfRange),
        }
    }

    #[tactic(auto, using(crate::proofs::Opening::puts_good, crate::proofs::Leaves::good_unsigned, crate::proofs::Leaves::good_negative))]
    pub(crate) fn signed_wide(&mut self, v: i128) -> Result<(), Refusal>
        ensures { OnOk result (MovesTop (put (integer v)) self.old self.new) }
    {
        let (major, argument) = if v < 0 { (1, -1 - v) } else { (0, v) };
        match u64::try_from(argument) {
            Ok(argument) => self.put_head(major, argument),
            Err(_) => Err(Refusal::OutOfRange),
        }
    }

    /// Appends a text, which may be a key.
    pub(crate) fn text(&mut self, v: &str) -> Result<(), Refusal>
        ensures moved { OnOk result (MovesTop (put (text v.now)) self.old self.new) }
        ensures refused { IfErr result (TextRefused self.old.top.stage) }
    {
        match self.top.stage {
            Stage::WantsKey => self.wait(v),
            _ => self.put(3, v.len() as u64, v.as_bytes()),
        }
    }

    /// Appends the name of a field or a variant.
    #[inline(always)]
    fn key(&mut self, v: &str) -> Result<(), Refusal>
        ensures moved { OnOk result (MovesTop (put_key v.now) self.old self.new) }
        ensures refused { IfErr result (OnlyAt Stage.Rests self.old.top.stage) }
    {
        match self.top.stage {
            Stage::Rests => self.wait(v),
            _ => Err(Refusal::Misplaced),
        }
    }

    /// Appends a byte string, or the CID of a link.
    pub(crate) fn bytes(&mut self, v: &[u8]) -> Result<(), Refusal>
        ensures moved { OnOk result (MovesTop (put_bytes v.now) self.old self.new) }
        ensures refused { IfErr result (BytesRefused v.now self.old.top.stage) }
    {
        match self.top.stage {
            Stage::Link => self.cid(v),
            _ => self.put(2, v.len() as u64, v),
        }
    }

    /// Appends the CID of a link.
    fn cid(&mut self, v: &[u8]) -> Result<(), Refusal>
        requires { self.old.top.stage ≡ Stage.Link }
        ensures moved { OnOk result (MovesTop (put_bytes v.now) self.old self.new) }
        ensures refused { IfErr result (CidRefused v.now) }
    {
        if !is_cid(v) {
            return Err(Refusal::NoCid);
        }
        append_link(&mut self.bytes, v)?;
        self.top.stage = Stage::Linked;
        Ok(())
    }

    /// Appends null, or flattens nothing.
    pub(crate) fn unit(&mut self) -> Result<(), Refusal>
        ensures moved { OnOk result (MovesTop put_unit self.old self.new) }
        ensures refused { IfErr result (ItemRefused self.old.top.stage) }
    {
        match self.top.stage {
            Stage::WantsMap => {
                self.top.stage = Stage::Rests;
                Ok(())
            }
            _ => self.put_head(7, 22),
        }
    }

    /// Makes the map that was just begun a link.
    fn link(&mut self) -> Result<(), Refusal>
        ensures { OnOk result (MovesTop as_link self.old self.new) }
    {
        match self.top.stage {
            Stage::Rests if self.spans.len() == self.top.first && self.top.flat == 0 => {
                self.bytes.truncate(self.top.place);
                self.top.stage = Stage::Link;
                Ok(())
            }
            _ => Err(Refusal::Misplaced),
        }
    }

    pub(crate) fn begin_key(&mut self) -> Result<(), Refusal>
        ensures moved { OnOk result (MovesTop begin_key self.old self.new) }
        ensures refused { IfErr result (OnlyAt Stage.Rests self.old.top.stage) }
    {
        match self.top.stage {
            Stage::Rests => {
                self.top.stage = Stage::WantsKey;
                Ok(())
            }
            _ => Err(Refusal::Misplaced),
        }
    }

    pub(crate) fn end_key(&mut self) -> Result<(), Refusal>
        ensures moved { OnOk result (MovesTop end_key self.old self.new) }
        ensures refused { IfErr result (OnlyAt Stage.WantsValue self.old.top.stage) }
    {
        match self.top.stage {
            Stage::WantsValue => Ok(()),
            _ => Err(Refusal::Misplaced),
        }
    }

    pub(crate) fn flatten(&mut self) -> Result<(), Refusal>
        ensures moved { OnOk result (MovesTop flatten self.old self.new) }
        ensures refused { IfErr result (OnlyAt Stage.Rests self.old.top.stage) }
    {
        match self.top.stage {
            Stage::Rests => {
                self.top.stage = Stage::WantsMap;
                Ok(())
            }
            _ => Err(Refusal::Misplaced),
        }
    }
}

// Events whose name or text is built here first.
impl Sink {
    pub(crate) fn char(&mut self, v: char) -> Result<(), Refusal>
        ensures moved { OnOk result (MovesTop (put (text (encode_utf8 v))) self.old self.new) }
        ensures refused { IfErr result (TextRefused self.old.top.stage) }
    {
        let mut room = [0; 4];
        self.text(v.encode_utf8(&mut room))
    }

    pub(crate) fn unit_variant(&mut self, name: &str, case: Case) -> Result<(), Refusal>
        ensures { OnOk result
            (MovesTop (put (text (spelled_name case Variant name.now))) self.old self.new) }
    {
        self.cased(name, case, NameKind::Variant, false)
    }

    #[inline(always)]
    pub(crate) fn field_key(&mut self, name: &str, case: Case) -> Result<(), Refusal>
        ensures { OnOk result (MovesTop (put_field name.now case) self.old self.new) }
    {
        if is_link_name(name, case) {
            return self.link();
        }
        self.cased(name, case, NameKind::Field, true)
    }

    pub(crate) fn variant_key(&mut self, name: &str, case: Case) -> Result<(), Refusal>
        ensures { OnOk result
            (MovesTop (put_key (spelled_name case Variant name.now)) self.old self.new) }
    {
        self.cased(name, case, NameKind::Variant, true)
    }

    /// Appends a name in its case.
    #[inline(always)]
    fn cased(&mut self, name: &str, case: Case, kind: NameKind, is_key: bool) -> Result<(), Refusal>
        ensures { OnOk result
            (MovesTop (put_name is_key (spelled_name case kind name.now)) self.old self.new) }
    {
        if let Case::AsIs = case {
            return self.named(name, is_key);
        }
        self.respelled(name, case, kind, is_key)
    }

    /// Appends a name in another spelling.
    #[inline(never)]
    fn respelled(
        &mut self,
        name: &str,
        case: Case,
        kind: NameKind,
        is_key: bool,
    ) -> Result<(), Refusal>
        ensures { OnOk result
            (MovesTop (put_name is_key (spelled_name case kind name.now)) self.old self.new) }
    {
        let mut room = mem::replace(&mut self.name, String::new(self.alloc));
        room.clear();
        if case.append(kind, name, &mut room).is_err() {
            return Err(Refusal::OutOfMemory);
        }
        let result = self.named(room.as_str(), is_key);
        self.name = room;
        result
    }

    /// Appends a name, as a key or as a text.
    #[inline(always)]
    fn named(&mut self, name: &str, is_key: bool) -> Result<(), Refusal>
        ensures { OnOk result (MovesTop (put_name is_key name.now) self.old self.new) }
    {
        if is_key {
            self.key(name)
        } else {
            self.text(name)
        }
    }
}

// Beginnings and ends.
impl Sink {
    /// Begins a list or a map.
    fn open(&mut self, stage: Stage) -> Result<(), Refusal>
        ensures { OnOk result (BeginsStage stage self.old self.new) }
    {
        let frame = Frame::new(stage, self.bytes.len(), self.spans.len());
        if self.bytes.push(0x00).is_err() {
            return Err(Refusal::OutOfMemory);
        }
        let around = mem::replace(&mut self.top, frame);
        match self.below.push(around) {
            Ok(()) => Ok(()),
            Err(_) => Err(Refusal::OutOfMemory),
        }
    }

    /// Leaves the innermost open value, and returns it.
    #[inline(always)]
    fn leave(&mut self) -> Result<Frame, Refusal>
        ensures frame { IfOk result (λ f. (f ≡ self.old.top)
            × (self.old.below.items ≡ self.new.below.items ++ self.new.top ∷ [])) }
        ensures same { (self.new.bytes ≡ self.old.bytes) × (self.new.spans ≡ self.old.spans) }
    {
        match self.below.pop() {
            Some(around) => Ok(mem::replace(&mut self.top, around)),
            None => Err(Refusal::Misplaced),
        }
    }

    pub(crate) fn begin_seq(&mut self) -> Result<(), Refusal>
        ensures { OnOk result (StepsBy (begin (in_list [])) self.old self.new) }
    {
        self.open(Stage::List)
    }

    pub(crate) fn end_seq(&mut self) -> Result<(), Refusal>
        ensures { OnOk result (StepsBy (λ s. close (ended_list s.top) s.around) self.old self.new) }
    {
        match self.top.stage {
            Stage::List => self.end_list(),
            _ => Err(Refusal::Misplaced),
        }
    }

    fn end_list(&mut self) -> Result<(), Refusal>
        requires { self.old.top.stage ≡ Stage.List }
        ensures { OnOk result (StepsBy (λ s. close (ended_list s.top) s.around) self.old self.new) }
    {
        let list = self.leave()?;
        set_head(&mut self.bytes, &mut self.room, list.place, 4, list.count)?;
        self.land(list.place)
    }

    pub(crate) fn begin_map(&mut self) -> Result<(), Refusal>
        ensures { OnOk result (StepsBy (λ s. begin_map s.top s.around) self.old self.new) }
    {
        match self.top.stage {
            Stage::WantsMap => self.begin_flat(),
            _ => self.open(Stage::Rests),
        }
    }

    /// Begins a map whose entries go into the map around it.
    fn begin_flat(&mut self) -> Result<(), Refusal>
        requires { self.old.top.stage ≡ Stage.WantsMap }
        ensures { OnOk result (StepsBy (λ s. begin_map s.top s.around) self.old self.new) }
    {
        match self.top.flat.checked_add(1) {
            Some(flat) => {
                self.top.flat = flat;
                self.top.stage = Stage::Rests;
                Ok(())
            }
            None => Err(Refusal::OutOfMemory),
        }
    }

    pub(crate) fn end_map(&mut self) -> Result<(), Refusal>
        ensures { OnOk result (StepsBy (λ s. close_map s.top s.around) self.old self.new) }
    {
        match self.top.stage {
            Stage::Rests => match self.top.flat.checked_sub(1) {
                Some(flat) => {
                    self.top.flat = flat;
                    Ok(())
                }
                None => self.end_entries(),
            },
            Stage::Linked => self.end_link(),
            _ => Err(Refusal::Misplaced),
        }
    }

    fn end_entries(&mut self) -> Result<(), Refusal>
        requires stage { self.old.top.stage ≡ Stage.Rests }
        requires flat { self.old.top.flat ≡ 0 }
        ensures { OnOk result (StepsBy (λ s. close_map s.top s.around) self.old self.new) }
    {
        let map = self.leave()?;
        let count = self.put_entries(map.place, map.first)?;
        set_head(&mut self.bytes, &mut self.room, map.place, 5, count)?;
        self.land(map.place)
    }

    /// Puts the entries of the map that ended in order, counts them, and drops them from the list.
    fn put_entries(&mut self, place: usize, first: usize) -> Result<usize, Refusal>
        ensures same { (self.new.top ≡ self.old.top) × (self.new.below ≡ self.old.below) }
        ensures spans { OnOk result (self.new.spans.items ≡ take first self.old.spans.items) }
        ensures entries { IfOk result (PutsEach place self.old.bytes.items
            (drop first self.old.spans.items) self.new.bytes.items) }
    {
        let Some(count) = self.spans.len().checked_sub(first) else {
            return Err(Refusal::Misplaced);
        };
        if !are_in_order(&self.bytes, &self.spans[first..]) {
            self.sort_entries(place, first)?;
        }
        self.spans.truncate(first);
        Ok(count)
    }

    /// Sorts entries that are not in order, and puts their bytes in that order.
    #[inline(never)]
    fn sort_entries(&mut self, place: usize, first: usize) -> Result<(), Refusal>
        requires { first ≤ length self.old.spans.items }
        ensures same { (self.new.top ≡ self.old.top) × (self.new.below ≡ self.old.below) }
        ensures spans { OnOk result
            (take first self.new.spans.items ≡ take first self.old.spans.items) }
        ensures entries { OnOk result (PutsEach place self.old.bytes.items
            (drop first self.old.spans.items) self.new.bytes.items
            (length (drop first self.old.spans.items))) }
    {
        let spans = &mut self.spans[first..];
        if !sort(&self.bytes, spans) {
            return Err(Refusal::RepeatedKey);
        }
        self.room.clear();
        if self.room.reserve(self.bytes.len()).is_err() {
            return Err(Refusal::OutOfMemory);
        }
        push_entries(&mut self.room, &self.bytes, spans)?;
        replace_after(&mut self.bytes, place, &self.room)
    }

    fn end_link(&mut self) -> Result<(), Refusal>
        requires { self.old.top.stage ≡ Stage.Linked }
        ensures { OnOk result (StepsBy (λ s. close_map s.top s.around) self.old self.new) }
    {
        let link = self.leave()?;
        self.land(link.place)
    }
}
