//! Reading the items of a list, or the entries of a map, one at a time.

ghost use Rattle.std.specs.Prelude.{◌≡◌, ◌↔◌, ◌+◌, ◌<◌, ◌≤◌, true, false, Some, IfOk, IfErr};
ghost use Rattle.std.specs.Prelude.{IfSome, MatchBool, length};
ghost use Rattle.std.specs.Cow.{cow_str_bytes, IsBorrowedStr};
ghost use Rattle.dagcbor_heads.specs.Reading.{with_steps};
ghost use Rattle.dagcbor_heads.specs.Looking.{Looks};
ghost use Rattle.dagcbor_read.specs.Deserializers.{de_state, Call, AreOut, Over};
ghost use Rattle.dagcbor_items.specs.Entries.{HasName};
ghost use Rattle.dagcbor_items.specs.Majors.{LacksForString};
ghost use Rattle.dagcbor_items.specs.TypedReads.{Reads};
ghost use Rattle.dagcbor_items.specs.AnsweredVariants.{OfKey};
ghost use Rattle.dagcbor_read.specs.Values.{ReadsPart};

use crate::deserialize::Deserialize;
use crate::deserializer::Deserializer;
use dagcbor_core::{DecodeError, Name};
use dagcbor_heads::{Read, ReadResult};
use dagcbor_items::take_name;
use std::alloc::{AllocError, Global};
use std::borrow::CowStr;

/// A list or map that was begun, and how much of it is left. It holds no `Deserializer`: pass each
/// call the one on which it was begun. If it is dropped before its end, the rest stays unread, and
/// its steps stay spent.
#[derive(Drop)]
pub struct Accessor<'de> {
    name: Name,
    is_map: bool,
    announced: usize,
    pub(crate) left: usize,
    last: Option<CowStr<'de>>,
    owes_value: bool,
    steps: usize,
    ghost within: { left ≤ announced },
}

/// Returns a copy of the key. It takes memory only if the key is not lent and not empty.
pub(crate) fn copied<'de>(alloc: Global, key: &CowStr<'de>) -> Result<CowStr<'de>, AllocError>
    ensures same { IfOk result (λ c. cow_str_bytes c ≡ cow_str_bytes key.now) }
    ensures lent { IfErr result (λ _. ¬ IsBorrowedStr key.now) }
    ensures some { IfErr result (λ _. 0 < length (cow_str_bytes key.now)) }
{
    Ok(match key {
        CowStr::Borrowed(text) => CowStr::Borrowed(text),
        CowStr::Owned(text) if text.len() == 0 => CowStr::Owned(String::new(alloc)),
        CowStr::Owned(text) => CowStr::Owned(String::from_str(alloc, text.as_str())?),
    })
}

/// Gives `steps` steps back.
pub(crate) fn give_back<R: Read>(reader: &mut R, steps: usize)
    requires { 0 < steps → (R.reading reader.old).steps + steps ≤ (R.reading reader.old).budget }
    ensures { R.reading reader.new ≡ with_steps ((R.reading reader.old).steps + steps)
        (R.reading reader.old) }
{
    for _step in 0..steps {
        reader.step_out();
    }
}

impl<'de> Accessor<'de> {
    ghost use Rattle.dagcbor_read.specs.Parts.{HandsOn, HandsSomeOn};
    ghost use Rattle.dagcbor_read.specs.Accessors.{accessor_state, fresh, ReadsElement};
    ghost use Rattle.dagcbor_read.specs.Accessors.{after_element, ReadsNextKey, after_key};
    ghost use Rattle.dagcbor_read.specs.Accessors.{with_key, KeepsKey};
    ghost use Rattle.dagcbor_read.specs.Accessors.{after_value, with_value, EndsItems};
    ghost use Rattle.dagcbor_read.specs.Named.{TakesName};

    /// Makes an accessor of which nothing was read.
    #[inline(always)]
    pub(crate) fn new(name: Name, is_map: bool, announced: usize, steps: usize) -> Accessor<'de>
        ensures { accessor_state result ≡ fresh name is_map announced steps }
    {
        Accessor {
            name,
            is_map,
            announced,
            left: announced,
            last: None,
            owes_value: false,
            steps,
        }
    }

    /// Returns whether it is a map, whose keys and values are read in turn, and not a list.
    pub fn is_map(&self) -> bool
        ensures { result ≡ (accessor_state self.now).is_map }
    {
        self.is_map
    }

    /// Returns whether the value of the last key is to be read now.
    pub fn owes_value(&self) -> bool
        ensures { result ≡ (accessor_state self.now).owes_value }
    {
        self.owes_value
    }

    /// Returns how many items are left. A pair counts as read once its key is.
    pub fn size_hint(&self) -> Option<usize>
        ensures { result ≡ Some (accessor_state self.now).left }
    {
        Some(self.left)
    }

    /// Reads the next item of a list, or returns `None` if none is left.
    #[inline(always)]
    pub fn next_element<T: Deserialize<'de>, R: Read>(
        &mut self,
        alloc: Global,
        de: &mut Deserializer<'de, R>,
    ) -> ReadResult<Option<T>, R>
        requires { (accessor_state self.old).is_map ≡ false }
        ensures after { accessor_state self.new ≡ after_element result (accessor_state self.old) }
        ensures element { Over R.reading
            (Call (ReadsElement T.meaning T.shape (accessor_state self.old).left)) de.old result
            de.new }
        ensures lies { IfOk result
            (λ o. IfSome o (T.lies (de_state R.reading de.old).input.lends)) }
        ensures answers { Over R.reading (HandsSomeOn T.answers) de.old result de.new }
    {
        de.check()?;
        if self.left == 0 {
            return Ok(None);
        }
        let element = de.read_part(alloc)?;
        self.left -= 1;
        Ok(Some(element))
    }

    /// Reads the next key of a map, or returns `None` if none is left. The key is lent if the input
    /// lends.
    pub fn next_key<R: Read>(
        &mut self,
        alloc: Global,
        de: &mut Deserializer<'de, R>,
    ) -> ReadResult<Option<CowStr<'de>>, R>
        requires map { (accessor_state self.old).is_map ≡ true }
        requires in_turn { (accessor_state self.old).owes_value ≡ false }
        ensures after { accessor_state self.new ≡ after_key result (accessor_state self.old) }
        ensures key { Over R.reading
            (Call (ReadsNextKey (accessor_state self.old).last (accessor_state self.old).left))
            de.old result de.new }
        ensures lent { IfOk result
            (λ o. IfSome o (λ k. IsBorrowedStr k
            ↔ ((de_state R.reading de.old).input.lends ≡ true))) }
        ensures memory { IfErr result (LacksForString 3 (de_state R.reading de.old).input.left) }
        ensures variant { IfErr result OfKey }
        ensures looked { 0 < (accessor_state self.old).left
            → Looks 3 (de_state R.reading de.old).input result (de_state R.reading de.new).input }
    {
        if self.left == 0 {
            de.check()?;
            return Ok(None);
        }
        let (key, last) = de.read_key_after(alloc, &self.last)?;
        self.note_key(last);
        Ok(Some(key))
    }

    /// Takes the next key, if it is this name and a slice has it whole.
    #[inline(always)]
    pub(crate) fn take_name<R: Read>(&mut self, name: &str, de: &mut Deserializer<'de, R>) -> bool
        requires some { 0 < (accessor_state self.old).left }
        requires sound { (de_state R.reading de.old).failed ≡ false }
        ensures { MatchBool result
            ((accessor_state self.new ≡ with_key name.now (accessor_state self.old))
            × TakesName (accessor_state self.old).last name.now (de_state R.reading de.old)
            (de_state R.reading de.new))
            ((accessor_state self.new ≡ accessor_state self.old) × (de.new ≡ de.old)
            × (¬ HasName (accessor_state self.old).last name.now
            (de_state R.reading de.old).input)) }
    {
        match take_name(&mut de.input, &self.last, name) {
            Some(key) => {
                self.note_key(CowStr::Borrowed(key));
                true
            }
            None => false,
        }
    }

    /// Notes that the key was read, and that its value is to be read now.
    #[inline(always)]
    fn note_key(&mut self, key: CowStr<'de>)
        requires { 0 < (accessor_state self.old).left }
        ensures { accessor_state self.new ≡ with_key (cow_str_bytes key.entry)
            (accessor_state self.old) }
    {
        self.last = Some(key);
        self.left -= 1;
        self.owes_value = true;
    }

    /// Reads the next key and keeps it, so that `last_key` lends it. One of the names takes no
    /// memory if a slice has it whole.
    #[cold]
    #[inline(never)]
    pub(crate) fn keep_key<R: Read>(
        &mut self,
        alloc: Global,
        names: &[&'de str],
        de: &mut Deserializer<'de, R>,
    ) -> ReadResult<(), R>
        requires { 0 < (accessor_state self.old).left }
        ensures after { IfOk result (λ _. IfSome (accessor_state self.new).last
            (λ k. accessor_state self.new ≡ with_key k (accessor_state self.old))) }
        ensures key { Over R.reading
            (Call (KeepsKey (accessor_state self.old).last (accessor_state self.new).last)) de.old
            result de.new }
        ensures memory { IfErr result (LacksForString 3 (de_state R.reading de.old).input.left) }
    {
        let key = de.read_key(alloc, names, &self.last)?;
        self.note_key(key);
        Ok(())
    }

    /// Returns the key that was read last.
    pub(crate) fn last_key(&self) -> &str
        ensures { IfSome (accessor_state self.now).last (λ k. result.now ≡ k) }
    {
        match &self.last {
            Some(key) => key.as_str(),
            None => "",
        }
    }

    /// Reads the value of the last key.
    pub fn next_value<T: Deserialize<'de>, R: Read>(
        &mut self,
        alloc: Global,
        de: &mut Deserializer<'de, R>,
    ) -> ReadResult<T, R>
        requires { (accessor_state self.old).owes_value ≡ true }
        ensures after { accessor_state self.new ≡ after_value result (accessor_state self.old) }
        ensures value { Over R.reading (Call (ReadsPart T.meaning T.shape)) de.old result de.new }
        ensures lies { IfOk result (T.lies (de_state R.reading de.old).input.lends) }
        ensures answers { Over R.reading (HandsOn T.answers) de.old result de.new }
    {
        let value = de.read_part(alloc)?;
        self.owes_value = false;
        Ok(value)
    }

    /// Notes that the value of the last key was read in another way.
    pub(crate) fn note_value(&mut self)
        ensures { accessor_state self.new ≡ with_value (accessor_state self.old) }
    {
        self.owes_value = false;
    }

    /// Ends the list or map, and gives its steps back.
    #[inline(always)]
    pub fn end<R: Read>(self, de: &mut Deserializer<'de, R>) -> ReadResult<(), R>
        requires in_turn { (accessor_state self).owes_value ≡ false }
        requires out { AreOut (accessor_state self).steps (de_state R.reading de.old) }
        ensures { Over R.reading
            (Call (EndsItems (accessor_state self.entry))) de.old result de.new }
    {
        de.begin()?;
        if self.left > 0 {
            return Err(DecodeError::LengthMismatch {
                name: self.name,
                expect: self.announced - self.left,
                value: self.announced,
            });
        }
        give_back(&mut de.input, self.steps);
        de.failed = false;
        Ok(())
    }
}
