//! Checks an index against the sections of its file: that each entry is right, that the entries are
//! in order, and that an entry leads to each section.

ghost use Rattle.std.specs.Prelude.{◌≡◌, ◌↔◌, ◌++◌, ◌∷◌, [], if◌then◌else◌, IsTrue, IfOk, OnOk, IsPermutation, IsSorted, map, not};
ghost use Rattle.std.specs.List.{filter};
ghost use Rattle.std.specs.Ordering.{is_lt};
ghost use Rattle.files_index.specs.Index.{entry_cmp};
ghost use Rattle.files_index.specs.Judging.{listed_as, multihash_of, multihash_cmp, is_entry_of};
ghost use Rattle.files_index.specs.Judging.{wrong, unordered, listed, is_unlisted, unlisted};
ghost use Rattle.files_index.specs.Judging.{AreFindings, fallen};

use crate::entries::{Format, Listing};
use crate::entry::Entry;
use ipld_tree::Cid;
use std::alloc::{AllocError, Global};

/// The name of a section, and its offset: how many bytes of the file of version 1 come before it.
#[derive(Clone, Copy, Drop)]
pub struct Placed {
    pub cid: Cid,
    pub offset: u64,
}

/// The faults of an index.
#[derive(Drop)]
pub struct Findings {
    /// Entries that belong to no section.
    pub wrong: Vec<Entry>,
    /// Entries whose multihash is below that of the entry before them.
    pub unordered: Vec<Entry>,
    /// Sections whose multihash no right entry has.
    pub unlisted: Vec<Placed>,
}

impl Findings {
    /// Returns whether nothing is wrong.
    pub fn is_empty(&self) -> bool
        ensures { IsTrue result ↔ ((self.now.wrong.items ≡ []) × (self.now.unordered.items ≡ [])
            × (self.now.unlisted.items ≡ [])) }
    {
        self.wrong.is_empty() && self.unordered.is_empty() && self.unlisted.is_empty()
    }
}

/// Returns the entry of the section in an index of this format.
fn listed_as(format: Format, section: &Placed) -> Entry
    ensures { result ≡ listed_as format section.now }
{
    match format {
        Format::ByWidth => {
            // The contract of `version` tells the proof that a digest has at most 64 bytes.
            let _version = section.cid.version();
            Entry::of_digest(0, section.cid.digest(), section.offset)
        }
        Format::ByMultihash => Entry::new(&section.cid, section.offset),
    }
}

/// Returns the multihash of the section, as an entry with the offset 0.
fn multihash_of(section: &Placed) -> Entry
    ensures { result ≡ multihash_of section.now }
{
    Entry::new(&section.cid, 0)
}

/// Returns whether the entry is in the list, which is sorted.
fn is_entry_of(sorted: &[Entry], entry: &Entry) -> bool
    requires { IsSorted entry_cmp sorted.now }
    ensures { result ≡ is_entry_of sorted.now entry.now }
{
    sorted.binary_search(entry).is_ok()
}

/// Returns the entries of these sections in a right index of this format, sorted.
fn right_entries(
    alloc: Global,
    format: Format,
    sections: &[Placed],
) -> Result<Vec<Entry>, AllocError>
    ensures same { IfOk result (λ v. IsPermutation (map (listed_as format) sections.now) v.items) }
    ensures sorted { IfOk result (λ v. IsSorted entry_cmp v.items) }
{
    let mut entries = Vec::new(alloc);
    for section in sections {
        entries.push(listed_as(format, section))?;
    }
    entries.sort_unstable();
    Ok(entries)
}

/// Appends the entry, if it is not among the right ones, which are sorted.
fn push_wrong(out: &mut Vec<Entry>, right: &[Entry], entry: &Entry) -> Result<(), AllocError>
    requires { IsSorted entry_cmp right.now }
    ensures { OnOk result (out.new.items ≡ out.old.items
        ++ (if not (is_entry_of right.now entry.now) then entry.now ∷ [] else [])) }
{
    if !is_entry_of(right, entry) {
        out.push(entry.copied())?;
    }
    Ok(())
}

/// Returns those entries that are not among the right ones, which are sorted.
fn wrong_among(alloc: Global, entries: &[Entry], right: &[Entry]) -> Result<Vec<Entry>, AllocError>
    requires { IsSorted entry_cmp right.now }
    ensures { IfOk result (λ v. v.items
        ≡ filter (λ e. not (is_entry_of right.now e)) entries.now) }
{
    let mut wrong = Vec::new(alloc);
    for entry in entries {
        push_wrong(&mut wrong, right, entry)?;
    }
    Ok(wrong)
}

/// Returns the entries that belong to no section.
fn wrong(alloc: Global, listing: &Listing, sections: &[Placed]) -> Result<Vec<Entry>, AllocError>
    ensures { IfOk result (λ v. v.items
        ≡ wrong listing.now.format listing.now.entries.items sections.now) }
{
    let right = right_entries(alloc, listing.format, sections)?;
    wrong_among(alloc, &listing.entries, &right)
}

/// Returns whether the second entry has the lesser multihash.
fn falls(last: &Entry, entry: &Entry) -> bool
    ensures { result ≡ is_lt (multihash_cmp entry.now last.now) }
{
    entry
        .hash_code()
        .cmp(&last.hash_code())
        .then(entry.digest().len().cmp(&last.digest().len()))
        .then(entry.digest().cmp(last.digest()))
        .is_lt()
}

/// Appends the second entry, if it has the lesser multihash.
fn push_fallen(out: &mut Vec<Entry>, last: &Entry, entry: &Entry) -> Result<(), AllocError>
    ensures { OnOk result (out.new.items ≡ out.old.items ++ fallen last.now entry.now) }
{
    if falls(last, entry) {
        out.push(entry.copied())?;
    }
    Ok(())
}

/// Returns the entries whose multihash is below that of the entry before them.
fn unordered(alloc: Global, entries: &[Entry]) -> Result<Vec<Entry>, AllocError>
    ensures { IfOk result (λ v. v.items ≡ unordered entries.now) }
{
    let mut out = Vec::new(alloc);
    for number in 1..entries.len() {
        push_fallen(&mut out, &entries[number - 1], &entries[number])?;
    }
    Ok(out)
}

/// Appends the multihash of the section, if its entry is in the list, which is sorted.
fn push_listed(
    out: &mut Vec<Entry>,
    format: Format,
    entries: &[Entry],
    section: &Placed,
) -> Result<(), AllocError>
    requires { IsSorted entry_cmp entries.now }
    ensures { OnOk result (out.new.items ≡ out.old.items
        ++ (if is_entry_of entries.now (listed_as format section.now)
        then multihash_of section.now ∷ [] else [])) }
{
    if is_entry_of(entries, &listed_as(format, section)) {
        out.push(multihash_of(section))?;
    }
    Ok(())
}

/// Returns the multihashes, sorted, of those sections whose entry is in the list, which is sorted.
fn listed_names(
    alloc: Global,
    format: Format,
    entries: &[Entry],
    sections: &[Placed],
) -> Result<Vec<Entry>, AllocError>
    requires { IsSorted entry_cmp entries.now }
    ensures same { IfOk result (λ v. IsPermutation
        (map multihash_of (listed format entries.now sections.now)) v.items) }
    ensures sorted { IfOk result (λ v. IsSorted entry_cmp v.items) }
{
    let mut names = Vec::new(alloc);
    for section in sections {
        push_listed(&mut names, format, entries, section)?;
    }
    names.sort_unstable();
    Ok(names)
}

/// Returns whether the section's multihash is not in the list, which is sorted. A name by the
/// identity is never unlisted.
fn is_unlisted(names: &[Entry], section: &Placed) -> bool
    requires { IsSorted entry_cmp names.now }
    ensures { result ≡ is_unlisted names.now section.now }
{
    section.cid.hash_code() != 0 && !is_entry_of(names, &multihash_of(section))
}

/// Appends the section, if it is unlisted: its multihash is not in the list, which is sorted.
fn push_unlisted(out: &mut Vec<Placed>, names: &[Entry], section: &Placed) -> Result<(), AllocError>
    requires { IsSorted entry_cmp names.now }
    ensures { OnOk result (out.new.items ≡ out.old.items
        ++ (if is_unlisted names.now section.now then section.now ∷ [] else [])) }
{
    if is_unlisted(names, section) {
        out.push(*section)?;
    }
    Ok(())
}

/// Returns the unlisted sections: those whose multihash is not in the list, which is sorted.
fn unlisted_among(
    alloc: Global,
    names: &[Entry],
    sections: &[Placed],
) -> Result<Vec<Placed>, AllocError>
    requires { IsSorted entry_cmp names.now }
    ensures { IfOk result (λ v. v.items ≡ filter (is_unlisted names.now) sections.now) }
{
    let mut out = Vec::new(alloc);
    for section in sections {
        push_unlisted(&mut out, names, section)?;
    }
    Ok(out)
}

/// Returns the sections whose multihash no right entry has.
fn unlisted(alloc: Global, listing: Listing, sections: &[Placed]) -> Result<Vec<Placed>, AllocError>
    ensures { IfOk result (λ v. v.items
        ≡ unlisted listing.format listing.entries.items sections.now) }
{
    let Listing {
        format,
        mut entries,
    } = listing;
    entries.sort_unstable();
    let names = listed_names(alloc, format, &entries, sections)?;
    unlisted_among(alloc, &names, sections)
}

/// Checks an index against the sections of its file.
pub fn judge(alloc: Global, listing: Listing, sections: &[Placed]) -> Result<Findings, AllocError>
    ensures { IfOk result (AreFindings listing.format listing.entries.items sections.now) }
{
    let wrong = wrong(alloc, &listing, sections)?;
    let unordered = unordered(alloc, &listing.entries)?;
    let unlisted = unlisted(alloc, listing, sections)?;
    Ok(Findings {
        wrong,
        unordered,
        unlisted,
    })
}
