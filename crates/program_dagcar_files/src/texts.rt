//! The lines of an index, and of what is wrong with one.

ghost use Rattle.std.specs.Prelude.{◌≡◌, ◌++◌, ◌∷◌, IfOk, OnOk, decimal, flat_map, string_bytes};
ghost use Rattle.program_parts.specs.Lines.{line};
ghost use Rattle.hex.specs.Hex.{encode_lower};
ghost use Rattle.program_dagcar_files.specs.Indexes.{format_name, entry_line, listing_text, finding_line};
ghost use Rattle.program_dagcar_files.specs.Indexes.{unlisted_line, findings_text, count_line, index_fault_line};

use files_index::{Entry, Findings, Format, IndexFault, Listing, Placed};
use program_inspect::{Kind, shown_number};
use program_parts::line_of;
use std::alloc::{AllocError, Global};
use text_cid::cid_text;

/// Returns the bytes in hexadecimal.
fn hex_text(alloc: Global, bytes: &[u8]) -> Result<String, AllocError>
    ensures { IfOk result (λ text. string_bytes text ≡ encode_lower bytes.now) }
{
    hex::encode(alloc, bytes)
}

/// Returns the name of the format (CARv2 specification).
fn format_name(format: Format) -> &'static str
    ensures { result.now ≡ format_name format }
{
    match format {
        Format::ByWidth => "IndexSorted",
        Format::ByMultihash => "MultihashIndexSorted",
    }
}

/// Returns the line of an offset and a digest.
fn width_line(alloc: Global, offset: u64, digest: &str) -> Result<String, AllocError>
    ensures { IfOk result (λ text. string_bytes text ≡ line (decimal offset ++ (32 ∷ digest.now))) }
{
    let text = format!(in alloc; "{offset} {digest}\n")?;
    Ok(text)
}

/// Returns the line of an offset, a hash code and a digest.
fn code_line(alloc: Global, offset: u64, code: &str, digest: &str) -> Result<String, AllocError>
    ensures { IfOk result (λ text. string_bytes text
        ≡ line (decimal offset ++ (32 ∷ (code.now ++ (32 ∷ digest.now))))) }
{
    let text = format!(in alloc; "{offset} {code} {digest}\n")?;
    Ok(text)
}

/// Returns the line of a word, an offset and a digest.
fn word_line(alloc: Global, word: &str, offset: u64, digest: &str) -> Result<String, AllocError>
    ensures { IfOk result (λ text. string_bytes text
        ≡ line (word.now ++ (32 ∷ (decimal offset ++ (32 ∷ digest.now))))) }
{
    let text = format!(in alloc; "{word} {offset} {digest}\n")?;
    Ok(text)
}

/// Returns the line of an entry.
fn entry_text(alloc: Global, format: Format, entry: &Entry) -> Result<String, AllocError>
    ensures { IfOk result (λ text. string_bytes text ≡ entry_line format entry.now) }
{
    let digest = hex_text(alloc, entry.digest())?;
    match format {
        Format::ByWidth => width_line(alloc, entry.offset(), digest.as_str()),
        Format::ByMultihash => {
            let code = shown_number(alloc, Kind::Hash, entry.hash_code())?;
            code_line(alloc, entry.offset(), code.as_str(), digest.as_str())
        }
    }
}

/// Returns the lines of the entries.
fn entry_lines(alloc: Global, format: Format, entries: &[Entry]) -> Result<Vec<u8>, AllocError>
    ensures { IfOk result (λ v. v.items ≡ flat_map (entry_line format) entries.now) }
{
    let mut lines = Vec::new(alloc);
    for entry in entries {
        let line = entry_text(alloc, format, entry)?;
        lines.extend_from_slice(line.as_bytes())?;
    }
    Ok(lines)
}

/// Returns the lines of an index: its format, and its entries.
pub(crate) fn listing_text(alloc: Global, listing: &Listing) -> Result<Vec<u8>, AllocError>
    ensures { IfOk result (λ v. v.items
        ≡ listing_text listing.now.format listing.now.entries.items) }
{
    let mut lines = line_of(
        alloc,
        b"index ",
        format_name(listing.format).as_bytes(),
        b"",
    )?;
    lines.extend_from_slice(&entry_lines(alloc, listing.format, &listing.entries)?)?;
    Ok(lines)
}

/// Returns the line of an entry with a fault.
fn finding_text(alloc: Global, word: &str, entry: &Entry) -> Result<String, AllocError>
    ensures { IfOk result (λ text. string_bytes text ≡ finding_line word.now entry.now) }
{
    let digest = hex_text(alloc, entry.digest())?;
    word_line(alloc, word, entry.offset(), digest.as_str())
}

/// Returns the lines of entries with the same fault.
fn finding_lines(alloc: Global, word: &str, entries: &[Entry]) -> Result<Vec<u8>, AllocError>
    ensures { IfOk result (λ v. v.items ≡ flat_map (finding_line word.now) entries.now) }
{
    let mut lines = Vec::new(alloc);
    for entry in entries {
        let line = finding_text(alloc, word, entry)?;
        lines.extend_from_slice(line.as_bytes())?;
    }
    Ok(lines)
}

/// Returns the line of a section that no right entry leads to.
fn unlisted_line(alloc: Global, section: &Placed) -> Result<Vec<u8>, AllocError>
    ensures { IfOk result (λ v. v.items ≡ unlisted_line section.now) }
{
    let place = format!(in alloc; " {}", section.offset)?;
    line_of(
        alloc,
        b"unlisted ",
        &cid_text(&section.cid),
        place.as_bytes(),
    )
}

/// Returns the lines of such sections.
fn unlisted_lines(alloc: Global, sections: &[Placed]) -> Result<Vec<u8>, AllocError>
    ensures { IfOk result (λ v. v.items ≡ flat_map unlisted_line sections.now) }
{
    let mut lines = Vec::new(alloc);
    for section in sections {
        let line = unlisted_line(alloc, section)?;
        lines.extend_from_slice(&line)?;
    }
    Ok(lines)
}

/// Returns the three joined.
fn joined(first: Vec<u8>, second: &[u8], third: &[u8]) -> Result<Vec<u8>, AllocError>
    ensures { IfOk result (λ v. v.items ≡ first.items ++ (second.now ++ third.now)) }
{
    let mut lines = first;
    lines.extend_from_slice(second)?;
    lines.extend_from_slice(third)?;
    Ok(lines)
}

/// Returns a line for each finding.
pub(crate) fn findings_text(alloc: Global, found: &Findings) -> Result<Vec<u8>, AllocError>
    ensures { IfOk result (λ v. v.items ≡ findings_text found.now) }
{
    let wrong = finding_lines(alloc, "wrong", &found.wrong)?;
    let unordered = finding_lines(alloc, "unordered", &found.unordered)?;
    let unlisted = unlisted_lines(alloc, &found.unlisted)?;
    joined(wrong, &unordered, &unlisted)
}

/// Appends the line with the number of entries.
pub(crate) fn push_count(alloc: Global, lines: &mut Vec<u8>, count: u64) -> Result<(), AllocError>
    ensures { OnOk result (lines.new.items ≡ lines.old.items ++ count_line count) }
{
    let line = format!(in alloc; "entries {count}\n")?;
    lines.extend_from_slice(line.as_bytes())
}

/// Returns the line that says why the bytes in the place of an index are not one.
pub(crate) fn index_fault_line(fault: IndexFault) -> &'static str
    ensures { result.now ≡ index_fault_line fault }
{
    match fault {
        IndexFault::Truncated => "refused IndexTruncated\n",
        IndexFault::UnknownFormat => "refused IndexFormat\n",
        IndexFault::Width => "refused IndexWidth\n",
        IndexFault::Order => "refused IndexOrder\n",
        IndexFault::Length => "refused IndexLength\n",
    }
}
