//! The facts about a file, as lines.

ghost use Rattle.std.specs.Prelude.{◌≡◌, ◌++◌, IfOk, OnOk, flat_map};
ghost use Rattle.program_inspect.specs.Facts.{number_line, word_line, root_told, row_line};
ghost use Rattle.program_inspect.specs.Facts.{head_lines, count_lines, plain_text};

use crate::facts::{Facts, Root, index_word};
use crate::kinds::{Kind, kind_word, shown_number};
use crate::rows::Row;
use program_parts::line_of;
use std::alloc::{AllocError, Global};
use text_cid::cid_text;

/// Appends the line of a word and a number.
pub fn push_number(
    alloc: Global,
    out: &mut Vec<u8>,
    word: &str,
    number: u64,
) -> Result<(), AllocError>
    ensures { OnOk result (out.new.items ≡ out.old.items ++ number_line word.now number) }
{
    let line = format!(in alloc; "{word} {number}\n")?;
    out.extend_from_slice(line.as_bytes())?;
    Ok(())
}

/// Appends the line of two words.
fn push_word(alloc: Global, out: &mut Vec<u8>, word: &str, second: &str) -> Result<(), AllocError>
    ensures { OnOk result (out.new.items ≡ out.old.items ++ word_line word.now second.now) }
{
    let line = format!(in alloc; "{word} {second}\n")?;
    out.extend_from_slice(line.as_bytes())?;
    Ok(())
}

/// Returns the line of a root.
fn root_line(alloc: Global, root: &Root) -> Result<Vec<u8>, AllocError>
    ensures { IfOk result (λ v. v.items ≡ root_told root.now) }
{
    let end: &[u8] = if root.there { b" there" } else { b" missing" };
    line_of(alloc, b"root ", &cid_text(&root.cid), end)
}

/// Returns the lines of the roots.
fn root_lines(alloc: Global, roots: &[Root]) -> Result<Vec<u8>, AllocError>
    ensures { IfOk result (λ v. v.items ≡ flat_map root_told roots.now) }
{
    let mut lines = Vec::new(alloc);
    for root in roots {
        let line = root_line(alloc, root)?;
        lines.extend_from_slice(&line)?;
    }
    Ok(lines)
}

/// Returns the line of a codec or a hash.
fn row_line(alloc: Global, kind: Kind, row: &(u64, Row)) -> Result<Vec<u8>, AllocError>
    ensures { IfOk result (λ v. v.items ≡ row_line kind row.now) }
{
    let shown = shown_number(alloc, kind, row.0)?;
    let counts = format!(in alloc; " {} {} {}", shown.as_str(), row.1.count, row.1.bytes)?;
    line_of(alloc, kind_word(kind).as_bytes(), counts.as_bytes(), b"")
}

/// Returns the lines of the codecs or hashes.
fn row_lines(alloc: Global, kind: Kind, rows: &[(u64, Row)]) -> Result<Vec<u8>, AllocError>
    ensures { IfOk result (λ v. v.items ≡ flat_map (row_line kind) rows.now) }
{
    let mut lines = Vec::new(alloc);
    for row in rows {
        let line = row_line(alloc, kind, row)?;
        lines.extend_from_slice(&line)?;
    }
    Ok(lines)
}

/// Returns the lines before those of the roots.
fn head_lines(alloc: Global, facts: &Facts) -> Result<Vec<u8>, AllocError>
    ensures { IfOk result (λ v. v.items ≡ head_lines facts.now) }
{
    let word = index_word(facts.index);
    let (version, roots) = (facts.version, facts.roots.len());
    let mut lines = Vec::new(alloc);
    push_number(alloc, &mut lines, "version", version)?;
    push_word(alloc, &mut lines, "index", word)?;
    push_number(alloc, &mut lines, "roots", roots as u64)?;
    Ok(lines)
}

/// Returns the lines of the section counts.
fn count_lines(alloc: Global, facts: &Facts) -> Result<Vec<u8>, AllocError>
    ensures { IfOk result (λ v. v.items ≡ count_lines facts.now) }
{
    let mut lines = Vec::new(alloc);
    push_number(alloc, &mut lines, "sections", facts.all.count)?;
    push_number(alloc, &mut lines, "repeated", facts.repeated)?;
    push_number(alloc, &mut lines, "bytes", facts.all.bytes)?;
    push_number(alloc, &mut lines, "least", facts.least)?;
    push_number(alloc, &mut lines, "greatest", facts.greatest)?;
    Ok(lines)
}

/// Returns the facts about the file, as lines.
pub fn plain_text(alloc: Global, facts: &Facts) -> Result<Vec<u8>, AllocError>
    ensures { IfOk result (λ v. v.items ≡ plain_text facts.now) }
{
    let mut out = head_lines(alloc, facts)?;
    out.extend_from_slice(&root_lines(alloc, &facts.roots)?)?;
    out.extend_from_slice(&count_lines(alloc, facts)?)?;
    out.extend_from_slice(&row_lines(alloc, Kind::Codec, &facts.codecs)?)?;
    out.extend_from_slice(&row_lines(alloc, Kind::Hash, &facts.hashes)?)?;
    push_number(alloc, &mut out, "missing", facts.missing)?;
    Ok(out)
}
