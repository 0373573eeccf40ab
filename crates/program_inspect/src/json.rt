//! The facts about a file, as JSON.

ghost use Rattle.std.specs.Prelude.{◌≡◌, ◌∷◌, ◌++◌, [], IfOk, map, flat_map, string_bytes};
ghost use Rattle.text_dag_json.specs.DagJson.{joined, list_text};
ghost use Rattle.program_inspect.specs.Facts.{root_json, row_json, json_head, json_counts};
ghost use Rattle.program_inspect.specs.Facts.{json_front, json_hashes, json_end, json_text};

use crate::facts::{Facts, Root, index_word};
use crate::kinds::{Kind, kind_word, shown_number};
use crate::rows::Row;
use std::alloc::{AllocError, Global};
use text_cid::cid_text;

/// Returns the object of a root.
fn root_json(alloc: Global, root: &Root) -> Result<Vec<u8>, AllocError>
    ensures { IfOk result (λ v. v.items ≡ root_json root.now) }
{
    let end: &[u8] = if root.there { b"true" } else { b"false" };
    let mut out = Vec::new(alloc);
    out.extend_from_slice(b"{\"cid\":\"")?;
    out.extend_from_slice(&cid_text(&root.cid))?;
    out.extend_from_slice(b"\",\"there\":")?;
    out.extend_from_slice(end)?;
    out.extend_from_slice(b"}")?;
    Ok(out)
}

/// Returns the objects of these roots, each after a comma.
fn more_roots(alloc: Global, roots: &[Root]) -> Result<Vec<u8>, AllocError>
    ensures { IfOk result (λ v. v.items ≡ flat_map (λ r. 44 ∷ root_json r) roots.now) }
{
    let mut out = Vec::new(alloc);
    for root in roots {
        out.push(b',')?;
        out.extend_from_slice(&root_json(alloc, root)?)?;
    }
    Ok(out)
}

/// Returns the objects of the roots, with commas between.
fn joined_roots(alloc: Global, roots: &[Root]) -> Result<Vec<u8>, AllocError>
    ensures { IfOk result (λ v. v.items ≡ joined (map root_json roots.now)) }
{
    match roots.split_first() {
        Some((first, others)) => {
            let mut out = root_json(alloc, first)?;
            out.extend_from_slice(&more_roots(alloc, others)?)?;
            Ok(out)
        }
        None => Ok(Vec::new(alloc)),
    }
}

/// Returns the list of these joined texts.
fn list_of(alloc: Global, texts: &[u8]) -> Result<Vec<u8>, AllocError>
    ensures { IfOk result (λ v. v.items ≡ 91 ∷ (texts.now ++ 93 ∷ [])) }
{
    let mut out = Vec::new(alloc);
    out.push(b'[')?;
    out.extend_from_slice(texts)?;
    out.push(b']')?;
    Ok(out)
}

/// Returns the list of the roots.
fn root_list(alloc: Global, roots: &[Root]) -> Result<Vec<u8>, AllocError>
    ensures { IfOk result (λ v. v.items ≡ list_text (map root_json roots.now)) }
{
    let texts = joined_roots(alloc, roots)?;
    list_of(alloc, &texts)
}

/// Returns the object of a codec or a hash.
fn row_json(alloc: Global, kind: Kind, row: &(u64, Row)) -> Result<Vec<u8>, AllocError>
    ensures { IfOk result (λ v. v.items ≡ row_json kind row.now) }
{
    let shown = shown_number(alloc, kind, row.0)?;
    let mut out = Vec::new(alloc);
    out.extend_from_slice(b"{\"")?;
    out.extend_from_slice(kind_word(kind).as_bytes())?;
    let text = format!(in alloc;
        "\":\"{}\",\"sections\":{},\"bytes\":{}}}",
        shown.as_str(),
        row.1.count,
        row.1.bytes
    )?;
    out.extend_from_slice(text.as_bytes())?;
    Ok(out)
}

/// Returns the objects of these codecs or hashes, each after a comma.
fn more_rows(alloc: Global, kind: Kind, rows: &[(u64, Row)]) -> Result<Vec<u8>, AllocError>
    ensures { IfOk result (λ v. v.items ≡ flat_map (λ r. 44 ∷ row_json kind r) rows.now) }
{
    let mut out = Vec::new(alloc);
    for row in rows {
        out.push(b',')?;
        out.extend_from_slice(&row_json(alloc, kind, row)?)?;
    }
    Ok(out)
}

/// Returns the objects of the codecs or hashes, with commas between.
fn joined_rows(alloc: Global, kind: Kind, rows: &[(u64, Row)]) -> Result<Vec<u8>, AllocError>
    ensures { IfOk result (λ v. v.items ≡ joined (map (row_json kind) rows.now)) }
{
    match rows.split_first() {
        Some((first, others)) => {
            let mut out = row_json(alloc, kind, first)?;
            out.extend_from_slice(&more_rows(alloc, kind, others)?)?;
            Ok(out)
        }
        None => Ok(Vec::new(alloc)),
    }
}

/// Returns the list of the codecs or hashes.
fn row_list(alloc: Global, kind: Kind, rows: &[(u64, Row)]) -> Result<Vec<u8>, AllocError>
    ensures { IfOk result (λ v. v.items ≡ list_text (map (row_json kind) rows.now)) }
{
    let texts = joined_rows(alloc, kind, rows)?;
    list_of(alloc, &texts)
}

/// Returns the object up to the list of roots.
fn json_head(alloc: Global, facts: &Facts) -> Result<String, AllocError>
    ensures { IfOk result (λ text. string_bytes text ≡ json_head facts.now) }
{
    let index = index_word(facts.index);
    format!(in alloc;
        "{{\"version\":{},\"index\":\"{}\",\"roots\":",
        facts.version, index
    )
}

/// Returns the part between the list of roots and the list of codecs.
fn json_counts(alloc: Global, facts: &Facts) -> Result<String, AllocError>
    ensures { IfOk result (λ text. string_bytes text ≡ json_counts facts.now) }
{
    format!(in alloc;
        ",\"sections\":{},\"repeated\":{},\"bytes\":{},\"least\":{},\"greatest\":{},\"codecs\":",
        facts.all.count, facts.repeated, facts.all.bytes, facts.least, facts.greatest
    )
}

/// Returns the three texts joined.
fn three(alloc: Global, first: &[u8], second: &[u8], third: &[u8]) -> Result<Vec<u8>, AllocError>
    ensures { IfOk result (λ v. v.items ≡ first.now ++ (second.now ++ third.now)) }
{
    let mut out = Vec::new(alloc);
    out.extend_from_slice(first)?;
    out.extend_from_slice(second)?;
    out.extend_from_slice(third)?;
    Ok(out)
}

/// Returns the object up to the list of codecs.
fn json_front(alloc: Global, facts: &Facts) -> Result<Vec<u8>, AllocError>
    ensures { IfOk result (λ v. v.items ≡ json_front facts.now) }
{
    let head = json_head(alloc, facts)?;
    let roots = root_list(alloc, &facts.roots)?;
    let counts = json_counts(alloc, facts)?;
    three(alloc, head.as_bytes(), &roots, counts.as_bytes())
}

/// Returns the part after the list of hashes.
fn json_end(alloc: Global, missing: u64) -> Result<String, AllocError>
    ensures { IfOk result (λ text. string_bytes text ≡ json_end missing) }
{
    format!(in alloc; ",\"missing\":{missing}}}\n")
}

/// Returns the part from the list of hashes on, and a line feed.
fn json_hashes(alloc: Global, facts: &Facts) -> Result<Vec<u8>, AllocError>
    ensures { IfOk result (λ v. v.items ≡ json_hashes facts.now) }
{
    let hashes = row_list(alloc, Kind::Hash, &facts.hashes)?;
    let end = json_end(alloc, facts.missing)?;
    three(alloc, b",\"hashes\":", &hashes, end.as_bytes())
}

/// Returns the facts about the file, as a JSON object in a line.
pub fn json_text(alloc: Global, facts: &Facts) -> Result<Vec<u8>, AllocError>
    ensures { IfOk result (λ v. v.items ≡ json_text facts.now) }
{
    let front = json_front(alloc, facts)?;
    let codecs = row_list(alloc, Kind::Codec, &facts.codecs)?;
    let hashes = json_hashes(alloc, facts)?;
    three(alloc, &front, &codecs, &hashes)
}
