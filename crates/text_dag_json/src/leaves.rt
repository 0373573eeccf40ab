//! Data that holds no other data.

ghost use Rattle.ipld_tree.specs.Cid.{cid_bytes};
ghost use Rattle.std.specs.Prelude.{◌++◌};
ghost use Rattle.std.specs.Fmt.{signed_decimal};
ghost use Rattle.text_dag_json.specs.DagJson.{boolean_text, bytes_text, link_text, Pushes};

use base64::engine::general_purpose::STANDARD_NO_PAD;
use ipld_tree::Cid;
use std::alloc::{AllocError, Global};
use text_cid::cid_text;

/// Appends `true` or `false`.
pub fn push_boolean(value: bool, out: &mut Vec<u8>) -> Result<(), AllocError>
    ensures { Pushes (boolean_text value) out.old.items result out.new.items }
{
    match value {
        true => out.extend_from_slice(b"true"),
        false => out.extend_from_slice(b"false"),
    }
}

/// Appends an integer in decimal.
pub fn push_integer(alloc: Global, value: &i128, out: &mut Vec<u8>) -> Result<(), AllocError>
    ensures { Pushes (signed_decimal value.now) out.old.items result out.new.items }
{
    let text = format!(in alloc; "{}", *value)?;
    out.extend_from_slice(text.as_bytes())
}

/// Appends a text between two other texts.
fn push_between(first: &[u8], text: &[u8], last: &[u8], out: &mut Vec<u8>) -> Result<(), AllocError>
    ensures { Pushes (first.now ++ (text.now ++ last.now)) out.old.items result out.new.items }
{
    out.extend_from_slice(first)?;
    out.extend_from_slice(text)?;
    out.extend_from_slice(last)
}

/// Appends bytes in base64.
pub fn push_bytes(alloc: Global, bytes: &[u8], out: &mut Vec<u8>) -> Result<(), AllocError>
    ensures { Pushes (bytes_text bytes.now) out.old.items result out.new.items }
{
    let text = STANDARD_NO_PAD.encode(alloc, bytes)?;
    push_between(b"{\"/\":{\"bytes\":\"", text.as_bytes(), b"\"}}", out)
}

/// Appends a link as the text of its CID.
pub fn push_link(cid: &Cid, out: &mut Vec<u8>) -> Result<(), AllocError>
    ensures { Pushes (link_text (cid_bytes cid.now)) out.old.items result out.new.items }
{
    push_between(b"{\"/\":\"", &cid_text(cid), b"\"}", out)
}
