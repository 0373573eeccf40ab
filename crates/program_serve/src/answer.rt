//! The texts of replies.

ghost use Rattle.std.specs.Prelude.{◌≡◌, IfOk, IfErr, codes, decimal, flat_map};
ghost use Rattle.program_dagstore.specs.Changes.{cid_line};
ghost use Rattle.program_dagstore.specs.Refusals.{refusal_lines};
ghost use Rattle.program_serve.specs.Replies.{framed, reply_text};
ghost use Rattle.program_shared.specs.declared.fault.ToolError.TheVariants.{OutOfMemory};

use crate::reply::Reply;
use ipld_tree::Cid;
use itoa::Buffer;
use program_dagstore::{lines_of, write_lines};
use program_parts::line_of;
use program_shared::ToolError;
use std::alloc::{AllocError, Global};
use store_on_disk::StoreRefusal;
use text_cid::cid_text;

/// Returns a line with the word and the length of the body in bytes, and then the body.
pub fn framed(alloc: Global, word: &[u8], body: &[u8]) -> Result<Vec<u8>, AllocError>
    ensures { IfOk result (λ v. v.items ≡ framed word.now body.now) }
{
    let mut digits = Buffer::new();
    let mut text = line_of(alloc, word, b" ", digits.format(body.len()).as_bytes())?;
    text.extend_from_slice(body)?;
    Ok(text)
}

/// Returns the lines of a refusal.
fn refusal_lines(alloc: Global, refusal: &StoreRefusal) -> Result<Vec<u8>, ToolError>
    ensures ok { IfOk result (λ v. v.items ≡ refusal_lines refusal.now) }
    ensures memory { IfErr result (λ e. e ≡ OutOfMemory) }
{
    let mut lines = Vec::new(alloc);
    match write_lines(refusal, &mut lines) {
        Ok(()) => Ok(lines),
        Err(_) => Err(ToolError::OutOfMemory),
    }
}

/// Returns the reply for a refusal.
pub fn refused_text(alloc: Global, refusal: &StoreRefusal) -> Result<Vec<u8>, ToolError>
    ensures ok { IfOk result (λ v. v.items ≡ framed (codes "refused") (refusal_lines refusal.now)) }
    ensures memory { IfErr result (λ e. e ≡ OutOfMemory) }
{
    let lines = refusal_lines(alloc, refusal)?;
    Ok(framed(alloc, b"refused", &lines)?)
}

/// Returns the reply for a list of names.
#[tactic(auto, using(program_dagstore::proofs::Removing::plain_lines))]
fn names_text(alloc: Global, names: &[Cid]) -> Result<Vec<u8>, AllocError>
    ensures { IfOk result (λ v. v.items ≡ framed (codes "ok") (flat_map cid_line names.now)) }
{
    let lines = lines_of(alloc, names, b"")?;
    framed(alloc, b"ok", &lines)
}

/// Returns the reply for a count.
fn count_text(alloc: Global, count: u64) -> Result<Vec<u8>, AllocError>
    ensures { IfOk result (λ v. v.items ≡ framed (codes "ok") (decimal count)) }
{
    let mut digits = Buffer::new();
    framed(alloc, b"ok", digits.format(count).as_bytes())
}

/// Returns the text of a reply. The only error is out of memory.
pub fn answer_text(alloc: Global, reply: &Reply) -> Result<Vec<u8>, ToolError>
    ensures ok { IfOk result (λ v. v.items ≡ reply_text reply.now) }
    ensures memory { IfErr result (λ e. e ≡ OutOfMemory) }
{
    match reply {
        Reply::Done => Ok(framed(alloc, b"ok", b"")?),
        Reply::Nothing => Ok(framed(alloc, b"none", b"")?),
        Reply::Block(block) => Ok(framed(alloc, b"ok", block)?),
        Reply::Name(name) => Ok(framed(alloc, b"ok", &cid_text(name))?),
        Reply::Names(names) => Ok(names_text(alloc, names)?),
        Reply::Count(count) => Ok(count_text(alloc, *count)?),
        Reply::Refused(refusal) => refused_text(alloc, refusal),
    }
}
