//! A store that answers requests, one after the other.

ghost use Rattle.program_serve.specs.Serving.{ServesOne, Serves};

use crate::answer::answer_text;
use crate::give::reply_to;
use crate::heard::{Heard, Pause, hear};
use program_shared::{ToolError, write_all};
use std::alloc::Global;
use std::io::{BufRead, Write};
use store_on_disk::{BlockStore, Store};

/// Answers the next request. Returns `None` if it was answered, and else why no more is.
fn serve_one<S: Store, R: BufRead, W: Write>(
    alloc: Global,
    store: &mut BlockStore<S>,
    requests: &mut R,
    answers: &mut W,
    line: &mut Vec<u8>,
    block: &mut Vec<u8>,
) -> Result<Option<Pause>, ToolError>
    ensures { ServesOne S.Store result (R.remaining requests.old) store.old
        (W.contents answers.old) (R.remaining requests.new) store.new (W.contents answers.new) }
{
    match hear(alloc, requests, line, block)? {
        Heard::Pause(pause) => Ok(Some(pause)),
        Heard::Request(request) => {
            let reply = reply_to(store, &request, block);
            let text = answer_text(alloc, &reply)?;
            write_all(answers, &text)?;
            Ok(None)
        }
    }
}

/// Answers each request of the input, in order, until the input ends, a line is not a request, or a
/// request needs a file, which the caller must open. Each reply is written before the next request
/// is read.
pub fn answer_requests<S: Store, R: BufRead, W: Write>(
    alloc: Global,
    store: &mut BlockStore<S>,
    requests: &mut R,
    answers: &mut W,
) -> Result<Pause, ToolError>
    ensures { Serves S.Store result (R.remaining requests.old) store.old
        (W.contents answers.old) (R.remaining requests.new) store.new (W.contents answers.new) }
{
    let mut line = Vec::new(alloc);
    let mut block = Vec::new(alloc);
    for _count in 0..u64::MAX {
        match serve_one(alloc, store, requests, answers, &mut line, &mut block)? {
            Some(pause) => return Ok(pause),
            None => {}
        }
    }
    Err(ToolError::Input)
}
