//! Frames, good and faulty, that a program in another language made and judged.

use crate::cases::CASES;
use crate::streams::STREAMS;
use atproto_events::{EventError, Frame, FrameError, Known, UndoError, read_frame, verify_event};
use ipld_tree::Cid;
use program_events::run_events;
use std::alloc::Global;
use std::test::Fail;

/// Returns the word for the verdict.
fn word(error: &EventError) -> &'static str {
    match error {
        EventError::OutOfMemory => "memory",
        EventError::TooBig => "big",
        EventError::Rebase => "rebase",
        EventError::ManyOperations => "many",
        EventError::ManyBytes => "many",
        EventError::NotAfter => "after",
        EventError::OtherRoot => "known",
        EventError::NoRoot => "known",
        EventError::OtherForm => "form",
        EventError::NoCar(_) => "car",
        EventError::OtherCommit => "root",
        EventError::NoCommit(_) => "commit",
        EventError::OtherRepository => "repository",
        EventError::OtherRevision => "revision",
        EventError::LeadsElsewhere => "before",
        EventError::NotUndone(why) => match why {
            UndoError::MissingNode(_) => "missing",
            UndoError::OtherState => "state",
            UndoError::OtherTree => "tree",
            UndoError::OtherBytes(_) => "bytes",
            _ => "other",
        },
    }
}

/// Returns the verdict on the frame, as a word.
fn judged(alloc: Global, frame: &[u8], known: &[u8], rev: &str) -> Result<&'static str, Fail> {
    let Ok(root) = Cid::try_from(known) else {
        return Err(Fail::from("no CID"));
    };
    let known = Some(Known { root, rev });
    match read_frame(alloc, frame) {
        Ok((frame, _rest)) => match &frame {
            Frame::Commit(event) => match verify_event(alloc, event, &known) {
                Ok(_verified) => Ok("ok"),
                Err(error) => Ok(word(&error)),
            },
            _ => Ok("kind"),
        },
        Err(_) => Ok("unread"),
    }
}

#[test]
fn frames_are_judged(rt: HostRuntime) -> Result<(), Fail> {
    let alloc = rt.alloc();
    for row in CASES {
        let said = judged(alloc, row.1, row.2, row.3)?;
        if said != row.4 {
            return Err(Fail::from(format!(in alloc; "{}: {said}, and not {}", row.0, row.4)?));
        }
    }
    Ok(())
}

#[test]
fn no_bytes_are_no_frame(rt: HostRuntime) -> Result<(), Fail> {
    if !matches!(read_frame(rt.alloc(), b""), Err(FrameError::NoEnd)) {
        return Err(Fail::from("a frame was read"));
    }
    Ok(())
}

#[test]
fn frames_stand_one_after_the_other(rt: HostRuntime) -> Result<(), Fail> {
    let alloc = rt.alloc();
    let mut stream = Vec::new(alloc);
    for row in CASES {
        stream.extend_from_slice(row.1)?;
    }
    let mut rest = stream.as_slice();
    for row in CASES {
        let Ok((_frame, following)) = read_frame(alloc, rest) else {
            return Err(Fail::from(row.0));
        };
        rest = following;
    }
    if !rest.is_empty() {
        return Err(Fail::from("bytes are left"));
    }
    Ok(())
}

/// Fails with the bytes as text if they are not this text.
fn compare(alloc: Global, what: &str, found: &[u8], text: &str) -> Result<(), Fail> {
    if found != text.as_bytes() {
        let found = String::from_utf8_lossy(alloc, found)?;
        return Err(Fail::from(format!(in alloc; "{what}: {found}, and not {text}")?));
    }
    Ok(())
}

#[test]
fn lines_are_said_of_streams(rt: HostRuntime) -> Result<(), Fail> {
    let alloc = rt.alloc();
    for row in STREAMS {
        let (mut output, mut errors) = (Vec::new(alloc), Vec::new(alloc));
        let mut input = row.1;
        let status = run_events(alloc, &mut input, &mut output, &mut errors);
        compare(alloc, row.0, &output, row.2)?;
        compare(alloc, row.0, &errors, row.3)?;
        if (status == 0) != row.3.is_empty() || status > 1 {
            return Err(Fail::from(row.0));
        }
    }
    Ok(())
}
