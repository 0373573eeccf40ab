//! An album, written and read. A script that knows only the rules made the bytes of the rows.

use std::alloc::{AllocError, Global};
use std::test::Fail;
use tests_shared::writes;
use tests_shared_reads::{BLUE_TOLD, DEMO_TOLD, each_answers};
use types_by_hand::{Album, Format, Track};

fn track(
    alloc: Global,
    note: Option<&str>,
    title: &str,
    seconds: u32,
) -> Result<Track, AllocError> {
    let note = match note {
        Some(note) => Some(String::from_str(alloc, note)?),
        None => None,
    };
    let title = String::from_str(alloc, title)?;
    Ok(Track {
        note,
        title,
        seconds,
    })
}

fn album(
    alloc: Global,
    year: Option<u16>,
    title: &str,
    format: Format,
) -> Result<Album, AllocError> {
    Ok(Album {
        year,
        title: String::from_str(alloc, title)?,
        format,
        tracks: Vec::new(alloc),
    })
}

const BLUE: &[u8] = b"\xa4\x64year\x19\x07\xb3\x65title\x64Blue\x66format\x65Vinyl\x66tracks\
      \x82\xa3\x64note\x66take 2\x65title\x65Carey\x67seconds\x18\xb6\
      \xa2\x65title\x65River\x67seconds\x18\xf4";

const UNDATED: &[u8] = b"\xa3\x65title\x64Demo\x66format\x64Tape\x66tracks\x80";

const GREATEST: &[u8] = b"\xa4\x64year\x19\xff\xff\x65title\x60\x66format\x64Disc\x66tracks\
      \x81\xa3\x64note\x60\x65title\x60\x67seconds\x1a\xff\xff\xff\xff";

#[test]
fn albums_are_written(rt: HostRuntime) -> Result<(), Fail> {
    let alloc = rt.alloc();
    let mut blue = album(alloc, Some(1971), "Blue", Format::Vinyl)?;
    blue.tracks
        .push(track(alloc, Some("take 2"), "Carey", 182)?)?;
    blue.tracks.push(track(alloc, None, "River", 244)?)?;
    writes(alloc, &blue, BLUE)?;
    writes(alloc, &album(alloc, None, "Demo", Format::Tape)?, UNDATED)?;
    let mut greatest = album(alloc, Some(u16::MAX), "", Format::Disc)?;
    greatest.tracks.push(track(alloc, Some(""), "", u32::MAX)?)?;
    writes(alloc, &greatest, GREATEST)
}

#[test]
fn albums_are_read(rt: HostRuntime) -> Result<(), Fail> {
    each_answers::<Album>(
        rt.alloc(),
        &[
            (BLUE, BLUE_TOLD),
            (UNDATED, DEMO_TOLD),
            // A null is read as if the field were left out.
            (
                b"\xa4\x64year\xf6\x65title\x64Demo\x66format\x64Tape\x66tracks\x80",
                DEMO_TOLD,
            ),
            (
                GREATEST,
                r#"Ok(Album { year: Some(65535), title: "", format: Disc, tracks: [Track { note: Some(""), title: "", seconds: 4294967295 }] })"#,
            ),
            (
                b"\xa4\x64year\x1a\x00\x01\x00\x00\x65title\x64Demo\x66format\x64Tape\x66tracks\x80",
                r#"Err(CastOverflow { name: "u16" })"#,
            ),
            (
                b"\xa3\x65title\x64Demo\x66format\x63Wax\x66tracks\x80",
                r#"Err(Msg("unknown variant"))"#,
            ),
            (
                b"\xa2\x65title\x64Demo\x66tracks\x80",
                r#"Err(Msg("missing field"))"#,
            ),
            (
                b"\xa3\x65title\x64Demo\x66format\x64Disc\x66tracks\x81\xa1\x67seconds\x01",
                r#"Err(Msg("missing field"))"#,
            ),
            (
                b"\xa4\x65label\xa1\x61a\x82\x01\x20\x65title\x64Demo\x66format\x64Tape\x66tracks\x80",
                DEMO_TOLD,
            ),
        ],
    )
}
