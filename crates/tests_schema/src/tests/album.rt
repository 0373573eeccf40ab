//! An album: fields that may be absent, a number of 16 bits, an enum, a list of structs.

use crate::tests::blocks::{
    BLUE, DEMO, DEMO_FORMAT_MAP, DEMO_LABEL, DEMO_LIST, DEMO_NO_TITLE, DEMO_NULL_YEAR,
    DEMO_TEXT_YEAR, DEMO_WAX, DEMO_WIDE_YEAR,
};
use crate::tests::written_again::each_is_written_again;
use std::test::Fail;
use tests_shared_reads::{BLUE_TOLD, DEMO_TOLD, each_answers};
use types_album::Album;

#[test]
fn albums_are_written_again(rt: HostRuntime) -> Result<(), Fail> {
    each_is_written_again::<Album>(rt.alloc(), &[BLUE, DEMO])
}

#[test]
fn albums_are_read(rt: HostRuntime) -> Result<(), Fail> {
    each_answers::<Album>(
        rt.alloc(),
        &[
            (BLUE, BLUE_TOLD),
            (DEMO, DEMO_TOLD),
            // An optional field is absent or a value, and no null.
            (
                DEMO_NULL_YEAR,
                r#"Err(Mismatch { name: "u16", found: 246 })"#,
            ),
            (DEMO_WIDE_YEAR, r#"Err(CastOverflow { name: "u16" })"#),
            (
                DEMO_TEXT_YEAR,
                r#"Err(Mismatch { name: "u16", found: 100 })"#,
            ),
            (DEMO_LABEL, r#"Err(Msg("unknown field"))"#),
            (DEMO_NO_TITLE, r#"Err(Msg("missing field"))"#),
            (DEMO_WAX, r#"Err(Msg("unknown variant"))"#),
            (
                DEMO_FORMAT_MAP,
                r#"Err(Mismatch { name: "enum", found: 161 })"#,
            ),
            (DEMO_LIST, r#"Err(Mismatch { name: "Album", found: 129 })"#),
        ],
    )
}
