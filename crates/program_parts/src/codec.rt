//! The names of codecs.

ghost use Rattle.std.specs.Prelude.{◌≡◌, None, Some, MatchOption};
ghost use Rattle.program_parts.specs.Codecs.{codec_name};

/// Returns the usual name of a codec (multicodec table), if it has one.
pub fn codec_name(codec: u64) -> Option<&'static str>
    ensures { MatchOption result (codec_name codec ≡ None) (λ name. codec_name codec ≡ Some name.now) }
{
    match codec {
        0x55 => Some("raw"),
        0x70 => Some("dag-pb"),
        0x71 => Some("dag-cbor"),
        0x72 => Some("libp2p-key"),
        0x0129 => Some("dag-json"),
        0x0200 => Some("json"),
        _ => None,
    }
}
