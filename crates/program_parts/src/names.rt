//! The names of the causes for which a file is refused, and the line of a text that is not a CID.

ghost use Rattle.std.specs.Prelude.{◌≡◌};
ghost use Rattle.program_parts.specs.Lines.{no_cid_line};
ghost use Rattle.program_parts.specs.Names.{fault_name, pb_cause_name};

use dag_pb::PbCause;
use files_car::CarError;
use text_cid::CidTextError;

/// Returns the name of the cause for which a file is refused.
pub fn fault_name<E>(refusal: &CarError<E>) -> &'static str
    ensures { result.now ≡ fault_name refusal.now }
{
    match refusal {
        CarError::Read(_) => "Read",
        CarError::Truncated => "Truncated",
        CarError::InvalidLength => "InvalidLength",
        CarError::InvalidCid(_) => "InvalidCid",
        CarError::NoBlock(_) => "NoBlock",
        CarError::OtherHeader => "OtherHeader",
        CarError::InvalidOffset => "InvalidOffset",
        CarError::OutOfMemory => "OutOfMemory",
    }
}

/// Returns the name of the cause for which a block is not DAG-PB.
pub fn pb_cause_name(cause: &PbCause) -> &'static str
    ensures { result.now ≡ pb_cause_name cause.now }
{
    match cause {
        PbCause::Truncated => "Truncated",
        PbCause::InvalidVarint => "InvalidVarint",
        PbCause::UnexpectedField(_) => "UnexpectedField",
        PbCause::NoHash => "NoHash",
        PbCause::InvalidCid(_) => "InvalidCid",
    }
}

/// Returns the line of a text that should be a CID and is not.
pub fn no_cid_line(refusal: &CidTextError) -> &'static str
    ensures { result.now ≡ no_cid_line refusal.now }
{
    match refusal {
        CidTextError::UnknownBase => "no CID: UnknownBase\n",
        CidTextError::TooLong => "no CID: TooLong\n",
        CidTextError::InvalidCharacter => "no CID: InvalidCharacter\n",
        CidTextError::InvalidLength => "no CID: InvalidLength\n",
        CidTextError::TrailingBits => "no CID: TrailingBits\n",
        CidTextError::LeadingZero => "no CID: LeadingZero\n",
        CidTextError::InvalidCid(_) => "no CID: InvalidCid\n",
        CidTextError::InvalidVersion => "no CID: InvalidVersion\n",
    }
}
