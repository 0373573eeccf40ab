//! Why a run ends before its input does.

ghost use Rattle.std.specs.Prelude.{◌≡◌};
ghost use Rattle.program_shared.specs.declared.fault.ToolError.TheVariants.{OutOfMemory};

use std::alloc::AllocError;

/// Why a run ended before its input did.
#[derive(Debug, Drop)]
pub enum ToolError {
    Input,
    Output,
    OutOfMemory,
}

impl From<AllocError> for ToolError {
    ghost from_gives = { λ _ e. e ≡ OutOfMemory };

    fn from(_e: AllocError) -> ToolError {
        ToolError::OutOfMemory
    }
}
