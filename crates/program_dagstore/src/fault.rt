//! Why not all was written.

ghost use Rattle.std.specs.Prelude.{◌≡◌};
ghost use Rattle.program_shared.specs.declared.fault.ToolError.TheVariants.{OutOfMemory};
ghost use Rattle.program_dagstore.specs.declared.fault.Fault.TheVariants.{Store, Tool};

use program_shared::ToolError;
use std::alloc::AllocError;
use store_on_disk::StoreRefusal;

/// Why not all was written.
#[derive(Debug, Drop)]
pub enum Fault {
    /// The store refused.
    Store(StoreRefusal),
    /// A device failed, or memory ran out.
    Tool(ToolError),
}

impl From<StoreRefusal> for Fault {
    ghost from_gives = { λ told e. e ≡ Store told };

    fn from(told: StoreRefusal) -> Fault {
        Fault::Store(told)
    }
}

impl From<ToolError> for Fault {
    ghost from_gives = { λ fault e. e ≡ Tool fault };

    fn from(fault: ToolError) -> Fault {
        Fault::Tool(fault)
    }
}

impl From<AllocError> for Fault {
    ghost from_gives = { λ _ e. e ≡ Tool OutOfMemory };

    fn from(_error: AllocError) -> Fault {
        Fault::Tool(ToolError::OutOfMemory)
    }
}
