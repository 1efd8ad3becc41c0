//! Why a verb that was opened comes to no end.

ghost use Rattle.std.specs.Prelude.{◌≡◌};
ghost use Rattle.vip_tools.specs.Status.{fault_status};

use crate::status::Status;
use vip_outside::Failed;

/// Why a verb that was opened comes to no end. Neither its status nor its report takes memory.
#[derive(Clone, Copy)]
pub enum PerformFault {
    /// It is refused: the run that is to be saved has no dispatch point. Nothing was written to the output.
    NoDispatch,
    /// Not all of the output or the report could be written.
    WriteFault,
}

impl PerformFault {
    /// The status that says so.
    pub fn status(&self) -> Status
        ensures { result ≡ fault_status self.now }
    {
        match self {
            PerformFault::NoDispatch => Status::NoDispatch,
            PerformFault::WriteFault => Status::WriteFault,
        }
    }
}

impl From<Failed> for PerformFault {
    ghost use Rattle.std.specs.Prelude.{◌≡◌};
    ghost use Rattle.vip_tools.specs.declared.fault.PerformFault.TheVariants.{WriteFault};

    ghost from_gives = { λ _ fault. fault ≡ WriteFault };

    fn from(_failed: Failed) -> Self {
        PerformFault::WriteFault
    }
}
