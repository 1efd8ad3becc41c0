//! How the work of a verb ended.

ghost use Rattle.std.specs.Prelude.{◌≡◌};
ghost use Rattle.vip_tools.specs.Status.{ended_status};

use crate::status::Status;
use vip_text::{Limit, RunEnd};

/// How a command ended.
#[derive(Clone, Copy)]
pub enum Ended {
    /// Its text was written.
    Worked,
    /// What was told of a source was written: whether it has a fault.
    Checked { faulty: bool },
    /// It ran up to this limit at most.
    Ran(Limit, RunEnd),
    /// A program's processor idles at this address, and no signal can wake it.
    Idle(u16),
    /// So many bytes of a message were sent, and so many received.
    Linked { sent: u32, received: u32 },
}

impl Ended {
    /// The status that says so.
    pub fn status(&self) -> Status
        ensures { result ≡ ended_status self.now }
    {
        match self {
            Ended::Checked { faulty: true } => Status::BadSource,
            Ended::Checked { faulty: false }
            | Ended::Worked
            | Ended::Idle(_)
            | Ended::Linked { .. } => Status::Done,
            Ended::Ran(_, RunEnd::AtLimit) => Status::Done,
            Ended::Ran(_, RunEnd::AtStop(_)) => Status::Stopped,
        }
    }
}
