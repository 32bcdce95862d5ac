//! Where a block's command stands.
ghost use Rattle.std.specs.Prelude.{◌≡◌};
ghost use Rattle.moves.specs.Blocks.{status_of, is_idle, is_busy};

use crate::table::Status;
use records::Outcome;

impl From<Outcome> for Status {
    ghost from_gives = { λ outcome r. r ≡ status_of outcome };

    fn from(outcome: Outcome) -> Status {
        match outcome {
            Outcome::Done => Status::Done,
            Outcome::Aborted => Status::Aborted,
            Outcome::Error { cause } => Status::Error { cause },
        }
    }
}

impl Status {
    /// Whether the block has no command.
    pub fn is_idle(self) -> bool
        ensures { result ≡ is_idle self }
    {
        self == Status::Idle
    }

    /// Whether the block's command waits or is active.
    pub fn is_busy(self) -> bool
        ensures { result ≡ is_busy self }
    {
        matches!(self, Status::Waiting | Status::Active)
    }
}
