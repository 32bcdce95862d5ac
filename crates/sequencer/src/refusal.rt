//! Why the sequencer refuses a call.
ghost use Rattle.std.specs.Prelude.{◌≡◌};
ghost use Rattle.sequencer.specs.Numbers.{refusal_number};

/// A refusal; a refused call changes nothing.
#[derive(Clone, Copy, PartialEq, Eq, Debug)]
pub enum Refusal {
    /// The block's number is above 31.
    NoSuchBlock = 1,
    /// The block has a command already, at execute.
    BlockNotIdle = 2,
    /// The block's command waits or is active, at release.
    BlockBusy = 3,
    /// The segment has no axis of that number.
    NoSuchAxis = 4,
    /// A value outside its limits, a buffered stop, or a trip code that is not 1 to 15.
    BadValue = 5,
    /// The axis's state forbids the call.
    WrongState = 6,
    /// The command would wait, and four do.
    QueueFull = 7,
    /// The target lies outside the axis's range.
    OutOfRange = 8,
    /// The trail has too few free words.
    TrailFull = 9,
}

impl From<Refusal> for u8 {
    ghost from_gives = { λ refusal number. number ≡ refusal_number refusal };

    fn from(refusal: Refusal) -> u8 {
        refusal as u8
    }
}
