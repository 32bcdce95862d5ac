//! How a stage hands up what the segment below it answers.
ghost use Rattle.segment.specs.Calls.{Handed};
ghost use Rattle.stages.specs.HandingUp.{Deeper};

use segment::Refusal;

// The answer from below; a refusal goes up one stage.
pub(crate) fn up<X>(answer: Result<X, Refusal>) -> Result<X, Refusal>
    ensures handed { Handed answer result }
    ensures deeper { Deeper answer result }
{
    answer.map_err(Refusal::handed_up)
}
