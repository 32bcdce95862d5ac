//! The checks of each call, in their order: the first that fails is the refusal.
ghost use Rattle.std.specs.Prelude.{◌≡◌, ◌<◌, ◌≤◌, MatchResult, OnOk, IfOk};
ghost use Rattle.sequencer.specs.declared.refusal.Refusal.TheVariants.{NoSuchBlock, NoSuchAxis, TrailFull};
ghost use Rattle.sequencer.specs.Checks.{Checked};
ghost use Rattle.sequencer.specs.Executable.{Executable};
ghost use Rattle.sequencer.specs.Refusals.{is_outside, power_refusal, execute_refusal, release_refusal, reset_refusal, trip_refusal, cycle_refusal};
ghost use Rattle.sequencer.specs.Whole.{segment_of, world_of};
ghost use Rattle.trail.specs.Held.{free_words};

use super::Sequencer;
use crate::limits::{is_outside, waits, within_limits};
use crate::refusal::Refusal;
use motion::look_at;
use moves::{AxisNumber, BlockNumber, Instruction};
use records::BufferMode;
use segment::Segment;
use trail::Trail;

// A cycle asks for so many free words.
const CYCLE_WORDS: usize = 64;

// Every other call asks for so many.
const CALL_WORDS: usize = 16;

// The highest fault code.
const MAX_CODE: u32 = 15;

// The block of this number.
pub(super) fn block_there(block: usize) -> Result<BlockNumber, Refusal>
    ensures { MatchResult result (λ b. (b ≡ block) × (block < 32)) (λ e. (32 ≤ block) × (e ≡ NoSuchBlock)) }
{
    BlockNumber::new(block).ok_or(Refusal::NoSuchBlock)
}

// Refuses a call unless the trail takes so many words.
fn room_for(trail: &Trail, words: usize) -> Result<(), Refusal>
    ensures { MatchResult result (λ _. words ≤ free_words trail.now) (λ e. (free_words trail.now < words) × (e ≡ TrailFull)) }
{
    if trail.free() < words {
        return Err(Refusal::TrailFull);
    }
    Ok(())
}

impl<S: Segment> Sequencer<S> {
    // The axis of this number, which the segment has.
    pub(super) fn axis_there(&self, axis: usize) -> Result<AxisNumber, Refusal>
        ensures { MatchResult result (λ a. (a ≡ axis) × (axis < (S.Segment.shows (segment_of self.now)).count)) (λ e. ((S.Segment.shows (segment_of self.now)).count ≤ axis) × (e ≡ NoSuchAxis)) }
    {
        if axis >= self.machine.segment.axes() {
            return Err(Refusal::NoSuchAxis);
        }
        Ok(AxisNumber::of(axis as u8))
    }

    // Whether the target of an instruction for an axis is out of range.
    fn aims_outside(&self, axis: AxisNumber, instruction: Instruction, waits: bool) -> bool
        requires there { axis < (S.Segment.shows (segment_of self.now)).count }
        ensures { result ≡ is_outside instruction waits ((S.Segment.shows (segment_of self.now)).at axis) }
    {
        let look = look_at(&self.machine.segment, axis);
        is_outside(instruction, waits, look)
    }

    // The checks of an execute.
    pub(super) fn check_execute(
        &self,
        trail: &Trail,
        block: usize,
        axis: usize,
        instruction: Instruction,
        mode: BufferMode,
    ) -> Result<(BlockNumber, AxisNumber), Refusal>
        ensures answered { Checked (execute_refusal (world_of S.Segment.shows self.now trail.now) block axis instruction mode) result }
        ensures numbers { IfOk result (λ p. (p.0 ≡ block) × (p.1 ≡ axis)) }
        ensures passed { OnOk result (Executable (world_of S.Segment.shows self.now trail.now) block axis instruction mode) }
    {
        let block = block_there(block)?;
        if !self.machine.table.block(block).status.is_idle() {
            return Err(Refusal::BlockNotIdle);
        }
        let axis = self.axis_there(axis)?;
        if !within_limits(instruction, mode) {
            return Err(Refusal::BadValue);
        }
        let old = self.machine.table.axis(axis);
        if !old.takes_commands() {
            return Err(Refusal::WrongState);
        }
        let waits = waits(mode, old);
        if waits & old.queue.is_full() {
            return Err(Refusal::QueueFull);
        }
        if self.aims_outside(axis, instruction, waits) {
            return Err(Refusal::OutOfRange);
        }
        room_for(trail, CALL_WORDS)?;
        Ok((block, axis))
    }

    // The checks of power on and power off.
    pub(super) fn check_power(&self, trail: &Trail, axis: usize) -> Result<AxisNumber, Refusal>
        ensures answered { Checked (power_refusal (world_of S.Segment.shows self.now trail.now) axis) result }
        ensures number { IfOk result (λ a. a ≡ axis) }
    {
        let axis = self.axis_there(axis)?;
        if self.machine.table.axis(axis).is_errorstop() {
            return Err(Refusal::WrongState);
        }
        room_for(trail, CALL_WORDS)?;
        Ok(axis)
    }

    // The checks of a reset. A function of its own, since with a flag for the one `!` it would be no plainer.
    pub(super) fn check_reset(&self, trail: &Trail, axis: usize) -> Result<AxisNumber, Refusal>
        ensures answered { Checked (reset_refusal (world_of S.Segment.shows self.now trail.now) axis) result }
        ensures number { IfOk result (λ a. a ≡ axis) }
    {
        let axis = self.axis_there(axis)?;
        if !self.machine.table.axis(axis).is_errorstop() {
            return Err(Refusal::WrongState);
        }
        room_for(trail, CALL_WORDS)?;
        Ok(axis)
    }

    // The checks of a trip.
    pub(super) fn check_trip(
        &self,
        trail: &Trail,
        axis: usize,
        code: u32,
    ) -> Result<AxisNumber, Refusal>
        ensures answered { Checked (trip_refusal (world_of S.Segment.shows self.now trail.now) axis code) result }
        ensures number { IfOk result (λ a. a ≡ axis) }
    {
        let axis = self.axis_there(axis)?;
        if !(1..=MAX_CODE).contains(&code) {
            return Err(Refusal::BadValue);
        }
        room_for(trail, CALL_WORDS)?;
        Ok(axis)
    }

    // The checks of a release.
    pub(super) fn check_release(&self, trail: &Trail, block: usize) -> Result<BlockNumber, Refusal>
        ensures answered { Checked (release_refusal (world_of S.Segment.shows self.now trail.now) block) result }
        ensures number { IfOk result (λ b. b ≡ block) }
    {
        let block = block_there(block)?;
        if self.machine.table.block(block).status.is_busy() {
            return Err(Refusal::BlockBusy);
        }
        room_for(trail, CALL_WORDS)?;
        Ok(block)
    }

    // The checks of a cycle.
    pub(super) fn check_cycle(&self, trail: &Trail) -> Result<(), Refusal>
        ensures { Checked (cycle_refusal (world_of S.Segment.shows self.now trail.now)) result }
    {
        room_for(trail, CYCLE_WORDS)
    }
}
