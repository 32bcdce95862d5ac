//! A bank of drives is a segment.
ghost use Rattle.std.specs.Prelude.{◌≡◌, Some, None, MatchResult};
ghost use Rattle.segment.specs.Calls.{ready_reason, PoweredOn, PoweredOff, Followed, Tripped, Cleared};
ghost use Rattle.segment.specs.Cycle.{Cycled};
ghost use Rattle.drives.specs.Orders.{power_on, power_off, follow_to, trip_with, clear_it, There, ObeyedOrNot, AllCycled};
ghost use Rattle.drives.specs.Shown.{row_of, shown_sound};

use crate::bank::Bank;
use crate::drive::{Drive, MAX_TRIP_CODE};
use segment::{AxisLook, Reason, Refusal, Segment};

impl<D> Bank<D> {
    // Whether the row has the axis.
    pub(crate) fn there(&self, axis: usize) -> Result<(), Refusal>
        ensures { There self.now axis result }
    {
        if axis < self.count {
            Ok(())
        } else {
            Err(Refusal::new(Reason::NoSuchAxis))
        }
    }
}

// Whether an axis that looks so may follow to a position: as the look answers, with its reason as a refusal.
fn ready(look: AxisLook, position: i32) -> Result<(), Refusal>
    ensures { MatchResult result (λ _. ready_reason look position ≡ None) (λ e. ready_reason look position ≡ Some e.reason) }
{
    look.ready(position)?;
    Ok(())
}

impl<D: Drive> Segment for Bank<D> {
    ghost shows = { row_of D.Drive.seen };

    ghost sound = { λ s. shown_sound D.Drive.seen s.count s.drives D.Drive.sound s.some s.few };

    fn axes(&self) -> usize {
        self.count
    }

    fn look(&self, axis: usize) -> Result<AxisLook, Refusal> {
        self.there(axis)?;
        Ok(self.drives[axis].shown())
    }

    // No plainer as one helper that takes the drive's method: each body of three lines would become one and a clause. One that
    // lends the drive was tried: there is no proof of a borrow of an array's element in a struct with an invariant.
    fn power_on(&mut self, axis: usize) -> Result<(), Refusal>
        ensures meant { PoweredOn (row_of D.Drive.seen self.old) axis result (row_of D.Drive.seen self.new) }
        ensures exact { ObeyedOrNot D.Drive.obeys power_on axis self.old result self.new }
    {
        self.there(axis)?;
        self.drives[axis].power_on();
        Ok(())
    }

    fn power_off(&mut self, axis: usize) -> Result<(), Refusal>
        ensures meant { PoweredOff (row_of D.Drive.seen self.old) axis result (row_of D.Drive.seen self.new) }
        ensures exact { ObeyedOrNot D.Drive.obeys power_off axis self.old result self.new }
    {
        self.there(axis)?;
        self.drives[axis].power_off();
        Ok(())
    }

    fn follow(&mut self, axis: usize, position: i32) -> Result<(), Refusal>
        ensures meant { Followed (row_of D.Drive.seen self.old) axis position result (row_of D.Drive.seen self.new) }
        ensures exact { ObeyedOrNot D.Drive.obeys (follow_to position) axis self.old result self.new }
    {
        let look = self.look(axis)?;
        ready(look, position)?;
        self.drives[axis].follow(position);
        Ok(())
    }

    fn trip(&mut self, axis: usize, code: u8) -> Result<(), Refusal>
        ensures meant { Tripped (row_of D.Drive.seen self.old) axis code result (row_of D.Drive.seen self.new) }
        ensures exact { ObeyedOrNot D.Drive.obeys (trip_with code) axis self.old result self.new }
    {
        self.there(axis)?;
        if !(1..=MAX_TRIP_CODE).contains(&code) {
            return Err(Refusal::new(Reason::TripCode));
        }
        self.drives[axis].trip(code);
        Ok(())
    }

    fn clear(&mut self, axis: usize) -> Result<(), Refusal>
        ensures meant { Cleared (row_of D.Drive.seen self.old) axis result (row_of D.Drive.seen self.new) }
        ensures exact { ObeyedOrNot D.Drive.obeys clear_it axis self.old result self.new }
    {
        self.there(axis)?;
        self.drives[axis].clear();
        Ok(())
    }

    fn cycle(&mut self)
        ensures meant { Cycled (row_of D.Drive.seen self.old) (row_of D.Drive.seen self.new) }
        ensures exact { AllCycled D.Drive.obeys self.old self.new }
    {
        for drive in self.drives[..self.count].iter_mut() {
            drive.cycle();
        }
    }
}
