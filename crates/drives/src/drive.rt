//! One axis at the bottom of a segment.
ghost use Rattle.std.specs.Prelude.{◌≡◌, ◌≤◌, None};
ghost use Rattle.segment.specs.declared.axis.AxisLook.{AxisLook};
ghost use Rattle.segment.specs.Row.{Sound};
ghost use Rattle.segment.specs.Calls.{powered, unpowered, followed, tripped, cleared, ready_reason};
ghost use Rattle.segment.specs.Cycle.{AxisCycled};
ghost use Rattle.drives.specs.Orders.{Order, power_on, power_off, follow_to, trip_with, clear_it, cycle_it};

use segment::AxisLook;

/// The highest code of a fault.
pub const MAX_TRIP_CODE: u8 = 15;

/// A single drive: each order is carried out; whether it may be given is asked before.
pub trait Drive {
    // What the drive shows of its axis.
    ghost seen: { Self → AxisLook };

    // That it is sound.
    ghost sound: { (d : Self) → Sound (seen d) };

    // What an order makes of the drive, all of it and exactly.
    ghost obeys: { Order → Self → Self → Type 0 };

    /// What the drive shows of its axis.
    fn shown(&self) -> AxisLook
        ensures { result ≡ seen self.now };

    /// Asks for power, unless there is a fault.
    fn power_on(&mut self)
        ensures shows { seen self.new ≡ powered (seen self.old) }
        ensures exact { obeys power_on self.old self.new };

    /// Takes power away.
    fn power_off(&mut self)
        ensures shows { seen self.new ≡ unpowered (seen self.old) }
        ensures exact { obeys power_off self.old self.new };

    /// Orders the axis to a position.
    fn follow(&mut self, position: i32)
        requires { ready_reason (seen self.old) position ≡ None }
        ensures shows { seen self.new ≡ followed position (seen self.old) }
        ensures exact { obeys (follow_to position) self.old self.new };

    /// Sets a fault, unless there is one, and takes power away.
    fn trip(&mut self, code: u8)
        requires some { 1 ≤ code }
        requires most { code ≤ 15 }
        ensures shows { seen self.new ≡ tripped code (seen self.old) }
        ensures exact { obeys (trip_with code) self.old self.new };

    /// Takes a fault away.
    fn clear(&mut self)
        ensures shows { seen self.new ≡ cleared (seen self.old) }
        ensures exact { obeys clear_it self.old self.new };

    /// Serves the axis once.
    fn cycle(&mut self)
        ensures shows { AxisCycled (seen self.old) (seen self.new) }
        ensures exact { obeys cycle_it self.old self.new };
}
