//! The CiA 402 axis is a drive.
ghost use Rattle.std.specs.Prelude.{◌≡◌};
ghost use Rattle.segment.specs.Row.{Position};
ghost use Rattle.drives.specs.Cia402.{cia402_look, cia402_sound, Cia402Obeys, nearer};

use crate::cia402::Cia402Axis;
use crate::drive::Drive;
use crate::drive_state::DriveState;
use segment::AxisLook;

impl Cia402Axis {
    // From the actual position towards the demand, by no more than the lag.
    fn nearer(&self) -> i32
        ensures moved { result ≡ nearer self.now.actual self.now.demand self.now.lag.increments }
        ensures within { Position result }
    {
        let lag = self.lag.increments;
        self.actual + (self.demand - self.actual).clamp(-lag, lag)
    }
}

impl Drive for Cia402Axis {
    ghost seen = { cia402_look };

    ghost sound = { cia402_sound };

    ghost obeys = { Cia402Obeys };

    fn shown(&self) -> AxisLook {
        AxisLook {
            power: self.state.power(self.enable_requested),
            demand: self.demand,
            actual: self.actual,
            fault: self.fault,
            low: self.low,
            high: self.high,
        }
    }

    fn power_on(&mut self) {
        if self.fault == 0 {
            self.enable_requested = true;
        }
    }

    fn power_off(&mut self) {
        self.enable_requested = false;
        self.state = self.state.switched_off();
    }

    fn follow(&mut self, position: i32) {
        self.demand = position;
    }

    fn trip(&mut self, code: u8) {
        if self.fault == 0 {
            self.fault = code;
            self.enable_requested = false;
            self.state = DriveState::FaultReactionActive;
        }
    }

    fn clear(&mut self) {
        self.fault = 0;
        self.state = self.state.cleared();
    }

    fn cycle(&mut self) {
        if self.state == DriveState::OperationEnabled {
            self.actual = self.nearer();
        } else {
            self.demand = self.actual;
            self.state = self.state.cycled(self.enable_requested);
        }
    }
}
