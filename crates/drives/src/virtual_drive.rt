//! The virtual axis is a drive.
ghost use Rattle.drives.specs.Virtual.{VirtualObeys, virtual_sound};

use crate::drive::Drive;
use crate::virtual_axis::VirtualAxis;
use segment::{AxisLook, Power};

impl Drive for VirtualAxis {
    ghost seen = { λ d. d.look };

    ghost sound = { virtual_sound };

    ghost obeys = { VirtualObeys };

    fn shown(&self) -> AxisLook {
        self.look
    }

    fn power_on(&mut self) {
        if self.look.fault == 0 && self.look.power == Power::Off {
            self.look.power = Power::Coming;
        }
    }

    fn power_off(&mut self) {
        self.look.power = Power::Off;
    }

    fn follow(&mut self, position: i32) {
        self.look.demand = position;
    }

    fn trip(&mut self, code: u8) {
        if self.look.fault == 0 {
            self.look.fault = code;
        }
        self.look.power = Power::Off;
    }

    fn clear(&mut self) {
        self.look.fault = 0;
    }

    fn cycle(&mut self) {
        match self.look.power {
            Power::Off => self.look.demand = self.look.actual,
            Power::Coming => {
                self.look.power = Power::On;
                self.look.demand = self.look.actual;
            }
            Power::On => self.look.actual = self.look.demand,
        }
    }
}
