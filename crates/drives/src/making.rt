//! Making the two segments, and asking for the state of a drive.
ghost use Rattle.std.specs.Prelude.{◌≡◌};
ghost use Rattle.drives.specs.Cia402.{parts};
ghost use Rattle.drives.specs.Laws.Cia402.{LagIsKept, StatesFollowArrows, PowersUp};
ghost use Rattle.drives.specs.Making.{new_cia402, SettingsChecked, LagChecked, BankMade, VirtualMade, Cia402Made, StateAnswered};
ghost use Rattle.drives.specs.Virtual.{fresh};

use crate::bank::{Bank, MAX_AXES};
use crate::cia402::Cia402Axis;
use crate::drive_state::DriveState;
use crate::settings::{Lag, MAX_LAG, Settings};
use crate::virtual_axis::VirtualAxis;
use segment::{AxisLook, Power, Reason, Refusal, is_position};

impl Settings {
    // The start and the range, if all three are positions.
    #[tactic(auto, using(crate::proofs::Positions::position_means))]
    fn new(start: i32, low: i32, high: i32) -> Result<Settings, Refusal>
        ensures { SettingsChecked start low high result }
    {
        if !is_position(start) || !is_position(low) || !is_position(high) {
            return Err(Refusal::new(Reason::Setting));
        }
        Ok(Settings { start, low, high })
    }
}

impl Lag {
    // A lag within its limits.
    fn new(increments: i32) -> Result<Lag, Refusal>
        ensures { LagChecked increments result }
    {
        if !(1..=MAX_LAG).contains(&increments) {
            return Err(Refusal::new(Reason::Setting));
        }
        Ok(Lag { increments })
    }
}

impl VirtualAxis {
    // A new axis: off, at its start.
    fn new(settings: Settings) -> VirtualAxis
        ensures { result.look ≡ fresh settings.start settings.low settings.high }
    {
        let look = AxisLook {
            power: Power::Off,
            demand: settings.start,
            actual: settings.start,
            fault: 0,
            low: settings.low,
            high: settings.high,
        };
        VirtualAxis { look }
    }
}

impl Cia402Axis {
    // A new axis: not ready to switch on, at its start.
    fn new(settings: Settings, lag: Lag) -> Cia402Axis
        ensures { parts result ≡ new_cia402 settings.start settings.low settings.high lag.increments }
    {
        Cia402Axis {
            state: DriveState::NotReadyToSwitchOn,
            enable_requested: false,
            fault: 0,
            demand: settings.start,
            actual: settings.start,
            low: settings.low,
            high: settings.high,
            lag,
        }
    }
}

// A row of axes that are all alike.
fn bank_of<D: Copy>(count: usize, axis: D) -> Result<Bank<D>, Refusal>
    ensures { BankMade count axis result }
{
    if !(1..=MAX_AXES).contains(&count) {
        return Err(Refusal::new(Reason::Setting));
    }
    Ok(Bank {
        drives: [axis; MAX_AXES],
        count,
    })
}

/// A segment of virtual axes, all off, at one start and with one range.
// Plain numbers and no type of them: the call takes any, and refuses what is out of its limits.
pub fn virtual_segment(
    count: usize,
    start: i32,
    low: i32,
    high: i32,
) -> Result<Bank<VirtualAxis>, Refusal>
    ensures { VirtualMade count start low high result }
{
    let settings = Settings::new(start, low, high)?;
    bank_of(count, VirtualAxis::new(settings))
}

/// A segment of CiA 402 drives, all not ready to switch on, at one start, with one range and one lag.
pub fn cia402_segment(
    count: usize,
    start: i32,
    low: i32,
    high: i32,
    lag: i32,
) -> Result<Bank<Cia402Axis>, Refusal>
    ensures made { Cia402Made count start low high lag result }
    ensures lags { LagIsKept }
    ensures arrows { StatesFollowArrows }
    ensures powers { PowersUp }
{
    let settings = Settings::new(start, low, high)?;
    let lag = Lag::new(lag)?;
    bank_of(count, Cia402Axis::new(settings, lag))
}

impl Bank<Cia402Axis> {
    /// The CiA 402 state of an axis's drive.
    pub fn drive_state(&self, axis: usize) -> Result<DriveState, Refusal>
        ensures { StateAnswered self.now axis result }
    {
        self.there(axis)?;
        Ok(self.drives[axis].state)
    }
}
