//! Powers a CiA 402 axis on, leads it to a target through soft limits and a mirror, trips it, clears it, and prints
//! how the axis looks and the state of its drive after each call.
#![tactic(auto)]

use drives::{Bank, Cia402Axis, cia402_segment};
use segment::{AxisLook, Refusal, Segment};
use stages::{Mirror, SoftLimits};
use std::io;

type Line = SoftLimits<Mirror<Bank<Cia402Axis>>>;

// One line: what was called, how the axis looks from above, and its drive's state at the bottom.
// No plainer with an error enum and `?`: each of the four refusals of this program has a text of its own.
fn show(rt: &HostRuntime, call: &str, line: &Line) -> io::Result<()> {
    let Ok(look) = line.look(0) else {
        return rt.println("no axis 0");
    };
    let Ok(state) = line.below().below().drive_state(0) else {
        return rt.println("no drive 0");
    };
    let AxisLook {
        power,
        demand,
        actual,
        fault,
        low,
        high,
    } = look;
    println!(rt;
        "{call}: power {power}, demand {demand}, actual {actual}, fault {fault}, range {low} to {high}; {state}"
    )
}

// What a call answered, where it was refused.
fn answered<T: Copy>(rt: &HostRuntime, call: &str, answer: Result<T, Refusal>) -> io::Result<()> {
    match answer {
        Ok(_) => Ok(()),
        Err(Refusal { reason, depth, .. }) => {
            let number = u8::from(reason);
            println!(rt; "{call}: refused {number} at depth {depth}")
        }
    }
}

fn cycles(rt: &HostRuntime, line: &mut Line, count: u32) -> io::Result<()> {
    for _ in 0..count {
        line.cycle();
        show(rt, "cycle", line)?;
    }
    Ok(())
}

// Follows to a position in one order, and shows the cycles until the drive has caught up.
fn go(rt: &HostRuntime, line: &mut Line, position: i32, count: u32) -> io::Result<()> {
    answered(rt, "follow", line.follow(0, position))?;
    show(rt, "follow", line)?;
    cycles(rt, line, count)
}

fn work(rt: &HostRuntime, line: &mut Line) -> io::Result<()> {
    show(rt, "new", line)?;
    answered(rt, "follow", line.follow(0, 10))?;
    answered(rt, "power on", line.power_on(0))?;
    cycles(rt, line, 4)?;
    go(rt, line, 25, 3)?;
    go(rt, line, 60, 1)?;
    answered(rt, "trip", line.trip(0, 7))?;
    show(rt, "trip", line)?;
    cycles(rt, line, 2)?;
    answered(rt, "follow", line.follow(0, 10))?;
    answered(rt, "clear", line.clear(0))?;
    show(rt, "clear", line)?;
    answered(rt, "power on", line.power_on(0))?;
    cycles(rt, line, 3)?;
    answered(rt, "look at axis 1", line.look(1))
}

fn main(rt: HostRuntime) -> io::Result<()> {
    let Ok(bottom) = cia402_segment(1, 0, -100, 100, 10) else {
        return rt.println("settings refused");
    };
    let Ok(mut line) = SoftLimits::new(Mirror::new(bottom, 1), -50, 50) else {
        return rt.println("soft limits refused");
    };
    work(&rt, &mut line)
}
