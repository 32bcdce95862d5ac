//! How fast an axis may step: the ramp step of a move, and the step of a velocity.
#![tactic(auto)]

mod begin;
mod braking;
mod motion;
mod rate;
mod step;
mod velocity;
mod way;

pub use motion::Motion;
pub use rate::{Ramp, Rate};
pub use velocity::velocity_step;

#[cfg(test)]
mod tests {
    use super::*;

    fn stepped(
        distance_to_go: i32,
        velocity: i32,
        max_velocity: u32,
        max_acceleration: u32,
    ) -> Option<(i32, i32)> {
        let motion = Motion::begin(distance_to_go, velocity)?;
        let max_velocity = Rate::new(max_velocity)?;
        let max_acceleration = Rate::new(max_acceleration)?;
        Some(motion.ramp_step(Ramp {
            max_velocity,
            max_acceleration,
        }))
    }

    #[test]
    fn a_move_that_is_too_fast_comes_back(rt: HostRuntime) {
        assert_eq!(rt; stepped(1, 5, 5, 2), Some((3, -2)));
        assert_eq!(rt; stepped(-2, 3, 5, 2), Some((1, -3)));
        assert_eq!(rt; stepped(-3, 1, 5, 2), Some((0, -3)));
        assert_eq!(rt; stepped(-3, 0, 5, 2), Some((-2, -1)));
        assert_eq!(rt; stepped(-1, -2, 5, 2), Some((-1, 0)));
        assert_eq!(rt; stepped(0, -1, 5, 2), Some((0, 0)));
    }

    #[test]
    fn rates_and_motions_compare(rt: HostRuntime) {
        assert_eq!(rt; Rate::new(1), Rate::new(1));
        assert_ne!(rt; Rate::new(1), Rate::new(2));
        assert_eq!(rt; Motion::begin(1, 5), Motion::begin(1, 5));
        assert_ne!(rt; Motion::begin(1, 5), Motion::begin(1, -5));
        assert_eq!(rt; Motion::begin(300_000_001, 0), None);
    }

    #[test]
    fn limits_are_kept(rt: HostRuntime) {
        assert_eq!(rt;
            stepped(300_000_000, -10_000, 10_000, 1),
            Some((-9_999, 300_009_999))
        );
        assert_eq!(rt; stepped(300_000_001, 0, 1, 1), None);
        assert_eq!(rt; stepped(0, -10_001, 1, 1), None);
        assert_eq!(rt; stepped(0, 0, 0, 1), None);
        assert_eq!(rt; stepped(0, 0, 1, 10_001), None);
    }
}
