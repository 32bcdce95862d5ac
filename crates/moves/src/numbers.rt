//! Numbers of blocks and of axes.
ghost use Rattle.std.specs.Prelude.{◌≡◌, ◌<◌, ◌≤◌, MatchOption};

use std::marker::Model;

/// A number below `N`, as one of `N` things has it.
#[derive(Clone, Copy, PartialEq, Eq, Debug)]
pub struct Below<const N: u8> {
    number: u8,
}

impl<const N: u8> Model for Below<N> {
    ghost use Rattle.std.specs.Prelude.{ℕ, ◌<◌};

    ghost Value = { ℕ };

    ghost view = { λ x. x.number };

    ghost invariant = { λ x. x.number < N };

    ghost inverse = { λ n. record { number = n } };
}

/// The number of a block, 0 to 31.
pub type BlockNumber = Below<32>;

/// The number of an axis, 0 to 7.
pub type AxisNumber = Below<8>;

impl<const N: u8> Below<N> {
    /// The number, if it is below `N`.
    // An `Option`, and no `TryFrom`: the one refusal would need an error type that says no more than `None`.
    pub fn new(number: usize) -> Option<Below<N>>
        ensures { MatchOption result (N ≤ number) (λ x. (x ≡ number) × (number < N)) }
    {
        if number < usize::from(N) {
            return Some(Below {
                number: number as u8,
            });
        }
        None
    }

    /// A number that is known to be below `N`.
    pub fn of(number: u8) -> Below<N>
        requires { number < N }
        ensures { result ≡ number }
    {
        Below { number }
    }

    /// The number as an index.
    pub fn index(self) -> usize
        ensures same { result ≡ self.entry }
        ensures below { result < N }
    {
        usize::from(self.number)
    }
}

impl<const N: u8> From<Below<N>> for u8 {
    ghost from_gives = { λ x r. (r ≡ x) × (r < N) };

    fn from(number: Below<N>) -> u8 {
        number.number
    }
}
