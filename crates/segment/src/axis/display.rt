//! A power prints as its word.
ghost use Rattle.std.specs.Prelude.{Some};
ghost use Rattle.segment.specs.Names.{power_name};

use super::Power;
use std::fmt;

impl fmt::Display for Power {
    ghost output = { λ power. Some (power_name power) };

    fn fmt<W: fmt::Write>(&self, f: &mut fmt::Formatter<W>) -> fmt::Result {
        f.write_str(match *self {
            Power::Off => "off",
            Power::Coming => "coming",
            Power::On => "on",
        })
    }
}
