// What a bay shows, as people write it.
ghost use Rattle.std.specs.Prelude.{Some};
ghost use Rattle.bay.specs.Words.{shown_words};

use crate::Shown;
use std::fmt;

impl fmt::Display for Shown {
    ghost output = { λ shown. Some (shown_words shown) };

    fn fmt<W: fmt::Write>(&self, f: &mut fmt::Formatter<W>) -> fmt::Result {
        let mode = if self.running { "running" } else { "held" };
        write!(f, "{mode} {} {}", self.place, self.value)
    }
}
