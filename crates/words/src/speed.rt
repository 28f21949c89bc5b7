// Belt speeds.
ghost use Rattle.std.specs.Prelude.{[], ◌∷◌};
ghost use Rattle.words.specs.Speeds.{speed_judge, IsSpeed, speed_faults, speed_run};
ghost use Rattle.std.proofs.Common.{rules};

use crate::refusal::Refusal;
use crate::value::Value;
use crate::word::{VALUE, bits_at, mark};
use std::fmt;

// How many words a speed has.
pub const SPEED_WORDS: usize = 1;

// The greatest belt speed.
pub const MAX_SPEED: u16 = 6000;

// A belt speed, a whole number from 0 to `MAX_SPEED`.
#[derive(Clone, Copy, PartialEq, Eq, PartialOrd, Ord, Debug)]
pub struct Speed(pub u16);

impl Value for Speed {
    ghost valid = { IsSpeed };

    ghost run = { speed_run };

    ghost judges = { speed_judge ∷ [] };

    ghost faults = { speed_faults };

    ghost few = { Prim.search rules };

    ghost within = { Prim.search rules };

    ghost long = { Prim.search rules };

    ghost good = { Prim.search rules };

    ghost clean = { Prim.search rules };

    ghost apart = { Prim.search rules };

    fn width() -> usize {
        SPEED_WORDS
    }

    fn check(&self) -> Result<(), Refusal> {
        if self.0 > MAX_SPEED {
            return Err(Refusal::BadValue { place: 0 });
        }
        Ok(())
    }

    fn read(words: &[u32]) -> Result<Speed, Refusal> {
        let bits = bits_at(VALUE, words, 0).ok_or(Refusal::BadWord { place: 0 })?;
        let bits = u16::try_from(bits).map_err(|_| Refusal::BadValue { place: 0 })?;
        let speed = Speed(bits);
        speed.check()?;
        Ok(speed)
    }

    fn write(&self, out: &mut [u32]) -> Result<usize, Refusal> {
        self.check()?;
        let [word, ..] = out else {
            return Err(Refusal::ShortStrip);
        };
        *word = mark(VALUE, u32::from(self.0));
        Ok(SPEED_WORDS)
    }
}

impl fmt::Display for Speed {
    fn fmt<W: fmt::Write>(&self, f: &mut fmt::Formatter<W>) -> fmt::Result {
        write!(f, "{}", self.0)
    }
}
