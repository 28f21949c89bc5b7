// How many cabinets a line has.
ghost use Rattle.std.specs.Prelude.{◌≡◌, ◌≤◌, MatchResult};
ghost use Rattle.words.specs.Refusals.{number};

use crate::MAX_CABINETS;
use words::refusal::Refusal;

// A number of cabinets, 1 to 16.
#[derive(Clone, Copy, PartialEq, Eq, Debug)]
pub struct Cabinets {
    count: u8,
    ghost some: { 1 ≤ count },
    ghost most: { count ≤ 16 },
}

impl Cabinets {
    // So many cabinets; refused if not 1 to 16.
    pub fn new(count: u8) -> Result<Cabinets, Refusal>
        ensures { MatchResult result (λ c. c.count ≡ count) (λ e. (number e ≡ 1) × ((1 ≤ count) × (count ≤ 16) → ⊥)) }
    {
        if (1..=MAX_CABINETS).contains(&count) {
            Ok(Cabinets { count })
        } else {
            Err(Refusal::BadPlan)
        }
    }

    // The number of cabinets.
    pub fn count(self) -> u8
        ensures { result ≡ self.count }
    {
        self.count
    }
}
