// Majorities: any n ÷ 2 + 1 of n cabinets.
ghost use Rattle.std.specs.Prelude.{◌≡◌, ◌≤◌, MatchResult};
ghost use Rattle.words.specs.Refusals.{number};
ghost use Rattle.quorums.specs.Families.{MajorityOf};
ghost use Rattle.quorums.specs.Majorities.{majority_member, majority_share, majority_whole};
ghost use Rattle.quorums.specs.Members.{member_below};

use crate::QuorumSystem;
use crate::cabinets::Cabinets;
use crate::sets::{all, has};
use words::refusal::Refusal;

#[derive(Clone, Copy, PartialEq, Eq, Debug)]
pub struct Majority {
    cabinets: Cabinets,
}

impl Majority {
    // The majorities of so many cabinets, 1 to 16.
    pub fn new(cabinets: u8) -> Result<Majority, Refusal>
        ensures { MatchResult result (λ m. m.cabinets.count ≡ cabinets) (λ e. (number e ≡ 1) × ((1 ≤ cabinets) × (cabinets ≤ 16) → ⊥)) }
    {
        Ok(Majority {
            cabinets: Cabinets::new(cabinets)?,
        })
    }
}

impl QuorumSystem for Majority {
    ghost size = { λ m. m.cabinets.count };

    ghost quorum = { λ m. MajorityOf m.cabinets.count };

    ghost sized = { λ m. (m.cabinets.some, m.cabinets.most) };

    ghost member = { λ s q m. majority_member s.cabinets.count q m };

    ghost line = { λ s q m k h. member_below s.cabinets.count k q m.0 h };

    ghost share = { λ s p q m o. majority_share s.cabinets.count p q m o };

    ghost whole = { λ s. majority_whole s.cabinets.count s.cabinets.some };

    fn cabinets(&self) -> u8 {
        self.cabinets.count()
    }

    fn pick(&self, given: u16) -> Option<u16> {
        // the members of the given set up to the last that a majority needs
        (0..self.cabinets.count())
            .filter(|k| has(given, *k))
            .nth(usize::from(self.cabinets.count() / 2))
            .map(|last| given & all(last + 1))
    }
}
