// Tables: 1 to 32 listed quorums.
ghost use Rattle.std.specs.Prelude.{◌≡◌, ℕ, ◌^◌, ◌<◌, ◌≤◌, ◌⊎◌, length, MatchBool, MatchResult, bit_and, slice_index, refl};
ghost use Rattle.words.specs.Refusals.{number};
ghost use Rattle.quorums.specs.Families.{TableOf, Tight};
ghost use Rattle.quorums.specs.Sets.{Picked, Share};
ghost use Rattle.quorums.specs.Tables.{listed_share, listed_line};
ghost use Rattle.quorums.specs.Members.{member_below};

use crate::QuorumSystem;
use crate::cabinets::Cabinets;
use crate::sets::{all, do_share, is_inside, least};
use words::refusal::Refusal;

// The most quorums that a table lists.
pub const MAX_QUORUMS: usize = 32;

#[derive(Drop)]
pub struct Table {
    cabinets: Cabinets,
    quorums: Vec<u16>,
    ghost listed: { 1 ≤ length quorums.items },
    ghost line: { (i : ℕ) → i < length quorums.items → slice_index quorums.items i < 2 ^ cabinets.count },
    ghost share: { (i j : ℕ) → i < length quorums.items → j < length quorums.items → 0 < bit_and (slice_index quorums.items i) (slice_index quorums.items j) },
}

// Whether s shares a cabinet with each of the sets.
fn shares_all(s: u16, sets: &[u16]) -> bool
    ensures { MatchBool result ((k : ℕ) → k < length sets.now → Share s (slice_index sets.now k)) (((k : ℕ) → k < length sets.now → Share s (slice_index sets.now k)) → ⊥) }
{
    sets.iter().all(|t| do_share(s, *t))
}

// Whether the sets are 1 to 32 sets of these cabinets that share one, each two of them.
fn is_tight(cabinets: Cabinets, sets: &[u16]) -> bool
    ensures { MatchBool result (Tight cabinets.count sets.now) (Tight cabinets.count sets.now → ⊥) }
{
    let line = all(cabinets.count());
    (1..=MAX_QUORUMS).contains(&sets.len())
        && sets
            .iter()
            .all(|s| is_inside(*s, line) && shares_all(*s, sets))
}

impl Table {
    // The listed quorums of so many cabinets, 1 to 16.
    pub fn new(cabinets: u8, quorums: Vec<u16>) -> Result<Table, Refusal>
        ensures { MatchResult result (λ t. (t.cabinets.count ≡ cabinets) × (t.quorums.items ≡ quorums.items)) (λ e. ((number e ≡ 1) × ((1 ≤ cabinets) × (cabinets ≤ 16) → ⊥)) ⊎ ((number e ≡ 2) × ((1 ≤ cabinets) × (cabinets ≤ 16)) × (Tight cabinets quorums.items → ⊥))) }
    {
        let cabinets = Cabinets::new(cabinets)?;
        if is_tight(cabinets, quorums.as_slice()) {
            Ok(Table { cabinets, quorums })
        } else {
            Err(Refusal::LooseCrews)
        }
    }
}

impl QuorumSystem for Table {
    ghost size = { λ t. t.cabinets.count };

    ghost quorum = { λ t. TableOf t.quorums.items };

    ghost sized = { λ t. (t.cabinets.some, t.cabinets.most) };

    ghost member = { λ t q m.
        let both = listed_share t.quorums.items t.share q q m m in
        (both.0, both.1) };

    ghost line = { λ t q m k h. member_below t.cabinets.count k q (listed_line t.quorums.items t.cabinets.count t.line q m) h };

    ghost share = { λ t p q m o. listed_share t.quorums.items t.share p q m o };

    ghost whole = { λ t. (slice_index t.quorums.items 0, (0, t.listed, refl)) };

    fn cabinets(&self) -> u8 {
        self.cabinets.count()
    }

    fn pick(&self, given: u16) -> Option<u16> {
        self.quorums
            .iter()
            .copied()
            .filter(|s| is_inside(*s, given))
            .fold(None, |best, s| Some(least(best, s)))
    }
}
