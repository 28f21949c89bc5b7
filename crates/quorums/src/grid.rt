// Grids: a whole row with a whole column.
ghost use Rattle.std.specs.Prelude.{◌≡◌, ℕ, ◌*◌, ◌<◌, ◌≤◌, MatchResult};
ghost use Rattle.std.proofs.Common.{sym, subst};
ghost use Rattle.words.specs.Refusals.{number};
ghost use Rattle.quorums.specs.Families.{CrossOf, GridOf};
ghost use Rattle.quorums.specs.Grids.{grid_member, grid_share, cross_grid, cross_some};
ghost use Rattle.quorums.specs.Grids;

use crate::cabinets::Cabinets;
use crate::sets::{is_inside, least, with};
use crate::{MAX_CABINETS, QuorumSystem};
use words::refusal::Refusal;

// Cabinet k stands in row k ÷ columns and column k mod columns.
#[derive(Clone, Copy, PartialEq, Eq, Debug)]
pub struct Grid {
    cabinets: Cabinets,
    rows: u8,
    columns: u8,
    ghost whole: { cabinets.count ≡ rows * columns },
}

impl Grid {
    // A grid of so many cabinets, 1 to 16, in rows and columns.
    pub fn new(cabinets: u8, rows: u8, columns: u8) -> Result<Grid, Refusal>
        ensures { MatchResult result (λ g. (g.cabinets.count ≡ cabinets) × (g.rows ≡ rows) × (g.columns ≡ columns)) (λ e. (number e ≡ 1) × ((cabinets ≡ rows * columns) × (1 ≤ cabinets) × (cabinets ≤ 16) → ⊥)) }
    {
        if u16::from(rows) * u16::from(columns) != u16::from(cabinets) {
            return Err(Refusal::BadPlan);
        }
        Ok(Grid {
            cabinets: Cabinets::new(cabinets)?,
            rows,
            columns,
        })
    }

    // The row and the column that cross at a cabinet, together.
    fn cross(&self, at: u8) -> u16
        ensures { CrossOf self.now.cabinets.count self.now.columns at result }
    {
        let columns = self.columns;
        let (row, column) = (at / columns, at % columns);
        // No grid has more cabinets than MAX_CABINETS; said here, it spares the loop the question whether k is below 16.
        let cabinets = self.cabinets.count().min(MAX_CABINETS);
        (0..cabinets).fold(0, |set, k| {
            if k / columns == row || k % columns == column {
                with(set, k)
            } else {
                set
            }
        })
    }
}

impl QuorumSystem for Grid {
    ghost size = { λ g. g.cabinets.count };

    ghost quorum = { λ g. GridOf g.rows g.columns };

    ghost sized = { λ g. (g.cabinets.some, g.cabinets.most) };

    ghost member = { λ g q m. grid_member g.rows g.columns q m };

    ghost line = { λ g q m k h. subst (λ (n : ℕ). k < n) (sym g.whole) ((m.4 k).0 h).0 };

    ghost share = { λ g p q m o. grid_share g.rows g.columns p q m o };

    ghost whole = { λ g.
        let n = g.rows * g.columns in
        let some : 1 ≤ n = subst (λ (m : ℕ). 1 ≤ m) g.whole g.cabinets.some in
        let first = cross_some g.columns 0 n in
        (first.0, cross_grid g.rows g.columns first.0 0 (Grids.columns g.rows g.columns some) some first.1) };

    fn cabinets(&self) -> u8 {
        self.cabinets.count()
    }

    fn pick(&self, given: u16) -> Option<u16> {
        (0..self.cabinets.count())
            .map(|at| self.cross(at))
            .filter(|s| is_inside(*s, given))
            .fold(None, |best, s| Some(least(best, s)))
    }
}
