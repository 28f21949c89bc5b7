// Picks and judgements, compared with walks over whole families that share no code with them.
#![tactic(auto)]

#[cfg(test)]
mod refusals;

#[cfg(test)]
mod tests {
    use quorums::QuorumSystem;
    use quorums::grid::Grid;
    use quorums::majority::Majority;
    use quorums::table::Table;
    use std::alloc::Global;
    use std::process::Abort;
    use std::test::Fail;
    use views::{Verdict, judge};
    use words::tag::Tag;

    // The first of the sets, which come in the order of their numbers, that lies inside the given one.
    fn walk(family: &[u16], given: u16) -> Option<u16> {
        family.iter().copied().find(|s| *s & given == *s)
    }

    // Whether all members of the set are among the first n cabinets.
    fn fits(set: u16, n: u8) -> bool {
        u32::from(set) >> n.min(16) == 0
    }

    // All sets of n cabinets with so many members, in the order of their numbers.
    fn sets_of(heap: Global, n: u8, members: u32) -> Result<Vec<u16>, Fail> {
        let sets = (0..=u16::MAX).filter(|s| fits(*s, n) && s.count_ones() == members);
        Ok(sets.collect(heap)?)
    }

    // Every pick of the system, from each set of so many cabinets, is that of the walk.
    fn compare<S: QuorumSystem>(rt: &impl Abort, system: &S, n: u8, family: &[u16]) {
        for given in (0..=u16::MAX).filter(|s| fits(*s, n)) {
            assert_eq!(rt; system.pick(given), walk(family, given));
        }
    }

    #[test]
    fn majorities(rt: HostRuntime) -> Result<(), Fail> {
        for n in 1..=9u8 {
            let family = sets_of(rt.alloc(), n, u32::from(n / 2 + 1))?;
            compare(&rt, &Majority::new(n)?, n, family.as_slice());
        }
        Ok(())
    }

    // The set of the cabinet in this row and column alone.
    fn single(row: u8, column: u8, columns: u8) -> u16 {
        1u16 << (row.wrapping_mul(columns).wrapping_add(column) % 16)
    }

    // The crossings of a grid, in the order of their numbers.
    fn crossings(heap: Global, rows: u8, columns: u8) -> Result<Vec<u16>, Fail> {
        let mut sets: Vec<u16> = Vec::new(heap);
        for row in 0..rows {
            for column in 0..columns {
                let down = (0..rows).map(|i| single(i, column, columns));
                let across = (0..columns).map(|j| single(row, j, columns));
                sets.push(down.chain(across).fold(0, |s, k| s | k))?;
            }
        }
        sets.sort()?;
        Ok(sets)
    }

    #[test]
    fn grids(rt: HostRuntime) -> Result<(), Fail> {
        for rows in 1..=4u8 {
            for columns in 1..=4u8 {
                let family = crossings(rt.alloc(), rows, columns)?;
                let n = rows.wrapping_mul(columns);
                compare(&rt, &Grid::new(n, rows, columns)?, n, family.as_slice());
            }
        }
        Ok(())
    }

    #[test]
    fn tables(rt: HostRuntime) -> Result<(), Fail> {
        // two that share one; the lines of a plane of seven points; one inside another
        let pair = [3u16, 5];
        compare(&rt, &Table::new(3, pair.to_vec(rt.alloc())?)?, 3, &pair);
        let plane = [7u16, 25, 42, 52, 76, 82, 97];
        compare(&rt, &Table::new(7, plane.to_vec(rt.alloc())?)?, 7, &plane);
        let nested = [3u16, 7, 11];
        compare(&rt, &Table::new(4, nested.to_vec(rt.alloc())?)?, 4, &nested);
        Ok(())
    }

    #[test]
    fn refused_systems(rt: HostRuntime) -> Result<(), Fail> {
        assert!(rt; Majority::new(0).is_err());
        assert!(rt; Majority::new(17).is_err());
        assert!(rt; Grid::new(6, 2, 2).is_err());
        assert!(rt; Grid::new(20, 4, 5).is_err());
        assert!(rt; Table::new(0, [3u16].to_vec(rt.alloc())?).is_err());
        assert!(rt; Table::new(4, Vec::new(rt.alloc())).is_err());
        assert!(rt; Table::new(4, [3u16, 12].to_vec(rt.alloc())?).is_err());
        assert!(rt; Table::new(4, [3u16, 17].to_vec(rt.alloc())?).is_err());
        assert!(rt; Table::new(4, [0u16, 3].to_vec(rt.alloc())?).is_err());
        Ok(())
    }

    // The tags that cabinets 0 to 3 told: the base-3 digits of a number, and 1.
    fn counts(number: u32) -> [u32; 4] {
        [
            number % 3 + 1,
            number / 3 % 3 + 1,
            number / 9 % 3 + 1,
            number / 27 % 3 + 1,
        ]
    }

    // The members of the set that told the count.
    fn holders(set: u16, told: &[u32; 4], count: u32) -> u16 {
        (0..4u8)
            .filter(|k| told[usize::from(*k)] == count)
            .fold(0, |found, k| found | (1u16 << k))
            & set
    }

    fn greatest(set: u16, told: &[u32; 4]) -> u32 {
        (1..=3u32)
            .filter(|count| holders(set, told, *count) != 0)
            .max()
            .unwrap_or(0)
    }

    // What a read does, with the count of its tag and the number of strikes.
    #[derive(Clone, Copy, PartialEq, Eq, Debug)]
    enum Outcome {
        OneTrip { count: u32, strikes: u8 },
        SecondTrip { count: u32, strikes: u8 },
    }

    // Striking as it is told, asking each quorum of the family. It ends within four strikes.
    fn struck(family: &[u16], q: u16, told: &[u32; 4]) -> Option<Outcome> {
        let mut remaining = q;
        for strikes in 0..4u8 {
            let count = greatest(remaining, told);
            let held = holders(remaining, told, count);
            if held == remaining {
                return Some(Outcome::OneTrip { count, strikes });
            }
            let shared = |c: &u16| *c != q && *c & remaining & held == *c & remaining;
            if family.iter().any(shared) {
                let count = greatest(q, told);
                return Some(Outcome::SecondTrip { count, strikes });
            }
            remaining ^= held;
        }
        None
    }

    fn judged<S: QuorumSystem>(system: &S, q: u16, told: &[u32; 4]) -> Option<Outcome> {
        let tags = told.map(|count| Tag { count, owner: 7 });
        judge(system, q, &tags).map(|(verdict, strikes)| match verdict {
            Verdict::OneTrip(Tag { count, .. }) => Outcome::OneTrip { count, strikes },
            Verdict::SecondTrip(Tag { count, .. }) => Outcome::SecondTrip { count, strikes },
        })
    }

    fn compare_reads<S: QuorumSystem>(rt: &impl Abort, system: &S, family: &[u16]) {
        for q in family {
            for number in 0..81u32 {
                let told = counts(number);
                let wanted = struck(family, *q, &told);
                assert!(rt; wanted.is_some());
                assert_eq!(rt; judged(system, *q, &told), wanted);
            }
        }
    }

    #[test]
    fn reads(rt: HostRuntime) -> Result<(), Fail> {
        compare_reads(&rt, &Majority::new(3)?, &[3, 5, 6]);
        compare_reads(&rt, &Majority::new(4)?, &[7, 11, 13, 14]);
        compare_reads(&rt, &Grid::new(4, 2, 2)?, &[7, 11, 13, 14]);
        let pair = [3u16, 5];
        compare_reads(&rt, &Table::new(3, pair.to_vec(rt.alloc())?)?, &pair);
        let nested = [3u16, 7, 11];
        compare_reads(&rt, &Table::new(4, nested.to_vec(rt.alloc())?)?, &nested);
        Ok(())
    }
}
