// Quorum systems: which sets of cabinets are quorums, and which quorum lies inside a given set.
#![tactic(auto)]

ghost use Rattle.std.specs.Prelude.{◌≡◌, ℕ, ◌<◌, ◌≤◌};
ghost use Rattle.quorums.specs.Sets.{Member, Share, Picked};

pub mod cabinets;
pub mod grid;
pub mod majority;
pub mod sets;
pub mod table;

// The most cabinets that a line can have.
pub const MAX_CABINETS: u8 = 16;

// A set of cabinets goes by its number, the sum of 2^k over its members k.
pub trait QuorumSystem {
    // the number of cabinets
    ghost size: { Self → ℕ };

    // which sets are quorums
    ghost quorum: { Self → ℕ → Type 0 };

    // The number of cabinets.
    fn cabinets(&self) -> u8
        ensures { result ≡ size self.now };

    // The quorum of least number inside the given set, and none exactly if no quorum lies inside.
    fn pick(&self, given: u16) -> Option<u16>
        ensures { Picked (quorum self.now) given result };

    ghost sized: { (s : Self) → (1 ≤ size s) × (size s ≤ 16) };

    ghost member: { (s : Self) (q : ℕ) → quorum s q → (k : ℕ) × Member k q };

    ghost line: { (s : Self) (q : ℕ) → quorum s q → (k : ℕ) → Member k q → k < size s };

    ghost share: { (s : Self) (p q : ℕ) → quorum s p → quorum s q → Share p q };

    // all cabinets together hold a quorum
    ghost whole: { (s : Self) → (q : ℕ) × quorum s q };
}
