// A kind of value that a line can hold.
ghost use Rattle.std.specs.Prelude.{◌≡◌, ℕ, ◌^◌, ◌<◌, ◌≤◌, List, length, take, MatchResult};
ghost use Rattle.words.specs.Judged.{judged, Clean, Faulted, Written};

use crate::refusal::Refusal;

// Each value of the kind has exactly one run of words, and all runs have the same length.
pub trait Value: Copy {
    // which values are values of the kind
    ghost valid: { Self → Type 0 };

    // the run of words of a value
    ghost run: { Self → List ℕ };

    // for each word of a run, the number of the refusal that a word there gets, 0 for a good one
    ghost judges: { List (ℕ → ℕ) };

    // for each word of its run, the number of the refusal that a value to be written gets, or 0
    ghost faults: { Self → List ℕ };

    // How many words a run has.
    fn width() -> usize
        ensures { result ≡ length judges };

    // Whether this is a value of the kind; otherwise the first place at fault.
    fn check(&self) -> Result<(), Refusal>
        ensures { MatchResult result (λ _. valid self.now) (Faulted (faults self.now)) };

    // The value whose run opens the words; otherwise the first word at fault.
    fn read(words: &[u32]) -> Result<Self, Refusal>
        ensures { MatchResult result (λ v. valid v × (take (length judges) words.now ≡ run v)) (Faulted (judged judges words.now)) };

    // Puts the run down at the start of `out`, and answers its length.
    fn write(&self, out: &mut [u32]) -> Result<usize, Refusal>
        ensures { Written (faults self.now) (run self.now) out.old out.new result };

    ghost few: { length judges < 2 ^ 16 };

    ghost within: { (v : Self) → length (faults v) ≤ length judges };

    ghost long: { (v : Self) → valid v → length (run v) ≡ length judges };

    ghost good: { (v : Self) → valid v → Clean (judged judges (run v)) };

    ghost clean: { (v : Self) → valid v → Clean (faults v) };

    // different values have different runs
    ghost apart: { (v w : Self) → valid v → valid w → run v ≡ run w → v ≡ w };
}
