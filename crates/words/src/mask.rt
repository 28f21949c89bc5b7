// Valve masks.
ghost use Rattle.words.specs.Parts.{mask_judges, IsMask, mask_faults, mask_run, part_fault, parts_run, Small};
ghost use Rattle.std.specs.Prelude.{◌≡◌, ℕ, ◌≤◌, List, ◌++◌, map, length, take, drop, replicate, MatchResult};
ghost use Rattle.std.proofs.Common.{◌∙◌, subst, ap, arith, rules};
ghost use Rattle.words.specs.Judged.{judged, Faulted, Clean};
ghost use Rattle.words.specs.Words.{kind_judge, marked};
ghost use Rattle.std.proofs.lemmas.List.{length-map, length-take};
ghost use Rattle.words.specs.PartRows.{row_good, mask_clean, row_apart};
ghost use Rattle.words.specs.declared.mask.Mask.{Mask};

use crate::refusal::Refusal;
use crate::value::Value;
use crate::word::{VALUE, bits_at, mark};
use std::fmt;

// How many parts a mask has.
pub const MASK_PARTS: usize = 4;

// The greatest part, 28 bits.
pub const MAX_PART: u32 = 0x0fff_ffff;

// Which of 112 valves are open: four parts of 28 bits, valve 0 the lowest bit of the first part.
#[derive(Clone, Copy, PartialEq, Eq, Debug)]
pub struct Mask {
    pub parts: [u32; MASK_PARTS],
}

// Whether each part has 28 bits.
fn check_parts(parts: &[u32]) -> Result<(), Refusal>
    ensures { MatchResult result (λ _. Small parts.now) (Faulted (map part_fault parts.now)) }
{
    for (place, part) in parts.iter().enumerate() {
        if *part > MAX_PART {
            return Err(Refusal::BadWord { place });
        }
    }
    Ok(())
}

// Reads as many parts as there are places for.
fn read_parts(words: &[u32], parts: &mut [u32]) -> Result<(), Refusal>
    ensures { MatchResult result (λ _. Small parts.new × (take (length parts.new) words.now ≡ parts_run parts.new)) (Faulted (judged (replicate (length parts.old) (kind_judge 7)) words.now)) }
{
    for (place, part) in parts.iter_mut().enumerate() {
        let Some(bits) = bits_at(VALUE, words, place) else {
            return Err(Refusal::BadWord { place });
        };
        *part = bits;
    }
    Ok(())
}

// Puts the parts down at the start of `out`, by place: zipped with `out.iter_mut()` it was tried, and what was written was not
// known afterwards.
fn write_parts(parts: &[u32], out: &mut [u32])
    requires small { Small parts.now }
    requires room { length parts.now ≤ length out.old }
    ensures { out.new ≡ parts_run parts.now ++ drop (length parts.now) out.old }
{
    for (place, part) in parts.iter().enumerate() {
        out[place] = mark(VALUE, *part);
    }
}

impl Value for Mask {
    ghost valid = { IsMask };

    ghost run = { mask_run };

    ghost judges = { mask_judges };

    ghost faults = { mask_faults };

    ghost few = { Prim.search rules };

    ghost within = { λ v. simp (length-map, length-take) (omega arith) };

    ghost long = { λ v is. length-map v.parts (marked 7) ∙ is.0 };

    ghost good = { λ v is. subst (λ (n : ℕ). Clean (judged (replicate n (kind_judge 7)) (parts_run v.parts))) is.0 (row_good v.parts is.1) };

    ghost clean = { λ v is. mask_clean v is };

    ghost apart = { λ v w is also e.
        let of : List ℕ → Mask = λ ps. record { parts = ps } in
        ap of (row_apart v.parts w.parts e) };

    fn width() -> usize {
        MASK_PARTS
    }

    fn check(&self) -> Result<(), Refusal> {
        check_parts(&self.parts)
    }

    fn read(words: &[u32]) -> Result<Mask, Refusal> {
        let mut parts = [0; MASK_PARTS];
        read_parts(words, &mut parts)?;
        Ok(Mask { parts })
    }

    fn write(&self, out: &mut [u32]) -> Result<usize, Refusal> {
        self.check()?;
        if out.len() < MASK_PARTS {
            return Err(Refusal::ShortStrip);
        }
        write_parts(&self.parts, out);
        Ok(MASK_PARTS)
    }
}

// The parts in decimal, in order.
impl fmt::Display for Mask {
    fn fmt<W: fmt::Write>(&self, f: &mut fmt::Formatter<W>) -> fmt::Result {
        for (place, part) in self.parts.iter().enumerate() {
            if place > 0 {
                write!(f, " ")?;
            }
            write!(f, "{part}")?;
        }
        Ok(())
    }
}
