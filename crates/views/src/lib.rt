// The judgement of a read: one trip or two, from the tags that a quorum told.
#![tactic(auto)]

ghost use Rattle.std.specs.Prelude.{◌≡◌, ℕ, ◌<◌, ◌⊎◌, length, MatchOption};
ghost use Rattle.words.specs.Tags.{Before, Upto};
ghost use Rattle.quorums.specs.Sets.{Member, Those};
ghost use Rattle.views.specs.Settings.{KnownSettings};
ghost use Rattle.views.specs.Views.{told, Held, Judged, Judges, Latest};

use quorums::QuorumSystem;
use quorums::sets::{all, has, is_inside, outside, with};
use words::tag::Tag;

// What a read does next: it ends with the tag, or sets the pair of the tag in a second trip.
#[derive(Clone, Copy, PartialEq, Eq, Debug)]
pub enum Verdict {
    OneTrip(Tag),
    SecondTrip(Tag),
}

// The tags that the members of a set told, by cabinet.
#[derive(Clone, Copy)]
struct Told<'t> {
    members: u16,
    tags: &'t [Tag],
    ghost told: { (k : ℕ) → Member k members → k < length tags.now },
}

impl<'t> Told<'t> {
    // The latest tag that a member told.
    fn latest(&self) -> Option<Tag>
        ensures { MatchOption result ((k : ℕ) → Member k self.now.members → ⊥) (λ t. Held self.now.tags.now self.now.members t × Latest self.now.tags.now self.now.members t) }
    {
        let members = self.members;
        let mut best = None;
        for k in 0..16u8 {
            if has(members, k) {
                best = best.max(Some(self.tags[usize::from(k)]));
            }
        }
        best
    }

    // The members that told an earlier tag, alone.
    fn before(&self, tag: &Tag) -> Told<'t>
        ensures same { result.tags.now ≡ self.now.tags.now }
        ensures those { Those (λ k. Member k self.now.members × Before (told self.now.tags.now k) tag.now) 16 result.members }
    {
        let mut rest = 0u16;
        for k in 0..16u8 {
            if has(self.members, k) && tag.is_later(&self.tags[usize::from(k)]) {
                rest = with(rest, k);
            }
        }
        Told {
            members: rest,
            tags: self.tags,
        }
    }
}

// Strikes the latest tag of the remaining members off until the verdict is clear. The loop gives the verdict and the strikes by
// its `break`, as the rules of the project name it.
fn strike<S: QuorumSystem>(system: &S, quorum: &Told<'_>, top: Tag) -> (Verdict, u8)
    requires { Held quorum.now.tags.now quorum.now.members top × Latest quorum.now.tags.now quorum.now.members top }
    ensures { Judged quorum.now.tags.now quorum.now.members (S.quorum system.now) result.0 result.1 }
{
    let mut remaining = *quorum;
    let mut at = top;
    let mut strikes = 0u8;
    loop {
        let rest = remaining.before(&at);
        let Some(next) = rest.latest() else {
            break (Verdict::OneTrip(at), strikes);
        };
        if let Some(_other) = system.pick(outside(rest.members, system.cabinets())) {
            break (Verdict::SecondTrip(top), strikes);
        }
        remaining = rest;
        at = next;
        strikes += 1;
    }
}

// The verdict on a read whose quorum q told these tags, by cabinet, and the number of strikes. None
// exactly if q has no member, or one that told no tag.
pub fn judge<S: QuorumSystem>(system: &S, q: u16, tags: &[Tag]) -> Option<(Verdict, u8)>
    ensures judges { Judges tags.now q (S.quorum system.now) result }
    ensures known { KnownSettings }
{
    let told = tags.len().min(16) as u8;
    if !is_inside(q, all(told)) {
        return None;
    }
    let quorum = Told { members: q, tags };
    let top = quorum.latest()?;
    Some(strike(system, &quorum, top))
}
