// Choosing what a quorum's tellings lead to.
ghost use Rattle.std.specs.Prelude.{map};
ghost use Rattle.views.specs.Views.{Judged};
ghost use Rattle.line.specs.Lines.{tag_of};
ghost use Rattle.calls.specs.Choices.{AllTold, Chooses};

use crate::choice::Choice;
use crate::tellings::Tellings;
use line::types::Work;
use quorums::QuorumSystem;
use telegrams::Pair;
use views::{Verdict, judge};
use words::tag::{MAX_COUNT, Tag};

// The judgement of what a quorum told.
fn judged<V: Copy, S: QuorumSystem>(system: &S, told: &Tellings<'_, '_, V>, q: u16) -> (Verdict, u8)
    requires picked { S.quorum system.now q }
    requires told { AllTold told.now q }
    ensures { Judged (map tag_of told.now) q (S.quorum system.now) result.0 result.1 }
{
    let tags = told.tags();
    let Some(judgement) = judge(system, q, &tags[..usize::from(told.cabinets())]) else {
        unreachable()
    };
    judgement
}

// What the tellings of a quorum lead to, for a job of a station with its own last count.
pub(crate) fn choose<V: Copy, S: QuorumSystem>(
    system: &S,
    told: &Tellings<'_, '_, V>,
    q: u16,
    station: u8,
    last: u32,
    work: Work<V>,
) -> Choice<V>
    requires picked { S.quorum system.now q }
    requires told { AllTold told.now q }
    ensures { Chooses told.now q (S.quorum system.now) station last work result }
{
    match work {
        Work::Write(value) => {
            let g = told.greatest(q, last);
            if g >= MAX_COUNT {
                return Choice::Spent;
            }
            let tag = Tag {
                count: g + 1,
                owner: station,
            };
            Choice::Tagged(Pair { tag, value })
        }
        Work::Read => {
            let (verdict, strikes) = judged(system, told, q);
            match verdict {
                Verdict::OneTrip(tag) => Choice::Ended(told.holder(q, tag), strikes),
                Verdict::SecondTrip(tag) => Choice::Second(told.holder(q, tag), strikes),
            }
        }
    }
}
