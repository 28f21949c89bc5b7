// Opening a line.
ghost use Rattle.std.specs.Prelude.{◌≡◌, Ok};
ghost use Rattle.line.specs.Memories.{Opens, OrderAfter};

use crate::places::fill;
use line::suits;
use line::types::{First, Memory, Station};
use quorums::QuorumSystem;
use telegrams::Pair;
use words::refusal::Refusal;
use words::tag::Tag;

// A line at its start: every replica the first pair, bus and journal empty, no job in hand.
pub fn open<V: Copy, S: QuorumSystem>(
    system: &S,
    first: First<V>,
    m: &mut Memory<'_, V>,
) -> Result<(), Refusal>
    ensures opens { Opens (S.size system.now) first m.old result m.new }
    ensures order { result ≡ Ok tt → OrderAfter (S.size system.now) (S.quorum system.now) first m.new }
{
    if !suits(system.cabinets(), first.count, m) {
        return Err(Refusal::BadPlan);
    }
    let tag = Tag {
        count: first.count,
        owner: 0,
    };
    fill(
        m.replicas,
        Pair {
            tag,
            value: first.value,
        },
    );
    fill(
        m.stations,
        Station {
            last: 0,
            hand: None,
        },
    );
    m.first = first;
    m.sent = 0;
    m.written = 0;
    Ok(())
}
