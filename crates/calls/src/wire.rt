// What the bus may do to telegrams: lose one, double one.
ghost use Rattle.line.specs.Memories.{Called};
ghost use Rattle.line.specs.Runs.{doubled, lost};

use crate::bus::{join, take_off, telegram_at};
use line::check;
use line::types::Memory;
use quorums::QuorumSystem;
use words::refusal::Refusal;

// The telegram at a place is lost.
pub fn lose<V: Copy, S: QuorumSystem>(
    system: &S,
    m: &mut Memory<'_, V>,
    place: usize,
) -> Result<(), Refusal>
    ensures { Called (S.size system.now) (S.quorum system.now) (lost place result) m.old m.new }
{
    check(system, m)?;
    if place >= m.sent {
        return Err(Refusal::NoTelegram);
    }
    take_off(m, place);
    Ok(())
}

// The telegram at a place comes twice: a copy joins the bus.
pub fn double<V: Copy, S: QuorumSystem>(
    system: &S,
    m: &mut Memory<'_, V>,
    place: usize,
) -> Result<(), Refusal>
    ensures { Called (S.size system.now) (S.quorum system.now) (doubled place result) m.old m.new }
{
    check(system, m)?;
    let Some(telegram) = telegram_at(m, place) else {
        return Err(Refusal::NoTelegram);
    };
    if m.sent >= m.bus.len() {
        return Err(Refusal::BusFull);
    }
    join(m, telegram);
    Ok(())
}
