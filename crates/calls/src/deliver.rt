// A telegram is delivered.
ghost use Rattle.std.specs.Prelude.{◌≡◌, Some, Err, MatchBool};
ghost use Rattle.std.specs.List.{slice_get};
ghost use Rattle.words.specs.declared.refusal.Refusal.{Refusal};
ghost use Rattle.line.specs.Seen.{seen};
ghost use Rattle.line.specs.Memories.{Called, Lends, Sound};
ghost use Rattle.line.specs.Runs.{delivered};
ghost use Rattle.line.specs.Steps.{Fits, Handed};
ghost use Rattle.calls.specs.Changes.{OnBus, off};

use crate::bus::telegram_at;
use crate::cabinet::{answer_query, answer_set};
use crate::hands::is_station;
use crate::station::at_station;
use line::check;
use line::types::{Delivered, Memory};
use quorums::QuorumSystem;
use telegrams::{MAX_JOB, Telegram, TelegramKind};
use words::refusal::Refusal;

// Whether the telegram names a cabinet and a station of the line, and a job that there can be.
fn fits<V: Copy>(m: &Memory<'_, V>, t: Telegram<V>) -> bool
    ensures { MatchBool result (Fits (seen m.now) t) (Fits (seen m.now) t → ⊥) }
{
    usize::from(t.cabinet) < m.replicas.len() && is_station(m, t.station) && t.job <= MAX_JOB
}

// The telegram is taken off the bus and handed over, to its cabinet or its station.
// A struct of m, place and t is no plainer: its facts would say that t is on the bus, and each of its methods takes t off.
fn hand_over<V: Copy, S: QuorumSystem>(
    system: &S,
    m: &mut Memory<'_, V>,
    place: usize,
    t: Telegram<V>,
) -> Result<Delivered, Refusal>
    requires sound { Sound (S.size system.now) m.old }
    requires ends { OnBus m.old place }
    requires on { (slice_get (seen m.old).bus place ≡ Some t) × Fits (seen m.old) t }
    ensures step { Handed (S.quorum system.now) (seen m.old) (off (seen m.old) place) t t.kind result (seen m.new) }
    ensures lent { Lends m.old m.new }
    ensures refused { (e : Refusal) → result ≡ Err e → m.new ≡ m.old }
{
    let kind = t.kind;
    match kind {
        TelegramKind::Query => {
            answer_query(m, place, t);
            Ok(Delivered::Answered)
        }
        TelegramKind::Set(pair) => {
            answer_set(m, place, t, pair);
            Ok(Delivered::Answered)
        }
        TelegramKind::Told(_) | TelegramKind::Took => at_station(system, m, place, t),
    }
}

// The telegram at a place is delivered.
pub fn deliver<V: Copy, S: QuorumSystem>(
    system: &S,
    m: &mut Memory<'_, V>,
    place: usize,
) -> Result<Delivered, Refusal>
    ensures { Called (S.size system.now) (S.quorum system.now) (delivered place result) m.old m.new }
{
    check(system, m)?;
    let Some(t) = telegram_at(m, place) else {
        return Err(Refusal::NoTelegram);
    };
    if !fits(m, t) {
        return Err(Refusal::BadPlan);
    }
    hand_over(system, m, place, t)
}
