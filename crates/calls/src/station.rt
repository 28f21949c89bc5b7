// A station's job in hand meets a telegram.
ghost use Rattle.std.specs.Prelude.{◌≡◌, ℕ, ◌+◌, ◌-◌, ◌<◌, ◌≤◌, true, length, Some, Ok, Err, MatchBool};
ghost use Rattle.std.specs.List.{slice_get};
ghost use Rattle.words.specs.declared.refusal.Refusal.{Refusal};
ghost use Rattle.line.specs.Lines.{hand_of};
ghost use Rattle.line.specs.Seen.{seen};
ghost use Rattle.line.specs.Memories.{Lends, Sound};
ghost use Rattle.line.specs.Steps.{AtHand, Fits};
ghost use Rattle.calls.specs.Changes.{Ends, OnBus, off};
ghost use Rattle.calls.specs.Choices.{sends};
ghost use Rattle.calls.specs.Effects.{CountsNow, Stepped};
ghost use Rattle.calls.specs.declared.effect.Effect.TheVariants as effect;

use crate::applying::sends;
use crate::bus::take_off;
use crate::choice::Choice;
use crate::choosing::choose;
use crate::effect::Effect;
use crate::hands::{StationMemory, hand_at, last_at};
use crate::progress::receive;
use crate::tellings::Tellings;
use line::types::{Delivered, Hand, Memory, Stage};
use quorums::QuorumSystem;
use quorums::sets::{has, with};
use telegrams::{Pair, Telegram, TelegramKind};
use words::refusal::Refusal;

// The step of a job: what a telegram does depends on the stage of the job and on the telegram's kind. None
// if it does not count.
fn step<V: Copy>(hand: &mut Hand<V>, cabinet: u8, kind: TelegramKind<V>) -> Option<Effect<V>>
    requires { cabinet < 16 }
    ensures { Stepped hand.old cabinet kind hand.new result }
{
    match (&mut hand.stage, kind) {
        (Stage::Querying, TelegramKind::Told(pair)) if !has(hand.told, cabinet) => {
            hand.told = with(hand.told, cabinet);
            Some(Effect::Told(pair))
        }
        (
            Stage::Setting {
                pair,
                strikes,
                took,
            },
            TelegramKind::Took,
        ) if !has(*took, cabinet) => {
            *took = with(*took, cabinet);
            Some(Effect::Took {
                pair: *pair,
                strikes: *strikes,
                took: *took,
            })
        }
        _ => None,
    }
}

// Whether the bus has room for what a choice sends, once a telegram is off it.
fn has_room<V: Copy>(m: &Memory<'_, V>, choice: &Choice<V>) -> bool
    requires { Ends m.now × (length m.now.bus.now ≤ 1024) }
    ensures { MatchBool result (sends choice.now ≡ true → length m.now.replicas.now ≤ length m.now.bus.now - m.now.sent + 1) ((sends choice.now ≡ true) × (length m.now.bus.now - m.now.sent + 1 < length m.now.replicas.now)) }
{
    !sends(choice) || m.bus.len() - m.sent + 1 >= m.replicas.len()
}

// A telling that counts: it is kept, and with a quorum the job goes on. System, memory, place and telegram stay
// parameters: a struct of them would hold the memory by `&mut`, and its facts break while the memory changes.
fn on_told<V: Copy, S: QuorumSystem>(
    system: &S,
    m: &mut Memory<'_, V>,
    place: usize,
    t: Telegram<V>,
    hand: Hand<V>,
    pair: Pair<V>,
) -> Result<Delivered, Refusal>
    requires sound { Sound (S.size system.now) m.old }
    requires on { (slice_get (seen m.old).bus place ≡ Some t) × Fits (seen m.old) t }
    requires counts { CountsNow (seen m.old) t hand (effect.Told pair) }
    ensures step { AtHand (S.quorum system.now) (seen m.old) (off (seen m.old) place) t (hand_of (seen m.old) t.station) result (seen m.new) }
    ensures lent { Lends m.old m.new }
    ensures refused { (e : Refusal) → result ≡ Err e → m.new ≡ m.old }
{
    let Some(q) = system.pick(hand.told) else {
        receive(m, place, t, hand, pair);
        return Ok(Delivered::Kept);
    };
    let told = Tellings::new(m, t, pair);
    let last = last_at(m, t.station);
    let choice = choose(system, &told, q, t.station, last, hand.work);
    if !has_room(m, &choice) {
        return Err(Refusal::BusFull);
    }
    receive(m, place, t, hand, pair);
    let mut at = StationMemory {
        m,
        station: t.station,
    };
    Ok(at.apply(hand, choice))
}

// A took that counts: the job has ended when those counted hold a quorum.
// Pair, strikes and took come as the step found them: read out of the stage again they would need cases that cannot be.
fn on_took<V: Copy, S: QuorumSystem>(
    system: &S,
    m: &mut Memory<'_, V>,
    place: usize,
    t: Telegram<V>,
    hand: Hand<V>,
    pair: Pair<V>,
    strikes: u8,
    took: u16,
) -> Delivered
    requires sound { Sound (S.size system.now) m.old }
    requires ends { OnBus m.old place }
    requires on { (slice_get (seen m.old).bus place ≡ Some t) × Fits (seen m.old) t }
    requires counts { CountsNow (seen m.old) t hand (effect.Took pair strikes took) }
    ensures step { AtHand (S.quorum system.now) (seen m.old) (off (seen m.old) place) t (hand_of (seen m.old) t.station) (Ok result) (seen m.new) }
    ensures lent { Lends m.old m.new }
{
    take_off(m, place);
    let mut at = StationMemory {
        m,
        station: t.station,
    };
    match system.pick(took) {
        None => {
            at.hold(hand);
            Delivered::Kept
        }
        Some(_) => {
            at.finish(hand, pair, 2, strikes);
            Delivered::Ended
        }
    }
}

// A telegram for a station is taken off the bus and handed over.
pub(crate) fn at_station<V: Copy, S: QuorumSystem>(
    system: &S,
    m: &mut Memory<'_, V>,
    place: usize,
    t: Telegram<V>,
) -> Result<Delivered, Refusal>
    requires sound { Sound (S.size system.now) m.old }
    requires ends { OnBus m.old place }
    requires on { (slice_get (seen m.old).bus place ≡ Some t) × Fits (seen m.old) t }
    ensures step { AtHand (S.quorum system.now) (seen m.old) (off (seen m.old) place) t (hand_of (seen m.old) t.station) result (seen m.new) }
    ensures lent { Lends m.old m.new }
    ensures refused { (e : Refusal) → result ≡ Err e → m.new ≡ m.old }
{
    let Some(mut hand) = hand_at(m, t.station)
        .filter(|hand| hand.job == t.job)
        .copied()
    else {
        take_off(m, place);
        return Ok(Delivered::Nothing);
    };
    match step(&mut hand, t.cabinet, t.kind) {
        None => {
            take_off(m, place);
            Ok(Delivered::Nothing)
        }
        Some(Effect::Told(pair)) => on_told(system, m, place, t, hand, pair),
        Some(
            Effect::Took {
                pair,
                strikes,
                took,
            },
        ) => Ok(on_took(system, m, place, t, hand, pair, strikes, took)),
    }
}
