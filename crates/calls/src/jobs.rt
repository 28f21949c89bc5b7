// What a ticket is good for: collect, give up and shelve use it up, claim gives it back.
ghost use Rattle.std.specs.Prelude.{Ok, Err, MatchResult};
ghost use Rattle.line.specs.Lines.{given_row, note};
ghost use Rattle.line.specs.Memories.{Called};
ghost use Rattle.line.specs.Runs.{claimed, collected, gave_up, shelved};
ghost use Rattle.line.specs.Steps.{freed};
ghost use Rattle.calls.specs.Stations.{Goes, HasRow, line};
ghost use Rattle.calls.specs.Tickets.{JobOf, Returned, ResultOf, Shown, issued, plain};

use crate::hands::{StationMemory, hand_at, in_hand, is_station};
use crate::ticket::{HandedBack, Ticket};
use line::check;
use line::types::{Collected, Hand, Memory, RowKind, Stage};
use quorums::QuorumSystem;
use words::refusal::Refusal;

// The job in hand that a ticket stands for.
fn job_of<'a, V: Copy, S: QuorumSystem>(
    system: &S,
    m: &'a Memory<'_, V>,
    station: u8,
    job: u16,
) -> Result<&'a Hand<V>, Refusal>
    ensures { MatchResult result (λ h. JobOf (S.size system.now) m.now station job (Ok h.now)) (λ e. JobOf (S.size system.now) m.now station job (Err e)) }
{
    check(system, m)?;
    in_hand(m, station, job).ok_or(Refusal::StrangeTicket)
}

// A ticket with the job that it stands for, or the ticket handed back.
fn shown<'a, V: Copy, S: QuorumSystem>(
    system: &S,
    m: &'a Memory<'_, V>,
    ticket: Ticket,
) -> Result<(Ticket, &'a Hand<V>), HandedBack>
    ensures { MatchResult result (λ (t, h). Shown (S.size system.now) m.now ticket (Ok (t, h.now))) (λ b. Shown (S.size system.now) m.now ticket (Err b)) }
{
    match job_of(system, m, ticket.station, ticket.job) {
        Ok(hand) => Ok((ticket, hand)),
        Err(refusal) => Err(HandedBack { refusal, ticket }),
    }
}

// The result of a job that is over.
fn result_of<V: Copy>(stage: &Stage<V>) -> Option<Collected<V>>
    ensures { ResultOf stage.now result }
{
    match stage {
        Stage::Querying | Stage::Setting { .. } => None,
        Stage::Ended { pair, trips, .. } => Some(Collected::Got(*pair, *trips)),
        Stage::Spent => Some(Collected::Spent),
    }
}

// The ticket stays with the line.
pub fn shelve<V: Copy, S: QuorumSystem>(
    system: &S,
    m: &mut Memory<'_, V>,
    ticket: Ticket,
) -> Result<(), HandedBack>
    ensures called { Called (S.size system.now) (S.quorum system.now) (shelved ticket.station ticket.job (plain result)) m.old m.new }
    ensures returned { Returned ticket result }
{
    let (ticket, hand) = shown(system, m, ticket)?;
    let Ticket { station, job: _ } = ticket;
    let hand = Hand {
        shelved: true,
        ..*hand
    };
    StationMemory { m, station }.hold(hand);
    Ok(())
}

// The line gives a shelved ticket back, once.
pub fn claim<V: Copy, S: QuorumSystem>(
    system: &S,
    m: &mut Memory<'_, V>,
    station: u8,
) -> Result<Ticket, Refusal>
    ensures { Called (S.size system.now) (S.quorum system.now) (claimed station (issued result)) m.old m.new }
{
    check(system, m)?;
    if !is_station(m, station) {
        return Err(Refusal::NoStation);
    }
    let Some(hand) = hand_at(m, station).filter(|hand| hand.shelved).copied() else {
        return Err(Refusal::StrangeTicket);
    };
    StationMemory { m, station }.hold(Hand {
        shelved: false,
        ..hand
    });
    Ok(Ticket {
        station,
        job: hand.job,
    })
}

// The result of a job that is over, whose station is free then.
pub fn collect<V: Copy, S: QuorumSystem>(
    system: &S,
    m: &mut Memory<'_, V>,
    ticket: Ticket,
) -> Result<Collected<V>, HandedBack>
    ensures called { Called (S.size system.now) (S.quorum system.now) (collected ticket.station ticket.job (plain result)) m.old m.new }
    ensures returned { Returned ticket result }
{
    let (ticket, hand) = shown(system, m, ticket)?;
    let Some(got) = result_of(&hand.stage) else {
        return Err(HandedBack {
            refusal: Refusal::NotOver,
            ticket,
        });
    };
    let Ticket { station, job: _ } = ticket;
    StationMemory { m, station }.free();
    Ok(got)
}

impl<'l, 'm, V: Copy> StationMemory<'l, 'm, V> {
    // An unfinished job gets its row, and its station is free.
    fn abandon(&mut self, job: u16)
        requires { HasRow self.old }
        ensures { Goes self.old (freed (note (line self.old) (given_row (line self.old) self.old.station job)) self.old.station) self.new }
    {
        let row = self.blank_row(RowKind::Given, job);
        self.note(row);
        self.free();
    }
}

// Frees the station and discards any result; an unfinished job gets a row. The ticket is used up, refused or not.
pub fn give_up<V: Copy, S: QuorumSystem>(
    system: &S,
    m: &mut Memory<'_, V>,
    ticket: Ticket,
) -> Result<(), Refusal>
    ensures { Called (S.size system.now) (S.quorum system.now) (gave_up ticket.station ticket.job result) m.old m.new }
{
    let Ticket { station, job } = ticket;
    let hand = job_of(system, m, station, job)?;
    let over = result_of(&hand.stage).is_some();
    let mut at = StationMemory { m, station };
    if over {
        at.free();
    } else {
        at.abandon(job);
    }
    Ok(())
}
