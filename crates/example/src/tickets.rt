// Tickets stay with the line while telegrams are under way.
ghost use Rattle.std.specs.Prelude.{Result};
ghost use Rattle.words.specs.declared.refusal.Refusal.{Refusal};
ghost use Rattle.line.specs.Memories.{Called};
ghost use Rattle.line.specs.Runs.{gave_up};
ghost use Rattle.example.specs.Shelved.{Finishes, Starts};

use calls::begin::begin;
use calls::jobs::{claim, collect, give_up, shelve};
use calls::ticket::{HandedBack, Ticket};
use line::types::{Collected, Memory, Work};
use quorums::QuorumSystem;
use words::refusal::Refusal;

// A ticket that the line did not take back is given up.
fn discard<V: Copy, S: QuorumSystem>(system: &S, m: &mut Memory<'_, V>, ticket: Ticket)
    ensures { (r : Result (Unit {0}) Refusal) × Called (S.size system.now) (S.quorum system.now) (gave_up ticket.station ticket.job r) m.old m.new }
{
    let _ = give_up(system, m, ticket);
}

// Begins a job and leaves its ticket with the line.
pub fn start<V: Copy, S: QuorumSystem>(
    system: &S,
    m: &mut Memory<'_, V>,
    station: u8,
    work: Work<V>,
) -> Result<u16, Refusal>
    ensures { Starts (S.size system.now) (S.quorum system.now) station m.old work result m.new }
{
    let ticket = begin(system, m, station, work)?;
    let job = ticket.job();
    match shelve(system, m, ticket) {
        Ok(()) => Ok(job),
        Err(HandedBack { refusal, ticket }) => {
            discard(system, m, ticket);
            Err(refusal)
        }
    }
}

// Claims the ticket of a station and collects its job; if that is refused the ticket goes back to the line.
pub fn finish<V: Copy, S: QuorumSystem>(
    system: &S,
    m: &mut Memory<'_, V>,
    station: u8,
) -> Result<Collected<V>, Refusal>
    ensures { Finishes (S.size system.now) (S.quorum system.now) station m.old result m.new }
{
    let ticket = claim(system, m, station)?;
    let HandedBack { refusal, ticket } = match collect(system, m, ticket) {
        Ok(got) => return Ok(got),
        Err(back) => back,
    };
    match shelve(system, m, ticket) {
        Ok(()) => Err(refusal),
        Err(HandedBack { refusal: _, ticket }) => {
            discard(system, m, ticket);
            Err(refusal)
        }
    }
}
