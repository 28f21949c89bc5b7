// A station begins a job.
ghost use Rattle.std.specs.Prelude.{◌≡◌, ◌≤◌, length};
ghost use Rattle.line.specs.Lines.{begin_row};
ghost use Rattle.line.specs.Memories.{Called};
ghost use Rattle.line.specs.Runs.{began};
ghost use Rattle.line.specs.Steps.{begun, wants};
ghost use Rattle.calls.specs.Stations.{Goes, HasPlaces, HasRow, line};
ghost use Rattle.calls.specs.Tickets.{issued};

use crate::hands::{StationMemory, hand_at, is_station};
use crate::ticket::Ticket;
use line::check;
use line::types::{Hand, Memory, Row, RowKind, Stage, Work};
use quorums::QuorumSystem;
use telegrams::TelegramKind;
use words::refusal::Refusal;

// The rows that have to be free beyond those owed.
fn rows_wanted<V: Copy>(work: &Work<V>) -> usize
    ensures { result ≡ wants work.now }
{
    match work {
        Work::Write(_) => 3,
        Work::Read => 2,
    }
}

impl<'l, 'm, V: Copy> StationMemory<'l, 'm, V> {
    // The row of a begin.
    fn begin_row(&self, job: u16, work: &Work<V>) -> Row<V>
        ensures { result ≡ begin_row (line self.now) self.now.station job work.now }
    {
        match work {
            Work::Write(value) => Row {
                value: *value,
                ..self.blank_row(RowKind::Write, job)
            },
            Work::Read => self.blank_row(RowKind::Read, job),
        }
    }

    // The new job gets its row, is taken up, and its queries go to all cabinets.
    fn start(&mut self, work: Work<V>) -> u16
        requires rows { HasRow self.old × (length self.old.m.now.journal.now ≤ 4096) }
        requires places { HasPlaces self.old }
        ensures { (result ≡ self.old.m.now.written) × Goes self.old (begun (line self.old) self.old.station work) self.new }
    {
        let job = self.m.written as u16;
        let row = self.begin_row(job, &work);
        self.note(row);
        self.take_up(Hand {
            job,
            work,
            told: 0,
            stage: Stage::Querying,
            shelved: false,
        });
        self.send_all(job, TelegramKind::Query);
        job
    }
}

// A station begins a write or a read: a row, a query to each cabinet in turn, and a ticket.
pub fn begin<V: Copy, S: QuorumSystem>(
    system: &S,
    m: &mut Memory<'_, V>,
    station: u8,
    work: Work<V>,
) -> Result<Ticket, Refusal>
    ensures { Called (S.size system.now) (S.quorum system.now) (began station work (issued result)) m.old m.new }
{
    let free = check(system, m)?;
    if !is_station(m, station) {
        return Err(Refusal::NoStation);
    }
    if hand_at(m, station).is_some() {
        return Err(Refusal::HandsFull);
    }
    if m.bus.len() - m.sent < m.replicas.len() {
        return Err(Refusal::BusFull);
    }
    if free < rows_wanted(&work) {
        return Err(Refusal::BookFull);
    }
    let job = StationMemory { m, station }.start(work);
    Ok(Ticket { station, job })
}
