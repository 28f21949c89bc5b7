// The line register: a setting that many stations write and read, kept in the cabinets of a line.
#![tactic(auto)]

ghost use Rattle.std.specs.Prelude.{◌≡◌, ℕ, ◌+◌, ◌≤◌, length, MatchBool, MatchResult};
ghost use Rattle.words.specs.Refusals.{number};
ghost use Rattle.line.specs.declared.types.First.{First};
ghost use Rattle.line.specs.Known.{KnownFacts};
ghost use Rattle.line.specs.Lines.{owed, owed_in};
ghost use Rattle.line.specs.Memories.{Judges, Suits};
ghost use Rattle.line.specs.Results.{OneResult};
ghost use Rattle.line.specs.Runs.{OrderOfJobs, TripsCarry};
ghost use Rattle.line.specs.Sizes.{Sized};

pub mod types;

use quorums::QuorumSystem;
use types::{Hand, Memory, Stage, Station, Work};
use words::refusal::Refusal;
use words::tag::MAX_COUNT;

// Whether the lengths of the memory and the first count suit a line of n cabinets.
pub fn suits<V>(n: u8, count: u32, m: &Memory<'_, V>) -> bool
    ensures { MatchBool result (Suits n count m.now) (Suits n count m.now → ⊥) }
{
    let n = usize::from(n);
    let stations = m.stations.len();
    let lengths = m.replicas.len() == n
        && stations >= 1
        && stations <= 32
        && m.answers.len() == n * stations;
    let places = m.bus.len() >= n
        && m.bus.len() <= 1024
        && m.journal.len() >= 3
        && m.journal.len() <= 4096;
    count <= MAX_COUNT && lengths && places
}

// Rows owed for a job in hand: 2 for a write still querying, 1 for any other unfinished job.
fn owed_by<V>(hand: &Option<Hand<V>>) -> usize
    ensures owed { result ≡ owed_in hand.now }
    ensures few { result ≤ 2 }
{
    match hand {
        None => 0,
        Some(h) => match (&h.work, &h.stage) {
            (Work::Write(_), Stage::Querying) => 2,
            (Work::Read, Stage::Querying) | (_, Stage::Setting { .. }) => 1,
            (_, Stage::Ended { .. } | Stage::Spent) => 0,
        },
    }
}

// Rows owed for all jobs in hand.
fn rows_owed<V>(stations: &[Station<V>]) -> usize
    requires { length stations.now ≤ 32 }
    ensures { result ≡ owed stations.now }
{
    let mut rows = 0;
    for station in stations {
        rows += owed_by(&station.hand);
    }
    rows
}

// Judges the memory as every call does first: the rows that are free beyond those owed, or refusal 1.
pub fn check<V, S: QuorumSystem>(system: &S, m: &Memory<'_, V>) -> Result<usize, Refusal>
    ensures sound { Judges (S.size system.now) m.now result }
{
    if !suits(system.cabinets(), m.first.count, m) || m.sent > m.bus.len() {
        return Err(Refusal::BadPlan);
    }
    let taken = rows_owed(m.stations).saturating_add(m.written);
    m.journal.len().checked_sub(taken).ok_or(Refusal::BadPlan)
}

// Whether the memory lent suits a line of the system's cabinets. Beside `check`, since it asks nothing of the rows owed.
pub fn check_sizes<V, S: QuorumSystem>(system: &S, m: &Memory<'_, V>) -> Result<(), Refusal>
    ensures sizes { MatchResult result (λ _. Sized (S.size system.now) m.now) (λ e. (number e ≡ 1) × (Sized (S.size system.now) m.now → ⊥)) }
    ensures order { (first : First V) (stations bus_places journal_places : ℕ) → OrderOfJobs (S.quorum system.now) first (S.size system.now) stations bus_places journal_places }
    ensures single { OneResult V (S.quorum system.now) }
{
    let fit = suits(system.cabinets(), m.first.count, m)
        && m.sent <= m.bus.len()
        && m.written <= m.journal.len();
    fit.then_some(()).ok_or(Refusal::BadPlan)
}

// Does nothing. Its contract holds the theorems about the steps, for every kind of value and every quorum system: the order
// of jobs in every run, that a call has one result, that a second trip carries its job's tag and value, and the known facts.
pub fn steps_hold<V, S: QuorumSystem>(_system: &S)
    ensures order { (first : First V) (stations bus_places journal_places : ℕ) → OrderOfJobs (S.quorum _system.now) first (S.size _system.now) stations bus_places journal_places }
    ensures single { OneResult V (S.quorum _system.now) }
    ensures carried { (first : First V) (stations bus_places journal_places : ℕ) → TripsCarry (S.quorum _system.now) first (S.size _system.now) stations bus_places journal_places }
    ensures known { KnownFacts V (S.quorum _system.now) }
{}
