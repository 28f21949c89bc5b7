// One station writes a mask and another reads it, while a telegram is lost, one comes twice and one cabinet is silent.
#![tactic(auto)]

mod tickets;

use anyhow::anyhow;
use calls::deliver::deliver;
use calls::opening::open;
use calls::wire::{double, lose};
use line::types::{Collected, First, Memory, Row, RowKind, Station, Work};
use quorums::majority::Majority;
use std::alloc::Global;
use telegrams::{Pair, Telegram, TelegramKind};
use tickets::{finish, start};
use words::mask::Mask;
use words::refusal::Refusal;
use words::tag::Tag;

// What is done to the line, one after the other, as a user would write it down.
#[derive(Clone, Copy)]
enum Command {
    Write(u8, Mask),
    Read(u8),
    Deliver(usize),
    Lose(usize),
    Double(usize),
    Collect(u8),
}

fn refused(heap: Global, what: &str, e: Refusal) -> anyhow::Result<String> {
    let number = e.number();
    Ok(format!(in heap; "{what}: refused {number}")?)
}

// The commands of the example: cabinet 2 is silent, its telegrams are never delivered.
fn commands() -> [Command; 22] {
    [
        Command::Write(
            1,
            Mask {
                parts: [1, 0, 0, 0],
            },
        ),
        Command::Deliver(0),
        Command::Double(0),
        Command::Deliver(0),
        Command::Deliver(1),
        Command::Deliver(1),
        Command::Deliver(1),
        Command::Deliver(1),
        Command::Lose(1),
        Command::Deliver(1),
        Command::Deliver(2),
        Command::Read(2),
        Command::Deliver(2),
        Command::Deliver(2),
        Command::Deliver(3),
        Command::Deliver(3),
        Command::Deliver(3),
        Command::Deliver(3),
        Command::Deliver(4),
        Command::Deliver(4),
        Command::Collect(2),
        Command::Collect(1),
    ]
}

// The line that the commands are given to, and the heap that the answers are written in.
#[derive(Drop)]
struct Session<'l, 'm> {
    heap: Global,
    system: &'l Majority,
    m: &'l mut Memory<'m, Mask>,
}

impl<'l, 'm> Session<'l, 'm> {
    // Begins a job and says so.
    fn begin(&mut self, station: u8, work: Work<Mask>) -> anyhow::Result<String> {
        let heap = self.heap;
        let what = match work {
            Work::Write(mask) => format!(in heap; "station {station} writes {mask}")?,
            Work::Read => format!(in heap; "station {station} reads")?,
        };
        match start(self.system, self.m, station, work) {
            Ok(job) => Ok(format!(in heap; "{what}: job {job}")?),
            Err(e) => refused(heap, what.as_str(), e),
        }
    }

    // Collects a station's job and says what it got.
    fn collect(&mut self, station: u8) -> anyhow::Result<String> {
        let heap = self.heap;
        match finish(self.system, self.m, station) {
            Ok(Collected::Got(pair, trips)) => {
                let value = pair.value;
                let count = pair.tag.count;
                let owner = pair.tag.owner;
                Ok(format!(in heap;
                    "station {station} got {value}: tag {count} of station {owner}, {trips} trips"
                )?)
            }
            Ok(Collected::Spent) => Ok(format!(in heap; "station {station}: spent")?),
            Err(e) => {
                let what = format!(in heap; "collect at station {station}")?;
                refused(heap, what.as_str(), e)
            }
        }
    }

    // Delivers a telegram and says what it did.
    fn deliver(&mut self, place: usize) -> anyhow::Result<String> {
        let heap = self.heap;
        match deliver(self.system, self.m, place) {
            Ok(answer) => Ok(format!(in heap; "deliver {place}: {answer}")?),
            Err(e) => refused(heap, "deliver", e),
        }
    }

    // Says what was done to the telegram at a place.
    fn done(&self, what: &str, place: usize, r: Result<(), Refusal>) -> anyhow::Result<String> {
        let heap = self.heap;
        match r {
            Ok(()) => Ok(format!(in heap; "{what} {place}")?),
            Err(e) => refused(heap, what, e),
        }
    }

    // Does what a command says, and says what came of it.
    fn obey(&mut self, command: Command) -> anyhow::Result<String> {
        match command {
            Command::Write(station, mask) => self.begin(station, Work::Write(mask)),
            Command::Read(station) => self.begin(station, Work::Read),
            Command::Collect(station) => self.collect(station),
            Command::Deliver(place) => self.deliver(place),
            Command::Lose(place) => {
                let r = lose(self.system, self.m, place);
                self.done("lose", place, r)
            }
            Command::Double(place) => {
                let r = double(self.system, self.m, place);
                self.done("double", place, r)
            }
        }
    }

    // Opens the line and does what the commands say.
    fn play(&mut self, rt: &HostRuntime) -> anyhow::Result<()> {
        let first = First {
            count: 0,
            value: NONE,
        };
        if let Err(e) = open(self.system, first, self.m) {
            let line = refused(self.heap, "open", e)?;
            println!(rt; "{line}")?;
            return Ok(());
        }
        for command in commands() {
            let line = self.obey(command)?;
            println!(rt; "{line}")?;
        }
        Ok(())
    }
}

// The rows of the journal.
fn show(rt: &HostRuntime, m: &Memory<'_, Mask>) -> anyhow::Result<()> {
    for (number, row) in m.journal.iter().take(m.written).enumerate() {
        println!(rt; "{number} {row}")?;
    }
    Ok(())
}

// What bus places and rows hold before a line puts something there.
const TAG: Tag = Tag { count: 0, owner: 0 };

const NONE: Mask = Mask { parts: [0; 4] };

fn blank_telegram() -> Telegram<Mask> {
    Telegram {
        cabinet: 0,
        station: 1,
        job: 0,
        kind: TelegramKind::Query,
    }
}

fn blank_row() -> Row<Mask> {
    Row {
        kind: RowKind::Read,
        station: 1,
        job: 0,
        tag: TAG,
        trips: 0,
        strikes: 0,
        value: NONE,
    }
}

// Plays the commands on a line of three cabinets and two stations, and shows its journal.
fn run(rt: &HostRuntime) -> anyhow::Result<()> {
    let heap = rt.alloc();
    let Ok(system) = Majority::new(3) else {
        return Err(anyhow!("no majority of three"));
    };
    let first = First {
        count: 0,
        value: NONE,
    };
    let pair = Pair {
        tag: TAG,
        value: NONE,
    };
    let station = Station {
        last: 0,
        hand: None,
    };
    let mut replicas = vec![in heap; pair; 3]?;
    let mut stations = vec![in heap; station; 2]?;
    let mut answers = vec![in heap; pair; 6]?;
    let mut bus = vec![in heap; blank_telegram(); 16]?;
    let mut journal = vec![in heap; blank_row(); 16]?;
    let mut m = Memory {
        first,
        replicas: replicas.as_mut_slice(),
        stations: stations.as_mut_slice(),
        answers: answers.as_mut_slice(),
        bus: bus.as_mut_slice(),
        sent: 0,
        journal: journal.as_mut_slice(),
        written: 0,
    };
    let mut session = Session {
        heap,
        system: &system,
        m: &mut m,
    };
    session.play(rt)?;
    show(rt, &m)
}

fn main(rt: HostRuntime) -> anyhow::Result<()> {
    run(&rt)
}
