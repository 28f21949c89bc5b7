// Shows a planner what a quorum system does: which quorum it picks, and what a read would do.
#![tactic(auto)]

mod text;

use anyhow::{Context, anyhow, bail, ensure};
use quorums::QuorumSystem;
use quorums::grid::Grid;
use quorums::majority::Majority;
use quorums::sets::has;
use quorums::table::Table;
use std::alloc::Global;
use std::env;
use text::{CabinetSet, ToldTag};
use views::{Verdict, judge};
use words::refusal::Refusal;
use words::tag::Tag;

const USAGE: &str =
    "usage: plan majority N | table N SET.. | grid ROWS COLUMNS, with requests on standard input";

// The quorum that the system picks from the set.
fn pick_line<S: QuorumSystem>(
    heap: Global,
    system: &S,
    given: CabinetSet,
) -> anyhow::Result<String> {
    match system.pick(given.0) {
        Some(number) => {
            let q = CabinetSet(number);
            Ok(format!(in heap; "pick {given}: {q}, number {number}")?)
        }
        None => Ok(format!(in heap; "pick {given}: none")?),
    }
}

// What a read does whose quorum told the tags, one for each member in turn.
fn read_line<S: QuorumSystem>(
    heap: Global,
    system: &S,
    q: CabinetSet,
    told: &[Tag],
) -> anyhow::Result<String> {
    let mut tags = [Tag { count: 0, owner: 0 }; 16];
    let mut told = told.iter();
    for (k, tag) in (0..16u8).zip(&mut tags) {
        if has(q.0, k) {
            *tag = *told.next().context("a tag is wanted for each member")?;
        }
    }
    ensure!(
        told.next().is_none(),
        "a tag is wanted for each member, and no more"
    );
    let (trip, tag, strikes) = match judge(system, q.0, &tags) {
        Some((Verdict::OneTrip(tag), strikes)) => ("one trip", tag, strikes),
        Some((Verdict::SecondTrip(tag), strikes)) => ("second trip", tag, strikes),
        None => bail!("nobody told a tag"),
    };
    let tag = ToldTag(tag);
    Ok(format!(in heap; "read {q}: {trip} with {tag}, strikes {strikes}")?)
}

// The answer to one request. Its verb stands here alone, so an enum of verbs would only be matched again.
fn answer<S: QuorumSystem>(heap: Global, system: &S, request: &str) -> anyhow::Result<String> {
    let mut words = request.split_whitespace();
    let verb = words.next().context("an empty request")?;
    let name = words.next().context("a request wants a set")?;
    let set = name.parse::<CabinetSet>()?;
    let mut tags = Vec::new(heap);
    for word in words {
        tags.push(word.parse::<ToldTag>()?.0)?;
    }
    match verb {
        "pick" => pick_line(heap, system, set),
        "read" => read_line(heap, system, set, tags.as_slice()),
        _ => Err(anyhow!("a request is 'pick SET' or 'read SET TAG..'")),
    }
}

// Answers each line of standard input.
fn serve<S: QuorumSystem>(rt: &HostRuntime, system: &S) -> anyhow::Result<()> {
    for line in rt.lines(rt.alloc()) {
        let line = line?;
        let text = answer(rt.alloc(), system, line.as_str())?;
        println!(rt; "{text}")?;
    }
    Ok(())
}

fn refused(e: Refusal) -> anyhow::Error {
    anyhow!("refused {e}")
}

fn number(word: Option<&String>) -> anyhow::Result<u8> {
    let word = word.context(USAGE)?;
    Ok(word.as_str().parse::<u8>()?)
}

// Serves with the system that the arguments name. A match on the name is plainer than an enum of systems, since each arm makes a
// value of a type of its own.
fn run(rt: &HostRuntime) -> anyhow::Result<()> {
    let args: Vec<String> = env::args(rt)?.collect(rt.alloc())?;
    let mut words = args.iter().skip(1);
    let name = words.next().context(USAGE)?;
    match name.as_str() {
        "majority" => {
            let cabinets = number(words.next())?;
            serve(rt, &Majority::new(cabinets).map_err(refused)?)
        }
        "grid" => {
            let rows = number(words.next())?;
            let columns = number(words.next())?;
            let cabinets = rows.saturating_mul(columns);
            serve(rt, &Grid::new(cabinets, rows, columns).map_err(refused)?)
        }
        "table" => {
            let cabinets = number(words.next())?;
            let mut quorums = Vec::new(rt.alloc());
            for word in words {
                let Ok(set) = word.as_str().parse::<CabinetSet>() else {
                    bail!(USAGE)
                };
                quorums.push(set.0)?;
            }
            serve(rt, &Table::new(cabinets, quorums).map_err(refused)?)
        }
        _ => Err(anyhow!(USAGE)),
    }
}

fn main(rt: HostRuntime) -> anyhow::Result<()> {
    run(&rt)
}
