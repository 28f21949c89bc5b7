// The memory of a line, which its caller lends to every call.
use std::fmt;
use telegrams::{Pair, Telegram};
use words::tag::Tag;

// The count and the value that a line starts with.
#[derive(Clone, Copy, PartialEq, Eq, Debug)]
pub struct First<V> {
    pub count: u32,
    pub value: V,
}

// What a job does. Not an `Option` of the value: a read is no write that lacks something, and the names are the journal's.
#[derive(Clone, Copy, PartialEq, Eq, Debug)]
pub enum Work<V> {
    Write(V),
    Read,
}

// How far a job in hand has come.
#[derive(Clone, Copy, PartialEq, Eq, Debug)]
pub enum Stage<V> {
    // the first trip: cabinets are asked for their pairs
    Querying,
    // the second trip: the cabinets that took the pair are counted
    Setting {
        pair: Pair<V>,
        strikes: u8,
        took: u16,
    },
    Ended {
        pair: Pair<V>,
        trips: u8,
        strikes: u8,
    },
    // over without a tag, since the counts have run out
    Spent,
}

// A job from its begin until it is collected or given up.
#[derive(Clone, Copy, PartialEq, Eq, Debug)]
pub struct Hand<V> {
    pub job: u16,
    pub work: Work<V>,
    // the cabinets whose answers are kept; their places in `Memory::answers` are live, and no others, so that a begin need not
    // clear the places that the caller lent
    pub told: u16,
    pub stage: Stage<V>,
    // whether the ticket is with the line
    pub shelved: bool,
}

#[derive(Clone, Copy, PartialEq, Eq, Debug)]
pub struct Station<V> {
    // the greatest count that the station has made; 0 at first, a count that no write gets, and compared as one
    pub last: u32,
    pub hand: Option<Hand<V>>,
}

#[derive(Clone, Copy, PartialEq, Eq, Debug)]
pub enum RowKind {
    Write,
    Read,
    Tagged,
    Ended,
    Given,
    Spent,
}

// A row of the journal. One struct for all kinds: the rules of the project name its fields and what those without a use hold.
#[derive(Clone, Copy, PartialEq, Eq, Debug)]
pub struct Row<V> {
    pub kind: RowKind,
    pub station: u8,
    pub job: u16,
    pub tag: Tag,
    pub trips: u8,
    pub strikes: u8,
    pub value: V,
}

// The word of a row's kind.
impl fmt::Display for RowKind {
    fn fmt<W: fmt::Write>(&self, f: &mut fmt::Formatter<W>) -> fmt::Result {
        f.write_str(match self {
            RowKind::Write => "write",
            RowKind::Read => "read",
            RowKind::Tagged => "tagged",
            RowKind::Ended => "ended",
            RowKind::Given => "given",
            RowKind::Spent => "spent",
        })
    }
}

// KIND STATION JOB COUNT OWNER TRIPS STRIKES VALUE
impl<V: fmt::Display> fmt::Display for Row<V> {
    fn fmt<W: fmt::Write>(&self, f: &mut fmt::Formatter<W>) -> fmt::Result {
        let Row {
            kind,
            station,
            job,
            tag,
            trips,
            strikes,
            value,
        } = self;
        write!(f, "{kind} {station} {job} {tag} {trips} {strikes} {value}")
    }
}

// What a caller lends. Lengths and ends are the caller's numbers, which may be any: each call judges them first and refuses,
// so this type cannot hold them to their places.
#[derive(Drop)]
pub struct Memory<'m, V> {
    pub first: First<V>,
    // one for each cabinet
    pub replicas: &'m mut [Pair<V>],
    // one for each station
    pub stations: &'m mut [Station<V>],
    // what cabinet c told station s, at place (s - 1) * cabinets + c
    pub answers: &'m mut [Pair<V>],
    // the telegrams under way, of which there are `sent`
    pub bus: &'m mut [Telegram<V>],
    pub sent: usize,
    // the rows, of which there are `written`
    pub journal: &'m mut [Row<V>],
    pub written: usize,
}

// What a telegram did where it was delivered.
#[derive(Clone, Copy, PartialEq, Eq, Debug)]
pub enum Delivered {
    // at a cabinet
    Answered,
    // at a station: the answer counts, and more are wanted
    Kept,
    SecondTrip,
    Ended,
    Spent,
    // at a station: it does not count
    Nothing,
}

impl fmt::Display for Delivered {
    fn fmt<W: fmt::Write>(&self, f: &mut fmt::Formatter<W>) -> fmt::Result {
        f.write_str(match self {
            Delivered::Answered => "answered",
            Delivered::Kept => "kept",
            Delivered::SecondTrip => "second trip",
            Delivered::Ended => "ended",
            Delivered::Spent => "spent",
            Delivered::Nothing => "nothing",
        })
    }
}

// What collecting an ended job tells. Not an `Option`: `Spent` is an answer of its own, that the counts have run out.
#[derive(Clone, Copy, PartialEq, Eq, Debug)]
pub enum Collected<V> {
    Got(Pair<V>, u8),
    Spent,
}
