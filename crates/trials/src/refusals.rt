// Each refusal of each call, and that it leaves all memory as found.
use calls::begin::begin;
use calls::deliver::deliver;
use calls::jobs::{claim, collect, give_up, shelve};
use calls::opening::open;
use calls::ticket::{HandedBack, Ticket};
use calls::wire::{double, lose};
use line::types::{Delivered, First, Memory, Row, RowKind, Station, Work};
use quorums::majority::Majority;
use std::alloc::{AllocError, Global};
use std::process::Abort;
use std::test::Fail;
use telegrams::{Pair, Telegram, TelegramKind};
use words::refusal::Refusal;
use words::speed::Speed;
use words::tag::{MAX_COUNT, Tag};

const FIRST: First<Speed> = First {
    count: 0,
    value: Speed(500),
};

// What a test lends to a line of three cabinets and two stations.
#[derive(Drop)]
struct Lent {
    replicas: Vec<Pair<Speed>>,
    stations: Vec<Station<Speed>>,
    answers: Vec<Pair<Speed>>,
    bus: Vec<Telegram<Speed>>,
    journal: Vec<Row<Speed>>,
}

impl Lent {
    fn new(heap: Global, bus_places: usize, rows: usize) -> Result<Lent, AllocError> {
        let tag = Tag { count: 7, owner: 1 };
        let value = Speed(1);
        let pair = Pair { tag, value };
        let station = Station {
            last: 3,
            hand: None,
        };
        let telegram = Telegram {
            cabinet: 1,
            station: 2,
            job: 5,
            kind: TelegramKind::Took,
        };
        let row = Row {
            kind: RowKind::Spent,
            station: 2,
            job: 5,
            tag,
            trips: 1,
            strikes: 0,
            value,
        };
        Ok(Lent {
            replicas: vec![in heap; pair; 3]?,
            stations: vec![in heap; station; 2]?,
            answers: vec![in heap; pair; 6]?,
            bus: vec![in heap; telegram; bus_places]?,
            journal: vec![in heap; row; rows]?,
        })
    }

    fn memory(&mut self) -> Memory<'_, Speed> {
        Memory {
            first: FIRST,
            replicas: self.replicas.as_mut_slice(),
            stations: self.stations.as_mut_slice(),
            answers: self.answers.as_mut_slice(),
            bus: self.bus.as_mut_slice(),
            sent: 0,
            journal: self.journal.as_mut_slice(),
            written: 0,
        }
    }
}

fn copy<T: Copy>(to: &mut [T], from: &[T]) {
    for (to, from) in to.iter_mut().zip(from) {
        *to = *from;
    }
}

// What a memory held, dead places too.
#[derive(Drop)]
struct Found {
    first: First<Speed>,
    sent: usize,
    written: usize,
    lent: Lent,
}

impl Found {
    fn of(heap: Global, m: &Memory<'_, Speed>) -> Result<Found, AllocError> {
        Ok(Found {
            first: m.first,
            sent: m.sent,
            written: m.written,
            lent: Lent {
                replicas: m.replicas.to_vec(heap)?,
                stations: m.stations.to_vec(heap)?,
                answers: m.answers.to_vec(heap)?,
                bus: m.bus.to_vec(heap)?,
                journal: m.journal.to_vec(heap)?,
            },
        })
    }

    // The same of another moment, in the places that are there.
    fn note(&mut self, m: &Memory<'_, Speed>) {
        self.first = m.first;
        self.sent = m.sent;
        self.written = m.written;
        copy(self.lent.replicas.as_mut_slice(), &*m.replicas);
        copy(self.lent.stations.as_mut_slice(), &*m.stations);
        copy(self.lent.answers.as_mut_slice(), &*m.answers);
        copy(self.lent.bus.as_mut_slice(), &*m.bus);
        copy(self.lent.journal.as_mut_slice(), &*m.journal);
    }

    fn stays(&self, m: &Memory<'_, Speed>) -> bool {
        self.first == m.first
            && self.sent == m.sent
            && self.written == m.written
            && self.lent.replicas.as_slice() == &*m.replicas
            && self.lent.stations.as_slice() == &*m.stations
            && self.lent.answers.as_slice() == &*m.answers
            && self.lent.bus.as_slice() == &*m.bus
            && self.lent.journal.as_slice() == &*m.journal
    }
}

#[test]
fn opening(rt: HostRuntime) -> Result<(), Fail> {
    let system = Majority::new(3)?;
    let mut lent = Lent::new(rt.alloc(), 8, 16)?;
    let mut m = lent.memory();
    let found = Found::of(rt.alloc(), &m)?;
    let beyond = First {
        count: MAX_COUNT + 1,
        value: Speed(0),
    };
    assert_eq!(rt; open(&system, beyond, &mut m), Err(Refusal::BadPlan));
    assert_eq!(rt;
        open(&Majority::new(4)?, FIRST, &mut m),
        Err(Refusal::BadPlan)
    );
    assert!(rt; found.stays(&m));
    assert_eq!(rt; open(&system, FIRST, &mut m), Ok(()));
    Ok(())
}

// The refusal of a begin or a claim. A ticket that should not be there is given up.
fn refused(
    r: Result<Ticket, Refusal>,
    m: &mut Memory<'_, Speed>,
    system: &Majority,
) -> Option<Refusal> {
    match r {
        Ok(ticket) => {
            let _ = give_up(system, m, ticket);
            None
        }
        Err(e) => Some(e),
    }
}

// A collect or a shelve is refused so, and hands the ticket back.
fn handed_back<R: Drop>(rt: &impl Abort, r: Result<R, HandedBack>, wanted: Refusal) -> Ticket {
    match r {
        Ok(_) => panic!(rt; "not refused"),
        Err(HandedBack { refusal, ticket }) => {
            assert_eq!(rt; refusal, wanted);
            ticket
        }
    }
}

// Collect and shelve are both refused so.
fn kept_out(
    rt: &impl Abort,
    m: &mut Memory<'_, Speed>,
    system: &Majority,
    ticket: Ticket,
    wanted: Refusal,
) -> Ticket {
    let ticket = handed_back(rt, collect(system, m, ticket), wanted);
    handed_back(rt, shelve(system, m, ticket), wanted)
}

// Station 1 begins a read and shelves its ticket.
fn shelved(system: &Majority, m: &mut Memory<'_, Speed>) -> bool {
    let Ok(ticket) = begin(system, m, 1, Work::Read) else {
        return false;
    };
    match shelve(system, m, ticket) {
        Ok(()) => true,
        Err(HandedBack { refusal: _, ticket }) => {
            let _ = give_up(system, m, ticket);
            false
        }
    }
}

#[test]
fn memory_that_is_not_sound(rt: HostRuntime) -> Result<(), Fail> {
    let system = Majority::new(3)?;
    let mut lent = Lent::new(rt.alloc(), 8, 16)?;
    let mut m = lent.memory();
    let mut found = Found::of(rt.alloc(), &m)?;
    assert_eq!(rt; open(&system, FIRST, &mut m), Ok(()));
    let ticket = begin(&system, &mut m, 1, Work::Read)?;
    m.sent = 9;
    found.note(&m);
    assert_eq!(rt;
        refused(begin(&system, &mut m, 2, Work::Read), &mut m, &system),
        Some(Refusal::BadPlan)
    );
    assert_eq!(rt; deliver(&system, &mut m, 0), Err(Refusal::BadPlan));
    assert_eq!(rt; lose(&system, &mut m, 0), Err(Refusal::BadPlan));
    assert_eq!(rt; double(&system, &mut m, 0), Err(Refusal::BadPlan));
    assert_eq!(rt;
        refused(claim(&system, &mut m, 1), &mut m, &system),
        Some(Refusal::BadPlan)
    );
    let ticket = kept_out(&rt, &mut m, &system, ticket, Refusal::BadPlan);
    assert_eq!(rt; give_up(&system, &mut m, ticket), Err(Refusal::BadPlan));
    assert!(rt; found.stays(&m));
    Ok(())
}

#[test]
fn begins(rt: HostRuntime) -> Result<(), Fail> {
    let system = Majority::new(3)?;
    let mut lent = Lent::new(rt.alloc(), 8, 16)?;
    let mut m = lent.memory();
    let mut found = Found::of(rt.alloc(), &m)?;
    assert_eq!(rt; open(&system, FIRST, &mut m), Ok(()));
    let ticket = begin(&system, &mut m, 1, Work::Write(Speed(800)))?;
    found.note(&m);
    assert_eq!(rt;
        refused(begin(&system, &mut m, 0, Work::Read), &mut m, &system),
        Some(Refusal::NoStation)
    );
    assert_eq!(rt;
        refused(begin(&system, &mut m, 3, Work::Read), &mut m, &system),
        Some(Refusal::NoStation)
    );
    assert_eq!(rt;
        refused(begin(&system, &mut m, 1, Work::Read), &mut m, &system),
        Some(Refusal::HandsFull)
    );
    assert!(rt; found.stays(&m));
    assert_eq!(rt; give_up(&system, &mut m, ticket), Ok(()));
    let ticket = begin(&system, &mut m, 1, Work::Read)?;
    found.note(&m);
    assert_eq!(rt;
        refused(begin(&system, &mut m, 2, Work::Read), &mut m, &system),
        Some(Refusal::BusFull)
    );
    assert!(rt; found.stays(&m));
    assert_eq!(rt; give_up(&system, &mut m, ticket), Ok(()));
    Ok(())
}

#[test]
fn a_full_journal(rt: HostRuntime) -> Result<(), Fail> {
    let system = Majority::new(3)?;
    let mut lent = Lent::new(rt.alloc(), 8, 4)?;
    let mut m = lent.memory();
    let mut found = Found::of(rt.alloc(), &m)?;
    assert_eq!(rt; open(&system, FIRST, &mut m), Ok(()));
    let ticket = begin(&system, &mut m, 1, Work::Read)?;
    found.note(&m);
    // one row is written and one owed: two are free
    assert_eq!(rt;
        refused(
            begin(&system, &mut m, 2, Work::Write(Speed(1))),
            &mut m,
            &system
        ),
        Some(Refusal::BookFull)
    );
    assert!(rt; found.stays(&m));
    assert_eq!(rt; give_up(&system, &mut m, ticket), Ok(()));
    let ticket = begin(&system, &mut m, 1, Work::Read)?;
    found.note(&m);
    assert_eq!(rt;
        refused(begin(&system, &mut m, 2, Work::Read), &mut m, &system),
        Some(Refusal::BusFull)
    );
    assert_eq!(rt; lose(&system, &mut m, 0), Ok(()));
    found.note(&m);
    assert_eq!(rt;
        refused(begin(&system, &mut m, 2, Work::Read), &mut m, &system),
        Some(Refusal::BookFull)
    );
    assert!(rt; found.stays(&m));
    assert_eq!(rt; give_up(&system, &mut m, ticket), Ok(()));
    Ok(())
}

#[test]
fn deliveries(rt: HostRuntime) -> Result<(), Fail> {
    let system = Majority::new(3)?;
    let mut lent = Lent::new(rt.alloc(), 3, 16)?;
    let mut m = lent.memory();
    let mut found = Found::of(rt.alloc(), &m)?;
    assert_eq!(rt; open(&system, FIRST, &mut m), Ok(()));
    found.note(&m);
    assert_eq!(rt; deliver(&system, &mut m, 0), Err(Refusal::NoTelegram));
    assert_eq!(rt; lose(&system, &mut m, 0), Err(Refusal::NoTelegram));
    assert_eq!(rt; double(&system, &mut m, 0), Err(Refusal::NoTelegram));
    assert!(rt; found.stays(&m));
    let ticket = begin(&system, &mut m, 1, Work::Write(Speed(800)))?;
    found.note(&m);
    assert_eq!(rt; double(&system, &mut m, 0), Err(Refusal::BusFull));
    assert_eq!(rt; deliver(&system, &mut m, 3), Err(Refusal::NoTelegram));
    assert!(rt; found.stays(&m));
    for _ in 0..3 {
        assert_eq!(rt; deliver(&system, &mut m, 0), Ok(Delivered::Answered));
    }
    assert_eq!(rt; deliver(&system, &mut m, 0), Ok(Delivered::Kept));
    found.note(&m);
    // two are on the bus of three: with the one taken off there are two places, and a second trip wants three
    assert_eq!(rt; deliver(&system, &mut m, 0), Err(Refusal::BusFull));
    assert!(rt; found.stays(&m));
    assert_eq!(rt; give_up(&system, &mut m, ticket), Ok(()));
    Ok(())
}

#[test]
fn strange_telegrams(rt: HostRuntime) -> Result<(), Fail> {
    let system = Majority::new(3)?;
    let mut lent = Lent::new(rt.alloc(), 3, 16)?;
    let mut m = lent.memory();
    let mut found = Found::of(rt.alloc(), &m)?;
    assert_eq!(rt; open(&system, FIRST, &mut m), Ok(()));
    m.sent = 1;
    let good = Telegram {
        cabinet: 2,
        station: 2,
        job: 4095,
        kind: TelegramKind::Took,
    };
    for strange in [
        Telegram { cabinet: 3, ..good },
        Telegram { station: 0, ..good },
        Telegram { station: 3, ..good },
        Telegram { job: 4096, ..good },
    ] {
        m.bus.fill(strange);
        found.note(&m);
        assert_eq!(rt; deliver(&system, &mut m, 0), Err(Refusal::BadPlan));
        assert!(rt; found.stays(&m));
    }
    m.bus.fill(good);
    assert_eq!(rt; deliver(&system, &mut m, 0), Ok(Delivered::Nothing));
    Ok(())
}

#[test]
fn claims(rt: HostRuntime) -> Result<(), Fail> {
    let system = Majority::new(3)?;
    let mut lent = Lent::new(rt.alloc(), 8, 16)?;
    let mut m = lent.memory();
    let mut found = Found::of(rt.alloc(), &m)?;
    assert_eq!(rt; open(&system, FIRST, &mut m), Ok(()));
    let ticket = begin(&system, &mut m, 1, Work::Read)?;
    found.note(&m);
    for station in [0, 3] {
        let r = claim(&system, &mut m, station);
        assert_eq!(rt; refused(r, &mut m, &system), Some(Refusal::NoStation));
    }
    // one has a job whose ticket is out, the other none
    for station in [1, 2] {
        let r = claim(&system, &mut m, station);
        assert_eq!(rt; refused(r, &mut m, &system), Some(Refusal::StrangeTicket));
    }
    let ticket = handed_back(&rt, collect(&system, &mut m, ticket), Refusal::NotOver);
    assert!(rt; found.stays(&m));
    assert_eq!(rt; give_up(&system, &mut m, ticket), Ok(()));
    Ok(())
}

#[test]
fn strange_tickets(rt: HostRuntime) -> Result<(), Fail> {
    let system = Majority::new(3)?;
    let mut lent = Lent::new(rt.alloc(), 8, 16)?;
    let mut m = lent.memory();
    let mut other_lent = Lent::new(rt.alloc(), 8, 16)?;
    let mut other = other_lent.memory();
    let mut found = Found::of(rt.alloc(), &m)?;
    assert_eq!(rt; open(&system, FIRST, &mut m), Ok(()));
    assert_eq!(rt; open(&system, FIRST, &mut other), Ok(()));
    let ticket = begin(&system, &mut m, 1, Work::Read)?;
    // the other line has no job in hand
    found.note(&other);
    let ticket = kept_out(&rt, &mut other, &system, ticket, Refusal::StrangeTicket);
    assert!(rt; found.stays(&other));
    // and then one of the same station and number that is shelved
    assert!(rt; shelved(&system, &mut other));
    found.note(&other);
    let ticket = kept_out(&rt, &mut other, &system, ticket, Refusal::StrangeTicket);
    assert_eq!(rt; (ticket.station(), ticket.job()), (1, 0));
    let r = give_up(&system, &mut other, ticket);
    assert_eq!(rt; r, Err(Refusal::StrangeTicket));
    assert!(rt; found.stays(&other));
    Ok(())
}
