// What a call answers when it refuses.
ghost use Rattle.std.specs.Prelude.{◌≡◌};
ghost use Rattle.words.specs.Refusals.{number, shifted};

use std::fmt;

#[derive(Clone, Copy, PartialEq, Eq, Debug)]
pub enum Refusal {
    BadPlan,
    LooseCrews,
    NoStation,
    HandsFull,
    BusFull,
    BookFull,
    NoTelegram,
    NotOver,
    StrangeTicket,
    BadWord { place: usize },
    BadValue { place: usize },
    // the inner number is 0, 10 or 11; a number, since it is printed and carried as the table has it
    BadTape { inner: u8, place: usize },
    ShortStrip,
}

impl Refusal {
    // The refusal's number in the table, by which output and contracts speak of it.
    pub fn number(&self) -> u8
        ensures { result ≡ number self.now }
    {
        match self {
            Refusal::BadPlan => 1,
            Refusal::LooseCrews => 2,
            Refusal::NoStation => 3,
            Refusal::HandsFull => 4,
            Refusal::BusFull => 5,
            Refusal::BookFull => 6,
            Refusal::NoTelegram => 7,
            Refusal::NotOver => 8,
            Refusal::StrangeTicket => 9,
            Refusal::BadWord { .. } => 10,
            Refusal::BadValue { .. } => 11,
            Refusal::BadTape { .. } => 12,
            Refusal::ShortStrip => 13,
        }
    }
    // A place counted from a part of the input, as counted from `by` words before that part.
    pub fn shifted(self, by: usize) -> Refusal
        ensures { result ≡ shifted by self }
    {
        match self {
            Refusal::BadWord { place } => Refusal::BadWord {
                place: place.saturating_add(by),
            },
            Refusal::BadValue { place } => Refusal::BadValue {
                place: place.saturating_add(by),
            },
            other => other,
        }
    }
}

// The number, and then the values that the refusal carries.
impl fmt::Display for Refusal {
    fn fmt<W: fmt::Write>(&self, f: &mut fmt::Formatter<W>) -> fmt::Result {
        let number = self.number();
        match self {
            Refusal::BadWord { place } | Refusal::BadValue { place } => write!(
                f,
                "{number} {place}"
            ),
            Refusal::BadTape { inner, place } => write!(f, "{number} {inner} {place}"),
            _ => write!(f, "{number}"),
        }
    }
}
