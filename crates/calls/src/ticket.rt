// Tickets: each stands for a job in hand.
ghost use Rattle.std.specs.Prelude.{◌≡◌};

use words::refusal::Refusal;

// Made by begin and claim, used up by collect, give up and shelve. It cannot be let fall.
pub struct Ticket {
    pub(crate) station: u8,
    pub(crate) job: u16,
}

impl Ticket {
    pub fn station(&self) -> u8
        ensures { result ≡ self.now.station }
    {
        self.station
    }

    pub fn job(&self) -> u16
        ensures { result ≡ self.now.job }
    {
        self.job
    }
}

// A refusal that hands the ticket back.
pub struct HandedBack {
    pub refusal: Refusal,
    pub ticket: Ticket,
}
