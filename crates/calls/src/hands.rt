// The jobs in the stations' hands.
ghost use Rattle.std.specs.Prelude.{◌≡◌, ◌+◌, ◌-◌, ◌*◌, ◌^◌, length, Some, None, MatchBool, bit_or, option_copied};
ghost use Rattle.line.specs.declared.types.Hand.{Hand};
ghost use Rattle.line.specs.Lines.{IsStation, change, hand_of, hold, last_of, put as put_at, station_at};
ghost use Rattle.line.specs.Seen.{seen};
ghost use Rattle.line.specs.Steps.{freed};
ghost use Rattle.calls.specs.Changes.{Ends, Found, HasAnswers};

use crate::places::put;
use line::types::{Hand, Memory, Station};
use telegrams::Pair;

// Whether there is such a station.
pub(crate) fn is_station<V>(m: &Memory<'_, V>, station: u8) -> bool
    ensures { MatchBool result (IsStation (seen m.now) station) (IsStation (seen m.now) station → ⊥) }
{
    station >= 1 && usize::from(station) <= m.stations.len()
}

// The station's record. Readers have the memory by &, which StationMemory, with its &mut, cannot hold: so they take the number.
fn station_at<'a, V>(m: &'a Memory<'_, V>, station: u8) -> &'a Station<V>
    requires { IsStation (seen m.now) station }
    ensures { result.now ≡ station_at m.now.stations.now station }
{
    let stations = &*m.stations;
    &stations[usize::from(station) - 1]
}

// The station's job in hand, where it lies: no copy is made to look at it.
pub(crate) fn hand_at<'a, V>(m: &'a Memory<'_, V>, station: u8) -> Option<&'a Hand<V>>
    requires { IsStation (seen m.now) station }
    ensures { option_copied result ≡ hand_of (seen m.now) station }
{
    station_at(m, station).hand.as_ref()
}

// The station's own last count.
pub(crate) fn last_at<V>(m: &Memory<'_, V>, station: u8) -> u32
    requires { IsStation (seen m.now) station }
    ensures { result ≡ last_of (seen m.now) station }
{
    station_at(m, station).last
}

// The place of the cabinet's answer to the station.
pub(crate) fn answer_place<V>(m: &Memory<'_, V>, station: u8, cabinet: u8) -> usize
    requires { IsStation (seen m.now) station × HasAnswers m.now cabinet }
    ensures { result ≡ (station - 1) * length m.now.replicas.now + cabinet }
{
    (usize::from(station) - 1) * m.replicas.len() + usize::from(cabinet)
}

// The job in hand that a ticket stands for.
pub(crate) fn in_hand<'a, V>(m: &'a Memory<'_, V>, station: u8, job: u16) -> Option<&'a Hand<V>>
    ensures { Found (seen m.now) station job (option_copied result) }
{
    if !is_station(m, station) {
        return None;
    }
    hand_at(m, station).filter(|hand| hand.job == job && !hand.shelved)
}

// A station of the line, with the line's memory.
#[derive(Drop)]
pub(crate) struct StationMemory<'l, 'm, V> {
    pub(crate) m: &'l mut Memory<'m, V>,
    pub(crate) station: u8,
    ghost ends: { Ends m.now },
    ghost there: { IsStation (seen m.now) station },
}

impl<'l, 'm, V: Copy> StationMemory<'l, 'm, V> {
    ghost use Rattle.calls.specs.Stations.{Changes, Follows, Goes, line};

    // The station's record becomes this last count and this hand.
    fn change(&mut self, last: u32, hand: Option<Hand<V>>)
        ensures { Changes self.old last hand self.new }
    {
        let place = usize::from(self.station) - 1;
        let m = &mut *self.m;
        put(m.stations, place, Station { last, hand });
    }

    // The station's hand is another; its own last count stays.
    fn put_hand(&mut self, hand: Option<Hand<V>>)
        ensures { Changes self.old (last_of (line self.old) self.old.station) hand self.new }
    {
        let last = last_at(self.m, self.station);
        self.change(last, hand);
    }

    // The station's own last count is another.
    pub(crate) fn raise_last(&mut self, last: u32)
        ensures { Goes self.old (change (line self.old) self.old.station last (hand_of (line self.old) self.old.station) ((line self.old).answers self.old.station)) self.new }
    {
        let hand = hand_at(self.m, self.station).copied();
        self.change(last, hand);
    }

    // The station's job in hand moves on; the same cabinets have told it.
    pub(crate) fn hold(&mut self, hand: Hand<V>)
        requires { Follows self.old hand }
        ensures { Goes self.old (hold (line self.old) self.old.station hand) self.new }
    {
        self.put_hand(Some(hand));
    }

    // The station's hand is free.
    pub(crate) fn free(&mut self)
        ensures { Goes self.old (freed (line self.old) self.old.station) self.new }
    {
        self.put_hand(None);
    }

    // The station takes up a new job, which no cabinet has told yet.
    pub(crate) fn take_up(&mut self, hand: Hand<V>)
        requires { hand.told ≡ 0 }
        ensures { Goes self.old (change (line self.old) self.old.station (last_of (line self.old) self.old.station) (Some hand) (λ c. None)) self.new }
    {
        self.put_hand(Some(hand));
    }

    // One more cabinet has told the station's job in hand.
    pub(crate) fn tell(&mut self, cabinet: u8, hand: Hand<V>, pair: Pair<V>)
        requires wide { HasAnswers self.old.m.now cabinet }
        requires told { (h : Hand V) × (hand_of (line self.old) self.old.station ≡ Some h) × (hand.told ≡ bit_or h.told (2 ^ cabinet)) }
        ensures { Goes self.old (change (line self.old) self.old.station (last_of (line self.old) self.old.station) (Some hand) (put_at ((line self.old).answers self.old.station) cabinet (Some pair))) self.new }
    {
        let place = answer_place(self.m, self.station, cabinet);
        let m = &mut *self.m;
        put(m.answers, place, pair);
        self.put_hand(Some(hand));
    }
}
