// How a job in hand goes on.
ghost use Rattle.std.specs.Prelude.{◌≡◌, ◌^◌, Some, bit_or};
ghost use Rattle.telegrams.specs.declared.TelegramKind.TheVariants.{Set};
ghost use Rattle.line.specs.declared.types.Hand.{Hand};
ghost use Rattle.line.specs.declared.types.Stage.TheVariants.{Ended, Setting, Spent};
ghost use Rattle.line.specs.Lines.{IsStation, at_stage, change, ended_row, hand_of, hold, last_of, note, put, send, spent_row, tagged_row, to_all};
ghost use Rattle.line.specs.Seen.{seen};
ghost use Rattle.calls.specs.Changes.{Becomes, HasAnswers, OnBus, off};
ghost use Rattle.calls.specs.Stations.{Follows, Goes, HasPlaces, HasRow, line};

use crate::bus::take_off;
use crate::hands::StationMemory;
use line::types::{Hand, Memory, Row, RowKind, Stage};
use telegrams::{Pair, Telegram, TelegramKind};

impl<'l, 'm, V: Copy> StationMemory<'l, 'm, V> {
    // The job has ended with a pair.
    pub(crate) fn finish(&mut self, hand: Hand<V>, pair: Pair<V>, trips: u8, strikes: u8)
        requires row { HasRow self.old }
        requires same { Follows self.old hand }
        ensures { Goes self.old (note (hold (line self.old) self.old.station (at_stage hand (Ended pair trips strikes))) (ended_row self.old.station hand.job pair trips strikes)) self.new }
    {
        let row = self.pair_row(RowKind::Ended, hand.job, pair, trips, strikes);
        self.hold(Hand {
            stage: Stage::Ended {
                pair,
                trips,
                strikes,
            },
            ..hand
        });
        self.note(row);
    }

    // The counts have run out for a write.
    pub(crate) fn spend(&mut self, hand: Hand<V>)
        requires row { HasRow self.old }
        requires same { Follows self.old hand }
        ensures { Goes self.old (note (hold (line self.old) self.old.station (at_stage hand Spent)) (spent_row (line self.old) self.old.station hand.job)) self.new }
    {
        let row = Row {
            trips: 1,
            ..self.blank_row(RowKind::Spent, hand.job)
        };
        self.hold(Hand {
            stage: Stage::Spent,
            ..hand
        });
        self.note(row);
    }

    // A write has its tag.
    pub(crate) fn tag(&mut self, hand: Hand<V>, pair: Pair<V>)
        requires row { HasRow self.old }
        requires held { hand_of (line self.old) self.old.station ≡ Some hand }
        ensures { Goes self.old (note (change (line self.old) self.old.station pair.tag.count (Some hand) ((line self.old).answers self.old.station)) (tagged_row self.old.station hand.job pair)) self.new }
    {
        let row = self.pair_row(RowKind::Tagged, hand.job, pair, 1, 0);
        self.raise_last(pair.tag.count);
        self.note(row);
    }

    // The second trip begins: a set goes to all cabinets.
    pub(crate) fn second(&mut self, hand: Hand<V>, pair: Pair<V>, strikes: u8)
        requires places { HasPlaces self.old }
        requires same { Follows self.old hand }
        ensures { Goes self.old (send (hold (line self.old) self.old.station (at_stage hand (Setting pair strikes 0))) (to_all (line self.old) self.old.station hand.job (Set pair))) self.new }
    {
        self.hold(Hand {
            stage: Stage::Setting {
                pair,
                strikes,
                took: 0,
            },
            ..hand
        });
        self.send_all(hand.job, TelegramKind::Set(pair));
    }
}

// A telling is taken off the bus and kept.
pub(crate) fn receive<V: Copy>(
    m: &mut Memory<'_, V>,
    place: usize,
    t: Telegram<V>,
    hand: Hand<V>,
    pair: Pair<V>,
)
    requires line { OnBus m.old place × IsStation (seen m.old) t.station }
    requires wide { HasAnswers m.old t.cabinet }
    requires told { (h : Hand V) × (hand_of (seen m.old) t.station ≡ Some h) × (hand.told ≡ bit_or h.told (2 ^ t.cabinet)) }
    ensures { Becomes m.old (change (off (seen m.old) place) t.station (last_of (seen m.old) t.station) (Some hand) (put ((seen m.old).answers t.station) t.cabinet (Some pair))) m.new }
{
    take_off(m, place);
    StationMemory {
        m,
        station: t.station,
    }
    .tell(t.cabinet, hand, pair);
}
