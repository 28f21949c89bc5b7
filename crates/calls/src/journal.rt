// The journal: rows join its end.
ghost use Rattle.std.specs.Prelude.{◌≡◌};
ghost use Rattle.line.specs.Lines.{first_tag, note};
ghost use Rattle.calls.specs.Stations.{Goes, HasRow, line};

use crate::hands::StationMemory;
use crate::places::append;
use line::types::{Row, RowKind};
use telegrams::Pair;
use words::tag::Tag;

impl<'l, 'm, V: Copy> StationMemory<'l, 'm, V> {
    // A row joins the journal.
    pub(crate) fn note(&mut self, row: Row<V>)
        requires { HasRow self.old }
        ensures { Goes self.old (note (line self.old) row) self.new }
    {
        let m = &mut *self.m;
        append(m.journal, &mut m.written, row);
    }

    // A row of a kind with nothing but the station and a job: the other fields hold the first tag, 0 and the first value.
    pub(crate) fn blank_row(&self, kind: RowKind, job: u16) -> Row<V>
        ensures { result ≡ record { kind = kind; station = self.now.station; job = job; tag = first_tag (line self.now); trips = 0; strikes = 0; value = self.now.m.now.first.value } }
    {
        let first = self.m.first;
        Row {
            kind,
            station: self.station,
            job,
            tag: Tag {
                count: first.count,
                owner: 0,
            },
            trips: 0,
            strikes: 0,
            value: first.value,
        }
    }

    // A row of a kind with the station, a job and its pair.
    pub(crate) fn pair_row(
        &self,
        kind: RowKind,
        job: u16,
        pair: Pair<V>,
        trips: u8,
        strikes: u8,
    ) -> Row<V>
        ensures { result ≡ record { kind = kind; station = self.now.station; job = job; tag = pair.tag; trips = trips; strikes = strikes; value = pair.value } }
    {
        Row {
            kind,
            station: self.station,
            job,
            tag: pair.tag,
            trips,
            strikes,
            value: pair.value,
        }
    }
}
