// The bus: telegrams are taken off, and join its end.
ghost use Rattle.std.specs.Prelude.{◌≡◌, ◌+◌, ◌<◌, ◌≤◌, [], ◌∷◌, length};
ghost use Rattle.std.specs.List.{slice_get, remove};
ghost use Rattle.line.specs.Lines.{send, to_all, with_bus};
ghost use Rattle.line.specs.Seen.{seen};
ghost use Rattle.calls.specs.Changes.{Becomes, Ends, OnBus};
ghost use Rattle.calls.specs.Stations.{Goes, HasPlaces, line};

use crate::hands::StationMemory;
use crate::places::{append, close_gap};
use line::types::Memory;
use telegrams::{Telegram, TelegramKind};

// The telegram at a place of the bus.
pub(crate) fn telegram_at<V: Copy>(m: &Memory<'_, V>, place: usize) -> Option<Telegram<V>>
    requires { Ends m.now }
    ensures { result ≡ slice_get (seen m.now).bus place }
{
    m.bus[..m.sent].get(place).copied()
}

// Takes the telegram at a place off the bus.
pub(crate) fn take_off<V>(m: &mut Memory<'_, V>, place: usize)
    requires { OnBus m.old place }
    ensures { Becomes m.old (with_bus (seen m.old) (remove (seen m.old).bus place)) m.new }
{
    let end = m.sent;
    close_gap(m.bus, place, end);
    m.sent = end - 1;
}

// A telegram joins the bus.
pub(crate) fn join<V: Copy>(m: &mut Memory<'_, V>, telegram: Telegram<V>)
    requires { Ends m.old × (m.old.sent < length m.old.bus.now) }
    ensures { Becomes m.old (send (seen m.old) (telegram ∷ [])) m.new }
{
    append(m.bus, &mut m.sent, telegram);
}

impl<'l, 'm, V: Copy> StationMemory<'l, 'm, V> {
    // A telegram of a kind joins the bus for each cabinet in turn.
    pub(crate) fn send_all(&mut self, job: u16, kind: TelegramKind<V>)
        requires { HasPlaces self.old }
        ensures { Goes self.old (send (line self.old) (to_all (line self.old) self.old.station job kind)) self.new }
    {
        let n = self.m.replicas.len() as u8;
        for cabinet in 0..n {
            let telegram = Telegram {
                cabinet,
                station: self.station,
                job,
                kind,
            };
            join(self.m, telegram);
        }
    }
}
