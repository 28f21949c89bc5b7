// A cabinet answers a query and takes a set.
ghost use Rattle.std.specs.Prelude.{◌≡◌, [], ◌∷◌};
ghost use Rattle.std.specs.List.{remove};
ghost use Rattle.telegrams.specs.declared.TelegramKind.TheVariants.{Told, Took};
ghost use Rattle.line.specs.Lines.{View, replica, reply, send, store, with_bus};
ghost use Rattle.line.specs.Seen.{seen};
ghost use Rattle.line.specs.Steps.{Stored};
ghost use Rattle.calls.specs.Changes.{Becomes, Ends, IsCabinet, OnBus, off};

use crate::bus::{join, take_off};
use crate::places::put;
use line::types::Memory;
use telegrams::{Pair, Telegram, TelegramKind};

// A cabinet's replica.
// Cabinets go by number: a struct of the memory and a cabinet would serve two functions of a line each.
fn replica_at<V: Copy>(m: &Memory<'_, V>, cabinet: u8) -> Pair<V>
    requires { IsCabinet m.now cabinet }
    ensures { result ≡ replica (seen m.now) cabinet }
{
    m.replicas[usize::from(cabinet)]
}

// The replica becomes the pair.
fn store<V: Copy>(m: &mut Memory<'_, V>, cabinet: u8, pair: Pair<V>)
    requires { Ends m.old × IsCabinet m.old cabinet }
    ensures { Becomes m.old (store (seen m.old) cabinet pair) m.new }
{
    put(m.replicas, usize::from(cabinet), pair);
}

// The cabinet takes the pair if its tag is later.
fn offer<V: Copy>(m: &mut Memory<'_, V>, cabinet: u8, pair: Pair<V>)
    requires { Ends m.old × IsCabinet m.old cabinet }
    ensures { (w : View V) × Stored (seen m.old) cabinet pair w × Becomes m.old w m.new }
{
    if pair.tag.is_later(&replica_at(m, cabinet).tag) {
        store(m, cabinet, pair);
    }
}

// A telegram is taken off the bus, and its answer joins.
fn reply<V: Copy>(m: &mut Memory<'_, V>, place: usize, t: Telegram<V>, kind: TelegramKind<V>)
    requires { OnBus m.old place }
    ensures { Becomes m.old (send (off (seen m.old) place) (reply t kind ∷ [])) m.new }
{
    take_off(m, place);
    join(m, Telegram { kind, ..t });
}

// A query is answered: told, with the replica.
pub(crate) fn answer_query<V: Copy>(m: &mut Memory<'_, V>, place: usize, t: Telegram<V>)
    requires { OnBus m.old place × IsCabinet m.old t.cabinet }
    ensures { Becomes m.old (send (off (seen m.old) place) (reply t (Told (replica (seen m.old) t.cabinet)) ∷ [])) m.new }
{
    let pair = replica_at(m, t.cabinet);
    reply(m, place, t, TelegramKind::Told(pair));
}

// A set is answered: took, after the pair is stored if its tag is later.
pub(crate) fn answer_set<V: Copy>(
    m: &mut Memory<'_, V>,
    place: usize,
    t: Telegram<V>,
    pair: Pair<V>,
)
    requires { OnBus m.old place × IsCabinet m.old t.cabinet }
    ensures { (w : View V) × Stored (off (seen m.old) place) t.cabinet pair w × Becomes m.old (send w (reply t Took ∷ [])) m.new }
{
    offer(m, t.cabinet, pair);
    reply(m, place, t, TelegramKind::Took);
}
