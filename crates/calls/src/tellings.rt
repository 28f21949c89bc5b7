// What the cabinets told a job, one more telling among them.
ghost use Rattle.std.specs.Prelude.{◌≡◌, ℕ, ◌<◌, ◌≤◌, List, map, length, take, Some, Option, MatchOption};
ghost use Rattle.std.specs.List.{slice_get};
ghost use Rattle.telegrams.specs.declared.Pair.{Pair};
ghost use Rattle.line.specs.Lines.{IsStation, tag_of};
ghost use Rattle.line.specs.Seen.{seen};
ghost use Rattle.calls.specs.Changes.{HasAnswers, Placed, told_list};
ghost use Rattle.calls.specs.Choices.{GreatestIn, LowestIn, Tells};

use crate::hands::{answer_place, hand_at};
use line::types::Memory;
use quorums::sets::has;
use std::marker::Model;
use telegrams::{Pair, Telegram};
use words::tag::Tag;

// What a cabinet told the station's job in hand.
fn answer_at<V: Copy>(m: &Memory<'_, V>, station: u8, cabinet: u8) -> Option<Pair<V>>
    requires line { IsStation (seen m.now) station }
    requires wide { HasAnswers m.now cabinet }
    ensures { result ≡ (seen m.now).answers station cabinet }
{
    let hand = hand_at(m, station)?;
    if has(hand.told, cabinet) {
        let place = answer_place(m, station, cabinet);
        m.answers.get(place).copied()
    } else {
        None
    }
}

// The tag of a telling, and the least of all tags where there is none.
fn tag_of<V: Copy>(telling: Option<Pair<V>>) -> Tag
    ensures { result ≡ tag_of telling }
{
    telling.map_or(Tag { count: 0, owner: 0 }, |pair| pair.tag)
}

// What the cabinets told a station's job, where they lie, with the pair of one more telling laid over them. A
// clause sees the list of what each cabinet told.
#[derive(Drop)]
pub(crate) struct Tellings<'a, 'm, V> {
    m: &'a Memory<'m, V>,
    t: Telegram<V>,
    pair: Pair<V>,
}

impl<'a, 'm, V> Model for Tellings<'a, 'm, V> {
    ghost Value = { List (Option (Pair V)) };

    ghost view = { λ x. told_list (seen x.m.now) x.t x.pair };

    ghost invariant = { λ x. Placed x.m.now x.t };
}

impl<'a, 'm, V: Copy> Tellings<'a, 'm, V> {
    // The telegram brings one more, the pair.
    pub(crate) fn new(m: &'a Memory<'m, V>, t: Telegram<V>, pair: Pair<V>) -> Self
        requires { Placed m.now t }
        ensures { result ≡ told_list (seen m.now) t pair }
    {
        Tellings { m, t, pair }
    }

    // How many cabinets there are.
    pub(crate) fn cabinets(&self) -> u8
        ensures { (result ≡ length self.now) × (result ≤ 16) }
    {
        self.m.replicas.len() as u8
    }

    // What a cabinet told.
    fn at(&self, k: u8) -> Option<Pair<V>>
        requires { k < length self.now }
        ensures { slice_get self.now k ≡ Some result }
    {
        if k == self.t.cabinet {
            Some(self.pair)
        } else {
            answer_at(self.m, self.t.station, k)
        }
    }

    // What a cabinet told, if it is a member of the quorum.
    fn of_member(&self, q: u16, k: u8) -> Option<Pair<V>>
        requires { k < length self.now }
        ensures { MatchOption result ((p : Pair V) → Tells self.now q k p → ⊥) (λ p. Tells self.now q k p) }
    {
        if has(q, k) { self.at(k) } else { None }
    }

    // The greatest of the quorum's counts and the station's own last count.
    pub(crate) fn greatest(&self, q: u16, last: u32) -> u32
        ensures { GreatestIn self.now q last result }
    {
        let mut g = last;
        // The rules of the project name this form: an index over the tellings.
        for k in 0..self.cabinets() {
            if let Some(pair) = self.of_member(q, k) {
                g = g.max(pair.tag.count);
            }
        }
        g
    }

    // What the lowest-numbered holder of a tag told that some member told.
    // A loop stays: `find_map` was tried, and the proof that something is found did not close.
    pub(crate) fn holder(&self, q: u16, tag: Tag) -> Pair<V>
        requires { (k : ℕ) × (p : Pair V) × Tells self.now q k p × (p.tag ≡ tag) }
        ensures { LowestIn self.now q tag result }
    {
        for k in 0..self.cabinets() {
            if let Some(pair) = self.of_member(q, k)
                && pair.tag == tag
            {
                return pair;
            }
        }
        unreachable()
    }

    // The tags told, one place for each cabinet. An array of the greatest size, since the calls use no heap.
    // Filled by index: zipped with `&mut tags` was tried, and what was written was not known afterwards.
    pub(crate) fn tags(&self) -> [Tag; 16]
        ensures { take (length self.now) result ≡ map tag_of self.now }
    {
        let mut tags = [Tag { count: 0, owner: 0 }; 16];
        for k in 0..self.cabinets() {
            tags[usize::from(k)] = tag_of(self.at(k));
        }
        tags
    }
}
