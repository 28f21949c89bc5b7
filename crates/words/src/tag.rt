// Tags, by which writes are ordered.
ghost use Rattle.std.specs.Prelude.{MatchBool};
ghost use Rattle.words.specs.Tags.{Before, TagOrder, Upto};

use std::fmt;

// The greatest count.
pub const MAX_COUNT: u32 = 268_435_455;

// The greatest number of a station. Station 0 is nobody.
pub const MAX_STATION: u8 = 32;

// A count, 0 to `MAX_COUNT`, and the number of the station that owns it, 0 for nobody, as words and rows have it.
#[derive(Clone, Copy, PartialEq, Eq, PartialOrd, Ord, Debug)]
pub struct Tag {
    pub count: u32,
    pub owner: u8,
}

impl Tag {
    // A tag is later by a greater count or, counts equal, by a greater owner.
    pub fn is_later(&self, other: &Tag) -> bool
        ensures later { MatchBool result (Before other.now self.now) (Upto self.now other.now) }
        ensures order { TagOrder }
    {
        self > other
    }
}

impl fmt::Display for Tag {
    fn fmt<W: fmt::Write>(&self, f: &mut fmt::Formatter<W>) -> fmt::Result {
        write!(f, "{} {}", self.count, self.owner)
    }
}
