// A capture's telegrams, and what of it is no telegram.
ghost use Rattle.std.specs.Prelude.{IfOk};
ghost use Rattle.capture.specs.Scans.{Scans};

use std::alloc::{AllocError, Global};
use std::fmt;
use telegrams::Telegram;
use words::refusal::Refusal;
use words::value::Value;

// A telegram, and the place of its first word in the capture.
#[derive(Clone, Copy, PartialEq, Eq, Debug)]
pub struct Found<V> {
    pub place: usize,
    pub telegram: Telegram<V>,
}

// What stands at a place of a capture: a telegram, or the refusal of the words there, whose place
// counts from the capture's start.
pub type Item<V> = Result<Found<V>, Refusal>;

// The items of a capture, from its start to its end. A `while` stays: each step goes on by as many
// words as were read, and an iterator's `next` would count the same place in a field.
pub fn scan<V: Value>(heap: Global, words: &[u32]) -> Result<Vec<Item<V>>, AllocError>
    ensures { IfOk result (λ items. Scans V.valid V.run V.judges words.now 0 items.items) }
{
    let mut items = Vec::new(heap);
    let mut place = 0;
    while place < words.len() {
        let (item, width) = match Telegram::read(&words[place..]) {
            Ok((telegram, width)) => (Ok(Found { place, telegram }), width),
            Err(e) => (Err(e.shifted(place)), 1),
        };
        items.push(item)?;
        place += width;
    }
    Ok(items)
}

// PLACE and the telegram.
impl<V: Value + fmt::Display> fmt::Display for Found<V> {
    fn fmt<W: fmt::Write>(&self, f: &mut fmt::Formatter<W>) -> fmt::Result {
        write!(f, "{} {}", self.place, self.telegram)
    }
}
