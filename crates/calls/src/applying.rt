// A choice is carried out.
ghost use Rattle.std.specs.Prelude.{◌≡◌, true, Some};
ghost use Rattle.line.specs.Lines.{hand_of};
ghost use Rattle.calls.specs.Choices.{answer_of, chosen_line, sends};
ghost use Rattle.calls.specs.Stations.{Goes, HasPlaces, HasRow, line};

use crate::choice::Choice;
use crate::hands::StationMemory;
use line::types::{Delivered, Hand};

// Whether the choice sends sets.
pub(crate) fn sends<V: Copy>(choice: &Choice<V>) -> bool
    ensures { result ≡ sends choice.now }
{
    match choice {
        Choice::Tagged(_) | Choice::Second(_, _) => true,
        Choice::Spent | Choice::Ended(_, _) => false,
    }
}

impl<'l, 'm, V: Copy> StationMemory<'l, 'm, V> {
    // What becomes of a job in hand whose quorum has told.
    pub(crate) fn apply(&mut self, hand: Hand<V>, choice: Choice<V>) -> Delivered
        requires row { HasRow self.old }
        requires held { hand_of (line self.old) self.old.station ≡ Some hand }
        requires places { sends choice ≡ true → HasPlaces self.old }
        ensures { (result ≡ answer_of choice) × Goes self.old (chosen_line (line self.old) self.old.station hand choice) self.new }
    {
        match choice {
            Choice::Spent => {
                self.spend(hand);
                Delivered::Spent
            }
            Choice::Tagged(pair) => {
                self.tag(hand, pair);
                self.second(hand, pair, 0);
                Delivered::SecondTrip
            }
            Choice::Ended(pair, strikes) => {
                self.finish(hand, pair, 1, strikes);
                Delivered::Ended
            }
            Choice::Second(pair, strikes) => {
                self.second(hand, pair, strikes);
                Delivered::SecondTrip
            }
        }
    }
}
