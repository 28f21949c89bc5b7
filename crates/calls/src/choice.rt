// What a station makes of the tellings of a quorum. It is found before the bus is judged and carried out after,
// since a refused delivery leaves the memory as found.
use telegrams::Pair;

#[derive(Clone, Copy)]
pub enum Choice<V> {
    // a write: no count is left
    Spent,
    // a write: its second trip begins with a new tag
    Tagged(Pair<V>),
    // a read: it has ended after one trip
    Ended(Pair<V>, u8),
    // a read: its second trip begins
    Second(Pair<V>, u8),
}
