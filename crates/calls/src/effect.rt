// What a telegram that counts does to the job in its station's hand.
use telegrams::Pair;

#[derive(Clone, Copy)]
pub enum Effect<V> {
    // a telling
    Told(Pair<V>),
    // a took, with all that are counted now
    Took {
        pair: Pair<V>,
        strikes: u8,
        took: u16,
    },
}
