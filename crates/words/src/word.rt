// The 32-bit word: its kind in the top four bits, and the fields of a head word.
ghost use Rattle.std.specs.Prelude.{◌≡◌, ◌%◌, ◌^◌, ◌<◌, length, MatchOption, slice_index};
ghost use Rattle.words.specs.Judged.{verdict};
ghost use Rattle.words.specs.Words.{kind_judge, marked, head_word};

// The kinds of the words behind a head.
pub const COUNT: u8 = 5;

pub const OWNER: u8 = 6;

pub const VALUE: u8 = 7;

// The fields of a head word. On the bus `cabinet`, `station` and `job` name a telegram's parties;
// commands and the opening of a tape use the same places for their own fields.
#[derive(Clone, Copy, PartialEq, Eq, Debug)]
pub struct Head {
    // a number, not an enum: each word has a kind of four bits, with a name or not, and a split loses nothing
    pub kind: u8,
    pub cabinet: u8,
    pub station: u8,
    pub job: u16,
}

// The fields of a word, nothing lost.
pub fn split(word: u32) -> Head
    ensures whole { head_word result ≡ word }
    ensures kind { result.kind < 16 }
    ensures cabinet { result.cabinet < 16 }
{
    Head {
        kind: (word >> 28) as u8,
        cabinet: ((word >> 24) & 0xf) as u8,
        station: ((word >> 16) & 0xff) as u8,
        job: (word & 0xffff) as u16,
    }
}

// The word of a head, of whose kind and cabinet the lowest four bits count.
pub fn join(head: Head) -> u32
    ensures { result ≡ head_word (record { kind = head.kind % 16; cabinet = head.cabinet % 16; station = head.station; job = head.job }) }
{
    let upper = (u32::from(head.kind & 0xf) << 4) | u32::from(head.cabinet & 0xf);
    let upper = (upper << 8) | u32::from(head.station);
    (upper << 16) | u32::from(head.job)
}

// A word of the kind, of which the lowest four bits count, with the lowest 28 bits of `bits`. The kind is a number, as in a head.
pub fn mark(kind: u8, bits: u32) -> u32
    ensures { result ≡ marked (kind % 16) (bits % 2 ^ 28) }
{
    (u32::from(kind & 0xf) << 28) | (bits & 0x0fff_ffff)
}

// The 28 bits below the kind of the word at `place`, if it is there and of that kind.
pub fn bits_at(kind: u8, words: &[u32], place: usize) -> Option<u32>
    ensures { MatchOption result (verdict (kind_judge kind) words.now place ≡ 10) (λ bits. (place < length words.now) × (bits < 2 ^ 28) × (marked kind bits ≡ slice_index words.now place)) }
{
    let word = *words.get(place)?;
    (word >> 28 == u32::from(kind)).then_some(word & 0x0fff_ffff)
}
