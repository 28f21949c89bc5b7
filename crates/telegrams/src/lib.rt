// Telegrams, and the words by which they go over the bus.
#![tactic(auto)]

ghost use Rattle.std.specs.Prelude.{◌≡◌, ◌+◌, ◌<◌, ◌≤◌, [], ◌∷◌, ◌++◌, length, take, drop, Some, MatchOption, MatchResult, slice_index};
ghost use Rattle.words.specs.Judged.{judged, verdict, Faulted, Written};
ghost use Rattle.words.specs.Words.{head_word, marked};
ghost use Rattle.words.specs.declared.refusal.Refusal.TheVariants.{BadWord};
ghost use Rattle.telegrams.specs.Telegrams.{head_judge, tag_judges, owner_judge, IsHead, head_of, kind_number, number_of, Numbered, pair_of, pair_run, telegram_run, telegram_faults, IsTelegram, IsPair, pair_faults, ReadAs, Exact, OneRun};

use std::fmt;
use words::refusal::Refusal;
use words::tag::{MAX_COUNT, MAX_STATION, Tag};
use words::value::Value;
use words::word::{COUNT, Head, OWNER, bits_at, join, mark, split};

// The greatest number of a cabinet.
pub const MAX_CABINET: u8 = 15;

// The greatest number of a job.
pub const MAX_JOB: u16 = 4095;

// A value with its tag.
#[derive(Clone, Copy, PartialEq, Eq, Debug)]
pub struct Pair<V> {
    pub tag: Tag,
    pub value: V,
}

// A query asks a cabinet for its pair, which told answers. A set hands a cabinet a pair, which took
// acknowledges.
#[derive(Clone, Copy, PartialEq, Eq, Debug)]
pub enum TelegramKind<V> {
    Query,
    Told(Pair<V>),
    Set(Pair<V>),
    Took,
}

// What goes between a cabinet and a station about one of the station's jobs.
#[derive(Clone, Copy, PartialEq, Eq, Debug)]
pub struct Telegram<V> {
    pub cabinet: u8,
    pub station: u8,
    pub job: u16,
    pub kind: TelegramKind<V>,
}

// The kinds of a telegram, by their numbers in the head.
#[derive(Clone, Copy, PartialEq, Eq, Debug)]
enum HeadKind {
    Query = 1,
    Told,
    Set,
    Took,
}

impl TryFrom<u8> for HeadKind {
    type Error = Refusal;

    ghost try_from_gives = { Numbered };

    fn try_from(number: u8) -> Result<Self, Refusal> {
        match number {
            1 => Ok(HeadKind::Query),
            2 => Ok(HeadKind::Told),
            3 => Ok(HeadKind::Set),
            4 => Ok(HeadKind::Took),
            _ => Err(Refusal::BadWord { place: 0 }),
        }
    }
}

impl From<HeadKind> for u8 {
    ghost from_gives = { λ kind number. number ≡ number_of kind };

    fn from(kind: HeadKind) -> u8 {
        kind as u8
    }
}

impl fmt::Display for HeadKind {
    fn fmt<W: fmt::Write>(&self, f: &mut fmt::Formatter<W>) -> fmt::Result {
        f.write_str(match self {
            HeadKind::Query => "query",
            HeadKind::Told => "told",
            HeadKind::Set => "set",
            HeadKind::Took => "took",
        })
    }
}

impl<V: Value> Pair<V> {
    // Whether count, owner and value lie in their ranges; places count from the telegram's first word.
    fn check(&self) -> Result<(), Refusal>
        ensures { MatchResult result (λ _. IsPair V.valid (Some self.now)) (Faulted (0 ∷ pair_faults V.faults (Some self.now))) }
    {
        if self.tag.count > MAX_COUNT {
            return Err(Refusal::BadWord { place: 1 });
        }
        if self.tag.owner > MAX_STATION {
            return Err(Refusal::BadWord { place: 2 });
        }
        self.value.check().map_err(|e| e.shifted(3))
    }
}

impl<V> TelegramKind<V> {
    // The kind of the head.
    fn head_kind(&self) -> HeadKind
        ensures { number_of result ≡ kind_number self.now }
    {
        match self {
            TelegramKind::Query => HeadKind::Query,
            TelegramKind::Told(_) => HeadKind::Told,
            TelegramKind::Set(_) => HeadKind::Set,
            TelegramKind::Took => HeadKind::Took,
        }
    }
}

impl<V: Value> Telegram<V> {
    // The tag and value that told and set carry.
    pub fn pair(&self) -> Option<Pair<V>>
        ensures { result ≡ pair_of self.now.kind }
    {
        match self.kind {
            TelegramKind::Told(pair) | TelegramKind::Set(pair) => Some(pair),
            TelegramKind::Query | TelegramKind::Took => None,
        }
    }

    // Whether every field lies in its range; otherwise the first word at fault.
    pub fn check(&self) -> Result<(), Refusal>
        ensures { MatchResult result (λ _. IsTelegram V.valid self.now) (Faulted (telegram_faults V.faults self.now)) }
    {
        if self.cabinet > MAX_CABINET
            || !(1..=MAX_STATION).contains(&self.station)
            || self.job > MAX_JOB
        {
            return Err(Refusal::BadWord { place: 0 });
        }
        match self.pair() {
            Some(pair) => pair.check(),
            None => Ok(()),
        }
    }

    // The telegram whose run opens the words, and the run's length; otherwise the first word at fault.
    fn read_words(words: &[u32]) -> Result<(Telegram<V>, usize), Refusal>
        ensures { ReadAs V.valid V.run V.judges words.now result }
    {
        let (head_kind, head) = read_head(words)?;
        let (kind, width) = match head_kind {
            HeadKind::Query => (TelegramKind::Query, 1),
            HeadKind::Told => (TelegramKind::Told(read_pair(words)?), 3 + V::width()),
            HeadKind::Set => (TelegramKind::Set(read_pair(words)?), 3 + V::width()),
            HeadKind::Took => (TelegramKind::Took, 1),
        };
        let Head {
            cabinet,
            station,
            job,
            ..
        } = head;
        Ok((
            Telegram {
                cabinet,
                station,
                job,
                kind,
            },
            width,
        ))
    }

    // Words are read as a telegram exactly when they open with its run, the only one that it has: no
    // two telegrams share a run, and no run opens another's.
    pub fn read(words: &[u32]) -> Result<(Telegram<V>, usize), Refusal>
        ensures reads { ReadAs V.valid V.run V.judges words.now result }
        ensures exact { Exact V.valid V.run words.now result }
        ensures alone { OneRun V.valid V.run }
    {
        Telegram::read_words(words)
    }

    // Puts the telegram's run down at the start of `out`, and answers its length. Fields out of range
    // are refused before a short output, and a refusal leaves `out` as found.
    pub fn write(&self, out: &mut [u32]) -> Result<usize, Refusal>
        ensures { Written (telegram_faults V.faults self.now) (telegram_run V.run self.now) out.old out.new result }
    {
        self.check()?;
        let head = join(self.head());
        match self.pair() {
            Some(pair) => write_pair(head, &pair, out),
            None => write_alone(head, out),
        }
    }

    // The fields of the first word.
    fn head(&self) -> Head
        ensures { result ≡ head_of self.now }
    {
        Head {
            kind: u8::from(self.kind.head_kind()),
            cabinet: self.cabinet,
            station: self.station,
            job: self.job,
        }
    }
}

// Puts down a head that nothing follows.
fn write_alone(head: u32, out: &mut [u32]) -> Result<usize, Refusal>
    ensures { Written [] (head ∷ []) out.old out.new result }
{
    *out.first_mut().ok_or(Refusal::ShortStrip)? = head;
    Ok(1)
}

// Puts down a head with its tag and value. Indices name the three places: a slice pattern is no
// plainer here, since the value writes into the middle part of `out` by its range.
fn write_pair<V: Value>(head: u32, pair: &Pair<V>, out: &mut [u32]) -> Result<usize, Refusal>
    requires { IsPair V.valid (Some pair.now) }
    ensures { Written [] (head ∷ pair_run V.run (Some pair.now)) out.old out.new result }
{
    let end = 3 + V::width();
    if out.len() < end {
        return Err(Refusal::ShortStrip);
    }
    pair.value.write(&mut out[3..end])?;
    out[0] = head;
    out[1] = mark(COUNT, pair.tag.count);
    out[2] = mark(OWNER, u32::from(pair.tag.owner));
    Ok(end)
}

// KIND CABINET STATION JOB, and for told and set COUNT OWNER VALUE.
impl<V: Value + fmt::Display> fmt::Display for Telegram<V> {
    fn fmt<W: fmt::Write>(&self, f: &mut fmt::Formatter<W>) -> fmt::Result {
        let Telegram {
            cabinet,
            station,
            job,
            kind,
        } = self;
        let kind = kind.head_kind();
        write!(f, "{kind} {cabinet} {station} {job}")?;
        if let Some(Pair { tag, value }) = self.pair() {
            write!(f, " {tag} {value}")?;
        }
        Ok(())
    }
}

// The kind and the fields of the first word, if it is there and the head of a telegram.
fn read_head(words: &[u32]) -> Result<(HeadKind, Head), Refusal>
    ensures { MatchResult result (λ (kind, h). (0 < length words.now) × (head_word h ≡ slice_index words.now 0) × IsHead h × (number_of kind ≡ h.kind)) (λ e. (e ≡ BadWord 0) × (verdict head_judge words.now 0 ≡ 10)) }
{
    let bad = Refusal::BadWord { place: 0 };
    let head = split(*words.first().ok_or(bad)?);
    let kind = HeadKind::try_from(head.kind)?;
    if !(1..=MAX_STATION).contains(&head.station) || head.job > MAX_JOB {
        return Err(bad);
    }
    Ok((kind, head))
}

// The owner of a tag, behind the head and the count.
fn owner_at(words: &[u32]) -> Option<u8>
    ensures { MatchOption result (verdict owner_judge words.now 2 ≡ 10) (λ owner. (2 < length words.now) × (owner ≤ 32) × (marked 6 owner ≡ slice_index words.now 2)) }
{
    let owner = u8::try_from(bits_at(OWNER, words, 2)?).ok()?;
    (owner <= MAX_STATION).then_some(owner)
}

// The tag and value behind the head; places count from the telegram's first word.
fn read_pair<V: Value>(words: &[u32]) -> Result<Pair<V>, Refusal>
    ensures { MatchResult result (λ p. IsPair V.valid (Some p) × (take (2 + length V.judges) (drop 1 words.now) ≡ pair_run V.run (Some p))) (Faulted (0 ∷ judged (tag_judges ++ V.judges) (drop 1 words.now))) }
{
    let count = bits_at(COUNT, words, 1).ok_or(Refusal::BadWord { place: 1 })?;
    let owner = owner_at(words).ok_or(Refusal::BadWord { place: 2 })?;
    let end = words.len().min(3 + V::width());
    let value = V::read(&words[3..end]).map_err(|e| e.shifted(3))?;
    let tag = Tag { count, owner };
    Ok(Pair { tag, value })
}
