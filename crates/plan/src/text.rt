// Sets of cabinets and tags as text.
use anyhow::bail;
use quorums::sets::{has, with};
use std::error::Error;
use std::fmt;
use std::str::FromStr;
use words::tag::Tag;

// A set of cabinets: those from 0 to 15 with commas between, or - for the empty set.
#[derive(Clone, Copy, PartialEq, Eq, Debug)]
pub(crate) struct CabinetSet(pub(crate) u16);

impl FromStr for CabinetSet {
    type Err = anyhow::Error;

    fn from_str(text: &str) -> anyhow::Result<CabinetSet> {
        if text == "-" {
            return Ok(CabinetSet(0));
        }
        let mut set = 0;
        for word in text.split(',') {
            match word.parse::<u8>() {
                Ok(k @ 0..=15) => set = with(set, k),
                _ => bail!("a set is cabinets from 0 to 15 with commas between, or -"),
            }
        }
        Ok(CabinetSet(set))
    }
}

impl fmt::Display for CabinetSet {
    fn fmt<W: fmt::Write>(&self, f: &mut fmt::Formatter<W>) -> fmt::Result {
        let mut members = (0..16u8).filter(|k| has(self.0, *k));
        let Some(first) = members.next() else {
            return f.write_str("-");
        };
        write!(f, "{first}")?;
        for k in members {
            write!(f, ",{k}")?;
        }
        Ok(())
    }
}

// A tag that a cabinet told: COUNT.OWNER.
#[derive(Clone, Copy, PartialEq, Eq, Debug)]
pub(crate) struct ToldTag(pub(crate) Tag);

// The text is no tag. An error without text, since each result carries room for its error.
#[derive(Clone, Copy, PartialEq, Eq, Debug)]
pub(crate) struct NoTag;

impl fmt::Display for NoTag {
    fn fmt<W: fmt::Write>(&self, f: &mut fmt::Formatter<W>) -> fmt::Result {
        f.write_str("a tag is COUNT.OWNER")
    }
}

impl Error for NoTag {}

impl FromStr for ToldTag {
    type Err = NoTag;

    fn from_str(text: &str) -> Result<ToldTag, NoTag> {
        let tag = text.split_once('.').and_then(|(count, owner)| {
            Some(Tag {
                count: count.parse().ok()?,
                owner: owner.parse().ok()?,
            })
        });
        tag.map(ToldTag).ok_or(NoTag)
    }
}

impl fmt::Display for ToldTag {
    fn fmt<W: fmt::Write>(&self, f: &mut fmt::Formatter<W>) -> fmt::Result {
        let Tag { count, owner } = self.0;
        write!(f, "{count}.{owner}")
    }
}
