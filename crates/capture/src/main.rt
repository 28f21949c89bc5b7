// Prints the telegrams of a bus capture in plain words.
#![tactic(auto)]

mod scan;

use anyhow::anyhow;
use scan::scan;
use std::alloc::{AllocError, Global};
use std::env;
use std::fmt::{Display, Write};
use std::io::Read;
use std::str::FromStr;
use words::bytes::be_words;
use words::mask::Mask;
use words::speed::Speed;
use words::value::Value;

const USAGE: &str = "usage: capture mask|speed < CAPTURE";

// The kind of the values in a capture.
#[derive(Clone, Copy, PartialEq, Eq, Debug)]
enum ValueKind {
    Mask,
    Speed,
}

impl FromStr for ValueKind {
    type Err = anyhow::Error;

    fn from_str(name: &str) -> anyhow::Result<Self> {
        match name {
            "mask" => Ok(ValueKind::Mask),
            "speed" => Ok(ValueKind::Speed),
            _ => Err(anyhow!(USAGE)),
        }
    }
}

// A line for each item, one for bytes left over, and the counts.
fn report<V: Value + Display>(heap: Global, bytes: &[u8]) -> Result<String, AllocError> {
    let words = be_words(heap, bytes)?;
    let items = scan::<V>(heap, words.as_slice())?;
    let mut text = String::new(heap);
    for item in items.iter() {
        match item {
            Ok(found) => writeln!(text, "{found}")?,
            Err(refusal) => writeln!(text, "refused {refusal}")?,
        }
    }
    let left = bytes.len() % 4;
    if left > 0 {
        writeln!(text, "trailing {left}")?;
    }
    let telegrams = items.iter().filter(|item| item.is_ok()).count();
    let refused = items.iter().filter(|item| item.is_err()).count();
    writeln!(text, "{telegrams} telegrams, {refused} refused")?;
    Ok(text)
}

// The kind that the one argument names.
fn value_kind(rt: &HostRuntime) -> anyhow::Result<ValueKind> {
    let mut args = env::args(rt)?;
    let _program = args.next();
    let (Some(name), None) = (args.next(), args.next()) else {
        return Err(anyhow!(USAGE));
    };
    name.as_str().parse()
}

fn run(rt: &HostRuntime) -> anyhow::Result<()> {
    let heap = rt.alloc();
    let kind = value_kind(rt)?;
    let mut bytes = Vec::new(heap);
    rt.stdin().read_to_end(&mut bytes)?;
    let text = match kind {
        ValueKind::Mask => report::<Mask>(heap, bytes.as_slice())?,
        ValueKind::Speed => report::<Speed>(heap, bytes.as_slice())?,
    };
    print!(rt; "{text}")?;
    Ok(())
}

fn main(rt: HostRuntime) -> anyhow::Result<()> {
    run(&rt)
}

#[cfg(test)]
mod tests {
    use super::*;
    use std::test::Fail;

    fn bytes_of(heap: Global, words: &[u32], left: &[u8]) -> Result<Vec<u8>, AllocError> {
        let mut bytes = Vec::new(heap);
        for word in words {
            bytes.extend_from_slice(&word.to_be_bytes())?;
        }
        bytes.extend_from_slice(left)?;
        Ok(bytes)
    }

    fn printed<V: Value + Display>(
        heap: Global,
        words: &[u32],
        left: &[u8],
    ) -> Result<String, AllocError> {
        let bytes = bytes_of(heap, words, left)?;
        report::<V>(heap, bytes.as_slice())
    }

    #[test]
    fn empty_capture(rt: HostRuntime) -> Result<(), Fail> {
        let text = printed::<Mask>(rt.alloc(), &[], &[])?;
        assert_eq!(rt; text.as_str(), "0 telegrams, 0 refused\n");
        Ok(())
    }

    #[test]
    fn each_kind(rt: HostRuntime) -> Result<(), Fail> {
        let words = [
            0x1f20_0fff, // query, cabinet 15, station 32, job 4095
            0x2001_0000,
            0x5fff_ffff,
            0x6000_0020,
            0x7000_1770, // told, largest tag, 6000
            0x3101_0002,
            0x5000_0000,
            0x6000_0000,
            0x7000_0000, // set, smallest tag, 0
            0x4e02_0003, // took
        ];
        let text = printed::<Speed>(rt.alloc(), &words, &[])?;
        assert_eq!(rt;
            text.as_str(),
            "0 query 15 32 4095\n1 told 0 1 0 268435455 32 6000\n5 set 1 1 2 0 0 0\n9 took 14 2 3\n4 telegrams, 0 refused\n"
        );
        Ok(())
    }

    #[test]
    fn damaged(rt: HostRuntime) -> Result<(), Fail> {
        let words = [
            0x1000_0000, // station 0
            0x1021_0000, // station 33
            0x1001_1000, // job 4096
            0x0001_0000, // no kind of telegram
            0x2001_0000,
            0x6000_0001, // told without a count
            0x2001_0000,
            0x5000_0001,
            0x6000_0021, // owner 33
            0x2001_0000,
            0x5000_0001,
            0x6000_0101, // a bit that has no name
            0x2001_0000,
            0x5000_0001,
            0x6000_0001,
            0x7000_1771, // 6001
            0x4001_0000, // took
        ];
        let text = printed::<Speed>(rt.alloc(), &words, &[])?;
        assert_eq!(rt;
            text.as_str(),
            "refused 10 0\nrefused 10 1\nrefused 10 2\nrefused 10 3\nrefused 10 5\nrefused 10 5\nrefused 10 8\nrefused 10 7\nrefused 10 8\nrefused 10 11\nrefused 10 10\nrefused 10 11\nrefused 11 15\nrefused 10 13\nrefused 10 14\nrefused 10 15\n16 took 0 1 0\n1 telegrams, 16 refused\n"
        );
        Ok(())
    }

    #[test]
    fn cut_short(rt: HostRuntime) -> Result<(), Fail> {
        let words = [
            0x4203_0007,
            0x3203_0007,
            0x5000_0009,
            0x6000_0003,
            0x7000_0001,
            0x7000_0002,
        ];
        let text = printed::<Mask>(rt.alloc(), &words, &[0x70, 0, 0])?;
        assert_eq!(rt;
            text.as_str(),
            "0 took 2 3 7\nrefused 10 6\nrefused 10 2\nrefused 10 3\nrefused 10 4\nrefused 10 5\ntrailing 3\n1 telegrams, 5 refused\n"
        );
        Ok(())
    }
}
