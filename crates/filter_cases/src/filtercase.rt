use anyhow::Context;
use filter::{AnyKind, Mark};
use given::{read_bytes, read_ending};
use source::Ending;
use std::alloc::Global;

// Filters over a source, the lowest first, and what is asked of the topmost.
#[derive(Drop)]
pub struct FilterCase<'a> {
    pub kinds: Vec<AnyKind>,
    pub asks: &'a str,
    pub ending: Ending,
    pub bytes: Vec<u8>,
}

// Reads `KINDS ASKS ENDING BYTES`.
pub fn read_filter_case<'a>(heap: Global, line: &'a str) -> anyhow::Result<FilterCase<'a>> {
    let (kinds, rest) = line.split_once(' ').context("no asks")?;
    let (asks, rest) = rest.split_once(' ').context("no ending")?;
    let (ending, bytes) = rest.split_once(' ').context("no bytes")?;
    Ok(FilterCase {
        kinds: read_kinds(heap, kinds)?,
        asks,
        ending: read_ending(ending)?,
        bytes: read_bytes(heap, bytes)?,
    })
}

// Kinds with `+` between them.
fn read_kinds(heap: Global, text: &str) -> anyhow::Result<Vec<AnyKind>> {
    let mut kinds = Vec::new(heap);
    for word in text.split('+') {
        kinds.push(read_kind(heap, word)?)?;
    }
    Ok(kinds)
}

fn read_kind(heap: Global, word: &str) -> anyhow::Result<AnyKind> {
    match word {
        "hex" => Ok(AnyKind::ascii_hex()),
        "a85" => Ok(AnyKind::ascii_85()),
        "eexec" => Ok(AnyKind::eexec()),
        _ => read_subfile(heap, word),
    }
}

// `sub:COUNT:MARK`, the mark in hexadecimal, `-` for none.
fn read_subfile(heap: Global, word: &str) -> anyhow::Result<AnyKind> {
    let rest = word.strip_prefix("sub:").context("no kind")?;
    let (count, mark) = rest.split_once(':').context("no mark")?;
    let bytes = read_bytes(heap, mark)?;
    let mark = Mark::new(bytes.as_slice())?;
    Ok(AnyKind::subfile(count.parse::<u32>()?, mark))
}
