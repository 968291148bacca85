use anyhow::Context;
use given::{read_bytes, read_ending};
use source::Ending;
use std::alloc::Global;

// A source, and the areas of the calls that are made on it.
#[derive(Drop)]
pub struct Case {
    areas: Vec<usize>,
    // the area of each call behind those, if there are more
    again: Option<usize>,
    pub ending: Ending,
    pub bytes: Vec<u8>,
}

impl Case {
    // The size of the area of a call, calls being counted from 0: the list's, and behind the list, where a token was
    // answered before, the one that comes again.
    pub fn area(&self, call: usize, going: bool) -> Option<usize> {
        match self.areas.get(call) {
            Some(size) => Some(*size),
            None if going => self.again,
            None => None,
        }
    }
}

// Reads `AREAS ENDING BYTES`.
pub fn read_case(heap: Global, line: &str) -> anyhow::Result<Case> {
    let (areas, rest) = line.split_once(' ').context("no ending")?;
    let (ending, bytes) = rest.split_once(' ').context("no bytes")?;
    let (areas, again) = read_areas(heap, areas)?;
    Ok(Case {
        areas,
        again,
        ending: read_ending(ending)?,
        bytes: read_bytes(heap, bytes)?,
    })
}

// Sizes with commas between them, and a star behind them if the last one comes again.
fn read_areas(heap: Global, text: &str) -> anyhow::Result<(Vec<usize>, Option<usize>)> {
    let list = text.strip_suffix('*');
    let mut areas = Vec::new(heap);
    for size in list.unwrap_or(text).split(',') {
        areas.push(size.parse::<usize>()?)?;
    }
    let again = list.and(areas.last().copied());
    Ok((areas, again))
}
