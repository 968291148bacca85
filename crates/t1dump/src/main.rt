// Lists the tokens of a PostScript text: reads standard input, and prints a line for each token and then how it ended.
#![tactic(auto)]

mod answers;
mod dump;
mod lister;

use dump::{LIMIT, dump_input};
use std::io::{Read, Write};

// Reads standard input up to its end, or up to one byte more than the most that is listed.
fn read_input(rt: &HostRuntime) -> anyhow::Result<Vec<u8>> {
    // room for all of it and for one byte more, so that it does not grow
    let mut bytes = Vec::with_capacity(rt.alloc(), LIMIT + 2)?;
    rt.stdin().take(LIMIT as u64 + 1).read_to_end(&mut bytes)?;
    Ok(bytes)
}

fn run(rt: &HostRuntime) -> anyhow::Result<()> {
    let input = read_input(rt)?;
    let out = dump_input(rt.alloc(), input.as_slice())?;
    rt.stdout().write_all(out.as_slice())?;
    Ok(())
}

fn main(rt: HostRuntime) -> anyhow::Result<()> {
    run(&rt)
}
