// Asks the filters that its input lists, a case to a line, and prints what they answer.
//
// A line is `filter KINDS ASKS ENDING BYTES`: one kind, or two with `+` between them, the lower one first,
// `hex`, `a85`, `eexec` or `sub:COUNT:MARK`; letters for what is asked of the topmost, `l` for a look, `t` for a take and
// `*` for takes up to the end; `clean`, or the number and depth of a damage, as `22/1`; and the bytes of the source, as
// `2F.61x128.20`. Empty lines and those that begin with `#` are passed over.
#![tactic(auto)]

mod filtercase;
mod layers;

use anyhow::Context;
use std::alloc::Global;
use std::io;

// What a line's filters answer.
fn answer_line(heap: Global, line: &str) -> anyhow::Result<String> {
    let rest = line.strip_prefix("filter ").context("no filter")?;
    let case = filtercase::read_filter_case(heap, rest)?;
    layers::play_filters(heap, &case)
}

// The program `cases` has this loop too: one for both would bring the runtime and `anyhow` into a library.
fn run(rt: &HostRuntime) -> anyhow::Result<()> {
    let heap = rt.alloc();
    let text = io::read_to_string(heap, rt.stdin())?;
    for line in text
        .lines()
        .filter(|line| !line.is_empty() && !line.starts_with('#'))
    {
        rt.println(answer_line(heap, line)?)?;
    }
    Ok(())
}

fn main(rt: HostRuntime) -> anyhow::Result<()> {
    run(&rt)
}
