//! A small runtime over the heap: it reads terms of combinators, a line each, rewrites them until nothing is left to rewrite,
//! and prints what they then are.
#![tactic(auto)]

mod nodes;
mod parsing;
mod rewriting;
mod showing;

use nodes::{Nodes, Trouble};
use parsing::parse;
use showing::show;
use std::alloc::Global;
use std::io;

/// The text of what the term is rewritten to.
fn rewritten(alloc: Global, text: &[u8]) -> Result<Vec<u8>, Trouble> {
    let mut nodes = Nodes::new(alloc)?;
    let term = parse(alloc, &mut nodes, text)?;
    show(alloc, &mut nodes, term)
}

fn main(rt: HostRuntime) -> io::Result<()> {
    for line in rt.lines(rt.alloc()) {
        match rewritten(rt.alloc(), line?.as_bytes()) {
            Ok(text) => println!(rt; "{}", String::from_utf8_lossy(rt.alloc(), text.as_slice())?)?,
            Err(trouble) => println!(rt; "({trouble})")?,
        }
    }
    Ok(())
}
