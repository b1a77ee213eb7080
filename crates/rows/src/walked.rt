//! A list of 3,000 objects of three words, in blocks of 512 words with two generations, that is made from its end, then walked
//! from its front, and what the trace prints. Object k has the plain word k and leads to object k - 1.
use crate::program::assert_output;
use std::alloc::{AllocError, Global};
use std::fmt::Write;

/// How many objects the list has.
const COUNT: u64 = 3000;

/// How many of them stay once all names are dropped but one.
const HALF: u64 = 1500;

/// Where the last walk stops for the heap's lines.
const REST: u64 = 500;

/// The name of object `k` has this number, so that all are of one length.
fn name_of(k: u64) -> u64 {
    k.saturating_add(1000)
}

/// Object `k` leads to the one before it, whose name is dropped.
fn push_link(text: &mut String, k: u64) -> Result<(), AllocError> {
    if k == 0 {
        return Ok(());
    }
    let (name, before) = (name_of(k), name_of(k - 1));
    writeln!(text, "set n{name} 0 n{before}\ndrop n{before}")
}

fn push_list(text: &mut String) -> Result<(), AllocError> {
    for k in 0..COUNT {
        let name = name_of(k);
        writeln!(text, "new n{name} 0 1 1\nput n{name} 0 {k}")?;
        push_link(text, k)?;
    }
    Ok(())
}

/// The object before object `k` gets its name.
fn push_get(text: &mut String, k: u64) -> Result<(), AllocError> {
    if k == 0 {
        return Ok(());
    }
    let (name, before) = (name_of(k), name_of(k - 1));
    writeln!(text, "get n{before} n{name} 0")
}

/// A walk that keeps every name.
fn push_names(text: &mut String) -> Result<(), AllocError> {
    for k in (1..COUNT).rev() {
        push_get(text, k)?;
    }
    Ok(())
}

/// Of all names the one of the object that the first half ends with stays.
fn push_drops(text: &mut String) -> Result<(), AllocError> {
    for k in 0..COUNT {
        if k.saturating_add(1) != HALF {
            let name = name_of(k);
            writeln!(text, "drop n{name}")?;
        }
    }
    Ok(())
}

/// A walk that keeps one name, from object `from` down to object `to`.
fn push_walk(text: &mut String, to: u64, from: u64) -> Result<(), AllocError> {
    for k in (to..from).rev() {
        let (name, above) = (name_of(k), name_of(k.saturating_add(1)));
        writeln!(text, "get n{name} n{above} 0\ndrop n{above}")?;
    }
    Ok(())
}

fn trace_of(alloc: Global) -> Result<String, AllocError> {
    let mut text = String::new(alloc);
    push_list(&mut text)?;
    writeln!(text, "collect 0")?;
    push_names(&mut text)?;
    writeln!(text, "census\nheap")?;
    push_drops(&mut text)?;
    writeln!(text, "collect 0")?;
    push_walk(&mut text, 999, 1499)?;
    writeln!(text, "collect 1")?;
    push_walk(&mut text, 499, 999)?;
    writeln!(text, "collect 1\ncensus\nheap")?;
    push_walk(&mut text, 0, 499)?;
    writeln!(text, "collect 0\ncollect 1\nheap")?;
    Ok(text)
}

/// The names of all objects, which are numbered as they are.
fn push_roots(text: &mut String) -> Result<(), AllocError> {
    for k in 0..COUNT {
        let (name, number) = (name_of(k), k.saturating_add(1));
        writeln!(text, "root n{name} #{number}")?;
    }
    Ok(())
}

/// The lines of all objects.
fn push_objects(text: &mut String) -> Result<(), AllocError> {
    writeln!(text, "#1 gen 0 step 1 ptrs [nil] words [0]")?;
    for k in 1..COUNT {
        let number = k.saturating_add(1);
        writeln!(text, "#{number} gen 0 step 1 ptrs [#{k}] words [{k}]")?;
    }
    Ok(())
}

/// The lines of the last objects, numbered from the only name on.
fn push_rest(text: &mut String) -> Result<(), AllocError> {
    let name = name_of(REST - 1);
    writeln!(text, "root n{name} #1")?;
    for number in 1..REST {
        let (next, word) = (number.saturating_add(1), REST.saturating_sub(number));
        writeln!(text, "#{number} gen 1 step 0 ptrs [#{next}] words [{word}]")?;
    }
    writeln!(text, "#{REST} gen 1 step 0 ptrs [nil] words [0]")
}

const NAMED: &str = "collected 0: 3000 kept, 0 freed
gen 0 step 0: 0 objects 0 words
gen 0 step 1: 3000 objects 9000 words
gen 1 step 0: 0 objects 0 words
large: 0 objects 0 words
roots: 3000
remembered: 0
";

const WALKED: &str = "collected 0: 1500 kept, 1500 freed
collected 1: 1000 kept, 500 freed
collected 1: 500 kept, 500 freed
gen 0 step 0: 0 objects 0 words
gen 0 step 1: 0 objects 0 words
gen 1 step 0: 500 objects 1500 words
large: 0 objects 0 words
roots: 1
remembered: 0
";

const LAST: &str = "collected 0: 0 kept, 0 freed
collected 1: 1 kept, 499 freed
root n1000 #1
#1 gen 1 step 0 ptrs [nil] words [0]
";

fn output_of(alloc: Global) -> Result<String, AllocError> {
    let mut text = String::new(alloc);
    text.push_str(NAMED)?;
    push_roots(&mut text)?;
    push_objects(&mut text)?;
    text.push_str(WALKED)?;
    push_rest(&mut text)?;
    text.push_str(LAST)?;
    Ok(text)
}

#[test]
fn list_is_walked(rt: HostRuntime) -> Result<(), AllocError> {
    let trace = trace_of(rt.alloc())?;
    let output = output_of(rt.alloc())?;
    let words = "gctrace run --nursery=64";
    assert_output(&rt, words, trace.as_str(), output.as_str())
}
