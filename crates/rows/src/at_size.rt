//! A trace of 5,000 objects under 200 names, in blocks of 512 words, and what it prints. There are 200 components of 25
//! objects. The first object of each has a name and 127 pointers, which lead to the 24 others, to itself and to one other of
//! the component ten before. The others lead back to it and to the first object of the component ten behind, or, from the last
//! ten, of that among the first ten which ends alike. So the components whose numbers end alike live and die together.
use crate::names::name_of;
use crate::program::assert_output;
use std::alloc::{AllocError, Global};
use std::fmt::Write;

/// The component that the others of component `k` lead to.
fn partner_of(k: u16) -> u16 {
    if k < 190 { k + 10 } else { k % 10 }
}

/// The field of a first object that leads to one of the others: the first fields, and the last one.
fn field_of(other: u16) -> u64 {
    if other < 23 { other as u64 } else { 126 }
}

/// The last plain word of one of the others. One has 127 fields.
fn last_word_of(other: u16) -> u64 {
    if other == 5 { 124 } else { 0 }
}

/// What stands there.
fn mark_of(k: u16, other: u16) -> u64 {
    (k as u64) * 100 + other as u64
}

fn push_first_objects(text: &mut String) -> Result<(), AllocError> {
    for k in 0..200 {
        let name = name_of(k);
        writeln!(text, "new r{name} 0 127 0\nset r{name} 100 r{name}")?;
    }
    Ok(())
}

/// Makes one of the others of component `k`, and writes its last word.
fn push_new(text: &mut String, k: u16, other: u16) -> Result<(), AllocError> {
    let (mark, last) = (mark_of(k, other), last_word_of(other));
    let words = last.saturating_add(1);
    writeln!(text, "new c 0 2 {words}\nput c {last} {mark}")
}

/// Lets it lead to two first objects, and its own, and for one of the others the component's partner too, lead to it.
fn push_sets(text: &mut String, k: u16, other: u16) -> Result<(), AllocError> {
    let (name, partner, field) = (name_of(k), name_of(partner_of(k)), field_of(other));
    writeln!(
        text,
        "set c 0 r{name}\nset c 1 r{partner}\nset r{name} {field} c"
    )?;
    if other == 22 && k < 190 {
        writeln!(text, "set r{partner} 64 c")?;
    }
    writeln!(text, "drop c")
}

fn push_component(text: &mut String, k: u16) -> Result<(), AllocError> {
    for other in 0..24 {
        push_new(text, k, other)?;
        push_sets(text, k, other)?;
    }
    Ok(())
}

/// The others of a hundred components, which the nursery holds.
fn push_components(text: &mut String, from: u16, to: u16) -> Result<(), AllocError> {
    for k in from..to {
        push_component(text, k)?;
    }
    Ok(())
}

/// Drops the names of the components whose numbers end in this digit.
fn push_drops(text: &mut String, digit: u16) -> Result<(), AllocError> {
    for k in 0..200 {
        if k % 10 == digit {
            let name = name_of(k);
            writeln!(text, "drop r{name}")?;
        }
    }
    Ok(())
}

/// The same for the digits from this one to before that one.
fn push_all_drops(text: &mut String, from: u16, to: u16) -> Result<(), AllocError> {
    for digit in from..to {
        push_drops(text, digit)?;
    }
    Ok(())
}

/// All objects are made. They are too many for the nursery, so some move before the others are made.
fn push_making(text: &mut String) -> Result<(), AllocError> {
    push_first_objects(text)?;
    writeln!(text, "collect 0")?;
    push_components(text, 0, 100)?;
    writeln!(text, "collect 0")?;
    push_components(text, 100, 200)?;
    writeln!(text, "census\nheap")
}

/// Three collections, with a part dropped before the second and the third.
fn push_collections(text: &mut String) -> Result<(), AllocError> {
    writeln!(text, "collect 0\nheap")?;
    push_all_drops(text, 0, 3)?;
    writeln!(text, "collect 0\nheap")?;
    push_all_drops(text, 3, 5)?;
    writeln!(text, "collect 0\ncensus\nheap")
}

fn trace_of(alloc: Global) -> Result<String, AllocError> {
    let mut text = String::new(alloc);
    push_making(&mut text)?;
    push_collections(&mut text)?;
    Ok(text)
}

/// Whether component `k` has its name after those are dropped whose numbers end in a digit below `gone`.
fn is_named(k: u16, gone: u16) -> bool {
    k % 10 >= gone
}

/// How many components below `k` have their names.
fn named_below(k: u16, gone: u16) -> u64 {
    (0..k).filter(|below| is_named(*below, gone)).count() as u64
}

/// Names come first in a numbering, in their order.
fn first_number(k: u16, gone: u16) -> u64 {
    named_below(k, gone).saturating_add(1)
}

/// Behind the first objects come the others, component by component in the same order, since each is reached first from its own.
fn other_number(k: u16, other: u16, gone: u16) -> u64 {
    let before = named_below(k, gone).saturating_mul(24);
    first_number(200, gone)
        .saturating_add(before)
        .saturating_add(other as u64)
}

/// The number of the object that a pointer of the first object of component `k` leads to.
fn target_of(k: u16, field: u16, gone: u16) -> Option<u64> {
    match field {
        0..=22 => Some(other_number(k, field, gone)),
        64 if k >= 10 => Some(other_number(k - 10, 22, gone)),
        100 => Some(first_number(k, gone)),
        126 => Some(other_number(k, 23, gone)),
        _ => None,
    }
}

fn push_pointers(text: &mut String, k: u16, gone: u16) -> Result<(), AllocError> {
    for field in 0..127 {
        if field > 0 {
            text.push_str(" ")?;
        }
        match target_of(k, field, gone) {
            Some(number) => write!(text, "#{number}")?,
            None => text.push_str("nil")?,
        }
    }
    Ok(())
}

/// The line of the first object of component `k`.
fn push_first_line(text: &mut String, k: u16, gone: u16) -> Result<(), AllocError> {
    let number = first_number(k, gone);
    write!(text, "#{number} gen 0 step 0 ptrs [")?;
    push_pointers(text, k, gone)?;
    writeln!(text, "] words []")
}

fn push_words(text: &mut String, k: u16, other: u16) -> Result<(), AllocError> {
    for _zero in 0..last_word_of(other) {
        text.push_str("0 ")?;
    }
    let mark = mark_of(k, other);
    writeln!(text, "{mark}]")
}

/// The line of one of the others of component `k`.
fn push_other_line(text: &mut String, k: u16, other: u16, gone: u16) -> Result<(), AllocError> {
    let number = other_number(k, other, gone);
    let (first, partner) = (first_number(k, gone), first_number(partner_of(k), gone));
    write!(
        text,
        "#{number} gen 0 step 0 ptrs [#{first} #{partner}] words ["
    )?;
    push_words(text, k, other)
}

fn push_names(text: &mut String, gone: u16) -> Result<(), AllocError> {
    for k in 0..200 {
        if is_named(k, gone) {
            let (name, number) = (name_of(k), first_number(k, gone));
            writeln!(text, "root r{name} #{number}")?;
        }
    }
    Ok(())
}

fn push_first_lines(text: &mut String, gone: u16) -> Result<(), AllocError> {
    for k in 0..200 {
        if is_named(k, gone) {
            push_first_line(text, k, gone)?;
        }
    }
    Ok(())
}

/// The lines of the others of component `k`.
fn push_others_of(text: &mut String, k: u16, gone: u16) -> Result<(), AllocError> {
    for other in 0..24 {
        push_other_line(text, k, other, gone)?;
    }
    Ok(())
}

fn push_other_lines(text: &mut String, gone: u16) -> Result<(), AllocError> {
    for k in 0..200 {
        if is_named(k, gone) {
            push_others_of(text, k, gone)?;
        }
    }
    Ok(())
}

/// The lines of the heap, once the components are gone whose numbers end in a digit below `gone`.
fn push_heap(text: &mut String, gone: u16) -> Result<(), AllocError> {
    push_names(text, gone)?;
    push_first_lines(text, gone)?;
    push_other_lines(text, gone)
}

/// A first object has 128 words, and the others of a component have 128 and 23 times 4.
const MADE: &str = "collected 0: 200 kept, 0 freed
collected 0: 2600 kept, 0 freed
gen 0 step 0: 5000 objects 69600 words
large: 0 objects 0 words
roots: 200
remembered: 0
";

const LEFT: &str = "collected 0: 2500 kept, 1000 freed
gen 0 step 0: 2500 objects 34800 words
large: 0 objects 0 words
roots: 100
remembered: 0
";

fn push_outputs(text: &mut String) -> Result<(), AllocError> {
    text.push_str("collected 0: 5000 kept, 0 freed\n")?;
    push_heap(text, 0)?;
    text.push_str("collected 0: 3500 kept, 1500 freed\n")?;
    push_heap(text, 3)?;
    text.push_str(LEFT)?;
    push_heap(text, 5)
}

fn output_of(alloc: Global) -> Result<String, AllocError> {
    let mut text = String::new(alloc);
    text.push_str(MADE)?;
    push_heap(&mut text, 0)?;
    push_outputs(&mut text)?;
    Ok(text)
}

#[test]
fn three_collections_at_size(rt: HostRuntime) -> Result<(), AllocError> {
    let trace = trace_of(rt.alloc())?;
    let output = output_of(rt.alloc())?;
    let words = "gctrace run --generations=1 --nursery=64";
    assert_output(&rt, words, trace.as_str(), output.as_str())
}
