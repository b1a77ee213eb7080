//! A thousand automatic collections. Each of 200 tables has a name and seven pointers. Cells come in rounds: each round makes a
//! cell for each pointer of each table, by two mutators in turn, and another object that leads to the cell and is dropped with
//! it. Each cell leads back to its table, which alone leads to it, until the next round puts another cell in its place. All
//! objects have 16 words, so a nursery of 64 words is full of four, and each fourth cell finds it full.
use crate::names::name_of;
use crate::program::assert_output;
use std::alloc::{AllocError, Global};
use std::fmt::Write;

fn table_of(cell: u16) -> u16 {
    cell / 7
}

/// What stands in the first word of a cell.
fn mark_of(round: u16, cell: u16) -> u64 {
    (round as u64) * 10000 + cell as u64
}

fn push_tables(text: &mut String) -> Result<(), AllocError> {
    for k in 0..200 {
        let name = name_of(k);
        writeln!(text, "new t{name} 0 7 8")?;
    }
    Ok(())
}

/// The cell comes into its table, whatever stands there.
fn push_cell(text: &mut String, round: u16, cell: u16) -> Result<(), AllocError> {
    let (mutator, name, field) = (cell % 2, name_of(table_of(cell)), cell % 7);
    let mark = mark_of(round, cell);
    writeln!(
        text,
        "new c {mutator} 1 14\nput c 0 {mark}\nset c 0 t{name}\nset t{name} {field} c"
    )?;
    writeln!(text, "new g {mutator} 1 14\nset g 0 c\ndrop c\ndrop g")
}

fn push_round(text: &mut String, round: u16) -> Result<(), AllocError> {
    for cell in 0..1400 {
        push_cell(text, round, cell)?;
    }
    Ok(())
}

/// Three rounds over tables that have become old, with the cells of each becoming older after it.
fn push_rounds(text: &mut String) -> Result<(), AllocError> {
    text.push_str("collect 1\ncollect 1\ncollect 1\ncollect 1\n")?;
    for round in 0..3 {
        push_round(text, round)?;
        text.push_str("census\ncollect 1\n")?;
    }
    text.push_str("collect 1\ncensus\nheap\n")
}

/// Every second table is given up.
fn push_drops(text: &mut String) -> Result<(), AllocError> {
    for k in 0..200 {
        if k % 2 == 1 {
            let name = name_of(k);
            writeln!(text, "drop t{name}")?;
        }
    }
    text.push_str("collect 0\ncollect 2\ncensus\n")
}

fn trace_of(alloc: Global) -> Result<String, AllocError> {
    let mut text = String::new(alloc);
    push_tables(&mut text)?;
    push_rounds(&mut text)?;
    push_drops(&mut text)?;
    Ok(text)
}

/// The line of an automatic collection.
fn push_line(text: &mut String, kept: u16, freed: u16) -> Result<(), AllocError> {
    writeln!(text, "auto 0: {kept} kept, {freed} freed")
}

/// The lines of so many automatic collections.
fn push_automatic(text: &mut String, count: u16, kept: u16, freed: u16) -> Result<(), AllocError> {
    for _collection in 0..count {
        push_line(text, kept, freed)?;
    }
    Ok(())
}

/// Each fourth table but the first finds the nursery full. Four are in it then, and from the second time on four more are in
/// the step behind it.
fn push_tables_output(text: &mut String) -> Result<(), AllocError> {
    push_automatic(text, 1, 4, 0)?;
    push_automatic(text, 48, 8, 0)?;
    text.push_str(
        "collected 1: 200 kept, 0 freed
collected 1: 200 kept, 0 freed
collected 1: 8 kept, 0 freed
collected 1: 4 kept, 0 freed
",
    )
}

/// In the first round there is nothing in the step behind the nursery at the first of its collections.
fn push_first_round_output(text: &mut String) -> Result<(), AllocError> {
    push_automatic(text, 1, 4, 4)?;
    push_automatic(text, 348, 8, 4)?;
    text.push_str(
        "gen 0 step 0: 8 objects 128 words
gen 0 step 1: 4 objects 64 words
gen 1 step 0: 1392 objects 22272 words
gen 1 step 1: 0 objects 0 words
gen 2 step 0: 200 objects 3200 words
large: 0 objects 0 words
roots: 200
remembered: 200
collected 1: 1400 kept, 4 freed
",
    )
}

/// Then the last four cells of the round before are there, and the cells of that round are freed at the end.
fn push_later_round_output(text: &mut String) -> Result<(), AllocError> {
    push_automatic(text, 349, 8, 4)?;
    text.push_str(
        "gen 0 step 0: 8 objects 128 words
gen 0 step 1: 4 objects 64 words
gen 1 step 0: 1400 objects 22400 words
gen 1 step 1: 1392 objects 22272 words
gen 2 step 0: 200 objects 3200 words
large: 0 objects 0 words
roots: 200
remembered: 200
collected 1: 1400 kept, 1404 freed
",
    )
}

/// The last eight cells, which the last two tables lead to, aren't in the oldest generation yet.
const BEFORE_THE_HEAP: &str = "collected 1: 1400 kept, 0 freed
gen 0 step 0: 0 objects 0 words
gen 0 step 1: 0 objects 0 words
gen 1 step 0: 4 objects 64 words
gen 1 step 1: 4 objects 64 words
gen 2 step 0: 1592 objects 25472 words
large: 0 objects 0 words
roots: 200
remembered: 2
";

/// A hundred tables with their seven hundred cells are left.
const AFTER_THE_HEAP: &str = "collected 0: 0 kept, 0 freed
collected 2: 800 kept, 800 freed
gen 0 step 0: 0 objects 0 words
gen 0 step 1: 0 objects 0 words
gen 1 step 0: 0 objects 0 words
gen 1 step 1: 0 objects 0 words
gen 2 step 0: 800 objects 12800 words
large: 0 objects 0 words
roots: 100
remembered: 0
";

/// Tables are numbered first, since they have the names.
fn table_number(k: u16) -> u64 {
    k as u64 + 1
}

/// Then come the cells in the order of the pointers to them.
fn cell_number(cell: u16) -> u64 {
    cell as u64 + 201
}

fn push_names(text: &mut String) -> Result<(), AllocError> {
    for k in 0..200 {
        let (name, number) = (name_of(k), table_number(k));
        writeln!(text, "root t{name} #{number}")?;
    }
    Ok(())
}

fn push_table_line(text: &mut String, k: u16) -> Result<(), AllocError> {
    let (number, first) = (table_number(k), (k as u64) * 7 + 201);
    write!(text, "#{number} gen 2 step 0 ptrs [#{first}")?;
    for field in 1..7_u64 {
        let target = first.saturating_add(field);
        write!(text, " #{target}")?;
    }
    writeln!(text, "] words [0 0 0 0 0 0 0 0]")
}

fn push_table_lines(text: &mut String) -> Result<(), AllocError> {
    for k in 0..200 {
        push_table_line(text, k)?;
    }
    Ok(())
}

/// The generation and step of a cell: the last four are one collection behind the four before them.
fn stage_of(cell: u16) -> (u8, u8) {
    match cell {
        0..=1391 => (2, 0),
        1392..=1395 => (1, 1),
        _ => (1, 0),
    }
}

/// The lines of the cells of the last round.
fn push_cell_lines(text: &mut String) -> Result<(), AllocError> {
    for cell in 0..1400 {
        let (number, table) = (cell_number(cell), table_number(table_of(cell)));
        let ((generation, step), mark) = (stage_of(cell), mark_of(2, cell));
        write!(
            text,
            "#{number} gen {generation} step {step} ptrs [#{table}]"
        )?;
        writeln!(text, " words [{mark} 0 0 0 0 0 0 0 0 0 0 0 0 0]")?;
    }
    Ok(())
}

fn push_heap(text: &mut String) -> Result<(), AllocError> {
    push_names(text)?;
    push_table_lines(text)?;
    push_cell_lines(text)
}

fn push_outputs(text: &mut String) -> Result<(), AllocError> {
    push_tables_output(text)?;
    push_first_round_output(text)?;
    push_later_round_output(text)?;
    push_later_round_output(text)
}

fn output_of(alloc: Global) -> Result<String, AllocError> {
    let mut text = String::new(alloc);
    push_outputs(&mut text)?;
    text.push_str(BEFORE_THE_HEAP)?;
    push_heap(&mut text)?;
    text.push_str(AFTER_THE_HEAP)?;
    Ok(text)
}

#[test]
fn three_rounds_of_cells(rt: HostRuntime) -> Result<(), AllocError> {
    let trace = trace_of(rt.alloc())?;
    let output = output_of(rt.alloc())?;
    let words = "gctrace run --block-words=64 --nursery=1 --mutators=2 --generations=3";
    assert_output(&rt, words, trace.as_str(), output.as_str())
}

/// One round over young tables, and a collection that has a schedule.
fn replayed_trace(alloc: Global) -> Result<String, AllocError> {
    let mut text = String::new(alloc);
    push_tables(&mut text)?;
    push_round(&mut text, 0)?;
    text.push_str("collect 0\nfinish\ncommit\ncensus\n")?;
    Ok(text)
}

/// The lines of a worker that has half of the objects, as the two have alternate slots.
fn push_worker(text: &mut String, worker: u8, kept: u16) -> Result<(), AllocError> {
    let half = kept / 2;
    writeln!(text, "worker {worker}: {half} won, {half} scanned")
}

/// The lines of automatic collections by two workers.
fn push_shared(text: &mut String, count: u16, kept: u16, freed: u16) -> Result<(), AllocError> {
    for _collection in 0..count {
        push_line(text, kept, freed)?;
        push_worker(text, 0, kept)?;
        push_worker(text, 1, kept)?;
    }
    Ok(())
}

/// The first cell finds the last eight tables young, and the fifth cell the last four. At the end the last four cells are
/// young, which the last table leads to.
fn replayed_output(alloc: Global) -> Result<String, AllocError> {
    let mut text = String::new(alloc);
    push_shared(&mut text, 1, 4, 0)?;
    push_shared(&mut text, 49, 8, 0)?;
    push_shared(&mut text, 349, 8, 4)?;
    text.push_str(REPLAYED_END)?;
    Ok(text)
}

const REPLAYED_END: &str = "collected 0: 8 kept, 4 freed
worker 0: 4 won, 4 scanned
worker 1: 4 won, 4 scanned
gen 0 step 0: 0 objects 0 words
gen 0 step 1: 4 objects 64 words
gen 1 step 0: 1596 objects 25536 words
gen 1 step 1: 0 objects 0 words
gen 2 step 0: 0 objects 0 words
large: 0 objects 0 words
roots: 200
remembered: 1
";

#[test]
fn a_round_of_cells_by_two_workers(rt: HostRuntime) -> Result<(), AllocError> {
    let trace = replayed_trace(rt.alloc())?;
    let output = replayed_output(rt.alloc())?;
    let words =
        "gctrace replay --block-words=64 --nursery=1 --mutators=2 --generations=3 --threads=2";
    assert_output(&rt, words, trace.as_str(), output.as_str())
}
