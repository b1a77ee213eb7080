//! Tests of the whole way of a trace, from its bytes to what is printed, where reads, writes and memory fail too.
#![tactic(auto)]

mod fronts;

pub use fronts::is_front_in_lines;

#[cfg(test)]
mod answers;
#[cfg(test)]
mod at_size;
#[cfg(test)]
mod automatic;
#[cfg(test)]
mod automatic_replays;
#[cfg(test)]
mod calls;
#[cfg(test)]
mod faults;
#[cfg(test)]
mod field_faults;
#[cfg(test)]
mod generations;
#[cfg(test)]
mod hostile;
#[cfg(test)]
mod in_pieces;
#[cfg(test)]
mod large;
#[cfg(test)]
mod large_at_size;
#[cfg(test)]
mod lines;
#[cfg(test)]
mod long_inputs;
mod meetings;
#[cfg(test)]
mod names;
#[cfg(test)]
mod names_at_size;
#[cfg(test)]
mod odd;
#[cfg(test)]
mod pieces;
#[cfg(test)]
mod pieces_fail;
#[cfg(test)]
mod pointers;
#[cfg(test)]
mod program;
#[cfg(test)]
mod reads_and_writes;
#[cfg(test)]
mod refused;
#[cfg(test)]
mod refused_traces;
#[cfg(test)]
mod replays;
#[cfg(test)]
mod reports;
#[cfg(test)]
mod requests;
#[cfg(test)]
mod runtime;
#[cfg(test)]
mod streams;
#[cfg(test)]
mod table;
#[cfg(test)]
mod tree;
#[cfg(test)]
mod walked;
#[cfg(test)]
mod worked;
