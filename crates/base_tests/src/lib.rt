//! Tests of words, blocks, large objects, sets of numbers and of places, the pool, cells, claims, queues, the count of idle
//! workers, the verdict, and the plain program, by public calls.
#![tactic(auto)]

#[cfg(test)]
mod block_tests;
#[cfg(test)]
mod large_object_tests;
#[cfg(test)]
mod layout_tests;
#[cfg(test)]
mod number_set_tests;
mod reference_tests;
#[cfg(test)]
mod remembered_tests;
mod sharing_tests;
