//! Tests of one worker's part of a collection, and of several workers, by public calls.
#[cfg(test)]
mod events;
#[cfg(test)]
mod graphs;
mod scavenge_tests;
#[cfg(test)]
mod schedules;
#[cfg(test)]
mod together;
