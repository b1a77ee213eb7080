//! Tests of what threads share, by the public calls of cells, claims, queues, idle count and verdict, on one thread and on several.
#[cfg(test)]
mod box_cell_tests;
#[cfg(test)]
mod box_thread_tests;
#[cfg(test)]
mod cell_memory_tests;
#[cfg(test)]
mod cell_tests;
#[cfg(test)]
mod claim_tests;
#[cfg(test)]
mod idle_tests;
#[cfg(test)]
mod idle_thread_tests;
mod queue_tests;
#[cfg(test)]
mod verdict_tests;
#[cfg(test)]
mod verdict_thread_tests;
#[cfg(test)]
mod word_thread_tests;
