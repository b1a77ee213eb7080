//! Tests of the queues, by what they offer.
#[cfg(test)]
mod lane_tests;
#[cfg(test)]
mod plain_tests;
#[cfg(test)]
mod ruled_tests;
#[cfg(test)]
mod tally_tests;
#[cfg(test)]
mod test_blocks;
#[cfg(test)]
mod thread_tests;
