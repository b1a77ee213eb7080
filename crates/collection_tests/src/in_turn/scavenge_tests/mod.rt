//! Tests of the blocks that a worker copies into, and of a worker, by public calls.
#[cfg(test)]
mod blocks;
#[cfg(test)]
mod bounds;
#[cfg(test)]
mod workspaces;
