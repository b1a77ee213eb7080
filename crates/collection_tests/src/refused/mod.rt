//! Every way to collect and every command that grows a heap, where each request for memory, or each block, is refused in turn.
#[cfg(test)]
mod blocks;
#[cfg(test)]
mod commands;
#[cfg(test)]
mod for_good;
#[cfg(test)]
mod memory;
#[cfg(test)]
pub(crate) mod shared_tree;
#[cfg(test)]
pub(crate) mod trials;
