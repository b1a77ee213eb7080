//! Tests of the heap and its collections by their own calls, where blocks run out too, and requests for memory are counted.
#![tactic(auto)]

#[cfg(test)]
mod at_size;
#[cfg(test)]
mod block_sizes;
#[cfg(test)]
mod bytes;
#[cfg(test)]
mod collections;
#[cfg(test)]
mod counting;
#[cfg(test)]
mod free_blocks;
#[cfg(test)]
mod heaps;
#[cfg(test)]
mod large_numbers;
#[cfg(test)]
mod many_pointers;
#[cfg(test)]
mod many_roots;
#[cfg(test)]
mod noted;
#[cfg(test)]
mod old_at_size;
#[cfg(test)]
mod order;
#[cfg(test)]
mod pointers;
#[cfg(test)]
mod requests;
#[cfg(test)]
mod sizes;
#[cfg(test)]
mod spare;
