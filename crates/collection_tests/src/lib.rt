//! Tests of collections by several workers, by public calls: in turn on one thread, and on threads of their own.
#![tactic(auto)]

#[cfg(test)]
mod drawing;
#[cfg(test)]
mod far_fields;
#[cfg(test)]
mod heaps;
mod in_turn;
mod on_threads;
mod refused;
#[cfg(test)]
mod texts;
#[cfg(test)]
mod ways;
