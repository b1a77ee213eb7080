//! Tests of collections by workers on threads of their own, by public calls.
#[cfg(test)]
mod apart;
#[cfg(test)]
mod at_size;
#[cfg(test)]
mod drawn;
#[cfg(test)]
mod in_a_row;
#[cfg(test)]
mod late_work;
#[cfg(test)]
mod leaving;
#[cfg(test)]
mod memory;
#[cfg(test)]
mod resting;
