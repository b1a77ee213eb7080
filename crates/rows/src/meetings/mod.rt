//! Two workers on threads of their own meet, and a block changes hands: gates hold some of them until others have come.
#[cfg(test)]
mod before_steps;
#[cfg(test)]
mod gates;
#[cfg(test)]
mod order;
#[cfg(test)]
mod runs;
#[cfg(test)]
mod sharing;
#[cfg(test)]
mod turns;
