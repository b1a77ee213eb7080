//! What the workers of a collection bring to its commit, and what a collection leaves and reports.
#![tactic(auto)]

mod law;
mod parts;
mod places;
mod told;

pub use law::parts_settle;
pub use parts::{JoinedParts, brought, in_one_list};
pub use places::show_large;
pub use told::all_delivered;
