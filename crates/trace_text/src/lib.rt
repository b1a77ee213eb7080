//! The form of one line of a trace, and of one of a schedule.
#![tactic(auto)]

mod event_form;
mod form;
mod line;
mod schedule;
mod words;

pub use event_form::parse_event;
pub use form::{MAX_LINE_LEN, parse};
pub use line::Line;
pub use model::{Command, Kind};
pub use schedule::{LineFault, ScheduleEvent, ScheduleKind, ScheduleLine};
