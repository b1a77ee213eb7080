//! What a line of a trace says.
use model::Command;

/// A line of a trace. Its names are slices of the line.
#[derive(Clone, Copy, Debug, PartialEq, Eq, Hash)]
pub enum Line<'a> {
    /// A blank line or a comment.
    Nothing,
    /// A command, whatever its names lead to.
    Command(Command<'a>),
}
