//! What is wrong with a line of a trace.
/// What is wrong with a line of a trace.
#[derive(Clone, Copy, Debug, PartialEq, Eq)]
pub enum Kind {
    /// Bytes after the last line feed.
    UnfinishedLine,
    /// More than 4,096 bytes before a line feed.
    LineTooLong,
    /// A first word that names no command.
    UnknownCommand,
    /// A command with too few or too many words.
    WrongWords,
    /// A word that should be a name, and has no name's form.
    BadName,
    /// A word that should be a number, and has no number's form, or is one of 2^64 or more.
    BadNumber,
    /// A new name that leads to an object already.
    NameInUse,
    /// A name that leads to nothing.
    UnknownName,
    /// A pointer or plain word that the object hasn't.
    NoField,
    /// A pointer that is nil, where an object is wanted.
    NilPointer,
    /// A mutator that the heap hasn't.
    NoMutator,
    /// More than 100,000 pointers or plain words.
    TooBig,
    /// A generation that the heap hasn't.
    NoGeneration,
}
