//! What starts a collection.
ghost use Rattle.std.specs.Prelude.{◌≡◌, ◌≤◌, length};
ghost use Rattle.heap_text.specs.CollectionLine.{cause_word};

/// What starts a collection.
#[derive(Clone, Copy, Debug, PartialEq, Eq)]
pub enum Cause {
    /// A command of the trace.
    Command,
    /// A new object for which its nursery has no room.
    FullNursery,
}

impl Cause {
    /// The first word of the collection's line.
    pub fn word(self) -> &'static str
        ensures value { result.now ≡ cause_word self }
        ensures short { length result.now ≤ 9 }
    {
        match self {
            Cause::Command => "collected",
            Cause::FullNursery => "auto",
        }
    }
}
