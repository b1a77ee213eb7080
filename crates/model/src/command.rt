//! A command of a trace.
/// A command of a trace. Its names are slices of the line.
#[derive(Clone, Copy, Debug, PartialEq, Eq, Hash)]
pub enum Command<'a> {
    /// A new object of a mutator, with so many pointers and plain words; the name leads to it.
    New {
        name: &'a [u8],
        mutator: u64,
        pointers: u64,
        plain: u64,
    },
    /// A pointer of the name's object becomes the target's object.
    Set {
        name: &'a [u8],
        field: u64,
        /// `None` is nil.
        target: Option<&'a [u8]>,
    },
    /// A plain word of the name's object becomes the value.
    Put {
        name: &'a [u8],
        field: u64,
        value: u64,
    },
    /// The new name leads to the object that a pointer of the name's object leads to.
    Get {
        new_name: &'a [u8],
        name: &'a [u8],
        field: u64,
    },
    /// The name leads to nothing any more.
    Drop {
        name: &'a [u8],
    },
    /// Collects the generations 0 to this one.
    Collect {
        generation: u64,
    },
    /// Writes what the heap holds, by generations and steps.
    Census,
    /// Writes what can be reached from the names, object by object.
    Heap,
}
