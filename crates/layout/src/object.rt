//! An object where it lies.
ghost use Rattle.std.specs.Prelude.{◌≡◌, ◌≤◌, length};

use crate::header::{Header, MOST_FIELDS};

/// An object where it lies: its header, the words of its pointers, and its plain words.
#[derive(Clone, Copy, Debug)]
pub struct ObjectRef<'a> {
    /// How many pointers and plain words it has, and its ordinal.
    pub header: Header,
    /// The words of its pointers, 0 for nil.
    pub pointers: &'a [u64],
    /// Its plain words.
    pub words: &'a [u64],
    pub ghost pointer_count: { length pointers.now ≡ header.pointers },
    pub ghost plain_count: { length words.now ≡ header.plain },
}

impl<'a> ObjectRef<'a> {
    ghost use Rattle.layout.specs.Object.{raw_size};
    ghost use Rattle.layout.specs.ObjectRef.{raw_of};

    /// The object with those pointers and plain words, at most `MOST_FIELDS` of each.
    pub fn new(ordinal: u16, pointers: &'a [u64], words: &'a [u64]) -> Self
        requires pointers_in_range { length pointers.now ≤ MOST_FIELDS }
        requires words_in_range { length words.now ≤ MOST_FIELDS }
        ensures ordinal { result.header.ordinal ≡ ordinal }
        ensures pointers { result.pointers.now ≡ pointers.now }
        ensures words { result.words.now ≡ words.now }
    {
        ObjectRef {
            header: Header {
                pointers: pointers.len() as u32,
                plain: words.len() as u32,
                ordinal,
            },
            pointers,
            words,
        }
    }

    /// How many words the object takes, its header among them.
    pub fn size(&self) -> u32
        ensures { result ≡ raw_size (raw_of self.now) }
    {
        1 + self.header.pointers + self.header.plain
    }
}
