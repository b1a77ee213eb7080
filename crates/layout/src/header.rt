//! The header word of an object, and sizes.
ghost use Rattle.std.specs.Prelude.{◌≡◌, ◌≢◌, ◌+◌, ◌*◌, ◌^◌, ◌<◌, ◌≤◌, ◌↔◌, ◌/◌, ℕ, IfOk, IfSome, IfNone, IsOk, IsTrue, IsSomeAnd};
ghost use Rattle.layout.specs.Header.{header_word, size_of};

use thiserror::Error;

/// The most pointers, and the most plain words, that an object may have.
pub const MOST_FIELDS: u32 = 100000;

/// Plain words are counted in a header word by this.
const PLAIN_UNIT: u64 = 1 << 24;

/// Ordinals are counted in a header word by this.
const ORDINAL_UNIT: u64 = 1 << 48;

/// More pointers or plain words than an object may have.
#[derive(Clone, Copy, Debug, PartialEq, Eq, Error)]
#[error("more pointers or plain words than an object may have")]
pub struct TooBig;

/// How many pointers and plain words an object has, and its ordinal in its block.
#[derive(Clone, Copy, Debug, PartialEq, Eq)]
pub struct Header {
    /// How many pointers it has, at most `MOST_FIELDS`.
    pub pointers: u32,
    /// How many plain words it has, at most `MOST_FIELDS`.
    pub plain: u32,
    /// How many objects stand before it in its block; of a large object 0.
    pub ordinal: u16,
    pub ghost pointers_in_range: { pointers ≤ 100000 },
    pub ghost plain_in_range: { plain ≤ 100000 },
}

impl Header {
    /// The header word of an object with so many pointers and plain words.
    /// `TooBig` says that one of them is above `MOST_FIELDS`.
    pub fn pack(pointers: u32, plain_words: u32, ordinal: u16) -> Result<u64, TooBig>
        ensures word { IfOk result (λ word. word ≡ header_word pointers plain_words ordinal) }
        ensures ok { IsOk result ↔ ((pointers ≤ MOST_FIELDS) × (plain_words ≤ MOST_FIELDS)) }
    {
        if pointers > MOST_FIELDS || plain_words > MOST_FIELDS {
            return Err(TooBig);
        }
        let header = Header {
            pointers,
            plain: plain_words,
            ordinal,
        };
        Ok(header.to_word())
    }

    /// This header's word.
    pub fn to_word(self) -> u64
        ensures { result ≡ header_word self.pointers self.plain self.ordinal }
    {
        self.pointers as u64 + self.plain as u64 * PLAIN_UNIT + self.ordinal as u64 * ORDINAL_UNIT
    }

    /// The header with that word. `None` says that no object has it.
    pub fn unpack(word: u64) -> Option<Header>
        ensures reads { IfSome result (λ header.
            header_word header.pointers header.plain header.ordinal ≡ word) }
        ensures back { (p q ordinal : ℕ) → p ≤ MOST_FIELDS → q ≤ MOST_FIELDS → header_word p q ordinal ≡ word →
            IsSomeAnd result (λ header.
            (header.pointers ≡ p) × (header.plain ≡ q) × (header.ordinal ≡ ordinal)) }
        ensures none { IfNone result ((p q ordinal : ℕ) →
            p ≤ MOST_FIELDS → q ≤ MOST_FIELDS → header_word p q ordinal ≢ word) }
    {
        let pointers = word % PLAIN_UNIT;
        let plain = word / PLAIN_UNIT % PLAIN_UNIT;
        let ordinal = word / ORDINAL_UNIT;
        if pointers > MOST_FIELDS as u64 || plain > MOST_FIELDS as u64 {
            return None;
        }
        Some(Header {
            pointers: pointers as u32,
            plain: plain as u32,
            ordinal: ordinal as u16,
        })
    }
}

/// How many words an object with so many pointers and plain words takes, its header among them.
pub fn size(pointers: u32, plain_words: u32) -> u32
    requires { size_of pointers plain_words < 2 ^ 32 }
    ensures { result ≡ size_of pointers plain_words }
{
    1 + pointers + plain_words
}

/// Whether an object of `size` words is large in a heap with blocks of `block_words` words.
pub fn is_large(size: u32, block_words: u32) -> bool
    ensures { IsTrue result ↔ (block_words / 4 < size) }
{
    size > block_words / 4
}
