//! An object written into words, and read back.
ghost use Rattle.std.specs.Prelude.{◌≡◌, ℕ, ◌+◌, ◌<◌, ◌≤◌, length, take, drop, replicate, get_or};
ghost use Rattle.layout.specs.Header.{size_of};
ghost use Rattle.layout.specs.Object.{raw_size};
ghost use Rattle.layout.specs.ObjectRef.{raw_of};
ghost use Rattle.block_pool.specs.BlockValue.{new_object};
ghost use Rattle.block_pool.specs.Words.{raw_at, span, ordinal_of, AreCopied, IsWritten};

use layout::{Header, ObjectRef};

/// How many pointers an object has stands below this in its header word, and plain words are counted by it.
pub(crate) const POINTER_UNIT: u64 = 1 << 24;

/// Ordinals are counted in a header word by this.
pub(crate) const ORDINAL_UNIT: u64 = 1 << 48;

/// Copies words to a place, one by one, since most objects are small.
#[inline(always)]
fn copy_to(words: &mut [u64], at: usize, from: &[u64])
    requires { at + length from.now ≤ length words.old }
    ensures kept { take at words.new ≡ take at words.old }
    ensures copied { take (length from.now) (drop at words.new) ≡ from.now }
{
    for i in 0..from.len() {
        words[at + i] = from[i];
    }
}

/// Writes zeros from a place on.
fn clear_from(words: &mut [u64], at: usize, count: usize)
    requires { at + count ≤ length words.old }
    ensures kept { take at words.new ≡ take at words.old }
    ensures cleared { take count (drop at words.new) ≡ replicate count 0 }
{
    words[at..at + count].fill(0);
}

/// Writes an object with that ordinal from a place on.
pub(crate) fn write_object(words: &mut [u64], at: usize, ordinal: u16, object: ObjectRef<'_>)
    requires room { at + raw_size (raw_of object) ≤ length words.old }
    ensures { IsWritten words.old words.new at ordinal (raw_of object.entry) }
{
    let header = Header {
        pointers: object.header.pointers,
        plain: object.header.plain,
        ordinal,
    };
    words[at] = header.to_word();
    copy_to(words, at + 1, object.pointers);
    copy_to(words, at + 1 + object.pointers.len(), object.words);
}

/// How many words the object at a place takes, its header among them.
#[inline(always)]
pub(crate) fn size_at(words: &[u64], at: usize) -> usize
    requires { at < length words.now }
    ensures { result ≡ span words.now at }
{
    let header = words[at];
    1 + (header % POINTER_UNIT) as usize + (header / POINTER_UNIT % POINTER_UNIT) as usize
}

/// Copies the word with that index behind a place.
#[inline(always)]
fn copy_next(words: &mut [u64], at: usize, from: &[u64], offset: usize, i: usize)
    requires room { at + i < length words.old }
    requires there { offset + i < length from.now }
    requires before { AreCopied i words.old at from.now offset }
    ensures kept { take at words.new ≡ take at words.old }
    ensures copied { AreCopied (i + 1) words.new at from.now offset }
{
    words[at + i] = from[offset + i];
}

/// Copies two words behind a place, from the one with that index on, which may be among those that are copied. Both are read
/// before one is written.
#[inline(always)]
fn copy_two(words: &mut [u64], at: usize, from: &[u64], offset: usize, i: usize)
    requires room { at + i + 2 ≤ length words.old }
    requires there { offset + i + 2 ≤ length from.now }
    requires few { length words.old ≤ 512 }
    requires few_there { length from.now ≤ 512 }
    ensures kept { take at words.new ≡ take at words.old }
    ensures copied { (m : ℕ) → i ≤ m → AreCopied m words.old at from.now offset →
        AreCopied m words.new at from.now offset × AreCopied (i + 2) words.new at from.now offset }
{
    let first = from[offset + i];
    let second = from[offset + i + 1];
    words[at + i] = first;
    words[at + i + 1] = second;
}

/// Copies so many words to a place, one after the other.
#[cold]
fn copy_many(words: &mut [u64], at: usize, from: &[u64], offset: usize, count: usize)
    requires room { at + count ≤ length words.old }
    requires there { offset + count ≤ length from.now }
    requires few { length words.old ≤ 512 }
    requires few_there { length from.now ≤ 512 }
    ensures kept { take at words.new ≡ take at words.old }
    ensures copied { AreCopied count words.new at from.now offset }
{
    for i in 0..count {
        copy_next(words, at, from, offset, i);
    }
}

/// Copies two to four words to a place: the first two, and the last two, which may be among them.
#[inline(always)]
fn copy_few(words: &mut [u64], at: usize, from: &[u64], offset: usize, count: usize)
    requires two { 2 ≤ count }
    requires four { count ≤ 4 }
    requires room { at + count ≤ length words.old }
    requires there { offset + count ≤ length from.now }
    requires few { length words.old ≤ 512 }
    requires few_there { length from.now ≤ 512 }
    ensures kept { take at words.new ≡ take at words.old }
    ensures copied { AreCopied count words.new at from.now offset }
{
    copy_two(words, at, from, offset, 0);
    copy_two(words, at, from, offset, count - 2);
}

/// Copies five to eight words to a place: the first four, and the last four, which may be among them.
#[inline(always)]
fn copy_some(words: &mut [u64], at: usize, from: &[u64], offset: usize, count: usize)
    requires five { 5 ≤ count }
    requires eight { count ≤ 8 }
    requires room { at + count ≤ length words.old }
    requires there { offset + count ≤ length from.now }
    requires few { length words.old ≤ 512 }
    requires few_there { length from.now ≤ 512 }
    ensures kept { take at words.new ≡ take at words.old }
    ensures copied { AreCopied count words.new at from.now offset }
{
    copy_two(words, at, from, offset, 0);
    copy_two(words, at, from, offset, 2);
    copy_two(words, at, from, offset, count - 4);
    copy_two(words, at, from, offset, count - 2);
}

/// Copies so many words to a place: one to eight, as most objects have, with no loop and one branch for many sizes, and more in a
/// function of its own, which would want the registers of the loop that this one is a part of.
#[inline(always)]
fn copy_words(words: &mut [u64], at: usize, from: &[u64], offset: usize, count: usize)
    requires room { at + count ≤ length words.old }
    requires there { offset + count ≤ length from.now }
    requires few { length words.old ≤ 512 }
    requires few_there { length from.now ≤ 512 }
    ensures kept { take at words.new ≡ take at words.old }
    ensures copied { AreCopied count words.new at from.now offset }
{
    if count >= 2 && count <= 4 {
        copy_few(words, at, from, offset, count);
        return;
    }
    if count >= 5 && count <= 8 {
        copy_some(words, at, from, offset, count);
        return;
    }
    if count == 1 {
        copy_next(words, at, from, offset, 0);
        return;
    }
    copy_many(words, at, from, offset, count);
}

/// Copies an object to a place, which takes so many words, and gets that ordinal there.
#[inline(always)]
pub(crate) fn copy_object(
    words: &mut [u64],
    at: usize,
    ordinal: u16,
    from: &[u64],
    offset: usize,
    size: usize,
)
    requires size { size ≡ span from.now offset }
    requires room { at + size ≤ length words.old }
    requires there { offset + size ≤ length from.now }
    requires few { length words.old ≤ 512 }
    requires few_there { length from.now ≤ 512 }
    ensures { IsWritten words.old words.new at ordinal (raw_at from.now offset) }
{
    let header = from[offset];
    words[at] = header % ORDINAL_UNIT + ordinal as u64 * ORDINAL_UNIT;
    copy_words(words, at + 1, from, offset + 1, size - 1);
}

/// Writes an object of nil pointers and zeros with that ordinal from a place on.
pub(crate) fn write_new(words: &mut [u64], at: usize, ordinal: u16, p: u32, q: u32)
    requires room { at + size_of p q ≤ length words.old }
    requires few { length words.old ≤ 512 }
    ensures { IsWritten words.old words.new at ordinal (new_object p q) }
{
    let header = Header {
        pointers: p,
        plain: q,
        ordinal,
    };
    words[at] = header.to_word();
    clear_from(words, at + 1, p as usize);
    clear_from(words, at + 1 + p as usize, q as usize);
}

/// The object at a place.
pub(crate) fn read_object<'a>(words: &'a [u64], at: usize) -> ObjectRef<'a>
    requires room { at + span words.now at ≤ length words.now }
    requires few { length words.now ≤ 512 }
    ensures object { raw_of result ≡ raw_at words.now at }
    ensures ordinal { result.header.ordinal ≡ ordinal_of (get_or words.now at 0) }
{
    let header = Header::unpack(words[at]).unwrap();
    let first = at + 1;
    let middle = first + header.pointers as usize;
    let end = middle + header.plain as usize;
    ObjectRef {
        header,
        pointers: &words[first..middle],
        words: &words[middle..end],
    }
}
