//! The lines of a text, and those of an input that is read piece by piece.
ghost use Rattle.std.specs.Prelude.{◌≡◌, ◌+◌, ◌-◌, ◌^◌, ◌<◌, ◌≤◌, ◌↔◌, ◌⊎◌, ◌++◌, ◌∷◌, [], true, false, length, IfSome, IfNone, IfOk, OnOk, OnErr, IsTrue};
ghost use Rattle.heap_text.specs.Streams.{Gives};
ghost use Rattle.trace_session.specs.Lines.{Fills, Found, IsOutOfReads, Waits};
ghost use Rattle.trace_session.specs.Pieces.{HasNoFeed};

use heap_text::{ReadFailed, Source};
use std::alloc::{AllocError, Allocator};
use std::marker::Model;
use trace_text::MAX_LINE_LEN;

/// The most bytes that a read may ask for.
pub const MOST_PIECE: usize = 65_536;

/// The first line without its line feed, and what comes after it.
fn split_line(text: &[u8]) -> Option<(&[u8], &[u8])>
    ensures none { IfNone result (HasNoFeed text.now) }
    ensures some { IfSome result (λ found. text.now ≡ found.0.now ++ 10 ∷ found.1.now) }
    ensures first { IfSome result (λ found. HasNoFeed found.0.now) }
{
    for (i, byte) in text.iter().enumerate() {
        if *byte == b'\n' {
            let (line, rest) = text.split_at(i);
            let (_, after) = rest.split_at(1);
            return Some((line, after));
        }
    }
    None
}

/// What comes next in an input.
#[derive(Clone, Copy, Debug, PartialEq, Eq)]
pub enum Next {
    /// A line with its line feed.
    Line,
    /// More bytes than a line may have, and no line feed among them.
    TooLong,
    /// The end, with some bytes before it that no line feed ends.
    Unfinished,
    /// The end, right after a line feed or the beginning.
    End,
}

/// The lines of an input. Of the input it keeps at most a line and a piece, which is what one read asks for.
#[derive(Debug, Drop)]
pub struct Lines<A: Allocator> {
    /// Bytes that were read: some that are in lines, and those that are in none yet.
    text: Vec<u8, A>,
    /// Where those begin that are in no line yet.
    start: usize,
    /// Where the line begins that was cut off last, and how long it is.
    line_start: usize,
    line_len: usize,
    /// What reads fill.
    piece: Vec<u8, A>,
    /// How many reads may still give bytes.
    reads: u64,
}

impl<A: Allocator> Model for Lines<A> {
    ghost use Rattle.std.specs.Prelude.{◌+◌, ◌<◌, ◌≤◌, length, take, drop};
    ghost use Rattle.std.specs.Vec.{vec_capacity};
    ghost use Rattle.trace_session.specs.Lines.{LinesValue, lines_code};

    ghost Value = { LinesValue };

    ghost coded = { lines_code };

    ghost view = { λ s. record {
      pending = drop s.start s.text.items;
      line = take s.line_len (drop s.line_start s.text.items);
      reads = s.reads;
    } };

    ghost invariant = { λ s. (s.start ≤ length s.text.items) × (s.line_start + s.line_len ≤ length s.text.items) × ((0 < length s.piece.items) × (length s.piece.items ≤ 65536)) × (4096 + length s.piece.items ≤ vec_capacity s.text) };
}

impl<A: Allocator + Clone> Lines<A> {
    /// The lines of an input of which nothing was read yet. A read asks for `piece` bytes, 1 to 65,536. An error says that
    /// memory ran out; nothing else asks for memory.
    pub fn new(alloc: A, piece: usize) -> Result<Lines<A>, AllocError>
        requires some { 0 < piece }
        requires most { piece ≤ 65536 }
        ensures { IfOk result (λ lines. lines ≡ record { pending = []; line = []; reads = 2 ^ 64 - 1 }) }
    {
        let mut text = Vec::new(alloc.clone()?);
        text.reserve(MAX_LINE_LEN + piece)?;
        let mut room = Vec::new(alloc);
        room.resize(piece, 0)?;
        Ok(Lines {
            text,
            start: 0,
            line_start: 0,
            line_len: 0,
            piece: room,
            reads: u64::MAX,
        })
    }
}

impl<A: Allocator> Lines<A> {
    /// The line that was cut off last, without its line feed.
    pub fn line(&self) -> &[u8]
        ensures { result.now ≡ self.now.line }
    {
        let (_, rest) = self.text.as_slice().split_at(self.line_start);
        let (line, _) = rest.split_at(self.line_len);
        line
    }

    /// Goes to the next line, and reads for it where what was read has none. An input with no end within 2^64 - 1 reads
    /// that give bytes is a failed read.
    pub fn advance<S: Source>(&mut self, reader: &mut S) -> Result<Next, ReadFailed>
        requires countable { S.failed_reads reader.old < 2 ^ 64 - 1 }
        ensures ok { IfOk result (λ next. Found next self.old self.new (S.input reader.old) (S.input reader.new)) }
        ensures counts { OnOk result (S.failed_reads reader.new ≡ S.failed_reads reader.old) }
        ensures waits { OnErr result (Waits self.old self.new (S.input reader.old) (S.input reader.new)) }
        ensures err { OnErr result ((S.failed_reads reader.new ≡ S.failed_reads reader.old + 1)
            ⊎ ((S.failed_reads reader.new ≡ S.failed_reads reader.old) ×
            IsOutOfReads self.old.reads (S.input reader.old) (S.input reader.new))) }
    {
        loop {
            if self.cut() {
                return Ok(Next::Line);
            }
            let len = self.text.len() - self.start;
            if len > MAX_LINE_LEN {
                return Ok(Next::TooLong);
            }
            if self.fill(reader)? > 0 {
                continue;
            }
            return Ok(if len > 0 { Next::Unfinished } else { Next::End });
        }
    }

    /// Cuts off the first line of what is pending, and says whether there is one.
    fn cut(&mut self) -> bool
        ensures line { IsTrue result → (self.old.pending ≡ self.new.line ++ 10 ∷ self.new.pending) ×
            HasNoFeed self.new.line × (self.new.reads ≡ self.old.reads) }
        ensures none { (result ≡ false) → HasNoFeed self.old.pending × (self.new ≡ self.old) }
    {
        let (_, pending) = self.text.as_slice().split_at(self.start);
        let Some((line, _)) = split_line(pending) else {
            return false;
        };
        self.line_len = line.len();
        self.line_start = self.start;
        self.start += self.line_len + 1;
        true
    }

    /// Reads once, and says how many bytes came to what is pending: none at the end alone. The line that was cut off is
    /// forgotten.
    fn fill<S: Source>(&mut self, reader: &mut S) -> Result<usize, ReadFailed>
        requires short { length self.old.pending ≤ 4096 }
        requires countable { S.failed_reads reader.old < 2 ^ 64 - 1 }
        ensures ok { IfOk result (λ n. Fills n self.old self.new (S.input reader.old) (S.input reader.new)) }
        ensures end { IfOk result (λ n. (n ≡ 0) ↔ IsTrue (S.input reader.new).ended) }
        ensures counts { OnOk result (S.failed_reads reader.new ≡ S.failed_reads reader.old) }
        ensures same { OnErr result ((self.new.pending ≡ self.old.pending) × (self.new.reads ≡ self.old.reads)) }
        ensures err { OnErr result
            (((S.failed_reads reader.new ≡ S.failed_reads reader.old + 1) ×
            Gives (S.input reader.old) (S.input reader.new) [])
            ⊎ ((reader.new ≡ reader.old) × (self.old.reads ≡ 0))) }
    {
        self.text.copy_within(self.start.., 0);
        self.text.truncate(self.text.len() - self.start);
        (self.start, self.line_start, self.line_len) = (0, 0, 0);
        if self.reads == 0 {
            return Err(ReadFailed);
        }
        let n = reader.read(self.piece.as_mut_slice())?;
        let (bytes, _) = self.piece.as_slice().split_at(n);
        match self.text.extend_from_slice(bytes) {
            Ok(()) => {}
            Err(AllocError) => unreachable!(),
        }
        if n > 0 {
            self.reads -= 1;
        }
        Ok(n)
    }
}
