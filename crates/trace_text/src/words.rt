//! The words of a line.
ghost use Rattle.std.specs.Prelude.{◌≡◌, ℕ, ◌<◌, ◌≤◌, true, false, slice_index, [], ◌∷◌, length, IfSome, IfNone, ◌≢◌, OnOk, IfOk, IfErr};
ghost use Rattle.trace_text.specs.Words.{is_blank, words};

use model::Kind;

fn is_blank(byte: u8) -> bool
    ensures { result ≡ is_blank byte }
{
    byte == b' ' || byte == b'\t'
}

/// The line from its first word on.
fn skip_blanks(line: &[u8]) -> &[u8]
    ensures same { words result.now ≡ words line.now }
    ensures front { 0 < length result.now → is_blank (slice_index result.now 0) ≡ false }
{
    let mut rest = line;
    while let [first, after @ ..] = rest {
        if !is_blank(*first) {
            return rest;
        }
        rest = after;
    }
    rest
}

/// How many bytes the word at the front has.
fn word_len(line: &[u8]) -> usize
    ensures in_range { result ≤ length line.now }
    ensures word { (k : ℕ) → k < result → is_blank (slice_index line.now k) ≡ false }
    ensures stops { result < length line.now → is_blank (slice_index line.now result) ≡ true }
{
    for (i, byte) in line.iter().enumerate() {
        if is_blank(*byte) {
            return i;
        }
    }
    line.len()
}

/// The first word of a line, and what comes after it.
pub fn split_first_word(line: &[u8]) -> Option<(&[u8], &[u8])>
    ensures none { IfNone result (words line.now ≡ []) }
    ensures some { IfSome result (λ found. words line.now ≡ found.0.now ∷ words found.1.now) }
    ensures nonempty { IfSome result (λ found. 0 < length found.0.now) }
{
    let line = skip_blanks(line);
    if line.is_empty() {
        return None;
    }
    Some(line.split_at(word_len(line)))
}

/// No word is left.
pub fn no_words(rest: &[u8]) -> Result<(), Kind>
    ensures ok { OnOk result (words rest.now ≡ []) }
    ensures err { IfErr result (λ e. (e ≡ Kind.WrongWords) × (length (words rest.now) ≢ 0)) }
{
    match split_first_word(rest) {
        None => Ok(()),
        Some(_) => Err(Kind::WrongWords),
    }
}

/// The one word that is left. An error says that there are more or fewer.
pub fn one_word(rest: &[u8]) -> Result<&[u8], Kind>
    ensures ok { IfOk result (λ a. words rest.now ≡ a.now ∷ []) }
    ensures err { IfErr result (λ e. (e ≡ Kind.WrongWords) × (length (words rest.now) ≢ 1)) }
{
    let (a, rest) = split_first_word(rest).ok_or(Kind::WrongWords)?;
    no_words(rest)?;
    Ok(a)
}

/// The two words that are left. An error says that there are more or fewer.
pub fn two_words(rest: &[u8]) -> Result<(&[u8], &[u8]), Kind>
    ensures ok { IfOk result (λ found. words rest.now ≡ found.0.now ∷ found.1.now ∷ []) }
    ensures err { IfErr result (λ e. (e ≡ Kind.WrongWords) × (length (words rest.now) ≢ 2)) }
{
    let (a, rest) = split_first_word(rest).ok_or(Kind::WrongWords)?;
    let b = one_word(rest)?;
    Ok((a, b))
}

/// The three words that are left. An error says that there are more or fewer.
pub fn three_words(rest: &[u8]) -> Result<(&[u8], &[u8], &[u8]), Kind>
    ensures ok { IfOk result (λ found. words rest.now
        ≡ found.0.now ∷ found.1.now ∷ found.2.now ∷ []) }
    ensures err { IfErr result (λ e. (e ≡ Kind.WrongWords) × (length (words rest.now) ≢ 3)) }
{
    let (a, rest) = split_first_word(rest).ok_or(Kind::WrongWords)?;
    let (b, rest) = split_first_word(rest).ok_or(Kind::WrongWords)?;
    let c = one_word(rest)?;
    Ok((a, b, c))
}

/// The four words that are left. An error says that there are more or fewer.
pub fn four_words(rest: &[u8]) -> Result<(&[u8], &[u8], &[u8], &[u8]), Kind>
    ensures ok { IfOk result (λ found. words rest.now
        ≡ found.0.now ∷ found.1.now ∷ found.2.now ∷ found.3.now ∷ []) }
    ensures err { IfErr result (λ e. (e ≡ Kind.WrongWords) × (length (words rest.now) ≢ 4)) }
{
    let (a, rest) = split_first_word(rest).ok_or(Kind::WrongWords)?;
    let (b, rest) = split_first_word(rest).ok_or(Kind::WrongWords)?;
    let (c, rest) = split_first_word(rest).ok_or(Kind::WrongWords)?;
    let d = one_word(rest)?;
    Ok((a, b, c, d))
}
