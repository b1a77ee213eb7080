//! The form of a line of a trace: names, numbers and commands.
ghost use Rattle.std.specs.Prelude.{◌≡◌, ◌<◌, length};
ghost use Rattle.std.specs.List.{list_all};
ghost use Rattle.std.specs.Char.{is_ascii_digit};
ghost use Rattle.model.specs.Commands.{command_of as said, target_of as target_said};
ghost use Rattle.trace_text.specs.Words.{words};
ghost use Rattle.trace_text.specs.Grammar.{one_of, three_of, four_of, is_nil, name_of, is_name_byte, number_of, target_of, new_of, set_of, put_of, get_of, drop_of, collect_of, command_of, entry_of, without_return};
ghost use Rattle.trace_text.specs.Answer.{Gives, view};

use crate::line::Line;
use crate::words::{four_words, no_words, one_word, split_first_word, three_words};
use model::{Command, Kind};

/// The most bytes that a line has before its line feed.
pub const MAX_LINE_LEN: usize = 4096;

const MAX_NAME_LEN: usize = 32;

fn is_name_byte(byte: u8) -> bool
    ensures { result ≡ is_name_byte byte }
{
    byte.is_ascii_alphanumeric() || byte == b'_' || byte == b'.' || byte == b'-'
}

fn has_name_bytes(word: &[u8]) -> bool
    ensures { result ≡ list_all is_name_byte word.now }
{
    word.iter().all(|byte| is_name_byte(*byte))
}

fn is_nil(word: &[u8]) -> bool
    ensures { result ≡ is_nil word.now }
{
    word == b"nil".as_slice()
}

#[tactic(auto, unfolding(crate::specs::Grammar::name_of))]
fn name(word: &[u8]) -> Result<&[u8], Kind>
    ensures { Gives (λ found. found.now) result (name_of word.now) }
{
    if word.is_empty() {
        Err(Kind::BadName)
    } else if word.len() > MAX_NAME_LEN {
        Err(Kind::BadName)
    } else if is_nil(word) {
        Err(Kind::BadName)
    } else if has_name_bytes(word) {
        Ok(word)
    } else {
        Err(Kind::BadName)
    }
}

fn has_digits(word: &[u8]) -> bool
    ensures { result ≡ list_all is_ascii_digit word.now }
{
    word.iter().all(|byte| byte.is_ascii_digit())
}

/// The number that a word says in decimal. An error says that it has no number's form, or is one of 2^64 or more.
pub fn number(word: &[u8]) -> Result<u64, Kind>
    ensures { Gives (λ found. found) result (number_of word.now) }
{
    if !has_digits(word) {
        return Err(Kind::BadNumber);
    }
    let Ok(text) = std::str::from_utf8(word) else {
        return Err(Kind::BadNumber);
    };
    let Ok(value) = text.parse::<u64>() else {
        return Err(Kind::BadNumber);
    };
    Ok(value)
}

#[tactic(auto, unfolding(crate::specs::Grammar::new_of))]
fn new(rest: &[u8]) -> Result<Command<'_>, Kind>
    ensures { Gives said result (four_of (words rest.now) new_of) }
{
    let (name_word, mutator, pointers, plain) = four_words(rest)?;
    let name = name(name_word)?;
    let mutator = number(mutator)?;
    let pointers = number(pointers)?;
    let plain = number(plain)?;
    Ok(Command::New {
        name,
        mutator,
        pointers,
        plain,
    })
}

/// A name, or `nil`.
#[tactic(auto, unfolding(crate::specs::Grammar::target_of))]
fn target(word: &[u8]) -> Result<Option<&[u8]>, Kind>
    ensures { Gives (λ found. target_said (λ name. name.now) found) result (target_of word.now) }
{
    if is_nil(word) {
        return Ok(None);
    }
    let name = name(word)?;
    Ok(Some(name))
}

#[tactic(auto, unfolding(crate::specs::Grammar::set_of))]
fn set(rest: &[u8]) -> Result<Command<'_>, Kind>
    ensures { Gives said result (three_of (words rest.now) set_of) }
{
    let (name_word, field, target_word) = three_words(rest)?;
    let name = name(name_word)?;
    let field = number(field)?;
    let target = target(target_word)?;
    Ok(Command::Set {
        name,
        field,
        target,
    })
}

#[tactic(auto, unfolding(crate::specs::Grammar::put_of))]
fn put(rest: &[u8]) -> Result<Command<'_>, Kind>
    ensures { Gives said result (three_of (words rest.now) put_of) }
{
    let (name_word, field, value) = three_words(rest)?;
    let name = name(name_word)?;
    let field = number(field)?;
    let value = number(value)?;
    Ok(Command::Put { name, field, value })
}

#[tactic(auto, unfolding(crate::specs::Grammar::get_of))]
fn get(rest: &[u8]) -> Result<Command<'_>, Kind>
    ensures { Gives said result (three_of (words rest.now) get_of) }
{
    let (new_word, name_word, field) = three_words(rest)?;
    let new_name = name(new_word)?;
    let name = name(name_word)?;
    let field = number(field)?;
    Ok(Command::Get {
        new_name,
        name,
        field,
    })
}

#[tactic(auto, unfolding(crate::specs::Grammar::drop_of))]
fn drop_name(rest: &[u8]) -> Result<Command<'_>, Kind>
    ensures { Gives said result (one_of (words rest.now) drop_of) }
{
    let word = one_word(rest)?;
    let name = name(word)?;
    Ok(Command::Drop { name })
}

#[tactic(auto, unfolding(crate::specs::Grammar::collect_of))]
fn collect(rest: &[u8]) -> Result<Command<'_>, Kind>
    ensures { Gives said result (one_of (words rest.now) collect_of) }
{
    let word = one_word(rest)?;
    let generation = number(word)?;
    Ok(Command::Collect { generation })
}

#[tactic(auto, unfolding(crate::specs::Grammar::command_of))]
fn command<'a>(word: &[u8], rest: &'a [u8]) -> Result<Command<'a>, Kind>
    ensures { Gives said result (command_of word.now (words rest.now)) }
{
    if word == b"new".as_slice() {
        new(rest)
    } else if word == b"set".as_slice() {
        set(rest)
    } else if word == b"put".as_slice() {
        put(rest)
    } else if word == b"get".as_slice() {
        get(rest)
    } else if word == b"drop".as_slice() {
        drop_name(rest)
    } else if word == b"collect".as_slice() {
        collect(rest)
    } else if word == b"census".as_slice() {
        no_words(rest)?;
        Ok(Command::Census)
    } else if word == b"heap".as_slice() {
        no_words(rest)?;
        Ok(Command::Heap)
    } else {
        Err(Kind::UnknownCommand)
    }
}

/// One carriage return at the end is taken off.
pub fn without_return(line: &[u8]) -> &[u8]
    ensures { result.now ≡ without_return line.now }
{
    line.strip_suffix(b"\r".as_slice()).unwrap_or(line)
}

/// One line without its line feed: what it says, or its first fault. It allocates nothing.
#[tactic(auto, unfolding(crate::specs::Grammar::entry_of))]
pub fn parse(line: &[u8]) -> Result<Line<'_>, Kind>
    ensures { Gives view result (entry_of line.now) }
{
    if line.len() > MAX_LINE_LEN {
        return Err(Kind::LineTooLong);
    }
    let Some((first, rest)) = split_first_word(without_return(line)) else {
        return Ok(Line::Nothing);
    };
    if first[0] == b'#' {
        return Ok(Line::Nothing);
    }
    let command = command(first, rest)?;
    Ok(Line::Command(command))
}
