//! Lines of traces and of schedules, and what parsing says of each.
use crate::program::text_of;
use std::alloc::{AllocError, Global};
use std::fmt::Write;
use std::process::Abort;
use std::test::Fail;
use trace_text::{Command, Kind, Line, LineFault, ScheduleLine, parse, parse_event};

/// Lines of a trace. Behind an arrow stands what each says, or its first fault.
const TRACE_LINES: &str =
    " new\ta.b-c_9  0 007 18446744073709551615\r -> new a.b-c_9: mutator 0, pointers 7, plain 18446744073709551615
collect 3 -> collect: generation 3
set a 18446744073709551615 b -> set a: field 18446744073709551615, target Some(\"b\")
set a 0 nil -> set a: field 0, target None
put a 1 002 -> put a: field 1, value 2
get b a 003 -> get b: name a, field 3
\theap \r -> heap
set nil 0 a -> BadName
set a nil nil -> BadNumber
set a 0 Nil! -> BadName
set a/ x b/ -> BadName
set a x b/ -> BadNumber
set a/ 0 -> WrongWords
set a/ 0 b c -> WrongWords
put a 0 nil -> BadNumber
put nil x 0 -> BadName
put a 0 -> WrongWords
put a 0 0 0 -> WrongWords
get nil a/ x -> BadName
get b nil x -> BadName
get b a nil -> BadNumber
get b a -> WrongWords
get b a 0 0 -> WrongWords
heap 0 -> WrongWords
 -> Nothing
\r -> Nothing
 \t -> Nothing
# drop a -> Nothing
begin a b -> UnknownCommand
census\r\r -> UnknownCommand
drop nil x -> WrongWords
drop nil -> BadName
new a/ x 0 0 -> BadName
new a 0 +1 0 -> BadNumber
collect 18446744073709551616 -> BadNumber
look 0 -> UnknownCommand
own 0 large -> UnknownCommand
finish -> UnknownCommand
commit -> UnknownCommand
";

/// Lines of a schedule.
const SCHEDULE_LINES: &str = "look 0 -> Event(Look(0))
race 1 -> Event(Race(1))
scan 15 -> Event(Scan(15))
export 2 -> Event(Export(2))
take 0 2 -> Event(Take(0, 2))
own 1 11 -> Event(Own(1, 11))
own 0 large -> Event(OwnLarge(0))
idle 3 -> Event(Idle(3))
wake 0 -> Event(Wake(0))
end 4 -> Event(End(4))
take 18446744073709551615 18446744073709551615 -> Event(Take(18446744073709551615, 18446744073709551615))
own 18446744073709551615 large -> Event(OwnLarge(18446744073709551615))
 own\t007  0 \r -> Event(Own(7, 0))
 -> Nothing
\r -> Nothing
 \t -> Nothing
# commit -> Nothing
finish -> Finish
\tcommit \r -> Commit
own 0 big -> Schedule(BadNumber)
own 0 Large -> Schedule(BadNumber)
own large 0 -> Schedule(BadNumber)
own large large -> Schedule(BadNumber)
take 0 large -> Schedule(BadNumber)
take x 0 -> Schedule(BadNumber)
wake large -> Schedule(BadNumber)
look +1 -> Schedule(BadNumber)
end -1 -> Schedule(BadNumber)
look 18446744073709551616 -> Schedule(BadNumber)
own 0 18446744073709551616 -> Schedule(BadNumber)
look -> Schedule(WrongWords)
look x y -> Schedule(WrongWords)
take x -> Schedule(WrongWords)
take 0 1 2 -> Schedule(WrongWords)
own 0 -> Schedule(WrongWords)
idle 0 0 -> Schedule(WrongWords)
finish 0 -> Schedule(WrongWords)
commit x -> Schedule(WrongWords)
collect 0 -> Schedule(UnknownEvent)
drop -> Schedule(UnknownEvent)
census -> Schedule(UnknownEvent)
new a 0 -> Schedule(UnknownEvent)
Look 0 -> Schedule(UnknownEvent)
looks 0 -> Schedule(UnknownEvent)
commit\r\r -> Schedule(UnknownEvent)
";

/// What lines are read as.
#[derive(Clone, Copy)]
enum Form {
    Trace,
    Schedule,
}

/// A command with its parts.
fn push_command(text: &mut String, command: Command<'_>) -> Result<(), AllocError> {
    match command {
        Command::New {
            name,
            mutator,
            pointers,
            plain,
        } => {
            let name = text_of(name);
            write!(
                text,
                "new {name}: mutator {mutator}, pointers {pointers}, plain {plain}"
            )
        }
        Command::Set {
            name,
            field,
            target,
        } => {
            let (name, target) = (text_of(name), target.map(text_of));
            write!(text, "set {name}: field {field}, target {target:?}")
        }
        Command::Put { name, field, value } => {
            let name = text_of(name);
            write!(text, "put {name}: field {field}, value {value}")
        }
        Command::Get {
            new_name,
            name,
            field,
        } => {
            let (new_name, name) = (text_of(new_name), text_of(name));
            write!(text, "get {new_name}: name {name}, field {field}")
        }
        Command::Drop { name } => {
            let name = text_of(name);
            write!(text, "drop {name}")
        }
        Command::Collect { generation } => write!(text, "collect: generation {generation}"),
        Command::Census => text.push_str("census"),
        Command::Heap => text.push_str("heap"),
    }
}

/// What a line says, as a text.
fn push_said(text: &mut String, form: Form, line: &[u8]) -> Result<(), AllocError> {
    match form {
        Form::Trace => match parse(line) {
            Ok(Line::Nothing) => text.push_str("Nothing"),
            Ok(Line::Command(command)) => push_command(text, command),
            Err(kind) => write!(text, "{kind:?}"),
        },
        Form::Schedule => match parse_event(line) {
            Ok(said) => write!(text, "{said:?}"),
            Err(fault) => write!(text, "{fault:?}"),
        },
    }
}

/// Asserts that each line of a table says what stands behind its arrow.
fn assert_lines(
    rt: &impl Abort,
    alloc: Global,
    form: Form,
    table: &'static str,
) -> Result<(), AllocError> {
    for row in table.lines() {
        let (line, says) = row.split_once(" -> ").unwrap_or((row, "an arrow"));
        let mut said = String::new(alloc);
        push_said(&mut said, form, line.as_bytes())?;
        assert_eq!(rt; said.as_str(), says, "said by: {line}");
    }
    Ok(())
}

#[test]
fn lines_of_a_trace(rt: HostRuntime) -> Result<(), AllocError> {
    assert_lines(&rt, rt.alloc(), Form::Trace, TRACE_LINES)
}

#[test]
fn lines_of_a_schedule(rt: HostRuntime) -> Result<(), AllocError> {
    assert_lines(&rt, rt.alloc(), Form::Schedule, SCHEDULE_LINES)
}

/// Comments of other bytes, and of the most that a line has.
#[test]
fn comments_say_nothing(rt: HostRuntime) {
    for line in [b" #\xff".as_slice(), &[b'#'; 4096]] {
        assert!(rt; matches!(parse(line), Ok(Line::Nothing)));
        assert_eq!(rt; parse_event(line), Ok(ScheduleLine::Nothing));
    }
}

#[test]
fn line_is_too_long(rt: HostRuntime) {
    let line = [b'#'; 4097];
    assert_eq!(rt; parse(&line).err(), Some(Kind::LineTooLong));
    assert_eq!(rt;
        parse_event(&line),
        Err(LineFault::Trace(Kind::LineTooLong))
    );
}
