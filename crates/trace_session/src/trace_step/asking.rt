//! What a line asks for.
ghost use Rattle.std.specs.Prelude.{◌≡◌, Some, Ok, IfSome, IfNone};
ghost use Rattle.model.specs.Commands.{Collect};
ghost use Rattle.trace_text.specs.Grammar.{entry_of};
ghost use Rattle.trace_session.specs.Commands.{IsNoCollection};

use trace_text::{Command, Line, parse};

/// The oldest generation that a line asks to collect, where it is a command to collect.
pub fn collected(line: &[u8]) -> Option<u64>
    ensures some { IfSome result (λ g. entry_of line.now ≡ Ok (Some (Collect g))) }
    ensures none { IfNone result (IsNoCollection (entry_of line.now)) }
{
    match parse(line) {
        Ok(Line::Command(Command::Collect { generation })) => Some(generation),
        _ => None,
    }
}
