//! Fronts of a text.
ghost use Rattle.std.specs.Prelude.{◌↔◌, IsTrue};
ghost use Rattle.std.specs.Io.{IsEmptyOrEndsWith};
ghost use Rattle.rows.specs.Fronts.{IsFrontInLines};

fn ends_in_line_feed(text: &[u8]) -> bool
    ensures { IsTrue result ↔ IsEmptyOrEndsWith text.now 10 }
{
    text.is_empty() || text[text.len() - 1] == b'\n'
}

/// Whether a text begins with `front`, and `front` ends where a line of it ends. An output that a refusal cut short is
/// such a front of the whole output.
pub fn is_front_in_lines(front: &[u8], text: &[u8]) -> bool
    ensures { IsTrue result ↔ IsFrontInLines front.now text.now }
{
    text.starts_with(front) && ends_in_line_feed(front)
}
