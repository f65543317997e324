//! The first line of a text. It knows no fields.

ghost use Rattle.std.specs.{Prelude.{◌≡◌, ◌<◌, ◌∷◌, length}, Str.Lines.{lines, strip_carriage_return}};

use amt_values::cut_at;

/// The octets without a carriage return at their end.
pub fn without_carriage_return(line: &[u8]) -> &[u8]
    ensures { result.now ≡ strip_carriage_return line.now }
{
    match line {
        [start @ .., b'\r'] => start,
        _ => line,
    }
}

/// The first line, without its line feed and the carriage return before it, and the octets after it.
pub fn next_line(text: &[u8]) -> (&[u8], &[u8])
    requires { 0 < length text.now }
    ensures lines { lines text.now ≡ result.0.now ∷ lines result.1.now }
    ensures shorter { length result.1.now < length text.now }
{
    match cut_at(text, b'\n') {
        None => (text, &[]),
        Some((line, rest)) => (without_carriage_return(line), rest),
    }
}
