//! Text with escapes, and repetitions of such text.

use crate::cases::LineFault;
use amt_values::Bytes;

// One escape, of which the part is what stands after the `\`, and the text after the escape. A number is what
// `\#` stands for.
fn append_escape(text: &mut Bytes, part: &str, number: Option<u64>) -> Result<(), LineFault> {
    let Some((escape, rest)) = part.split_at_checked(1) else {
        return Err(LineFault::Malformed);
    };
    match (escape, number) {
        ("n", _) => text.push(b'\n')?,
        ("r", _) => text.push(b'\r')?,
        ("t", _) => text.push(b'\t')?,
        ("#", Some(number)) => write!(text, "{number}")?,
        ("x", _) => return append_octet(text, rest),
        _ => return Err(LineFault::Malformed),
    }
    text.append(rest.as_bytes())?;
    Ok(())
}

// An octet of two digits, and the text after them.
fn append_octet(text: &mut Bytes, digits: &str) -> Result<(), LineFault> {
    let Some((digits, rest)) = digits.split_at_checked(2) else {
        return Err(LineFault::Malformed);
    };
    let octet = u8::from_str_radix(digits, 16).map_err(|_| LineFault::Malformed)?;
    text.push(octet)?;
    text.append(rest.as_bytes())?;
    Ok(())
}

fn append_unescaped(text: &mut Bytes, escaped: &str, number: Option<u64>) -> Result<(), LineFault> {
    let mut parts = escaped.split('\\');
    text.append(parts.next().unwrap_or("").as_bytes())?;
    for part in parts {
        append_escape(text, part, number)?;
    }
    Ok(())
}

// How often a text stands there: `N`, or `FROM-TO` of the numbers that it stands there with.
fn read_range(range: &str) -> Option<(u64, u64)> {
    let (from, to) = range.split_once('-').unwrap_or(("1", range));
    Some((from.parse::<u64>().ok()?, to.parse::<u64>().ok()?))
}

fn append_each(text: &mut Bytes, repeated: &str, from: u64, to: u64) -> Result<(), LineFault> {
    for number in from..=to {
        append_unescaped(text, repeated, Some(number))?;
    }
    Ok(())
}

// A text without escapes may stand there millions of times.
fn append_copies(text: &mut Bytes, repeated: &str, from: u64, to: u64) -> Result<(), LineFault> {
    for _ in from..=to {
        text.append(repeated.as_bytes())?;
    }
    Ok(())
}

// `RANGE TEXT}` and what stands after it.
fn append_repetition(text: &mut Bytes, part: &str) -> Result<(), LineFault> {
    let Some((repetition, rest)) = part.split_once('}') else {
        return Err(LineFault::Malformed);
    };
    let Some((range, repeated)) = repetition.split_once(' ') else {
        return Err(LineFault::Malformed);
    };
    let Some((from, to)) = read_range(range) else {
        return Err(LineFault::Malformed);
    };
    if repeated.contains('\\') {
        append_each(text, repeated, from, to)?;
    } else {
        append_copies(text, repeated, from, to)?;
    }
    append_unescaped(text, rest, None)
}

/// The octets of `\n`, `\r`, `\t` and `\xHH`, and of `\{N TEXT}`, which is N times the text, or
/// `\{FROM-TO TEXT}`, in which `\#` is the number of each time.
pub fn append_escaped(text: &mut Bytes, escaped: &str) -> Result<(), LineFault> {
    let mut parts = escaped.split("\\{");
    append_unescaped(text, parts.next().unwrap_or(""), None)?;
    for part in parts {
        append_repetition(text, part)?;
    }
    Ok(())
}
