//! Bytes as text of the chart.
ghost use Rattle.std.specs.Prelude.{◌≢◌, All, IfNone, IfSome};

use std::fmt;

// So many characters of a text are shown.
const SHOWN: usize = 12;

/// Bytes in quotation marks, as XML text: as many of the first as there is room for, and two dots where there are more.
#[derive(Clone, Copy)]
pub struct Quoted<'a>(pub &'a [u8]);

impl fmt::Display for Quoted<'_> {
    fn fmt<W: fmt::Write>(&self, f: &mut fmt::Formatter<W>) -> fmt::Result {
        let mut room = SHOWN;
        f.write_str("\"")?;
        for byte in self.0 {
            let width = width(*byte);
            if width > room {
                f.write_str("..")?;
                break;
            }
            room -= width;
            write_byte(f, *byte)?;
        }
        f.write_str("\"")
    }
}

/// Bytes as XML text, all of them.
#[derive(Clone, Copy)]
pub struct Marked<'a>(pub &'a [u8]);

impl fmt::Display for Marked<'_> {
    fn fmt<W: fmt::Write>(&self, f: &mut fmt::Formatter<W>) -> fmt::Result {
        for byte in self.0 {
            match *byte {
                b'"' => f.write_str("\"")?,
                byte => write_byte(f, byte)?,
            }
        }
        Ok(())
    }
}

// How many characters show a byte.
fn width(byte: u8) -> usize {
    match byte {
        b'"' | b'\\' => 2,
        b' '..=b'~' => 1,
        _ => 4,
    }
}

// A byte as XML text: as itself where it is printable ASCII that means nothing here, else by its name or its number.
fn write_byte<W: fmt::Write>(f: &mut fmt::Formatter<W>, byte: u8) -> fmt::Result {
    match (escape(byte), byte) {
        (Some(name), _) => f.write_str(name),
        (None, b' '..=b'~') => f.write_char(char::from(byte)),
        _ => write!(f, "\\x{byte:02x}"),
    }
}

// What stands for a byte that means something to XML or in quotation marks.
fn escape(byte: u8) -> Option<&'static str>
    ensures markup { IfNone result ((byte ≢ 38) × (byte ≢ 60) × (byte ≢ 62)) }
    ensures quoting { IfNone result ((byte ≢ 34) × (byte ≢ 92)) }
    ensures name { IfSome result (λ name. All (λ b. (b ≢ 60) × (b ≢ 62)) name.now) }
{
    match byte {
        b'&' => Some("&amp;"),
        b'<' => Some("&lt;"),
        b'>' => Some("&gt;"),
        b'"' => Some("\\\""),
        b'\\' => Some("\\\\"),
        _ => None,
    }
}
