//! What is wrong with a line of a script, and what would be right.

use sock_pair::script::ScriptError;
use sock_pair::script::lines::{Line, Lines};
use sock_pair::script::values::{index, is_text, limit, number, rules, side, switch};
use sock_pair::script::words::split_word;
use std::fmt;

// What a word of a line may be.
#[derive(Clone, Copy)]
enum Form {
    Side,
    Switch,
    Rules,
    Limit,
    Text,
    Number(usize),
    Index,
}

const SIZE: Form = Form::Number(1_048_576);

const WORD: Form = Form::Number(4_294_967_295);

const MILLIS: Form = Form::Number(1_000_000_000);

impl Form {
    fn fits(self, word: &[u8]) -> bool {
        match self {
            Form::Side => side(word).is_some(),
            Form::Switch => switch(word).is_some(),
            Form::Rules => rules(word).is_some(),
            Form::Limit => limit(word).is_some(),
            Form::Text => is_text(word),
            Form::Number(most) => number(word, most).is_some(),
            Form::Index => index(word).is_some(),
        }
    }
}

impl fmt::Display for Form {
    fn fmt<W: fmt::Write>(&self, f: &mut fmt::Formatter<W>) -> fmt::Result {
        match self {
            Form::Side => f.write_str("a or b"),
            Form::Switch => f.write_str("on or off"),
            Form::Rules => f.write_str("rfc or smoltcp"),
            Form::Limit => f.write_str("-, or 1 to 10 digits that write at most 536870911"),
            Form::Text => f.write_str("printable ASCII characters"),
            Form::Number(most) => write!(f, "1 to 10 digits that write at most {most}"),
            Form::Index => f.write_str("1 to 10 digits that write at most 9999999999"),
        }
    }
}

// A line that a script may have: its first word, the others, and what each of those may be.
#[derive(Clone, Copy)]
struct Shape(&'static str, &'static str, &'static [Form]);

const PAIR: Shape = Shape(
    "pair",
    "ARX ATX BRX BTX LIMIT",
    &[SIZE, SIZE, SIZE, SIZE, Form::Limit],
);

const EVENTS: &[Shape] = &[
    Shape("listen", "S", &[Form::Side]),
    Shape("connect", "S WORD", &[Form::Side, WORD]),
    Shape("send", "S TEXT, or send S", &[Form::Side, Form::Text]),
    Shape("recv", "S SIZE", &[Form::Side, SIZE]),
    Shape("close", "S", &[Form::Side]),
    Shape("abort", "S", &[Form::Side]),
    Shape("nagle", "S on, or nagle S off", &[Form::Side, Form::Switch]),
    Shape(
        "rules",
        "S rfc, or rules S smoltcp",
        &[Form::Side, Form::Rules],
    ),
    Shape("dispatch", "S MS", &[Form::Side, MILLIS]),
    Shape("fail", "S MS", &[Form::Side, MILLIS]),
    Shape("gone", "S MS", &[Form::Side, MILLIS]),
    Shape("deliver", "INDEX MS WORD", &[Form::Index, MILLIS, WORD]),
];

// The shape of the lines that begin with this word.
fn shape_of(name: &[u8]) -> Option<Shape> {
    for shape in EVENTS {
        if shape.0.as_bytes() == name {
            return Some(*shape);
        }
    }
    if name == b"pair".as_slice() {
        Some(PAIR)
    } else {
        None
    }
}

/// What is wrong with a line, in one line of text, and what would be right.
#[derive(Clone, Copy)]
pub enum Advice<'t> {
    /// The line ends in a carriage return.
    CarriageReturn,
    /// There was a pair line before.
    SecondPair,
    /// The script does not begin with a pair line.
    NoPair,
    /// This first word begins no line.
    Name(&'t [u8]),
    /// A line with this first word has other words behind it.
    Words(&'static str, &'static str),
    /// The word at this place, the line's first being at 1, is not of its form.
    Word(usize, &'t [u8], WantedForm),
}

/// What a word may be.
#[derive(Clone, Copy)]
pub struct WantedForm(Form);

/// What is wrong with the line of a text that this fault names; none where memory ran out.
pub fn wrong_with<'t>(error: &ScriptError, text: &'t [u8]) -> Option<Advice<'t>> {
    match error {
        ScriptError::NoPairLine { line } => Some(no_pair(line_of(text, *line))),
        ScriptError::UnknownEvent { line } => Some(unknown(line_of(text, *line)?)),
        ScriptError::WrongNumberOfWords { line } => wrong_number(line_of(text, *line)?),
        ScriptError::BadWord { line } => bad_word(line_of(text, *line)?),
        ScriptError::Memory => None,
    }
}

// The line of this number.
fn line_of(text: &[u8], number: usize) -> Option<Line<'_>> {
    let mut lines = Lines::new(text);
    for _ in 0..number {
        let line = lines.next()?;
        if line.number == number {
            return Some(line);
        }
    }
    None
}

fn no_pair(line: Option<Line<'_>>) -> Advice<'_> {
    match line {
        Some(line) if ends_in_return(line.name) => Advice::CarriageReturn,
        _ => Advice::NoPair,
    }
}

fn unknown(line: Line<'_>) -> Advice<'_> {
    if line.name == b"pair".as_slice() {
        Advice::SecondPair
    } else if ends_in_return(line.name) {
        Advice::CarriageReturn
    } else {
        Advice::Name(line.name)
    }
}

fn wrong_number(line: Line<'_>) -> Option<Advice<'_>> {
    if ends_in_return(line.values) {
        return Some(Advice::CarriageReturn);
    }
    let Shape(name, rest, _) = shape_of(line.name)?;
    Some(Advice::Words(name, rest))
}

// The first word that is not of its form.
fn bad_word(line: Line<'_>) -> Option<Advice<'_>> {
    let Shape(_, _, forms) = shape_of(line.name)?;
    let mut rest = line.values;
    for (place, form) in forms.iter().enumerate() {
        let (word, after) = split_word(rest)?;
        if !form.fits(word) {
            return Some(advice_on_word(place.saturating_add(2), word, *form));
        }
        rest = after;
    }
    None
}

fn advice_on_word(place: usize, word: &[u8], form: Form) -> Advice<'_> {
    if ends_in_return(word) {
        Advice::CarriageReturn
    } else {
        Advice::Word(place, word, WantedForm(form))
    }
}

fn ends_in_return(word: &[u8]) -> bool {
    word.last() == Some(&b'\r')
}

impl fmt::Display for Advice<'_> {
    fn fmt<W: fmt::Write>(&self, f: &mut fmt::Formatter<W>) -> fmt::Result {
        match self {
            Advice::CarriageReturn => {
                f.write_str("the line ends in a carriage return; right is a line feed alone")
            }
            Advice::SecondPair => f.write_str(
                "a second pair line; a script has one, before its events",
            ),
            Advice::NoPair => { write!(f, "right is a first line: {} {}", PAIR.0, PAIR.1) }
            Advice::Name(word) => write_names(f, word),
            Advice::Words(name, rest) => write!(f, "right is: {name} {rest}"),
            Advice::Word(place, word, form) => {
                write!(
                    f,
                    "word {place} is \"{}\"; right is: {}",
                    Shown(word),
                    form.0
                )
            }
        }
    }
}

// The word that begins no line, and those that do.
fn write_names<W: fmt::Write>(f: &mut fmt::Formatter<W>, word: &[u8]) -> fmt::Result {
    write!(f, "word 1 is \"{}\"; right is one of:", Shown(word))?;
    for shape in EVENTS {
        write!(f, " {}", shape.0)?;
    }
    Ok(())
}

// How many bytes of a word are shown.
const SHOWN: usize = 40;

// The beginning of a word, in printable ASCII.
#[derive(Clone, Copy)]
struct Shown<'t>(&'t [u8]);

impl fmt::Display for Shown<'_> {
    fn fmt<W: fmt::Write>(&self, f: &mut fmt::Formatter<W>) -> fmt::Result {
        for byte in self.0.iter().take(SHOWN) {
            match *byte {
                b'"' => f.write_str("\\\"")?,
                b'\\' => f.write_str("\\\\")?,
                b' '..=b'~' => f.write_char(char::from(*byte))?,
                _ => write!(f, "\\x{byte:02x}")?,
            }
        }
        if self.0.len() > SHOWN {
            f.write_str("..")?;
        }
        Ok(())
    }
}
