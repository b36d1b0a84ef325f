//! A script as lines.
ghost use Rattle.std.specs.Prelude.{◌≡◌, ◌+◌, ◌<◌, ◌^◌, [], ◌∷◌, MatchOption, IfNone, OnSome, length};
ghost use Rattle.sock_pair.specs.ScriptText.{is_comment, line_words, lines_left, lines_of};

use crate::script::words::{len_before, split_word};

/// A line that is not skipped.
#[derive(Clone, Copy)]
pub struct Line<'a> {
    /// The line's number, counted from 1.
    pub number: usize,
    /// Its first word.
    pub name: &'a [u8],
    /// What stands after that.
    pub values: &'a [u8],
}

/// The lines of a text that are still to be read.
#[derive(Drop)]
pub struct Lines<'a> {
    /// The text from the next line on.
    pub rest: &'a [u8],
    /// The number of the next line.
    pub number: usize,
    ghost few: { number + length rest.now < 2 ^ 64 },
}

impl<'a> Lines<'a> {
    /// All lines of a text.
    pub fn new(text: &'a [u8]) -> Lines<'a>
        ensures rest { result.rest.now ≡ text.entry.now }
        ensures number { result.number ≡ 1 }
    {
        Lines {
            rest: text,
            number: 1,
        }
    }

    /// The next line that is not skipped; none where there is none.
    pub fn next(&mut self) -> Option<Line<'a>>
        ensures lines { let before = lines_left self.old.number self.old.rest.now in
            let after = lines_left self.new.number self.new.rest.now in
            MatchOption result (before ≡ []) (λ line. before ≡ (line.number, line_words line) ∷ after) }
        ensures shorter { OnSome result (length self.new.rest.now < length self.old.rest.now) }
        ensures end { IfNone result (self.new.number ≡ self.old.number + length (lines_of self.old.rest.now)) }
    {
        while !self.rest.is_empty() {
            let number = self.number;
            let line = self.take_line();
            if is_comment(line) {
                continue;
            }
            if let Some((name, values)) = split_word(line) {
                return Some(Line {
                    number,
                    name,
                    values,
                });
            }
        }
        None
    }

    fn take_line(&mut self) -> &'a [u8]
        requires { 0 < length self.old.rest.now }
        ensures line { lines_of self.old.rest.now ≡ result.now ∷ lines_of self.new.rest.now }
        ensures number { self.new.number ≡ self.old.number + 1 }
        ensures shorter { length self.new.rest.now < length self.old.rest.now }
    {
        let end = len_before(self.rest, b'\n');
        let line = &self.rest[..end];
        self.rest = if end < self.rest.len() {
            &self.rest[end + 1..]
        } else {
            &[]
        };
        self.number += 1;
        line
    }
}

fn is_comment(line: &[u8]) -> bool
    ensures { result ≡ is_comment line.now }
{
    line.first() == Some(&b'#')
}
