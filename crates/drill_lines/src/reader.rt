//! The lines of a drill, read one after the other.
ghost use Rattle.std.specs.Prelude.{◌≡◌, [], MatchOption, MatchResult};
ghost use Rattle.drill_lines.specs.Drills.{Asks, FirstFaults, Read, known, left, left_text, meaning};
ghost use Rattle.drill_lines.specs.Drills.{names_after};
ghost use Rattle.drill_lines.specs.Requests.{request_value};
ghost use Rattle.sock_pair.specs.ScriptLines.{IsFault};
ghost use Rattle.sock_pair.specs.ScriptText.{lines_left, words_of};
ghost use Rattle.sock_pair.specs.declared.script.error.ScriptError.TheVariants as fault;

use crate::forms::request_of;
use crate::names::Names;
use crate::request::Request;
use sock_pair::script::ScriptError;
use sock_pair::script::lines::{Line, Lines};
use sock_pair::script::words::split_word;
use std::alloc::Global;

/// The lines that are left, and the names of the sockets of the example.
#[derive(Drop)]
pub struct Reader<'t> {
    lines: Lines<'t>,
    names: Names<'t>,
}

/// What a line asks for, its number, counted from 1, and the words behind its first.
#[derive(Clone, Copy)]
pub struct Numbered<'t> {
    pub line: usize,
    pub name: &'t [u8],
    pub values: &'t [u8],
    pub request: Request<'t>,
}

impl<'t> Reader<'t> {
    /// At the beginning of a text.
    pub fn new(alloc: Global, text: &'t [u8]) -> Reader<'t>
        ensures text { left_text result ≡ text.now }
        ensures lines { left result ≡ lines_left 1 text.now }
        ensures names { known result ≡ [] }
    {
        Reader {
            lines: Lines::new(text),
            names: Names::new(alloc),
        }
    }

    /// The text that is left.
    pub fn rest(&self) -> &'t [u8]
        ensures { result.now ≡ left_text self.now }
    {
        self.lines.rest
    }

    /// The next line that is not skipped; none where there is none.
    ///
    /// The error is the line's fault, or `Memory` where memory ran out at a line that has none.
    pub fn next(&mut self) -> Result<Option<Numbered<'t>>, ScriptError>
        ensures { MatchResult result (λ got. MatchOption got (left self.old ≡ []) (Asks self.old self.new))
            (FirstFaults (known self.old) (left self.old)) }
    {
        let Some(line) = self.lines.next() else {
            return Ok(None);
        };
        let numbered = self.read(&line)?;
        Ok(Some(numbered))
    }

    fn read(&mut self, line: &Line<'t>) -> Result<Numbered<'t>, ScriptError>
        ensures lines { self.new.lines ≡ self.old.lines }
        ensures read { MatchResult result (Read self.old line.now self.new)
            (IsFault (meaning (known self.old) line.now)) }
    {
        let request = request_of(&self.names, line)?;
        self.note(&request, line)?;
        Ok(Numbered {
            line: line.number,
            name: line.name,
            values: line.values,
            request,
        })
    }

    // Keeps the names of sockets.
    fn note(&mut self, request: &Request<'t>, line: &Line<'t>) -> Result<(), ScriptError>
        ensures lines { self.new.lines ≡ self.old.lines }
        ensures names { let after = names_after (known self.old) (words_of line.now.values.now)
            (request_value request.now) in
            MatchResult result (λ _. known self.new ≡ after) (λ e. e ≡ fault.Memory) }
    {
        match request {
            Request::Example(_) => self.names.clear(),
            Request::Make(_) => {
                if let Some((name, _)) = split_word(line.values) {
                    self.names.add(name)?;
                }
            }
            _ => {}
        }
        Ok(())
    }
}
