//! What a line asks for, by its form.
ghost use Rattle.std.specs.Prelude.{◌≡◌, ◌≤◌, ◌∷◌};
ghost use Rattle.pair_core.specs.EventValue.{event_value, moment_value};
ghost use Rattle.sock_pair.specs.ScriptText.{line_words, words_of};
ghost use Rattle.sock_pair.specs.ScriptLines.{Gives, abort_line, close_line, connect_line, deliver_line};
ghost use Rattle.sock_pair.specs.ScriptLines.{dispatch_line, event_of, listen_line, moment_at, nagle_line, recv_line};
ghost use Rattle.sock_pair.specs.ScriptLines.{rules_line, send_line};

use crate::script::error::ScriptError;
use crate::script::keyword::Keyword;
use crate::script::lines::Line;
use crate::script::values::{index, is_text, number, rules, side, switch};
use crate::script::words::{one_word, one_word_and_text, three_words, two_words};
use net_base::time::Instant;
use pair_core::{Event, Moment, Setting};
use std::alloc::Global;

// The largest values of a line.
const WORD: usize = 4_294_967_295;

const MILLIS: usize = 1_000_000_000;

const SIZE: usize = 1_048_576;

const IP_MTU: usize = 1500;

/// The event that a line asks for, or its fault: an unknown first word, else a wrong number of
/// words, else a bad word.
pub fn event(alloc: Global, line: &Line<'_>) -> Result<Event, ScriptError>
    ensures { Gives event_value (event_of line.now.number (line_words line.now)) result }
{
    let number = line.number;
    let Some(keyword) = Keyword::of_word(line.name) else {
        return Err(ScriptError::UnknownEvent { line: number });
    };
    match keyword {
        Keyword::Listen => listen(number, line.values),
        Keyword::Connect => connect(number, line.values),
        Keyword::Close => close(number, line.values),
        Keyword::Abort => abort(number, line.values),
        Keyword::Send => send(alloc, number, line.values),
        Keyword::Recv => recv(number, line.values),
        Keyword::Nagle => nagle(number, line.values),
        Keyword::Rules => set_rules(number, line.values),
        Keyword::Dispatch => dispatch(number, line.values, true, false),
        Keyword::Fail => dispatch(number, line.values, true, true),
        Keyword::Gone => dispatch(number, line.values, false, false),
        Keyword::Deliver => deliver(number, line.values),
    }
}

// `listen S`
#[tactic(auto, unfolding(crate::specs::ScriptLines::listen_line))]
fn listen(line: usize, values: &[u8]) -> Result<Event, ScriptError>
    ensures { Gives event_value (listen_line line (words_of values.now)) result }
{
    let Some(word) = one_word(values) else {
        return Err(ScriptError::WrongNumberOfWords { line });
    };
    match side(word) {
        Some(side) => Ok(Event::Listen { side }),
        None => Err(ScriptError::BadWord { line }),
    }
}

// `close S`
#[tactic(auto, unfolding(crate::specs::ScriptLines::close_line))]
fn close(line: usize, values: &[u8]) -> Result<Event, ScriptError>
    ensures { Gives event_value (close_line line (words_of values.now)) result }
{
    let Some(word) = one_word(values) else {
        return Err(ScriptError::WrongNumberOfWords { line });
    };
    match side(word) {
        Some(side) => Ok(Event::Close { side }),
        None => Err(ScriptError::BadWord { line }),
    }
}

// `abort S`
#[tactic(auto, unfolding(crate::specs::ScriptLines::abort_line))]
fn abort(line: usize, values: &[u8]) -> Result<Event, ScriptError>
    ensures { Gives event_value (abort_line line (words_of values.now)) result }
{
    let Some(word) = one_word(values) else {
        return Err(ScriptError::WrongNumberOfWords { line });
    };
    match side(word) {
        Some(side) => Ok(Event::Abort { side }),
        None => Err(ScriptError::BadWord { line }),
    }
}

// `connect S WORD`, at moment 0
#[tactic(auto, unfolding(crate::specs::ScriptLines::connect_line))]
fn connect(line: usize, values: &[u8]) -> Result<Event, ScriptError>
    ensures { Gives event_value (connect_line line (words_of values.now)) result }
{
    let Some((who, word)) = two_words(values) else {
        return Err(ScriptError::WrongNumberOfWords { line });
    };
    match (side(who), number(word, WORD)) {
        (Some(side), Some(word)) => Ok(Event::Connect {
            side,
            moment: moment(true, 0, word),
        }),
        _ => Err(ScriptError::BadWord { line }),
    }
}

// `send S TEXT`, or `send S` for nothing
#[tactic(auto, unfolding(crate::specs::ScriptLines::send_line))]
fn send(alloc: Global, line: usize, values: &[u8]) -> Result<Event, ScriptError>
    ensures { Gives event_value (send_line line (words_of values.now)) result }
{
    let Some((who, text)) = one_word_and_text(values) else {
        return Err(ScriptError::WrongNumberOfWords { line });
    };
    match side(who) {
        Some(side) if is_text(text) => {
            match Vec::from_slice(alloc, text) {
                Ok(bytes) => Ok(Event::SendSlice { side, bytes }),
                Err(_) => Err(ScriptError::Memory),
            }
        }
        _ => Err(ScriptError::BadWord { line }),
    }
}

// `recv S SIZE`
#[tactic(auto, unfolding(crate::specs::ScriptLines::recv_line))]
fn recv(line: usize, values: &[u8]) -> Result<Event, ScriptError>
    ensures { Gives event_value (recv_line line (words_of values.now)) result }
{
    let Some((who, size)) = two_words(values) else {
        return Err(ScriptError::WrongNumberOfWords { line });
    };
    match (side(who), number(size, SIZE)) {
        (Some(side), Some(size)) => Ok(Event::RecvSlice { side, size }),
        _ => Err(ScriptError::BadWord { line }),
    }
}

// `nagle S on`, or `nagle S off`
#[tactic(auto, unfolding(crate::specs::ScriptLines::nagle_line))]
fn nagle(line: usize, values: &[u8]) -> Result<Event, ScriptError>
    ensures { Gives event_value (nagle_line line (words_of values.now)) result }
{
    let Some((who, word)) = two_words(values) else {
        return Err(ScriptError::WrongNumberOfWords { line });
    };
    match (side(who), switch(word)) {
        (Some(side), Some(on)) => Ok(Event::Set {
            side,
            setting: Setting::Nagle(on),
        }),
        _ => Err(ScriptError::BadWord { line }),
    }
}

// `rules S rfc`, or `rules S smoltcp`
#[tactic(auto, unfolding(crate::specs::ScriptLines::rules_line))]
fn set_rules(line: usize, values: &[u8]) -> Result<Event, ScriptError>
    ensures { Gives event_value (rules_line line (words_of values.now)) result }
{
    let Some((who, word)) = two_words(values) else {
        return Err(ScriptError::WrongNumberOfWords { line });
    };
    match (side(who), rules(word)) {
        (Some(side), Some(rules)) => Ok(Event::Set {
            side,
            setting: Setting::Rules(rules),
        }),
        _ => Err(ScriptError::BadWord { line }),
    }
}

// `dispatch S MS`, `fail S MS` where the emit is to fail, and `gone S MS` where the address is gone
#[tactic(auto, unfolding(crate::specs::ScriptLines::dispatch_line))]
fn dispatch(line: usize, values: &[u8], has_address: bool, fail: bool) -> Result<Event, ScriptError>
    ensures { Gives event_value (dispatch_line has_address fail line (words_of values.now)) result }
{
    let Some((who, millis)) = two_words(values) else {
        return Err(ScriptError::WrongNumberOfWords { line });
    };
    match (side(who), number(millis, MILLIS)) {
        (Some(side), Some(millis)) => Ok(Event::Dispatch {
            side,
            moment: moment(has_address, millis, 0),
            fail,
        }),
        _ => Err(ScriptError::BadWord { line }),
    }
}

// `deliver INDEX MS WORD`
#[tactic(auto, unfolding(crate::specs::ScriptLines::deliver_line))]
fn deliver(line: usize, values: &[u8]) -> Result<Event, ScriptError>
    ensures { Gives event_value (deliver_line line (words_of values.now)) result }
{
    let Some((place, millis, word)) = three_words(values) else {
        return Err(ScriptError::WrongNumberOfWords { line });
    };
    match (index(place), number(millis, MILLIS), number(word, WORD)) {
        (Some(index), Some(millis), Some(word)) => Ok(Event::Deliver {
            index,
            moment: moment(true, millis, word),
        }),
        _ => Err(ScriptError::BadWord { line }),
    }
}

// The context at so many milliseconds, with the own address or without; the next random word is `word`.
fn moment(has_address: bool, millis: usize, word: usize) -> Moment
    requires millis { millis ≤ MILLIS }
    requires word { word ≤ WORD }
    ensures { moment_value result ≡ moment_at has_address millis word }
{
    let now = Instant::from_millis(millis as i64);
    Moment::new(now, word as u32, has_address, IP_MTU)
}
