//! What a line asks for, by its form: an unknown first word, else a wrong number of words, else a bad word.
ghost use Rattle.std.specs.Prelude.{◌≡◌, Some, option_copied};
ghost use Rattle.drill_lines.specs.Forms.{at_line, behind, behind_space, bytes_mean};
ghost use Rattle.drill_lines.specs.Forms.{call_means, call_of, expect_means, line_means};
ghost use Rattle.drill_lines.specs.Forms.{most_of, not_zero, number_for};
ghost use Rattle.drill_lines.specs.Forms.{optional_of, place_means, place_of, protocol_of};
ghost use Rattle.drill_lines.specs.Forms.{queues_of, request_means, room_means, which_of};
ghost use Rattle.drill_lines.specs.Forms.{ReadsLine, deliver_means, free, is_written};
ghost use Rattle.drill_lines.specs.Forms.{none_means, other_means};
ghost use Rattle.drill_lines.specs.Names.{is_free_in, words_in};
ghost use Rattle.drill_lines.specs.Reads.{Reads, or_word};
ghost use Rattle.drill_lines.specs.Requests.{call_value, request_value};
ghost use Rattle.drill_lines.specs.Shapes.{form_of};
ghost use Rattle.drill_lines.specs.Words.{checksum_of, congestion_of, version_of};
ghost use Rattle.sock_pair.specs.ScriptText.{words_of};
ghost use Rattle.sock_pair.specs.ScriptWords.{number_of};

use crate::fields::read_fields;
use crate::names::Names;
use crate::places::{endpoint, is_hex, listen_endpoint, octet, port, word32};
use crate::request::{Bytes, Call, Counted, Expected, Optional, Place, Request, Which};
use crate::room::{BYTES, PLACES, Queues, Room};
use crate::shapes::Form;
use crate::wrong::{Read, Wrong, counted, meant};
use ip_wire::{Checksum, IpProtocol, IpVersion};
use smoltcp_socket::icmp;
use smoltcp_socket::tcp::CongestionControl;
use sock_pair::script::ScriptError;
use sock_pair::script::lines::Line;
use sock_pair::script::values::{index, is_text, number, rules, switch};
use sock_pair::script::words::{five_words, one_word, split_word, three_words, two_words};

/// The largest moment, in milliseconds.
pub const MILLIS: u32 = 1_000_000_000;

// The largest number of bytes that a line names.
const SIZE: u32 = 1_048_576;

// The longest packet, in bytes.
const MTU: u32 = 65_535;

/// What a line asks for, or its fault.
pub fn request_of<'t>(names: &Names<'t>, line: &Line<'t>) -> Result<Request<'t>, ScriptError>
    ensures { ReadsLine (line_means (words_in names.now.names.items) line.now.number (form_of line.now.name.now)
        (words_of line.now.values.now) line.now.values.now) result }
{
    match Form::of_word(line.name) {
        None => Err(ScriptError::UnknownEvent { line: line.number }),
        Some(form) => request_of_form(names, form, line),
    }
}

// What a line of this form asks for, or its fault.
fn request_of_form<'t>(
    names: &Names<'t>,
    form: Form,
    line: &Line<'t>,
) -> Result<Request<'t>, ScriptError>
    ensures { ReadsLine (at_line line.now.number (request_means (words_in names.now.names.items) form
        (words_of line.now.values.now) line.now.values.now)) result }
{
    let number = line.number;
    match read(names, form, line.values) {
        Ok(request) => Ok(request),
        Err(Wrong::Number) => Err(ScriptError::WrongNumberOfWords { line: number }),
        Err(Wrong::Word) => Err(ScriptError::BadWord { line: number }),
    }
}

#[tactic(auto, unfolding(crate::specs::Forms::request_means))]
fn read<'t>(names: &Names<'t>, form: Form, values: &'t [u8]) -> Read<Request<'t>>
    ensures { Reads request_value (request_means (words_in names.now.names.items) form (words_of values.now) values.now)
        result }
{
    match form {
        Form::Example => Ok(Request::Example(counted(one_word(values))?)),
        Form::Clock => Ok(Request::Clock(meant(millis(counted(one_word(values))?))?)),
        Form::Word => Ok(Request::Word(meant(word32(counted(one_word(values))?))?)),
        Form::Tcp | Form::Udp | Form::Icmp | Form::Raw => room(names, form, values),
        Form::Line => Ok(Request::Line(behind_space(values))),
        Form::Deliver => deliver(names, values),
        Form::Expect => expect(names, values),
        _ => call(names, form, values),
    }
}

// The text behind the first space.
fn behind_space(values: &[u8]) -> &[u8]
    ensures { result.now ≡ behind_space values.now }
{
    match values.first() {
        Some(_) => &values[1..],
        None => values,
    }
}

// A moment, or a length of time, in milliseconds.
fn millis(word: &[u8]) -> Option<u32>
    ensures { result ≡ number_of 1000000000 word.now }
{
    at_most(word, MILLIS)
}

fn at_most(word: &[u8], most: u32) -> Option<u32>
    ensures { result ≡ number_of most word.now }
{
    let number = number(word, most as usize)?;
    Some(number as u32)
}

// `tcp S RX TX`, and the lines of the other kinds
#[tactic(auto, unfolding(crate::specs::Forms::room_means))]
fn room<'t>(names: &Names<'_>, form: Form, values: &[u8]) -> Read<Request<'t>>
    ensures { Reads request_value (room_means (words_in names.now.names.items) form (words_of values.now)) result }
{
    match form {
        Form::Tcp => {
            let (name, rx, tx) = counted(three_words(values))?;
            let (rx, tx) = (meant(number(rx, BYTES))?, meant(number(tx, BYTES))?);
            free(names, name, Room::Tcp { rx, tx })
        }
        Form::Udp => {
            let (name, a, b, c, d) = counted(five_words(values))?;
            let queues = meant(queues((a, b), (c, d)))?;
            free(names, name, Room::Udp(queues))
        }
        Form::Icmp => {
            let (name, a, b, c, d) = counted(five_words(values))?;
            let queues = meant(queues((a, b), (c, d)))?;
            free(names, name, Room::Icmp(queues))
        }
        _ => {
            let (name, first, second, places, size) = counted(five_words(values))?;
            let (version, protocol) = (meant(version(first))?, meant(protocol(second))?);
            let queues = meant(queues((places, size), (places, size)))?;
            free(names, name, Room::Raw(version, protocol, queues))
        }
    }
}

fn free<'t>(names: &Names<'_>, name: &[u8], room: Room) -> Read<Request<'t>>
    ensures { Reads request_value (or_word (free (words_in names.now.names.items) name.now (Some room))) result }
{
    if names.is_free(name) {
        Ok(Request::Make(room))
    } else {
        Err(Wrong::Word)
    }
}

// `PLACES BYTES` of what comes, and of what goes
fn queues(rx: (&[u8], &[u8]), tx: (&[u8], &[u8])) -> Option<Queues>
    ensures { result ≡ queues_of rx.entry.0.now rx.entry.1.now tx.entry.0.now tx.entry.1.now }
{
    Some(Queues {
        rx_places: number(rx.0, PLACES)?,
        rx_bytes: number(rx.1, BYTES)?,
        tx_places: number(tx.0, PLACES)?,
        tx_bytes: number(tx.1, BYTES)?,
    })
}

// `4`, `6`, or `-` for both
#[tactic(auto, unfolding(crate::specs::Words::version_of))]
fn version(word: &[u8]) -> Option<Option<IpVersion>>
    ensures { result ≡ version_of word.now }
{
    match word {
        b"4" => Some(Some(IpVersion::Ipv4)),
        b"6" => Some(Some(IpVersion::Ipv6)),
        b"-" => Some(None),
        _ => None,
    }
}

// A number of at most 255, or `-` for any
#[tactic(auto, unfolding(crate::specs::Forms::protocol_of))]
fn protocol(word: &[u8]) -> Option<Option<IpProtocol>>
    ensures { result ≡ protocol_of word.now }
{
    if word == b"-".as_slice() {
        return Some(None);
    }
    let number = octet(word)?;
    Some(Some(IpProtocol::from(number)))
}

// `S last S`, or `S N S`
fn deliver<'t>(names: &Names<'_>, values: &[u8]) -> Read<Request<'t>>
    ensures { Reads request_value (deliver_means (words_in names.now.names.items) (words_of values.now)) result }
{
    let (from, which, to) = counted(three_words(values))?;
    let from = meant(names.place_of(from))?;
    let which = meant(which_of(which))?;
    let to = meant(names.place_of(to))?;
    Ok(Request::Deliver(from, which, to))
}

#[tactic(auto, unfolding(crate::specs::Forms::which_of))]
fn which_of(word: &[u8]) -> Option<Which>
    ensures { result ≡ which_of word.now }
{
    if word == b"last".as_slice() {
        return Some(Which::Last);
    }
    let number = index(word)?;
    Some(Which::Number(number))
}

// `S STATE`, or `S poll MOMENT`
#[tactic(auto, unfolding(crate::specs::Forms::expect_means))]
fn expect<'t>(names: &Names<'_>, values: &'t [u8]) -> Read<Request<'t>>
    ensures { Reads request_value (expect_means (words_in names.now.names.items) (words_of values.now)) result }
{
    if let Some((name, state)) = two_words(values) {
        let place = meant(names.place_of(name))?;
        return Ok(Request::Expect(place, Expected::State(state)));
    }
    let (name, word, moment) = counted(three_words(values))?;
    let place = meant(names.place_of(name))?;
    if word == b"poll".as_slice() {
        Ok(Request::Expect(place, Expected::Poll(moment)))
    } else {
        Err(Wrong::Word)
    }
}

fn call<'t>(names: &Names<'_>, form: Form, values: &'t [u8]) -> Read<Request<'t>>
    ensures { Reads request_value (call_of (words_in names.now.names.items) form (words_of values.now)) result }
{
    let (name, rest) = counted(split_word(values))?;
    let call = call_behind(form, rest)?;
    let place = meant(names.place_of(name))?;
    Ok(Request::Call(place, call))
}

// What stands behind the name of the socket.
#[tactic(auto, unfolding(crate::specs::Forms::call_means))]
fn call_behind(form: Form, rest: &[u8]) -> Read<Call<'_>>
    ensures { Reads call_value (call_means form (words_of rest.now)) result }
{
    match form {
        Form::Plain(plain) => nothing(rest, Call::Plain(plain)),
        Form::Switch(which) => {
            let on = meant(switch(counted(one_word(rest))?))?;
            Ok(Call::Switch(which, on))
        }
        Form::Counted(which) => {
            let count = meant(at_most(counted(one_word(rest))?, most(which)))?;
            Ok(Call::Counted(which, count))
        }
        Form::Optional(which) => {
            let number = meant(optional(which, counted(one_word(rest))?))?;
            Ok(Call::Optional(which, number))
        }
        Form::Bytes(which) => bytes(which, rest),
        Form::Take => Ok(Call::Take(read_fields(rest)?)),
        _ => other_call(form, rest),
    }
}

#[tactic(auto, unfolding(crate::specs::Forms::other_means))]
fn other_call(form: Form, rest: &[u8]) -> Read<Call<'_>>
    ensures { Reads call_value (other_means form (words_of rest.now)) result }
{
    match form {
        Form::Listen => Ok(Call::Listen(place(rest)?)),
        Form::Bind => Ok(Call::Bind(place(rest)?)),
        Form::Congestion => {
            let control = meant(congestion(counted(one_word(rest))?))?;
            Ok(Call::Congestion(control))
        }
        Form::Rules => {
            let rules = meant(rules(counted(one_word(rest))?))?;
            Ok(Call::Rules(rules))
        }
        Form::Checksums => {
            let checksum = meant(checksum(counted(one_word(rest))?))?;
            Ok(Call::Checksums(checksum))
        }
        _ => {
            let (here, peer) = counted(two_words(rest))?;
            Ok(Call::Ends(meant(endpoint(here))?, meant(endpoint(peer))?))
        }
    }
}

fn nothing<'t>(rest: &[u8], call: Call<'t>) -> Read<Call<'t>>
    ensures { Reads call_value (none_means (call_value call.entry) (words_of rest.now)) result }
{
    match split_word(rest) {
        None => Ok(call),
        Some(_) => Err(Wrong::Number),
    }
}

// The largest number of such a line.
fn most(which: Counted) -> u32
    ensures { result ≡ most_of which }
{
    match which {
        Counted::Connect => u32::MAX,
        Counted::Fill | Counted::Recv | Counted::Peek => SIZE,
        Counted::Dispatch | Counted::Fail | Counted::Gone | Counted::Poll => MILLIS,
        Counted::PathMtu => MTU,
    }
}

// `-` for none, or a number: of milliseconds, of hops from 1 to 255, or any.
#[tactic(auto, unfolding(crate::specs::Forms::optional_of))]
fn optional(which: Optional, word: &[u8]) -> Option<Option<u32>>
    ensures { result ≡ optional_of which word.now }
{
    if word == b"-".as_slice() {
        return Some(None);
    }
    let number = number_for(which, word)?;
    Some(Some(number))
}

fn number_for(which: Optional, word: &[u8]) -> Option<u32>
    ensures { result ≡ number_for which word.now }
{
    match which {
        Optional::Timeout | Optional::AckDelay | Optional::KeepAlive => millis(word),
        Optional::HopLimit => not_zero(at_most(word, 255)),
        Optional::Timestamps => word32(word),
    }
}

fn not_zero(number: Option<u32>) -> Option<u32>
    ensures { result ≡ not_zero number }
{
    match number {
        Some(0) | None => None,
        Some(number) => Some(number),
    }
}

// Nothing, or one word: of printable ASCII, or of hexadecimal digits.
#[tactic(auto, unfolding(crate::specs::Forms::bytes_mean))]
fn bytes(which: Bytes, rest: &[u8]) -> Read<Call<'_>>
    ensures { Reads call_value (bytes_mean which (words_of rest.now)) result }
{
    let Some((word, more)) = split_word(rest) else {
        return Ok(Call::Bytes(which, &[]));
    };
    if split_word(more).is_some() {
        return Err(Wrong::Number);
    }
    if is_written(which, word) {
        Ok(Call::Bytes(which, word))
    } else {
        Err(Wrong::Word)
    }
}

fn is_written(which: Bytes, word: &[u8]) -> bool
    ensures { result ≡ is_written which word.now }
{
    match which {
        Bytes::Send | Bytes::Write => is_text(word),
        Bytes::SendHex => is_hex(word),
    }
}

// Nothing, or one word.
#[tactic(auto, unfolding(crate::specs::Forms::place_means))]
fn place(rest: &[u8]) -> Read<Place>
    ensures { Reads (λ p. p) (place_means (words_of rest.now)) result }
{
    let Some((word, more)) = split_word(rest) else {
        return Ok(Place::Here);
    };
    if split_word(more).is_some() {
        return Err(Wrong::Number);
    }
    meant(place_of(word))
}

// A port, an endpoint, or what an ICMP socket is bound to: `ident:N`, `udp:WHERE`, `tcp:WHERE` or `unspecified`.
#[tactic(auto, unfolding(crate::specs::Forms::place_of))]
fn place_of(word: &[u8]) -> Option<Place>
    ensures { result ≡ place_of word.now }
{
    if word == b"unspecified".as_slice() {
        return Some(Place::Messages(icmp::Endpoint::Unspecified));
    }
    if let Some(ident) = behind(word, b"ident:") {
        return Some(Place::Messages(icmp::Endpoint::Ident(port(ident)?)));
    }
    if let Some(at) = behind(word, b"udp:") {
        return Some(Place::Messages(icmp::Endpoint::Udp(listen_endpoint(at)?)));
    }
    if let Some(at) = behind(word, b"tcp:") {
        return Some(Place::Messages(icmp::Endpoint::Tcp(listen_endpoint(at)?)));
    }
    let at = listen_endpoint(word)?;
    Some(Place::At(at))
}

// What stands behind this beginning.
#[tactic(auto, unfolding(crate::specs::Forms::behind))]
fn behind<'t>(word: &'t [u8], beginning: &[u8]) -> Option<&'t [u8]>
    ensures { option_copied result ≡ behind beginning.now word.now }
{
    word.strip_prefix(beginning)
}

#[tactic(auto, unfolding(crate::specs::Words::congestion_of))]
fn congestion(word: &[u8]) -> Option<CongestionControl>
    ensures { result ≡ congestion_of word.now }
{
    match word {
        b"reno" => Some(CongestionControl::Reno),
        b"cubic" => Some(CongestionControl::Cubic),
        b"none" => Some(CongestionControl::None),
        _ => None,
    }
}

#[tactic(auto, unfolding(crate::specs::Words::checksum_of))]
fn checksum(word: &[u8]) -> Option<Checksum>
    ensures { result ≡ checksum_of word.now }
{
    match word {
        b"both" => Some(Checksum::Both),
        b"rx" => Some(Checksum::Rx),
        b"tx" => Some(Checksum::Tx),
        b"none" => Some(Checksum::None),
        _ => None,
    }
}
