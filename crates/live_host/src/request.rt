//! What a client asks for.

use httparse::Status;
use httparse::spans::{EMPTY_HEADER_SPAN, parse_request};

/// The longest head of a request, in bytes.
pub const LONGEST_HEAD: usize = 2048;

// How many fields a head may have.
const FIELDS: usize = 32;

/// What a client asks for.
#[derive(Clone, Copy, PartialEq, Eq)]
pub enum Request {
    /// The head has not all come yet.
    Unfinished,
    /// The page about the connection.
    Page,
    /// So many bytes.
    Bytes(u64),
    /// Anything else.
    /// The reply has status 404.
    NotFound,
    /// A method other than GET.
    /// The reply has status 405.
    NotAllowed,
    /// No request, or one that is too long.
    /// The reply has status 400.
    Bad,
}

impl Request {
    /// Reads a request out of what has come.
    pub fn of(bytes: &[u8]) -> Request {
        let mut fields = [EMPTY_HEADER_SPAN; FIELDS];
        match parse_request(bytes, &mut fields) {
            Ok(Status::Complete(head)) => Request::of_line(
                head.method.of(bytes),
                head.path.of(bytes),
            ),
            Ok(Status::Partial) if bytes.len() < LONGEST_HEAD => Request::Unfinished,
            _ => Request::Bad,
        }
    }

    fn of_line(method: &[u8], path: &[u8]) -> Request {
        if method != b"GET".as_slice() {
            return Request::NotAllowed;
        }
        if path == b"/".as_slice() {
            return Request::Page;
        }
        match path.strip_prefix(b"/bytes/") {
            Some(digits) => number(digits).map_or(Request::NotFound, Request::Bytes),
            None => Request::NotFound,
        }
    }
}

// A decimal number of at most 15 digits.
fn number(digits: &[u8]) -> Option<u64> {
    if digits.is_empty() || digits.len() > 15 {
        return None;
    }
    let mut value: u64 = 0;
    for digit in digits {
        if !digit.is_ascii_digit() {
            return None;
        }
        value = value.wrapping_mul(10).wrapping_add((*digit - b'0') as u64);
    }
    Some(value)
}
