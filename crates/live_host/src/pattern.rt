//! The bytes that the services make themselves. They come again after a while, so they are written out once, and pieces
//! of that are sent as they stand.
ghost use Rattle.std.specs.Prelude.{◌≡◌, ◌+◌, ◌<◌, ℕ, length, slice_index};
ghost use Rattle.live_host.specs.Patterns.{character, number};
ghost use Rattle.live_host.specs.declared.pattern.TheConstants.{LINES_LEN, NUMBERS_LEN};

/// How many bytes a piece has.
pub const PIECE: usize = 4096;

// After how many bytes the numbers come again.
const NUMBERS: usize = 251;

// After how many bytes the lines come again: 95 of them, of 72 characters and a line end.
const LINES: usize = 95 * 74;

// Room for a piece from each of these bytes on.
const NUMBERS_LEN: usize = NUMBERS + PIECE;

const LINES_LEN: usize = LINES + PIECE;

/// Numbers and lines, written out.
#[derive(Drop)]
pub struct Patterns {
    numbers: [u8; NUMBERS_LEN],
    lines: [u8; LINES_LEN],
    ghost numbered: { (k : ℕ) → k < NUMBERS_LEN → slice_index numbers k ≡ number k },
    ghost lined: { (k : ℕ) → k < LINES_LEN → slice_index lines k ≡ character k },
}

impl Patterns {
    /// Writes them out.
    pub fn new() -> Patterns {
        Patterns {
            numbers: numbers(),
            lines: lines(),
        }
    }

    /// A piece of the numbers: byte k is k modulo 251, so that a piece that is left out or comes twice is seen.
    pub fn numbers(&self, at: u64) -> &[u8]
        ensures length { length result.now ≡ PIECE }
        ensures bytes { (k : ℕ) → k < PIECE → slice_index result.now k ≡ number (at + k) }
    {
        let start = (at % NUMBERS as u64) as usize;
        &self.numbers[start..start + PIECE]
    }

    /// A piece of the lines, each of which begins one character later than the one before (RFC 864).
    pub fn lines(&self, at: u64) -> &[u8]
        ensures length { length result.now ≡ PIECE }
        ensures bytes { (k : ℕ) → k < PIECE → slice_index result.now k ≡ character (at + k) }
    {
        let start = (at % LINES as u64) as usize;
        &self.lines[start..start + PIECE]
    }
}

fn numbers() -> [u8; NUMBERS_LEN]
    ensures { (k : ℕ) → k < NUMBERS_LEN → slice_index result k ≡ number k }
{
    let mut bytes = [0u8; NUMBERS_LEN];
    for (i, byte) in bytes.iter_mut().enumerate() {
        *byte = (i % NUMBERS) as u8;
    }
    bytes
}

fn lines() -> [u8; LINES_LEN]
    ensures { (k : ℕ) → k < LINES_LEN → slice_index result k ≡ character k }
{
    let mut bytes = [0u8; LINES_LEN];
    for (i, byte) in bytes.iter_mut().enumerate() {
        *byte = character(i);
    }
    bytes
}

#[tactic(auto, unfolding(crate::specs::Patterns::character))]
fn character(at: usize) -> u8
    ensures { result ≡ character at }
{
    let (line, column) = (at / 74 % 95, at % 74);
    match column {
        72 => b'\r',
        73 => b'\n',
        _ => (32 + (line + column) % 95) as u8,
    }
}
