//! The line that names the buffers' sizes and the limit.
ghost use Rattle.std.specs.Prelude.{◌≡◌, ◌∷◌, IfOk, IfSome};
ghost use Rattle.sock_pair.specs.ReplayScripts.{AreSizes, IsPlayable};
ghost use Rattle.sock_pair.specs.ScriptLines.{first_line, pair_line, sizes_of};
ghost use Rattle.sock_pair.specs.ScriptText.{line_words, words_of};
ghost use Rattle.sock_pair.specs.ScriptWords.{number_of};

use crate::script::error::ScriptError;
use crate::script::lines::Line;
use crate::script::values::{limit, number};
use crate::script::words::five_words;

// The largest size of a buffer.
const BUFFER: usize = 1_048_576;

/// What the line that begins a script says.
#[derive(Clone, Copy)]
pub struct PairLine {
    /// The sizes in bytes of a's receive and transmit buffer, and of b's.
    pub sizes: [usize; 4],
    /// How many bytes each side may accept, or None for any number.
    pub limit: Option<u32>,
}

/// What the line `pair ARX ATX BRX BTX LIMIT` names, or its fault.
pub fn read_pair_line(line: &Line<'_>) -> Result<PairLine, ScriptError>
    ensures value { result ≡ first_line line.now.number (line_words line.now) }
    ensures playable { IfOk result (λ h. IsPlayable h.sizes h.limit) }
{
    if line.name != b"pair".as_slice() {
        return Err(ScriptError::NoPairLine { line: line.number });
    }
    pair_line(line.number, line.values)
}

#[tactic(auto, unfolding(crate::specs::ScriptLines::pair_line))]
fn pair_line(line: usize, values: &[u8]) -> Result<PairLine, ScriptError>
    ensures value { result ≡ pair_line line (words_of values.now) }
    ensures playable { IfOk result (λ h. IsPlayable h.sizes h.limit) }
{
    let Some((arx, atx, brx, btx, last)) = five_words(values) else {
        return Err(ScriptError::WrongNumberOfWords { line });
    };
    match (sizes(arx, atx, brx, btx), limit(last)) {
        (Some(sizes), Some(limit)) => Ok(PairLine { sizes, limit }),
        _ => Err(ScriptError::BadWord { line }),
    }
}

fn sizes(arx: &[u8], atx: &[u8], brx: &[u8], btx: &[u8]) -> Option<[usize; 4]>
    ensures value { let size = number_of 1048576 in
        result ≡ sizes_of (size arx.now) (size atx.now) (size brx.now) (size btx.now) }
    ensures within { IfSome result AreSizes }
{
    match (
        number(arx, BUFFER),
        number(atx, BUFFER),
        number(brx, BUFFER),
        number(btx, BUFFER),
    ) {
        (Some(arx), Some(atx), Some(brx), Some(btx)) => Some([arx, atx, brx, btx]),
        _ => None,
    }
}
