//! A line as words.
ghost use Rattle.std.specs.Prelude.{◌≡◌, ◌==◌, ◌≤◌, ◌<◌, [], ◌∷◌, None, Some, MatchOption, IfSome, length};
ghost use Rattle.std.specs.Prelude.{option_copied};
ghost use Rattle.std.specs.List.{position_or_len, prefix_len};
ghost use Rattle.sock_pair.specs.ScriptText.{words_of};
ghost use Rattle.sock_pair.specs.ScriptWords.{five_of, one_and_text_of, one_of, three_of, two_of};

use crate::script::lanes::{LANES, lanes_before};

/// How many bytes stand before the first `stop`, or how many there are where there is none.
pub fn len_before(bytes: &[u8], stop: u8) -> usize
    ensures value { result ≡ position_or_len (λ b. b == stop) bytes.now }
    ensures within { result ≤ length bytes.now }
{
    let mut at = 0;
    while bytes.len() - at >= LANES {
        let before = lanes_before(bytes, at, stop);
        if before < LANES {
            return at + before;
        }
        at += LANES;
    }
    at + few_before(&bytes[at..], stop)
}

// What `len_before` returns, byte by byte.
fn few_before(bytes: &[u8], stop: u8) -> usize
    ensures value { result ≡ position_or_len (λ b. b == stop) bytes.now }
    ensures within { result ≤ length bytes.now }
{
    bytes.iter().take_while(|b| **b != stop).count()
}

// How many spaces a line begins with.
fn spaces(line: &[u8]) -> usize
    ensures value { result ≡ prefix_len (λ b. b == 32) line.now }
    ensures within { result ≤ length line.now }
{
    line.iter().take_while(|b| **b == b' ').count()
}

/// The first word of a line, and what stands after it; none where there is no word.
pub fn split_word(line: &[u8]) -> Option<(&[u8], &[u8])>
    ensures { let words = words_of line.now in
        MatchOption result (words ≡ []) (λ p. words ≡ p.0.now ∷ words_of p.1.now) }
{
    let words = &line[spaces(line)..];
    if words.is_empty() {
        return None;
    }
    let end = len_before(words, b' ');
    Some((&words[..end], &words[end..]))
}

/// The word of a line that has just one.
pub fn one_word(line: &[u8]) -> Option<&[u8]>
    ensures { option_copied result ≡ one_of (words_of line.now) }
{
    let Some((first, rest)) = split_word(line) else {
        return None;
    };
    match split_word(rest) {
        None => Some(first),
        Some(_) => None,
    }
}

/// The words of a line that has just two.
pub fn two_words(line: &[u8]) -> Option<(&[u8], &[u8])>
    ensures { let words = two_of (words_of line.now) in
        MatchOption result (words ≡ None) (λ w. words ≡ Some (w.0.now, w.1.now)) }
{
    let Some((first, rest)) = split_word(line) else {
        return None;
    };
    match one_word(rest) {
        None => None,
        Some(second) => Some((first, second)),
    }
}

/// The words of a line that has just three.
pub fn three_words(line: &[u8]) -> Option<(&[u8], &[u8], &[u8])>
    ensures { let words = three_of (words_of line.now) in
        MatchOption result (words ≡ None) (λ w. words ≡ Some (w.0.now, w.1.now, w.2.now)) }
{
    let Some((first, rest)) = split_word(line) else {
        return None;
    };
    match two_words(rest) {
        None => None,
        Some((second, third)) => Some((first, second, third)),
    }
}

/// The words of a line that has just five.
pub fn five_words(line: &[u8]) -> Option<(&[u8], &[u8], &[u8], &[u8], &[u8])>
    ensures { let words = five_of (words_of line.now) in
        MatchOption result (words ≡ None) (λ w. words ≡ Some (w.0.now, w.1.now, w.2.now, w.3.now, w.4.now)) }
{
    let (first, rest) = split_word(line)?;
    let (second, rest) = split_word(rest)?;
    let (third, fourth, fifth) = three_words(rest)?;
    Some((first, second, third, fourth, fifth))
}

/// The words of a line that has one or two; nothing in place of the second where there is one.
pub fn one_word_and_text(line: &[u8]) -> Option<(&[u8], &[u8])>
    ensures { let words = one_and_text_of (words_of line.now) in
        MatchOption result (words ≡ None) (λ w. words ≡ Some (w.0.now, w.1.now)) }
{
    let Some((first, rest)) = split_word(line) else {
        return None;
    };
    let Some((text, rest)) = split_word(rest) else {
        return Some((first, &[]));
    };
    match split_word(rest) {
        None => Some((first, text)),
        Some(_) => None,
    }
}
