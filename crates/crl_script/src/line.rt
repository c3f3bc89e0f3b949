//! The lines of a text, and the words of a line.
ghost use Rattle.std.specs.Prelude.{◌≡◌, ◌<◌, ◌∷◌, [], false, length, position, slice_index, MatchOption};
ghost use Rattle.crl_script.specs.Seen.{line_seen};
ghost use Rattle.crl_script.specs.Shape.{Shows};
ghost use Rattle.crl_script.specs.Text.{is_feed, is_blank, lines_of, words_of, without_return};

/// What ends a line.
const FEED: u8 = b'\n';

/// What may stand before the end of a line.
const RETURN: u8 = b'\r';

/// A line of a text.
#[derive(Clone, Copy)]
pub struct Piece<'a> {
    /// How many bytes it has without its line feed.
    pub size: usize,
    /// Its bytes without its line feed, and without a carriage return before that.
    pub bytes: &'a [u8],
}

/// The words behind the first of a line, of which no statement has more than three.
#[derive(Clone, Copy)]
pub enum Words<'a> {
    Empty,
    One(&'a [u8]),
    Two(&'a [u8], &'a [u8]),
    Three(&'a [u8], &'a [u8], &'a [u8]),
    Many,
}

fn is_blank(b: u8) -> bool
    ensures { result ≡ is_blank b }
{
    b == b' ' || b == b'\t'
}

/// The place of the first line feed.
fn find_feed(bytes: &[u8]) -> Option<usize>
    ensures { result ≡ position is_feed bytes.now }
{
    bytes.iter().position(|b| *b == FEED)
}

/// The place of the first space or tab.
fn find_blank(bytes: &[u8]) -> Option<usize>
    ensures { result ≡ position is_blank bytes.now }
{
    bytes.iter().position(|b| is_blank(*b))
}

/// The bytes without a carriage return at their end.
#[tactic(auto, unfolding(crate::specs::Text::without_return))]
fn without_return(bytes: &[u8]) -> &[u8]
    ensures { result.now ≡ without_return bytes.now }
{
    if bytes.is_empty() || bytes[bytes.len() - 1] != RETURN {
        return bytes;
    }
    &bytes[..bytes.len() - 1]
}

/// The first line of a text that has one, and the text of the others.
pub fn next_line(text: &[u8]) -> (Piece<'_>, &[u8])
    requires { 0 < length text.now }
    ensures lines { lines_of text.now ≡ line_seen result.0 ∷ lines_of result.1.now }
    ensures shorter { length result.1.now < length text.now }
{
    match find_feed(text) {
        None => {
            let piece = Piece {
                size: text.len(),
                bytes: text,
            };
            (piece, &[])
        }
        Some(at) => {
            let piece = Piece {
                size: at,
                bytes: without_return(&text[..at]),
            };
            (piece, &text[at + 1..])
        }
    }
}

/// The word with which these bytes begin, and the bytes behind it.
fn first_word(bytes: &[u8]) -> (&[u8], &[u8])
    requires some { 0 < length bytes.now }
    requires word { is_blank (slice_index bytes.now 0) ≡ false }
    ensures { words_of bytes.now ≡ result.0.now ∷ words_of result.1.now }
{
    match find_blank(bytes) {
        None => (bytes, &[]),
        Some(at) => (&bytes[..at], &bytes[at + 1..]),
    }
}

/// The first word, and the bytes behind it, if there is a word.
#[tactic(auto, using(crate::proofs::TextLemmas::words_none, crate::proofs::TextLemmas::words_behind))]
pub fn next_word(bytes: &[u8]) -> Option<(&[u8], &[u8])>
    ensures { MatchOption result (words_of bytes.now ≡ []) (λ w. words_of bytes.now ≡ w.0.now ∷ words_of w.1.now) }
{
    let mut rest = bytes;
    while !rest.is_empty() {
        if !is_blank(rest[0]) {
            return Some(first_word(rest));
        }
        rest = &rest[1..];
    }
    None
}

/// The words of these bytes.
pub fn split_words(bytes: &[u8]) -> Words<'_>
    ensures { Shows result (words_of bytes.now) }
{
    let (first, rest) = match next_word(bytes) {
        None => return Words::Empty,
        Some(word) => word,
    };
    let (second, rest) = match next_word(rest) {
        None => return Words::One(first),
        Some(word) => word,
    };
    let (third, rest) = match next_word(rest) {
        None => return Words::Two(first, second),
        Some(word) => word,
    };
    match next_word(rest) {
        None => Words::Three(first, second, third),
        Some(_) => Words::Many,
    }
}
