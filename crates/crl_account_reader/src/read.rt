//! Reading the lines of an account.
ghost use Rattle.std.specs.Prelude.{◌≡◌, ◌∷◌, ◌<◌, Some, length, IfOk, Err};
ghost use Rattle.crl_account.specs.declared.line.Line.{Line};
ghost use Rattle.crl_account.specs.Account.{lines_of, IsLine};
ghost use Rattle.crl_account_reader.specs.Reading.{Gives};
ghost use Rattle.crl_account_reader.specs.Step as step;
ghost use Rattle.crl_account_reader.specs.Step.{entry_in, Took, IsRefused};

use crate::fault::LineFault;
use crate::field::cut;
use crate::guess::guess_line;
use crl_account::{Line, Stage, is_line, stage_of};
use crl_model::entry::Entry;
use std::alloc::Global;

/// The line that the text is. It is guessed, and the guess is written and held against the text, so just
/// what is written is read.
fn read_line(alloc: Global, text: &[u8], scratch: &mut Vec<u8>) -> Result<Line, LineFault>
    ensures found { IfOk result (λ line. IsLine line text.now) }
    ensures only { (line : Line) → IsLine line text.now → Gives result (Some line) }
{
    let line = guess_line(alloc, text)?;
    if is_line(&line, text, scratch)? {
        Ok(line)
    } else {
        Err(LineFault::Bad)
    }
}

/// The entry of the line, if it has one.
fn entry_of(line: Line) -> Option<Entry>
    ensures { result ≡ entry_in line }
{
    match line {
        Line::Entry(entry) => Some(entry),
        _ => None,
    }
}

/// Whether a line of the stage `next` may stand behind the lines up to the stage `last`.
fn follows(next: Stage, last: Stage) -> bool
    ensures { result ≡ step.follows next last }
{
    match next {
        Stage::Entries => matches!(last, Stage::Entries),
        Stage::Regions => matches!(last, Stage::Entries | Stage::Regions),
        Stage::Stuck | Stage::Counts => matches!(
            last,
            Stage::Entries | Stage::Regions | Stage::Stuck
        ),
    }
}

/// Takes the next line, of this text, behind lines up to the stage: gives its stage, and its entry if it has one.
pub(crate) fn take_line(
    alloc: Global,
    text: &[u8],
    stage: Stage,
    scratch: &mut Vec<u8>,
) -> Result<(Stage, Option<Entry>), LineFault>
    ensures ok { IfOk result (λ taken. Took text.now stage taken.0 taken.1) }
    ensures bad { result ≡ Err LineFault.Bad → IsRefused text.now stage }
{
    let line = read_line(alloc, text, scratch)?;
    let next = stage_of(&line);
    if !follows(next, stage) {
        return Err(LineFault::Bad);
    }
    Ok((next, entry_of(line)))
}

/// The first line of a text, and what follows its line feed.
pub(crate) fn cut_line(text: &[u8]) -> (&[u8], &[u8])
    requires { 0 < length text.now }
    ensures lines { lines_of text.now ≡ result.0.now ∷ lines_of result.1.now }
    ensures shorter { length result.1.now < length text.now }
{
    let (line, after) = cut(text, b'\n');
    match after {
        Some(after) => (line, after),
        None => (line, &text[text.len()..]),
    }
}
