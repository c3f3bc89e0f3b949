//! Reads a script.
ghost use Rattle.std.specs.Prelude.{◌≡◌, ◌<◌, ◌≤◌, ◌^◌, length, map, IfOk, vec_len};
ghost use Rattle.crl_script.specs.Again.{AllStatements};
ghost use Rattle.crl_script.specs.Labels.{names_at};
ghost use Rattle.crl_script.specs.Reads.{Reads, ReadsAs};
ghost use Rattle.crl_script.specs.Seen.{seen};
ghost use Rattle.crl_script.specs.Sentence.{program_of, read_by, script_of};

use crate::fault::{LineFault, ScriptFault, ScriptWhy};
use crate::label::Known;
use crate::line::next_line;
use crate::progress::Reading;
use crate::script::Script;
use std::alloc::Global;

/// Reads a text, whose statements may name these labels.
#[tactic(auto, unfolding(crate::specs::Sentence::read_by))]
fn read_with<'a>(
    alloc: Global,
    known: Known<'_, 'a>,
    text: &'a [u8],
) -> Result<Reading<'a>, ScriptFault>
    requires { length text.now < 2 ^ 32 }
    ensures read { ReadsAs seen result (read_by (names_at known.entry) text.now) }
    ensures blocks { IfOk result (λ r. vec_len r.blocks ≤ 64) }
    ensures statements { IfOk result (λ r. AllStatements (map (λ b. b.items) r.blocks.items)) }
{
    let mut reading = Reading::new(alloc);
    let mut rest = text;
    let mut number: u64 = 1;
    while !rest.is_empty() {
        let (piece, more) = next_line(rest);
        rest = more;
        match reading.line(alloc, known, piece) {
            Ok(()) => {}
            Err(LineFault::Bad(why)) => return Err(ScriptFault::Bad { line: number, why }),
            Err(LineFault::Memory) => return Err(ScriptFault::OutOfMemory),
        }
        number += 1;
    }
    Ok(reading)
}

/// The script that was read, which has a line that isn't skipped.
fn script(reading: Reading<'_>) -> Result<Script, ScriptFault>
    requires limit { vec_len reading.blocks ≤ 64 }
    requires statements { AllStatements (map (λ b. b.items) reading.blocks.items) }
    ensures { Reads result (program_of (seen reading.entry)) }
{
    let Reading {
        place: _,
        cache,
        begun: _,
        labels: _,
        made: _,
        blocks,
    } = reading;
    if blocks.is_empty() {
        let why = ScriptWhy::NoNodes;
        return Err(ScriptFault::Bad { line: 1, why });
    }
    Ok(Script::new(cache, blocks))
}

/// Reads a script as it is defined: first for its labels, and then with them.
#[tactic(auto, unfolding(crate::specs::Sentence::script_of))]
fn read_twice(alloc: Global, text: &[u8]) -> Result<Script, ScriptFault>
    requires { length text.now < 2 ^ 32 }
    ensures { Reads result (script_of text.now) }
{
    let labels = read_with(alloc, Known::Any, text)?.labels;
    let reading = read_with(alloc, Known::These(&labels), text)?;
    script(reading)
}

/// Reads a script: lines of words that spaces and tabs part. Lines without words, and those whose first
/// word begins with `#`, are skipped. The first other line is `nodes N`, for N nodes, 1 to 64; the next
/// may be `cache C`, and is `cache 16` where it isn't there. Then come blocks, at most one for each node:
/// `node I`, and the node's statements.
///
/// | Statement | Words |
/// |---|---|
/// | `create L SIZE` | label, size |
/// | `delete L`, `map L`, `unmap L`, `flush L` | label |
/// | `read L`, `endread L`, `write L`, `endwrite L` | label |
/// | `put L OFFSET HEX` | label, offset, bytes |
/// | `add L OFFSET NUMBER` | label, offset, number |
/// | `barrier`, `receive` | none |
/// | `send HEX` | bytes |
/// | `sum V`, `min V`, `max V` | number from -2^63 to 2^63 - 1 |
///
/// A label is 1 to 32 bytes: a letter, then letters, digits or `_`, all ASCII. The k-th `create` of node
/// I names region `I:k`, and its label stands for that name in the whole script. A number is 1 to 20
/// decimal digits, bytes are an even number of at least 2 hexadecimal digits of either case. One carriage
/// return before a line feed is dropped. A line has at most 140,000 bytes without its line feed, and a text
/// fewer than 2^32.
///
/// # Errors
///
/// `Bad` with the first line that has a fault, and the first of these faults that it has: `LineTooLong`;
/// `NoNodes` for a first line that isn't skipped and doesn't begin with `nodes`, or at line 1 where
/// all lines are skipped; `BadWord`; then those of its words from left to right. `UnknownLabel` only where
/// no line has another fault, with the first line whose label no `create` has. `OutOfMemory`.
#[tactic(auto, using(crate::proofs::SoFarLemmas::fault_so_far))]
pub fn read_script(alloc: Global, text: &[u8]) -> Result<Script, ScriptFault>
    requires { length text.now < 2 ^ 32 }
    ensures { Reads result (script_of text.now) }
{
    match read_with(alloc, Known::SoFar, text) {
        Ok(reading) => script(reading),
        Err(
            ScriptFault::Bad {
                why: ScriptWhy::UnknownLabel,
                ..
            },
        ) => read_twice(alloc, text),
        Err(fault) => Err(fault),
    }
}
