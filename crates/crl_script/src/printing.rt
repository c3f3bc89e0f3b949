//! Prints a script.
ghost use Rattle.std.specs.Prelude.{◌≡◌, ◌++◌, ◌∷◌, [], ◌+◌, ◌<◌, ◌≤◌, ◌^◌, IfOk, OnOk, length, map, sum, codes, decimal, string_bytes};
ghost use Rattle.std.specs.Fmt.{signed_decimal};
ghost use Rattle.crl_script.specs.Again.{IsScript, IsPrintable, AllNamed, AllPlain};
ghost use Rattle.crl_script.specs.Canonical.{block_text, blocks_text, call_words, canonical_of, label_of, label_text, line_text, made_after, node_text, part_words, statement_words};
ghost use Rattle.crl_script.specs.Program.{Program};
ghost use Rattle.crl_script.specs.Sentence.{script_of};

use crate::script::Script;
use crl_model::bytes::Bytes;
use crl_model::call::Call;
use crl_model::collective::Part;
use crl_model::name::Name;
use crl_model::statement::Statement;
use crl_model::{NodeNo, OutOfMemory};
use std::alloc::Global;

/// What parts words.
const SPACE: u8 = b' ';

/// What ends a line.
const FEED: u8 = b'\n';

/// Appends a line of one word.
fn push_one(out: &mut Vec<u8>, first: &[u8]) -> Result<(), OutOfMemory>
    ensures { OnOk result (out.new.items ≡ out.old.items ++ line_text (first.now ∷ [])) }
{
    out.extend_from_slice(first)?;
    out.push(FEED)?;
    Ok(())
}

/// Appends a line of two words.
fn push_two(out: &mut Vec<u8>, first: &[u8], second: &[u8]) -> Result<(), OutOfMemory>
    ensures { OnOk result (out.new.items ≡ out.old.items ++ line_text (first.now ∷ second.now ∷ [])) }
{
    out.extend_from_slice(first)?;
    out.push(SPACE)?;
    push_one(out, second)
}

/// Appends a line of three words.
fn push_three(
    out: &mut Vec<u8>,
    first: &[u8],
    second: &[u8],
    third: &[u8],
) -> Result<(), OutOfMemory>
    ensures { OnOk result (out.new.items ≡ out.old.items ++ line_text (first.now ∷ second.now ∷ third.now ∷ [])) }
{
    out.extend_from_slice(first)?;
    out.push(SPACE)?;
    push_two(out, second, third)
}

/// The label of a region.
#[tactic(auto, unfolding(crate::specs::Canonical::label_text))]
fn label(alloc: Global, home: NodeNo, serial: u64) -> Result<String, OutOfMemory>
    ensures { IfOk result (λ s. string_bytes s ≡ label_text home serial) }
{
    format!(in alloc; "r{home}_{serial}")
}

/// Appends a line of a word and a region's label.
fn push_about(alloc: Global, out: &mut Vec<u8>, word: &[u8], name: Name) -> Result<(), OutOfMemory>
    ensures { OnOk result (out.new.items ≡ out.old.items ++ line_text (word.now ∷ label_of name ∷ [])) }
{
    let label = label(alloc, name.home, name.serial as u64)?;
    push_two(out, word, label.as_bytes())
}

/// Appends a line of a word and a number.
fn push_number(
    alloc: Global,
    out: &mut Vec<u8>,
    word: &[u8],
    number: u64,
) -> Result<(), OutOfMemory>
    ensures { OnOk result (out.new.items ≡ out.old.items ++ line_text (word.now ∷ decimal number ∷ [])) }
{
    let number = number.to_string(alloc)?;
    push_two(out, word, number.as_bytes())
}

/// Appends a line of a word and a number with its sign.
fn push_value(alloc: Global, out: &mut Vec<u8>, word: &[u8], value: i64) -> Result<(), OutOfMemory>
    ensures { OnOk result (out.new.items ≡ out.old.items ++ line_text (word.now ∷ signed_decimal value ∷ [])) }
{
    let value = value.to_string(alloc)?;
    push_two(out, word, value.as_bytes())
}

/// Appends `create L SIZE`.
fn push_create(
    alloc: Global,
    out: &mut Vec<u8>,
    node: NodeNo,
    serial: u64,
    size: u32,
) -> Result<(), OutOfMemory>
    ensures { OnOk result (out.new.items ≡ out.old.items ++ line_text (codes "create" ∷ label_text node serial ∷ decimal size ∷ [])) }
{
    let label = label(alloc, node, serial)?;
    let size = size.to_string(alloc)?;
    push_three(out, b"create", label.as_bytes(), size.as_bytes())
}

/// Appends a line of a word, a region's label, a number and a last word.
fn push_change(
    alloc: Global,
    out: &mut Vec<u8>,
    word: &[u8],
    name: Name,
    offset: u32,
    last: &[u8],
) -> Result<(), OutOfMemory>
    ensures { OnOk result (out.new.items ≡ out.old.items ++ line_text (word.now ∷ label_of name ∷ decimal offset ∷ last.now ∷ [])) }
{
    let label = label(alloc, name.home, name.serial as u64)?;
    let offset = offset.to_string(alloc)?;
    out.extend_from_slice(word)?;
    out.push(SPACE)?;
    push_three(out, label.as_bytes(), offset.as_bytes(), last)
}

/// Appends what a node brings to a round.
fn push_part(alloc: Global, out: &mut Vec<u8>, part: &Part) -> Result<(), OutOfMemory>
    ensures { OnOk result (out.new.items ≡ out.old.items ++ line_text (part_words part.now)) }
{
    match part {
        Part::Barrier => push_one(out, b"barrier"),
        Part::Send(bytes) => {
            let text = hex::encode(alloc, bytes.as_slice())?;
            push_two(out, b"send", text.as_bytes())
        }
        Part::Receive => push_one(out, b"receive"),
        Part::Sum(value) => push_value(alloc, out, b"sum", *value),
        Part::Min(value) => push_value(alloc, out, b"min", *value),
        Part::Max(value) => push_value(alloc, out, b"max", *value),
    }
}

/// Appends a call, in the block of a node that has created so many regions there.
fn push_call(
    alloc: Global,
    out: &mut Vec<u8>,
    node: NodeNo,
    made: u64,
    call: &Call,
) -> Result<(), OutOfMemory>
    requires { made + 1 < 2 ^ 64 }
    ensures { OnOk result (out.new.items ≡ out.old.items ++ line_text (call_words node made call.now)) }
{
    match call {
        Call::Create { size } => push_create(alloc, out, node, made + 1, *size),
        Call::Delete { name } => push_about(alloc, out, b"delete", *name),
        Call::Map { name } => push_about(alloc, out, b"map", *name),
        Call::Unmap { name } => push_about(alloc, out, b"unmap", *name),
        Call::StartRead { name } => push_about(alloc, out, b"read", *name),
        Call::EndRead { name } => push_about(alloc, out, b"endread", *name),
        Call::StartWrite { name } => push_about(alloc, out, b"write", *name),
        Call::EndWrite { name, .. } => push_about(alloc, out, b"endwrite", *name),
        Call::Flush { name } => push_about(alloc, out, b"flush", *name),
        Call::Come { part } => push_part(alloc, out, part),
        Call::Put { .. } | Call::Add { .. } => push_empty(out),
    }
}

/// Appends an empty line.
fn push_empty(out: &mut Vec<u8>) -> Result<(), OutOfMemory>
    ensures { OnOk result (out.new.items ≡ out.old.items ++ line_text []) }
{
    out.push(FEED)?;
    Ok(())
}

/// Appends a statement, in the block of a node that has created so many regions there.
fn push_statement(
    alloc: Global,
    out: &mut Vec<u8>,
    node: NodeNo,
    made: u64,
    statement: &Statement,
) -> Result<(), OutOfMemory>
    requires { made + 1 < 2 ^ 64 }
    ensures { OnOk result (out.new.items ≡ out.old.items ++ line_text (statement_words node made statement.now)) }
{
    match statement {
        Statement::Call(call) => push_call(alloc, out, node, made, call),
        Statement::Put {
            name,
            offset,
            bytes,
        } => {
            let text = hex::encode(alloc, bytes.as_slice())?;
            push_change(alloc, out, b"put", *name, *offset, text.as_bytes())
        }
        Statement::Add {
            name,
            offset,
            number,
        } => {
            let text = number.to_string(alloc)?;
            push_change(alloc, out, b"add", *name, *offset, text.as_bytes())
        }
    }
}

/// How many regions a block has created behind a statement.
fn made_after(made: u64, statement: &Statement) -> u64
    requires { made + 1 < 2 ^ 64 }
    ensures made { result ≡ made_after made statement.now }
    ensures most { result ≤ made + 1 }
{
    match statement {
        Statement::Call(Call::Create { .. }) => made + 1,
        _ => made,
    }
}

/// Appends the statements of a node's block.
fn push_block(
    alloc: Global,
    out: &mut Vec<u8>,
    node: NodeNo,
    block: &[Statement],
) -> Result<(), OutOfMemory>
    ensures { OnOk result (out.new.items ≡ out.old.items ++ block_text node 0 block.now) }
{
    let mut made = 0;
    for statement in block {
        push_statement(alloc, out, node, made, statement)?;
        made = made_after(made, statement);
    }
    Ok(())
}

/// Appends the block of a node, if it has statements.
fn push_node(
    alloc: Global,
    out: &mut Vec<u8>,
    node: NodeNo,
    block: &[Statement],
) -> Result<(), OutOfMemory>
    ensures { OnOk result (out.new.items ≡ out.old.items ++ node_text node block.now) }
{
    if block.is_empty() {
        return Ok(());
    }
    push_number(alloc, out, b"node", node as u64)?;
    push_block(alloc, out, node, block)
}

/// The bytes of the canonical text.
#[tactic(auto, unfolding(crate::specs::Canonical::canonical_of))]
fn canonical(alloc: Global, script: &Script) -> Result<Vec<u8>, OutOfMemory>
    ensures text { IfOk result (λ v. v.items ≡ canonical_of script.now) }
    ensures script { IsScript script.now }
{
    let mut out = Vec::new(alloc);
    push_number(alloc, &mut out, b"nodes", script.nodes() as u64)?;
    push_number(alloc, &mut out, b"cache", script.cache() as u64)?;
    for node in 0..script.nodes() {
        push_node(alloc, &mut out, node, script.statements(node))?;
    }
    Ok(out)
}

/// The canonical text of a script: `nodes N`, `cache C`, and for each node with statements, ascending,
/// `node I` and its statements. Words are parted by single spaces, numbers have no leading zeros, bytes
/// are in lower-case hexadecimal, and a line feed ends each line. The label of region `I:k` is `rI_k`.
/// Reading this text gives the script again, where each name in the script is `I:k` for a node I with at
/// least k creates, no line has more than 140,000 bytes, and the text has fewer than 2^32.
///
/// # Errors
///
/// `OutOfMemory`.
pub fn print_script(alloc: Global, script: &Script) -> Result<Vec<u8>, OutOfMemory>
    ensures text { IfOk result (λ text. text.items ≡ canonical_of script.now) }
    ensures again { IfOk result (λ text. IsPrintable script.now → script_of text.items ≡ Ok script.now) }
{
    canonical(alloc, script)
}

/// A printable script is read again from its canonical text.
#[tactic(auto, using(crate::proofs::AgainLemmas::again))]
pub fn canonical_is_read_again()
    ensures { (p : Program) → IsScript p → IsPrintable p → script_of (canonical_of p) ≡ Ok p }
{}

/// A script is printable where it has at most 2^26 statements, none of which brings bytes, and each name in it is that of
/// one of its creates.
#[tactic(auto, using(crate::proofs::PlainTexts::plain_is_printable))]
pub fn plain_scripts_are_printable()
    ensures { (p : Program) → IsScript p → AllNamed p.blocks → AllPlain p.blocks → sum (map length p.blocks) ≤ 2 ^ 26 → IsPrintable p }
{}
