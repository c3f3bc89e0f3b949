//! A command that is run over a source and a sink in memory.

use crl_cli::answer::quiet;
use crl_cli::status::Status;
use crl_model::OutOfMemory;
use crl_model::bytes::Bytes;
use crl_outside::memory_sink::MemorySink;
use crl_outside::memory_source::SafeSource;
use crl_outside::source::Source;
use std::alloc::Global;

/// Room for the text of each case, where a test doesn't say otherwise.
pub const ROOM: usize = 4_194_304;

/// What a command left.
#[derive(Debug, Drop)]
pub struct Answer {
    pub status: Status,
    pub sink: MemorySink,
}

/// The words of a line, with this mark between two.
pub fn words_of(alloc: Global, line: &str, mark: char) -> Result<Vec<String>, OutOfMemory> {
    let mut words = Vec::new(alloc);
    for word in line.split(mark) {
        words.push(String::from_str(alloc, word)?)?;
    }
    Ok(words)
}

/// Does what the words say, with a sink of so much room.
pub fn run<S: Source>(
    alloc: Global,
    words: &[String],
    source: &mut S,
    room: usize,
) -> Result<Answer, OutOfMemory> {
    let mut sink = MemorySink::new(alloc, room)?;
    let status = quiet(alloc, words, source, &mut sink);
    Ok(Answer { status, sink })
}

/// What a command left, as a case says it: the exit status, a bar, a line feed, and the output.
pub fn shown(alloc: Global, answer: &Answer) -> Result<String, OutOfMemory> {
    let code = answer.status.code();
    let text = String::from_utf8_lossy(alloc, answer.sink.held())?;
    format!(in alloc; "{code}|\n{text}")
}

/// What the words of a line, with a space between two, give for this input.
pub fn answered(alloc: Global, line: &str, input: &[u8]) -> Result<String, OutOfMemory> {
    let words = words_of(alloc, line, ' ')?;
    let mut source = SafeSource::new(Bytes::copy_of(alloc, input)?);
    let answer = run(alloc, words.as_slice(), &mut source, ROOM)?;
    shown(alloc, &answer)
}
