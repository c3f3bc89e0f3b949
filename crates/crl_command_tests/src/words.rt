//! Which words are a command, and which commands read.

use crl_cases::trial::{ROOM, run, words_of};
use crl_model::OutOfMemory;
use crl_model::bytes::Bytes;
use crl_outside::memory_source::MemorySource;
use crl_outside::source::Source;
use std::alloc::Global;

/// Words that are no command, a line for each with a percent sign between two lines. A slash is between two words.
const USAGE: &str = "\
%/% %\
order%first%first/order%order first%order/first/x%order/first/%/order/first%order/first/order/first%\
ORDER/first%order/First%order/firs%order/first %order/%ord/first%orders/first%\
order/picks%order/picks/%order/picks/1,%order/picks/,1%order/picks/1,,2%order/picks/1 ,2%order/picks/-1%\
order/picks/+1%order/picks/x%order/picks/4294967296%order/picks/1*%order/picks/*1%order/picks/1*0%\
order/picks/1*2*3%order/picks/1*1000001%order/picks/1*1000000,1%order/picks/1/2%order/pick/1%\
order/seed%order/seed/%order/seed/x%order/seed/-1%order/seed/18446744073709551616%order/seed/1/2%\
check%check/%check/0%check/65%check/+1%check/-1%check/1x%check/1/2%check/000000000000000000064%Check/1%che/1%\
gen%gen/1/1/1%gen/1/1/1/0/0%gen/1/65/1/0%gen/1/0/1/0%gen/1/1/0/0%gen/1/1/1001/0%gen/1/1/1/10001%\
gen/1/64/1/3126%gen/18446744073709551616/1/1/0%gen/x/1/1/0%gen/1/1/1/%\
summary%summary/1/1/1%summary/1/65/1/0%summary/1/1/1/0/0%\
threads/0%threads/4%help%help/order%order/help%--help%-h%order/--help%gen/--help%--version%-x%order/-x%-%order/-%\
--%--/order/first%order/--/first%order/first/--%check/--/1";

/// Words of commands that read.
const READING: &str = "\
order/first%order/picks/1%order/picks/0*29,1%order/picks/4294967295*1000000%order/picks/00000000000000000001,7%\
order/seed/0%order/seed/18446744073709551615%\
check/1%check/64%check/064%check/00000000000000000064";

/// Words of commands that read nothing.
const MAKING: &str = "\
gen/0/1/1/0%gen/18446744073709551615/2/3/1%summary/1/1/1/0%summary/00000000000000000007/2/1/1";

/// What a line of words gives with a source that fails at its first pull, and at no other: the exit status, and whether
/// the source was left unpulled.
fn tried(alloc: Global, words: &[String]) -> Result<(u8, bool), OutOfMemory> {
    let mut failing = Vec::new(alloc);
    failing.push(1)?;
    let mut source = MemorySource::new(Bytes::copy_of(alloc, b"nodes 1\n")?, 8, failing);
    let answer = run(alloc, words, &mut source, ROOM)?;
    let unpulled = source.pull([0; 8].as_mut_slice()).is_err();
    Ok((answer.status.code(), unpulled))
}

// The words are judged alone. Words that are no command leave the source unpulled, and so does a command that reads
// nothing. Any other command pulls, and meets the failure.
#[test]
fn words_are_a_command_or_the_usage(rt: HostRuntime) -> Result<(), OutOfMemory> {
    assert_eq!(rt; tried(rt.alloc(), &[])?, (1, true));
    for (lines, wanted) in [
        (USAGE, (1, true)),
        (READING, (4, false)),
        (MAKING, (0, true)),
    ] {
        for line in lines.split('%') {
            let words = words_of(rt.alloc(), line, '/')?;
            assert_eq!(rt; tried(rt.alloc(), words.as_slice())?, wanted, "of {line}");
        }
    }
    Ok(())
}
