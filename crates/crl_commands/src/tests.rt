//! Tests: each command once, and words that are none.
use crate::command::{Command, Recipe};
use crate::command_of;
use crl_model::OutOfMemory;
use crl_order::Order;
use std::alloc::Global;

/// As many choices as there are words of 32 bits.
const ALL: u128 = 4_294_967_296;

/// The command of the words of a line.
fn command(alloc: Global, line: &str) -> Result<Option<Command>, OutOfMemory> {
    let mut words = Vec::new(alloc);
    for word in line.split_whitespace() {
        words.push(String::from_str(alloc, word)?)?;
    }
    command_of(alloc, words.as_slice())
}

/// The next two words of the order of a line, if it has one.
fn next_two(alloc: Global, line: &str) -> Result<Option<(u128, u128)>, OutOfMemory> {
    match command(alloc, line)? {
        Some(Command::Order(mut order)) => {
            let first = order.next(ALL);
            let second = order.next(ALL);
            Ok(Some((first, second)))
        }
        _ => Ok(None),
    }
}

/// The recipe of a line, if it has one.
fn recipe(alloc: Global, line: &str) -> Result<Option<Recipe>, OutOfMemory> {
    match command(alloc, line)? {
        Some(Command::Gen(recipe)) | Some(Command::Summary(recipe)) => Ok(Some(recipe)),
        _ => Ok(None),
    }
}

#[test]
fn orders(rt: HostRuntime) -> Result<(), OutOfMemory> {
    let alloc = rt.alloc();
    assert_eq!(rt; next_two(alloc, "order first")?, Some((0, 0)));
    assert_eq!(rt; next_two(alloc, "order picks 7*2,1")?, Some((7, 7)));
    assert_eq!(rt;
        next_two(alloc, "order picks 0007,4294967295*1")?,
        Some((7, 4_294_967_295))
    );
    assert_eq!(rt;
        next_two(alloc, "order seed 42")?,
        Some((3_400_036_912, 3_349_765_444))
    );
    Ok(())
}

#[test]
fn numbers(rt: HostRuntime) -> Result<(), OutOfMemory> {
    let alloc = rt.alloc();
    assert!(rt; matches!(command(alloc, "check 64")?, Some(Command::Check(64))));
    assert!(rt; matches!(command(alloc, "threads 016")?, Some(Command::Threads(16))));
    let most = Recipe {
        seed: 18_446_744_073_709_551_615,
        nodes: 64,
        regions: 1_000,
        rounds: 3_125,
    };
    assert_eq!(rt;
        recipe(alloc, "gen 18446744073709551615 64 1000 3125")?,
        Some(most)
    );
    assert_eq!(rt;
        recipe(alloc, "summary 18446744073709551615 64 1000 3125")?,
        Some(most)
    );
    Ok(())
}

#[test]
fn no_commands(rt: HostRuntime) -> Result<(), OutOfMemory> {
    let alloc = rt.alloc();
    let lines = [
        "",
        "order",
        "order first extra",
        "order picks",
        "order picks 1,",
        "order picks 4294967296",
        "order picks 1*0",
        "order picks 1*2*3",
        "order picks 1*99999999999",
        "order picks 1*1000000,1",
        "order seed 18446744073709551616",
        "order -- first",
        "check 0",
        "check 65",
        "check +1",
        "gen 1 64 1000 3126",
        "gen 1 64 1001 1",
        "gen 1 2 3",
        "summary 1 2 3 4 5",
        "threads",
        "threads 0",
        "threads 17",
        "threads four",
        "threads 2 2",
        "help",
        "ord first",
    ];
    for line in lines {
        assert!(rt; command(alloc, line)?.is_none());
    }
    Ok(())
}
