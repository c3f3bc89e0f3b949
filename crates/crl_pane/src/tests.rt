//! Tests: the bytes, the guards, and panes in threads.
ghost use Rattle.std.specs.Prelude.{◌<◌, ◌≡◌, length};
ghost use Rattle.std.specs.Arc.{arc_value};

use crate::{Pane, Reading, Shelf, Writing};
use crl_model::OutOfMemory;
use crl_model::name::Name;
use std::alloc::Global;
use std::sync::Arc;
use std::thread;
use std::thread::Threads;

#[test]
fn zeros_and_copies_apart(rt: HostRuntime) -> Result<(), OutOfMemory> {
    let mut pane = Pane::new(rt.alloc(), 3)?;
    assert_eq!(rt; pane.bytes(), [0, 0, 0].as_slice());
    pane.bytes_mut().copy_from_slice(&[1, 2, 3]);
    let copy = Pane::copy_of(rt.alloc(), &pane)?;
    pane.bytes_mut()[0] = 9;
    assert_eq!(rt; pane.bytes(), [9, 2, 3].as_slice());
    assert_eq!(rt; copy.bytes(), [1, 2, 3].as_slice());
    assert_eq!(rt; copy.len(), 3);
    Ok(())
}

/// The pane that a write section leaves.
fn written(alloc: Global, name: Name) -> Result<Pane, OutOfMemory> {
    let mut writing = Writing::new(Pane::new(alloc, 2)?, 0, name, 2);
    writing.bytes_mut().copy_from_slice(&[5, 6]);
    Ok(writing.into_pane())
}

/// A reader keeps the pane that it was given, when another is put in its place.
#[test]
fn a_reading_outlives_the_next_pane(rt: HostRuntime) -> Result<(), OutOfMemory> {
    let name = Name::new(0, 1);
    let mut shelf = Shelf::new(rt.alloc(), Pane::new(rt.alloc(), 2)?);
    let next = written(rt.alloc(), name)?;
    shelf.prepare()?;
    let reading = Reading::new(shelf.take(), 0, name, 1);
    shelf.put(next);
    assert_eq!(rt; shelf.bytes(), [5, 6].as_slice());
    assert_eq!(rt; reading.bytes(), [0, 0].as_slice());
    drop(shelf);
    assert_eq!(rt; reading.bytes(), [0, 0].as_slice());
    reading.discard();
    Ok(())
}

/// The first byte.
fn first(pane: &Pane) -> u8 {
    if pane.bytes().is_empty() {
        0
    } else {
        pane.bytes()[0]
    }
}

/// Two threads read one pane.
fn read_by_two(rt: &impl Threads, pane: &Arc<Pane, Global>) -> (u8, u8) {
    thread::join(rt, || first(pane), || first(pane))
}

/// Another thread writes a pane that is moved to it, and hands it back.
fn write_elsewhere(rt: &impl Threads, mut pane: Pane) -> Option<Pane> {
    match thread::spawn(rt, move || {
        pane.bytes_mut().fill(4);
        pane
    }) {
        Ok(child) => Some(child.join(rt)),
        Err(_) => None,
    }
}

#[test]
fn panes_cross_threads(rt: HostRuntime) -> Result<(), OutOfMemory> {
    let pane = Pane::new(rt.alloc(), 2)?;
    let Some(pane) = write_elsewhere(&rt, pane) else {
        return Ok(());
    };
    assert_eq!(rt; pane.bytes(), [4, 4].as_slice());
    let shared = Arc::new(rt.alloc(), pane)?;
    let (one, two) = read_by_two(&rt, &shared);
    assert_eq!(rt; one, 4);
    assert_eq!(rt; two, 4);
    Ok(())
}
