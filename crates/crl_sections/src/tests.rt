//! Tests: sections of a region begin and end.
ghost use Rattle.std.specs.Prelude.{IsTrue, ◌<◌, false};
ghost use Rattle.crl_table.specs.Tables.{table_of};
ghost use Rattle.crl_sections.specs.SectionsState.{guards, CanBegin};

use crate::Sections;
use crl_guard::{Reading, Writing};
use crl_model::OutOfMemory;
use crl_model::bytes::Bytes;
use crl_model::directory::Section;
use crl_model::name::Name;
use crl_outbox::Paper;
use std::alloc::Global;

/// Whether a section may begin where none is open.
fn may_begin(sections: &Sections, name: Name, write: bool, bytes: &[u8]) -> bool
    ensures { IsTrue result → CanBegin write bytes.now (table_of sections.now.rows name) }
{
    matches!(sections.section(name), Section::Closed)
}

/// Whether a read section may begin inside that of the guard, with the same bytes.
fn may_begin_inside(sections: &Sections, guard: &Reading) -> bool
    ensures { IsTrue result → CanBegin false guard.now.bytes (table_of sections.now.rows guard.now.name) }
{
    match sections.section(guard.name()) {
        Section::Reading(count) => count < 1_000 && sections.fits_reading(guard),
        Section::Closed | Section::Writing => false,
    }
}

/// Whether few sections have begun.
fn are_few(sections: &Sections) -> bool
    ensures { IsTrue result → (sections.now.last < 1000) × (guards sections.now < 1000) }
{
    sections.last_number() < 1_000 && sections.guards() < 1_000
}

/// A section of the region begins with these bytes. Answers its number, or 0 if it may not begin.
fn begun(
    alloc: Global,
    sections: &mut Sections,
    name: Name,
    write: bool,
    bytes: &[u8],
) -> Result<u64, OutOfMemory> {
    sections.ready(name)?;
    let paper = Paper::new(alloc, bytes.len())?;
    let copy = Bytes::copy_of(alloc, bytes)?;
    if are_few(sections) && may_begin(sections, name, write, bytes) {
        return Ok(sections.begin(name, write, copy, paper));
    }
    Ok(0)
}

/// A read section begins inside that with this number, with the same bytes. Answers its number, or 0 if it may not begin.
fn begun_inside(
    alloc: Global,
    sections: &mut Sections,
    name: Name,
    number: u64,
    bytes: &[u8],
) -> Result<u64, OutOfMemory> {
    sections.ready(name)?;
    let paper = Paper::new(alloc, bytes.len())?;
    let guard = Reading::new(Bytes::copy_of(alloc, bytes)?, 0, name, number);
    let may = are_few(sections) && may_begin_inside(sections, &guard);
    let copy = guard.into_bytes();
    if may {
        return Ok(sections.begin(name, false, copy, paper));
    }
    Ok(0)
}

/// A read section of the region ends, if one is open.
fn end_read(sections: &mut Sections, name: Name) {
    if matches!(sections.section(name), Section::Reading(_)) {
        sections.end_read(name);
    }
}

/// Whether a guard with this number and these bytes is the one of an open write section.
fn fits_writing(
    alloc: Global,
    sections: &Sections,
    name: Name,
    number: u64,
    bytes: &[u8],
) -> Result<bool, OutOfMemory> {
    let guard = Writing::new(Vec::from_slice(alloc, bytes)?, 0, name, number);
    let fits = sections.fits_writing(&guard);
    guard.discard();
    Ok(fits)
}

/// The number of bytes with which the write section of the region began, once it has ended, or 0.
fn end_write(sections: &mut Sections, name: Name) -> usize {
    if matches!(sections.section(name), Section::Writing) {
        return sections.end_write(name).0.len();
    }
    0
}

#[test]
fn reads_nest(rt: HostRuntime) -> Result<(), OutOfMemory> {
    let name = Name::new(0, 1);
    let mut sections = Sections::new(rt.alloc());
    assert_eq!(rt; begun(rt.alloc(), &mut sections, name, false, &[1, 2])?, 1);
    assert_eq!(rt;
        begun_inside(rt.alloc(), &mut sections, name, 1, &[1, 2])?,
        1
    );
    assert_eq!(rt;
        begun_inside(rt.alloc(), &mut sections, name, 1, &[1, 3])?,
        0
    );
    assert_eq!(rt;
        begun(rt.alloc(), &mut sections, Name::new(2, 1), true, &[3])?,
        2
    );
    assert_eq!(rt; sections.guards(), 3);
    end_read(&mut sections, name);
    end_read(&mut sections, name);
    assert_eq!(rt; sections.section(name), Section::Closed);
    assert_eq!(rt; sections.guards(), 1);
    Ok(())
}

#[test]
fn a_write_ends(rt: HostRuntime) -> Result<(), OutOfMemory> {
    let name = Name::new(0, 1);
    let mut sections = Sections::new(rt.alloc());
    assert_eq!(rt; begun(rt.alloc(), &mut sections, name, true, &[1, 2])?, 1);
    assert_eq!(rt;
        fits_writing(rt.alloc(), &sections, name, 1, &[7, 8])?,
        true
    );
    assert_eq!(rt; end_write(&mut sections, name), 2);
    assert_eq!(rt; sections.section(name), Section::Closed);
    Ok(())
}
