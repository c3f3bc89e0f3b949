//! The open sections of a node.
ghost use Rattle.std.specs.Prelude.{◌≡◌, ◌+◌, ◌<◌, ◌≤◌, ◌^◌, length, true, false, OnOk, OnErr, IsOk, IsSome, IfSome, None, Some};
ghost use Rattle.crl_model.specs.Names.{at_name};
ghost use Rattle.crl_table.specs.Tables.{table_of, has_place, HasPlace, weight, weight_of};
ghost use Rattle.crl_protocol.specs.Home.{is_reading};
ghost use Rattle.crl_protocol.specs.Sections.{no_sections, section_begins, section_ends, section_at, bytes_at, count_of, is_writing};
ghost use Rattle.crl_sections.specs.OpenSections.{guards_of};
ghost use Rattle.crl_sections.specs.SectionsState.{sections_of, guards, HasSections, IsAbsentIfClosed, CanBegin, fits_reading, fits_writing};

use crate::open::Open;
use crl_guard::{Reading, Writing};
use crl_model::OutOfMemory;
use crl_model::bytes::Bytes;
use crl_model::directory::Section;
use crl_model::name::Name;
use crl_outbox::Paper;
use crl_table::Table;
use std::alloc::Global;
use std::marker::Model;

/// The open sections of a node, by name. A contract sees them as a `SectionsState`. Only `new` and `ready`
/// take memory.
#[derive(Drop)]
pub struct Sections {
    table: Table<Open>,
    last: u64,
    out: usize,
}

impl Model for Sections {
    ghost use Rattle.crl_sections.specs.SectionsState.{SectionsState, AreCounted};

    ghost Value = { SectionsState };

    ghost view = { λ s. record { rows = s.table; last = s.last } };

    ghost invariant = { λ s. AreCounted s.out s.table };
}

impl Sections {
    /// No section is open, and no number was given.
    pub fn new(alloc: Global) -> Sections
        ensures sections { sections_of result ≡ no_sections }
        ensures places { has_place result.rows ≡ (λ name. false) }
        ensures guards { guards result ≡ 0 }
    {
        Sections {
            table: Table::new(alloc),
            last: 0,
            out: 0,
        }
    }

    /// Gives the name a place for its sections, if it has none.
    ///
    /// # Errors
    ///
    /// `OutOfMemory`, which comes only if the name has no place. Nothing changes.
    pub fn ready(&mut self, name: Name) -> Result<(), OutOfMemory>
        ensures sections { sections_of self.new ≡ sections_of self.old }
        ensures guards { guards self.new ≡ guards self.old }
        ensures places { OnOk result (has_place self.new.rows ≡ at_name (has_place self.old.rows) name true) }
        ensures place { OnOk result (HasPlace name self.new.rows) }
        ensures succeeds { HasPlace name self.old.rows → IsOk result }
        ensures err { OnErr result (self.new ≡ self.old) }
    {
        self.table.ready(&name)
    }

    /// Which sections of the region are open.
    pub fn section(&self, name: Name) -> Section
        ensures section { result ≡ section_at name (sections_of self.now) }
        ensures absent { IsAbsentIfClosed result (table_of self.now.rows name) }
    {
        match self.table.get(&name) {
            Some(open) => open.section(),
            None => Section::Closed,
        }
    }

    /// Nothing is kept of a region of which no section is open, and the number of its read sections fits a word.
    /// This does nothing.
    pub fn note(&self, name: Name)
        ensures absent { IsAbsentIfClosed (section_at name (sections_of self.now)) (table_of self.now.rows name) }
        ensures count { count_of (section_at name (sections_of self.now)) < 2 ^ 32 }
    {
        let _ = &self.table;
    }

    /// The last number that a section was given, or 0.
    pub fn last_number(&self) -> u64
        ensures { result ≡ self.now.last }
    {
        self.last
    }

    /// How many guards are out.
    pub fn guards(&self) -> usize
        ensures { result ≡ guards self.now }
    {
        self.out
    }

    /// A section begins with these bytes, and paper for as many. Answers its number: a read section inside
    /// others has theirs, and any other section has the next one.
    pub fn begin(&mut self, name: Name, write: bool, bytes: Bytes, paper: Paper) -> u64
        requires place { HasPlace name self.old.rows }
        requires last { self.old.last + 1 < 2 ^ 64 }
        requires few { guards self.old + 1 < 2 ^ 64 }
        requires paper { length bytes ≤ paper }
        requires may { CanBegin write bytes (table_of self.old.rows name) }
        ensures sections { sections_of self.new ≡ (section_begins write name bytes (sections_of self.old)).sections }
        ensures number { result ≡ (section_begins write name bytes (sections_of self.old)).number }
        ensures guards { guards self.new ≡ guards self.old + 1 }
        ensures places { has_place self.new.rows ≡ has_place self.old.rows }
        ensures inside { IsSome (table_of self.old.rows name) → self.new.last ≡ self.old.last }
    {
        match self.take(name) {
            Some(outer) => {
                let number = outer.number();
                self.put(name, outer.begin_inside());
                number
            }
            None => {
                let number = self.next_number();
                self.put(name, Open::begin(write, number, bytes, paper));
                number
            }
        }
    }

    /// A read section of the region ends.
    pub fn end_read(&mut self, name: Name)
        requires open { is_reading (section_at name (sections_of self.old)) ≡ true }
        ensures sections { sections_of self.new ≡ section_ends name (sections_of self.old) }
        ensures guards { guards self.new + 1 ≡ guards self.old }
        ensures places { has_place self.new.rows ≡ has_place self.old.rows }
    {
        let open = self.take(name).unwrap();
        if let Some(rest) = open.end_read() {
            self.put(name, rest);
        }
    }

    /// The write section of the region ends. Answers the bytes that it began with, and paper for as many.
    pub fn end_write(&mut self, name: Name) -> (Bytes, Paper)
        requires open { is_writing (section_at name (sections_of self.old)) ≡ true }
        ensures sections { sections_of self.new ≡ section_ends name (sections_of self.old) }
        ensures bytes { result.0 ≡ bytes_at name (sections_of self.old) }
        ensures paper { length result.0 ≤ result.1 }
        ensures guards { guards self.new + 1 ≡ guards self.old }
        ensures places { has_place self.new.rows ≡ has_place self.old.rows }
    {
        self.take(name).unwrap().end_write()
    }

    /// Whether the guard is one of an open read section, with the bytes that the section shows. The node that
    /// the guard names isn't looked at.
    pub fn fits_reading(&self, guard: &Reading) -> bool
        ensures { result ≡ fits_reading guard.now (sections_of self.now) }
    {
        match self.table.get(&guard.name()) {
            Some(open) => open.shows_to(guard),
            None => false,
        }
    }

    /// Whether the guard is the one of an open write section, with as many bytes as the section began with. The
    /// node that the guard names isn't looked at.
    pub fn fits_writing(&self, guard: &Writing) -> bool
        ensures { result ≡ fits_writing guard.now (sections_of self.now) }
    {
        match self.table.get(&guard.name()) {
            Some(open) => open.is_written_by(guard),
            None => false,
        }
    }

    /// The next number, which is the last one from now on.
    fn next_number(&mut self) -> u64
        requires { self.old.last + 1 < 2 ^ 64 }
        ensures rows { self.new.rows ≡ self.old.rows }
        ensures last { self.new.last ≡ self.old.last + 1 }
        ensures number { result ≡ self.old.last + 1 }
    {
        self.last += 1;
        self.last
    }

    /// Takes the sections of the name out, if any are open. Its place stays.
    #[inline(always)]
    fn take(&mut self, name: Name) -> Option<Open>
        ensures row { result ≡ table_of self.old.rows name }
        ensures gone { HasSections name None self.old self.new }
        ensures absent { table_of self.new.rows name ≡ None }
        ensures place { IfSome result (λ row. HasPlace name self.new.rows) }
        ensures few { guards self.old < 2 ^ 64 }
        ensures guards { guards self.new + weight_of guards_of result ≡ guards self.old }
    {
        let open = self.table.take(&name);
        self.out -= guards_out(&open);
        open
    }

    /// The sections of the name, which has a place and none open, are these.
    #[inline(always)]
    fn put(&mut self, name: Name, row: Open)
        requires place { HasPlace name self.old.rows }
        requires absent { table_of self.old.rows name ≡ None }
        requires fits { guards self.old + guards_of row < 2 ^ 64 }
        ensures row { HasSections name (Some row) self.old self.new }
        ensures guards { guards self.new ≡ guards self.old + guards_of row }
    {
        self.out += row.guards() as usize;
        self.table.put(&name, row);
    }
}

/// How many guards of the sections, if any are open, are out.
fn guards_out(row: &Option<Open>) -> usize
    ensures { result ≡ weight_of guards_of row.now }
{
    match row {
        Some(open) => open.guards() as usize,
        None => 0,
    }
}
