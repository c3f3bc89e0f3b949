//! The open sections of one region.
ghost use Rattle.std.specs.Prelude.{◌≡◌, ◌+◌, ◌-◌, ◌<◌, ◌≤◌, ◌^◌, length, true, None};
ghost use Rattle.crl_protocol.specs.Home.{is_reading};
ghost use Rattle.crl_protocol.specs.Sections.{count_of, is_writing};
ghost use Rattle.crl_table.specs.Tables.{weight_of};
ghost use Rattle.crl_sections.specs.OpenSections.{guards_in, guards_of, first_section, with_read, left_open, shows_to, is_written_by};

use crl_guard::{Reading, Writing};
use crl_model::bytes::Bytes;
use crl_model::directory::Section;
use crl_outbox::Paper;
use std::marker::Model;

/// The open sections of one region. Read sections inside each other have one number, and show the same bytes.
/// The paper has room for the bytes. A contract sees them as the protocol's `OpenSection`.
#[derive(Drop)]
pub struct Open {
    section: Section,
    number: u64,
    bytes: Bytes,
    paper: Paper,
}

impl Model for Open {
    ghost use Rattle.crl_protocol.specs.Sections.{OpenSection};
    ghost use Rattle.crl_sections.specs.OpenSections.{HasPaper};

    ghost Value = { OpenSection };

    ghost view = { λ o. record { section = o.section; number = o.number; bytes = o.bytes } };

    ghost invariant = { λ o. HasPaper o.section o.bytes o.paper };
}

impl Open {
    /// A section that begins where none is open.
    pub fn begin(write: bool, number: u64, bytes: Bytes, paper: Paper) -> Open
        requires { length bytes ≤ paper }
        ensures { result ≡ first_section write number bytes }
    {
        let section = if write {
            Section::Writing
        } else {
            Section::Reading(1)
        };
        Open {
            section,
            number,
            bytes,
            paper,
        }
    }

    /// A read section begins inside the others.
    pub fn begin_inside(self) -> Open
        requires reading { is_reading self.section ≡ true }
        requires few { count_of self.section < 2 ^ 32 - 1 }
        ensures { result ≡ with_read self }
    {
        let count = self.guards();
        Open {
            section: Section::Reading(count + 1),
            ..self
        }
    }

    /// A read section ends. Answers those that are still open, if there are any.
    pub fn end_read(self) -> Option<Open>
        requires { is_reading self.section ≡ true }
        ensures rest { result ≡ left_open self }
        ensures guards { weight_of guards_of result + 1 ≡ guards_of self }
    {
        let count = self.guards();
        if count == 1 {
            return None;
        }
        Some(Open {
            section: Section::Reading(count - 1),
            ..self
        })
    }

    /// The write section ends. Answers the bytes that it began with, and paper for as many.
    pub fn end_write(self) -> (Bytes, Paper)
        requires { is_writing self.section ≡ true }
        ensures rest { left_open self ≡ None }
        ensures guards { guards_of self ≡ 1 }
        ensures bytes { result.0 ≡ self.bytes }
        ensures paper { length self.bytes ≤ result.1 }
    {
        let Open {
            section: _,
            number: _,
            bytes,
            paper,
        } = self;
        (bytes, paper)
    }

    /// Which sections are open.
    pub fn section(&self) -> Section
        ensures section { result ≡ self.now.section }
        ensures some { 0 < guards_in result }
    {
        self.section
    }

    /// Their number, by the node's count.
    pub fn number(&self) -> u64
        ensures { result ≡ self.now.number }
    {
        self.number
    }

    /// How many guards are out.
    pub fn guards(&self) -> u32
        ensures guards { result ≡ guards_in self.now.section }
        ensures some { 0 < result }
    {
        match self.section {
            Section::Closed => 0,
            Section::Reading(count) => count,
            Section::Writing => 1,
        }
    }

    /// Whether the guard is one of these read sections, with the bytes that they show.
    pub fn shows_to(&self, guard: &Reading) -> bool
        ensures { result ≡ shows_to guard.now self.now }
    {
        matches!(self.section, Section::Reading(_))
            && self.number == guard.number()
            && self.bytes.as_slice() == guard.bytes()
    }

    /// Whether the guard is this write section's, with as many bytes as it began with.
    pub fn is_written_by(&self, guard: &Writing) -> bool
        ensures { result ≡ is_written_by guard.now self.now }
    {
        matches!(self.section, Section::Writing)
            && self.number == guard.number()
            && self.bytes.len() == guard.bytes().len()
    }
}
