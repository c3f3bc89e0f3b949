//! A section opens.
ghost use Rattle.std.specs.Prelude.{◌≡◌, ◌+◌, ◌<◌, ◌≤◌, ◌^◌, length};
ghost use Rattle.crl_protocol.specs.Node.{section_opens, guard_answer};
ghost use Rattle.crl_table.specs.Tables.{table_of, HasPlace};
ghost use Rattle.crl_sections.specs.SectionsState.{guards, CanBegin};
ghost use Rattle.crl_desk.specs.Desks.{state, HasRoom};
ghost use Rattle.crl_desk.specs.Kits.{once_opened, start_entry};

use crate::desk::Desk;
use crl_guard::{Reading, Writing};
use crl_model::NodeNo;
use crl_model::activity::Answer;
use crl_model::bytes::Bytes;
use crl_model::entry::{Entry, What};
use crl_model::name::Name;
use crl_outbox::Paper;
use std::marker::Model;

/// The bytes with which a section opens: written for its guard, and for what is kept of the section, with paper for as many
/// in the entry of its end. A contract sees it as the bytes.
#[derive(Drop)]
pub struct Shown {
    guard: Vec<u8>,
    began: Bytes,
    end: Paper,
}

impl Model for Shown {
    ghost use Rattle.std.specs.Prelude.{◌≡◌, ◌≤◌, ℕ, List, length};

    ghost Value = { List ℕ };

    ghost view = { λ s. s.began };

    ghost invariant = { λ s. (s.guard.items ≡ s.began) × (length s.began ≤ s.end) };
}

impl Shown {
    /// The bytes, written on the first two papers.
    #[inline(always)]
    pub fn new(bytes: &[u8], guard: Paper, began: Paper, end: Paper) -> Shown
        requires guard { length bytes.now ≤ guard }
        requires began { length bytes.now ≤ began }
        requires end { length bytes.now ≤ end }
        ensures { result ≡ bytes.now }
    {
        Shown {
            guard: guard.write_vec(bytes),
            began: began.write(bytes),
            end,
        }
    }
}

/// What a node is told whose section opens: its guard, which has these bytes.
fn guard_answer(
    write: bool,
    bytes: Vec<u8>,
    node: NodeNo,
    name: Name,
    number: u64,
) -> Answer<Reading, Writing>
    ensures { result ≡ guard_answer write (record { node = node; name = name; number = number; bytes = bytes.items }) }
{
    if write {
        Answer::Writing(Writing::new(bytes, node, name, number))
    } else {
        Answer::Reading(Reading::new(Bytes::from_vec(bytes), node, name, number))
    }
}

/// The entry of a section that opens.
fn start_entry(write: bool, node: NodeNo, name: Name) -> Entry
    ensures { result ≡ start_entry write node name }
{
    let what = if write {
        What::StartWrite { name }
    } else {
        What::StartRead { name }
    };
    Entry { node, what }
}

/// A section of the region opens with these bytes. Answers its guard.
#[inline(always)]
pub fn open_section(
    desk: &mut Desk,
    at: u64,
    name: Name,
    write: bool,
    shown: Shown,
) -> Answer<Reading, Writing>
    requires room { HasRoom 0 2 2 desk.old }
    requires place { HasPlace name desk.old.sections.rows }
    requires last { desk.old.sections.last + 1 < 2 ^ 64 }
    requires may { CanBegin write shown (table_of desk.old.sections.rows name) }
    ensures state { state desk.new ≡ once_opened at (section_opens write name shown (state desk.old)) }
    ensures answer { result ≡ (section_opens write name shown (state desk.old)).answer }
    ensures same { (desk.new.homes ≡ desk.old.homes) × (desk.new.remotes ≡ desk.old.remotes) × (desk.new.outbox ≡ desk.old.outbox) }
    ensures guards { guards desk.new.sections ≡ guards desk.old.sections + 1 }
    ensures room { HasRoom 0 0 1 desk.new }
{
    let _room = desk.journal.record_room();
    let Shown { guard, began, end } = shown;
    let number = desk.sections.begin(name, write, began, end);
    desk.journal.record(at, start_entry(write, desk.me, name));
    guard_answer(write, guard, desk.me, name, number)
}
