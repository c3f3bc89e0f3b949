//! What a section takes that may open.
ghost use Rattle.std.specs.Prelude.{◌≡◌, ◌+◌, IfOk, OnOk, None};
ghost use Rattle.crl_model.specs.declared.directory.Section.TheVariants.{Closed};
ghost use Rattle.crl_protocol.specs.Sections.{section_at};
ghost use Rattle.crl_table.specs.Tables.{table_of, HasPlace};
ghost use Rattle.crl_desk.specs.Desks.{state, size_at, HasRoom};
ghost use Rattle.crl_desk.specs.Kits.{IsSectionReady, HasPapers};

use crate::desk::Desk;
use crl_model::OutOfMemory;
use crl_model::name::Name;
use crl_outbox::{Paper, Sheets};
use crl_pieces::parts::count;

/// Paper for a section that may open: for the bytes of its guard, for the bytes with which it began, for the entry of its
/// end, and sheets for a message with the region's bytes.
#[derive(Drop)]
pub struct SectionKit {
    pub guard: Paper,
    pub began: Paper,
    pub end: Paper,
    pub sheets: Sheets,
}

impl Desk {
    /// The number of bytes of the region, or 0 if the node has none of this name.
    pub fn size(&self, name: Name) -> u32
        ensures { result ≡ size_at name self.now }
    {
        let size = if name.home == self.me {
            self.homes.size(name)
        } else {
            self.remotes.size(name)
        };
        size.unwrap_or(0)
    }

    /// A place for a section of the region, paper for its bytes, and room for what its start may post and record.
    ///
    /// # Errors
    ///
    /// `OutOfMemory`.
    pub fn ready_section(&mut self, name: Name) -> Result<SectionKit, OutOfMemory>
        requires room { HasRoom 0 0 0 self.old }
        ensures state { state self.new ≡ state self.old }
        ensures ready { IfOk result (λ kit. IsSectionReady name kit self.new) }
        ensures room { HasRoom 0 0 0 self.new }
    {
        let size = self.size(name);
        let kit = self.section_kit(size)?;
        self.make_section_room(name, count(size))?;
        Ok(kit)
    }

    /// Paper for a section of so many bytes.
    fn section_kit(&self, size: u32) -> Result<SectionKit, OutOfMemory>
        ensures { IfOk result (λ kit. HasPapers size kit) }
    {
        let room = size as usize;
        Ok(SectionKit {
            guard: Paper::new(self.alloc, room)?,
            began: Paper::new(self.alloc, room)?,
            end: Paper::new(self.alloc, room)?,
            sheets: Sheets::new(self.alloc, size)?,
        })
    }

    /// A place for a section of the region, and room for the start of one that may post so many pieces and two more.
    #[tactic(auto, using(crate::proofs::Sizes::same_size))]
    fn make_section_room(&mut self, name: Name, pieces: u32) -> Result<(), OutOfMemory>
        requires room { HasRoom 0 0 0 self.old }
        ensures state { state self.new ≡ state self.old }
        ensures size { size_at name self.new ≡ size_at name self.old }
        ensures ok { OnOk result (HasRoom (pieces + 2) 2 2 self.new) }
        ensures place { OnOk result (HasPlace name self.new.sections.rows) }
        ensures room { HasRoom 0 0 0 self.new }
    {
        self.make_room(pieces as usize + 2, 2, 2)?;
        self.sections.ready(name)
    }

    /// Nothing is kept of a region of which no section is open. This does nothing.
    pub fn note_closed(&self, name: Name)
        requires { section_at name (state self.now).sections ≡ Closed }
        ensures { table_of self.now.sections.rows name ≡ None }
    {
        self.sections.note(name);
    }
}
