//! A create.
ghost use Rattle.std.specs.Prelude.{◌≡◌, ◌+◌, ◌<◌, ◌≤◌, IfOk, None};
ghost use Rattle.crl_model.specs.declared.call.Call.TheVariants.{Create};
ghost use Rattle.crl_protocol.specs.Home.{new_home};
ghost use Rattle.crl_protocol.specs.Calls.{creates};
ghost use Rattle.crl_protocol.specs.Verdict.{verdict};
ghost use Rattle.crl_desk.specs.Desks.{state, acted, HasRoom};
ghost use Rattle.crl_naming.specs.Readied.{HasSerial, CreateIsReady};

use crl_desk::Desk;
use crl_guard::{Reading, Writing};
use crl_home::Home;
use crl_model::OutOfMemory;
use crl_model::activity::Answer;
use crl_model::entry::{Entry, What};

/// The table of a region of `size` zeros, and what its create uses up.
///
/// # Errors
///
/// `OutOfMemory`.
pub fn ready_create(desk: &mut Desk, size: u32) -> Result<Home, OutOfMemory>
    requires room { HasRoom 0 0 0 desk.old }
    ensures state { state desk.new ≡ state desk.old }
    ensures room { HasRoom 0 0 0 desk.new }
    ensures ready { IfOk result (λ home. CreateIsReady size home desk.new) }
{
    desk.make_room(0, 1, 1)?;
    desk.stages.ready_serial()?;
    desk.homes.ready_create(desk.alloc, size)
}

/// A create that isn't refused, with the table of the new region.
pub fn create(desk: &mut Desk, at: u64, size: u32, home: Home) -> Answer<Reading, Writing>
    requires ready { CreateIsReady size home desk.old }
    requires verdict { verdict (state desk.old) (Create size) ≡ None }
    ensures state { state desk.new ≡ acted at (creates size (state desk.old)) }
    ensures answer { result ≡ (creates size (state desk.old)).answer }
    ensures room { HasRoom 0 0 1 desk.new }
{
    let _serial = desk.homes.serial();
    let name = desk.homes.create(home);
    desk.stages.add_live();
    desk.journal.record(
        at,
        Entry {
            node: desk.me,
            what: What::Create { name, size },
        },
    );
    Answer::Made(name)
}
