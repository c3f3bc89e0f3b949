//! What a node shows of its outbox and its homes.
ghost use Rattle.std.specs.Prelude.{◌≡◌, ◌<◌, length};
ghost use Rattle.std.specs.Option.{option_copied};
ghost use Rattle.crl_protocol.specs.Places.{take_out};
ghost use Rattle.crl_protocol.specs.Node.{at_serial};
ghost use Rattle.crl_desk.specs.Desks.{state};
ghost use Rattle.crl_member.specs.Members.{addressee_of, bytes_of_home};

use crl_desk::Desk;
use crl_model::NodeNo;
use crl_model::name::Name;
use crl_outbox::Mailbox;

/// The addressee of the piece at this place.
pub(crate) fn addressee_in(outbox: &Mailbox, place: usize) -> NodeNo
    requires { place < length outbox.now.list }
    ensures { result ≡ addressee_of (take_out place outbox.now.list) }
{
    outbox.piece(place).message.addressee
}

/// The bytes of the region's table, if there is one.
pub(crate) fn table_bytes(desk: &Desk, name: Name) -> Option<&[u8]>
    ensures { option_copied result ≡ bytes_of_home (at_serial name.serial (state desk.now).homes) }
{
    if desk.homes.size(name).is_some() {
        return Some(desk.homes.bytes(name));
    }
    None
}
