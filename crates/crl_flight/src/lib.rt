//! What is under way between nodes whose messages travel in pieces. There is no code here but an empty function, whose
//! contract is the theorem.
#![tactic(auto)]

ghost use Rattle.std.specs.Prelude.{◌≡◌, ℕ, List, ◌++◌, map};
ghost use Rattle.crl_model.specs.declared.message.Message.{Message};
ghost use Rattle.crl_protocol.specs.Parcels.{Piece, PartsGathered};
ghost use Rattle.crl_flight.specs.Flight.{Under, IsFlight, posted, messages_of};
ghost use Rattle.crl_flight.specs.Coming.{FlightGoesOn};

/// A posting adds its messages to what is under way. A carriage changes nothing of it. A piece that comes takes its
/// message out, whole, where it is the last of it; else the messages under way stay as they are. Where no piece is in a
/// box, nothing is under way.
pub fn flight_has_its_facts()
    ensures goes_on { (us : List Under) (boxes : List Piece) (gathered : ℕ → PartsGathered) → IsFlight us boxes gathered → FlightGoesOn us boxes gathered }
    ensures adds { (us : List Under) (ms : List Message) → messages_of (us ++ map posted ms) ≡ messages_of us ++ ms }
{}
