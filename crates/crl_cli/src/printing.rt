//! The printing of an outcome.
ghost use Rattle.std.specs.Prelude.{◌≡◌, ◌≤◌, IfOk};
ghost use Rattle.crl_outside.specs.Faults.{Rose};
ghost use Rattle.crl_cli.specs.Answers.{Prints, IsAnswered};
ghost use Rattle.crl_cli.specs.Outcome.{Asked, Comes};

use crate::outcome::Outcome;
use crate::status::Status;
use crl_model::OutOfMemory;
use crl_outside::sink::Sink;
use crl_outside::whole::push_all;

/// Prints the text of an outcome, and gives its status. Without one memory was wanting.
pub(crate) fn print<K: Sink>(sink: &mut K, outcome: Result<Outcome, OutOfMemory>) -> Status
    requires { IfOk outcome IsAnswered }
    ensures prints { (a : Asked) → IfOk outcome (λ o. Comes a o.status o.text.items) → Prints a (K.held sink.old) (K.held sink.new) result }
    ensures write_fault { result ≡ Status.WriteFault → Rose (K.faults sink.old) (K.faults sink.new) }
    ensures unprinted { result ≡ Status.OutOfMemory → sink.new ≡ sink.old }
    ensures faults { K.faults sink.old ≤ K.faults sink.new }
{
    let Ok(outcome) = outcome else {
        return Status::OutOfMemory;
    };
    match push_all(sink, outcome.text.as_slice()) {
        Ok(()) => outcome.status,
        Err(_) => Status::WriteFault,
    }
}
