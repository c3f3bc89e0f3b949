//! `order`: the run of a script, and its account.
ghost use Rattle.std.specs.Prelude.{◌≤◌, ◌+◌, IfOk, length};
ghost use Rattle.crl_order.specs.Words.{words_to_come};
ghost use Rattle.crl_cli.specs.Outcome.{SaysOrder};

use crate::SCRIPT_LIMIT;
use crate::account::{Unread, account_of, script_of};
use crate::outcome::Outcome;
use crate::running::run_script;
use crl_model::OutOfMemory;
use crl_order::Order;
use std::alloc::Global;

/// The run of the script that these bytes are, under this order.
pub(crate) fn order_text(alloc: Global, bytes: &[u8], order: Order) -> Result<Outcome, OutOfMemory>
    requires { length bytes.now ≤ SCRIPT_LIMIT + 1 }
    ensures { IfOk result (λ o. SaysOrder (words_to_come order) o.status bytes.now o.text.items) }
{
    match script_of(alloc, bytes) {
        Ok(script) => {
            let ended = run_script(alloc, &script, order)?;
            account_of(alloc, &ended)
        }
        Err(Unread::Bad(outcome)) => Ok(outcome),
        Err(Unread::OutOfMemory) => Err(OutOfMemory),
    }
}
