//! `gen`: the script that a recipe makes.
ghost use Rattle.std.specs.Prelude.{◌≡◌, IfOk};
ghost use Rattle.crl_commands.specs.Commands.{IsRecipe};
ghost use Rattle.crl_script.specs.Again.{IsPrintable};
ghost use Rattle.crl_cli.specs.Outcome.{SaysMade};
ghost use Rattle.crl_cli.specs.Runs.{made_of};

use crate::outcome::Outcome;
use crate::status::Status;
use crl_commands::command::Recipe;
use crl_gen::make;
use crl_model::OutOfMemory;
use crl_script::{Script, print_script};
use std::alloc::Global;

/// The script that a recipe makes.
pub(crate) fn made_of(alloc: Global, recipe: Recipe) -> Result<Script, OutOfMemory>
    requires { IsRecipe recipe }
    ensures made { IfOk result (λ script. script ≡ made_of recipe) }
    ensures printable { IfOk result IsPrintable }
{
    make(
        alloc,
        recipe.seed,
        recipe.nodes,
        recipe.regions,
        recipe.rounds,
    )
}

/// The text of that script.
pub(crate) fn generate(alloc: Global, recipe: Recipe) -> Result<Outcome, OutOfMemory>
    requires { IsRecipe recipe }
    ensures { IfOk result (λ o. SaysMade recipe o.status o.text.items) }
{
    let script = made_of(alloc, recipe)?;
    let text = print_script(alloc, &script)?;
    Ok(Outcome {
        status: Status::Ok,
        text,
    })
}
