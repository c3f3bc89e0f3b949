//! That a node's place in its script, with its guards, stands for the definition's actor. There is no code here but empty
//! functions, whose contracts are the theorems.
ghost use Rattle.std.specs.Prelude.{List, []};
ghost use Rattle.crl_model.specs.declared.statement.Statement.{Statement};
ghost use Rattle.crl_protocol.specs.Chosen.{new_actor};
ghost use Rattle.crl_run.specs.Actors.{IsActor, PlayersTake, PlayersKeep};

/// A node that did nothing yet is where its script begins. It stays where the definition has it when it takes its next
/// statement, and when it keeps the guard of an answer.
pub fn players_are_actors()
    ensures begins { (statements : List Statement) → IsActor statements 0 [] (new_actor statements) }
    ensures takes { PlayersTake }
    ensures keeps { PlayersKeep }
{}
