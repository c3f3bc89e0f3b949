//! What a script is made from, as its words say.
ghost use Rattle.std.specs.Prelude.{◌≡◌, ◌∷◌, [], ◌≤◌, IfSome, map};
ghost use Rattle.crl_commands.specs.Commands.{IsRecipe, number_of, recipe_of, recipe_within};

use crate::command::Recipe;
use crl_model::{NODE_LIMIT, NodeNo};
use crl_script::natural;

/// The most statements of all nodes together.
const STATEMENT_LIMIT: u64 = 200_000;

/// The most regions of all nodes together.
const ALL_REGION_LIMIT: u64 = 64_000;

/// The recipe that the words are: `SEED NODES REGIONS ROUNDS`.
pub(crate) fn recipe_of(words: &[&str]) -> Option<Recipe>
    ensures recipe { result ≡ recipe_of (map (λ w. w.now) words.now) }
    ensures sound { IfSome result IsRecipe }
{
    match words {
        [seed, nodes, regions, rounds] => recipe_by(seed, nodes, regions, rounds),
        _ => None,
    }
}

/// The recipe of four words.
fn recipe_by(seed: &str, nodes: &str, regions: &str, rounds: &str) -> Option<Recipe>
    ensures recipe { result ≡ recipe_of (seed.now ∷ nodes.now ∷ regions.now ∷ rounds.now ∷ []) }
    ensures sound { IfSome result IsRecipe }
{
    let seed = number_of(seed, 0, u64::MAX)?;
    let nodes = number_of(nodes, 1, NODE_LIMIT as u64)?;
    let regions = number_of(regions, 1, 1_000)?;
    let rounds = number_of(rounds, 0, 10_000)?;
    recipe_within(seed, nodes, regions, rounds)
}

/// The recipe of four numbers, where they are not too many together.
fn recipe_within(seed: u64, nodes: u64, regions: u64, rounds: u64) -> Option<Recipe>
    requires some_node { 1 ≤ nodes }
    requires nodes { nodes ≤ 64 }
    requires some_region { 1 ≤ regions }
    requires regions { regions ≤ 1000 }
    requires rounds { rounds ≤ 10000 }
    ensures recipe { result ≡ recipe_within seed nodes regions rounds }
    ensures sound { IfSome result IsRecipe }
{
    if nodes * rounds > STATEMENT_LIMIT || nodes * regions > ALL_REGION_LIMIT {
        return None;
    }
    Some(Recipe {
        seed,
        nodes: nodes as NodeNo,
        regions: regions as u16,
        rounds: rounds as u32,
    })
}

/// The number from `low` to `high` that a word is.
pub(crate) fn number_of(word: &str, low: u64, high: u64) -> Option<u64>
    ensures value { result ≡ number_of low high word.now }
    ensures within { IfSome result (λ n. (low ≤ n) × (n ≤ high)) }
{
    match natural(word.as_bytes()) {
        Some(number) if number >= low as u128 && number <= high as u128 => Some(number as u64),
        _ => None,
    }
}
