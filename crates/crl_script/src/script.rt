//! Scripts, and what they consist of.
ghost use Rattle.std.specs.Prelude.{◌≡◌, ◌<◌, ◌≤◌, ◌^◌, ◌↔◌, IsTrue, length, map, sum, slice_get};
ghost use Rattle.crl_script.specs.Again.{AllStatements, IsScript};

use crl_model::NodeNo;
use crl_model::statement::Statement;
use std::marker::Model;

/// The most statements that a script may have to be run.
const STATEMENT_LIMIT: usize = 1 << 40;

/// A script: how many copies of regions a node keeps, and what each node does.
#[derive(Drop)]
pub struct Script {
    cache: u16,
    blocks: Vec<Vec<Statement>>,
}

impl Model for Script {
    ghost use Rattle.std.specs.Prelude.{◌<◌, ◌≤◌, ◌^◌, map, length};
    ghost use Rattle.crl_script.specs.Again.{AllStatements};
    ghost use Rattle.crl_script.specs.Program.{Program};

    ghost Value = { Program };

    ghost view = { λ s. record { nodes = length s.blocks.items; cache = s.cache; blocks = map (λ b. b.items) s.blocks.items } };

    ghost invariant = { λ s. (1 ≤ length s.blocks.items) × (length s.blocks.items ≤ 64) × (s.cache < 2 ^ 16) × AllStatements (map (λ b. b.items) s.blocks.items) };
}

impl Script {
    /// The script of these statements, a block for each node, 1 to 64. Each statement is one that a line makes.
    pub fn new(cache: u16, blocks: Vec<Vec<Statement>>) -> Script
        requires some { 1 ≤ length blocks.items }
        requires limit { length blocks.items ≤ 64 }
        requires statements { AllStatements (map (λ b. b.items) blocks.items) }
        ensures { result ≡ record { nodes = length blocks.items; cache = cache; blocks = map (λ b. b.items) blocks.items } }
    {
        Script { cache, blocks }
    }

    /// The number of nodes, 1 to 64.
    pub fn nodes(&self) -> NodeNo
        ensures count { result ≡ self.now.nodes }
        ensures some { 1 ≤ result }
        ensures limit { result ≤ 64 }
        ensures blocks { length self.now.blocks ≡ result }
        ensures script { IsScript self.now }
    {
        self.blocks.len() as NodeNo
    }

    /// How many copies of regions a node keeps.
    pub fn cache(&self) -> u16
        ensures { result ≡ self.now.cache }
    {
        self.cache
    }

    /// The statements of a node, in order.
    pub fn statements(&self, node: NodeNo) -> &[Statement]
        requires { node < self.now.nodes }
        ensures { slice_get self.now.blocks node ≡ Some result.now }
    {
        self.blocks[node as usize].as_slice()
    }

    /// The statements of each node, by ascending node.
    pub fn blocks(&self) -> &[Vec<Statement>]
        ensures { map (λ b. b.items) result.now ≡ self.now.blocks }
    {
        self.blocks.as_slice()
    }

    /// Whether the script has at most 2^40 statements in all.
    pub fn fits(&self) -> bool
        ensures { IsTrue result ↔ (sum (map length self.now.blocks) ≤ 2 ^ 40) }
    {
        within_limit(self.blocks.as_slice())
    }
}

/// Whether these blocks have at most 2^40 statements in all.
fn within_limit(blocks: &[Vec<Statement>]) -> bool
    ensures { IsTrue result ↔ (sum (map length (map (λ b. b.items) blocks.now)) ≤ 2 ^ 40) }
{
    let mut left = STATEMENT_LIMIT;
    for block in blocks {
        if block.len() > left {
            return false;
        }
        left -= block.len();
    }
    true
}
