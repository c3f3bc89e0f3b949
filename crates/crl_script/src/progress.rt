//! What is read of a script so far, and how each line goes on from there.
ghost use Rattle.std.specs.Prelude.{◌≡◌, ◌==◌, ◌+◌, ◌<◌, ◌≤◌, ◌^◌, ◌++◌, ◌∷◌, [], length, map, replicate, slice_set, slice_index_or, vec_len, OnOk};
ghost use Rattle.std.specs.List.{list_any};
ghost use Rattle.crl_script.specs.Labels.{names_in, names_at};
ghost use Rattle.crl_script.specs.Progress.{start, nodes_line, cache_line, node_line, create_line, other_line, statement_line, line_at, line_of, with_statement};
ghost use Rattle.crl_script.specs.Reading.{Gives, Changes};
ghost use Rattle.crl_script.specs.Seen.{line_seen, seen, Leads};
ghost use Rattle.crl_script.specs.Statements.{kind_of};
ghost use Rattle.crl_script.specs.Text.{words_of, is_comment};

use crate::fault::{LineFault, ScriptWhy};
use crate::label::{Known, Labels, give};
use crate::line::{Piece, Words, next_word, split_words};
use crate::place::Place;
use crate::sentence::{kind, statement};
use crate::word::{is_label, number, short_number};
use crl_model::call::Call;
use crl_model::name::Name;
use crl_model::statement::Statement;
use crl_model::{NODE_LIMIT, NodeNo};
use std::alloc::Global;
use std::collections::BTreeMap;

/// The most bytes of a line.
const LINE_LIMIT: usize = 140_000;

/// How many copies of regions a node keeps, where the script doesn't say.
const CACHE: u16 = 16;

/// What is read of a script so far.
#[derive(Drop)]
pub struct Reading<'a> {
    pub place: Place,
    pub cache: u16,
    /// The nodes whose blocks have begun.
    pub begun: Vec<NodeNo>,
    /// The names of the labels created so far.
    pub labels: Labels<'a>,
    /// How many of them the present block created.
    pub made: u32,
    /// Each node's statements.
    pub blocks: Vec<Vec<Statement>>,
}

/// So many empty blocks.
fn empty_blocks(alloc: Global, nodes: NodeNo) -> Result<Vec<Vec<Statement>>, LineFault>
    ensures { Gives (λ v. map (λ b. b.items) v.items) result (Ok (replicate nodes [])) }
{
    let mut blocks = Vec::new(alloc);
    for _ in 0..nodes {
        blocks.push(Vec::new(alloc))?;
    }
    Ok(blocks)
}

/// Puts a statement at the end of a node's block.
fn put_statement(
    blocks: &mut Vec<Vec<Statement>>,
    node: NodeNo,
    statement: Statement,
) -> Result<(), LineFault>
    ensures len { vec_len blocks.new ≡ vec_len blocks.old }
    ensures put { Changes result (map (λ b. b.items) blocks.new.items)
        (slice_set (map (λ b. b.items) blocks.old.items) node (slice_index_or (map (λ b. b.items) blocks.old.items) node [] ++ statement ∷ [])) }
{
    if let Some(block) = blocks.get_mut(node as usize) {
        block.push(statement)?;
    }
    Ok(())
}

/// Whether a node is among these.
fn is_among(nodes: &[NodeNo], node: NodeNo) -> bool
    ensures { result ≡ list_any (λ k. k == node) nodes.now }
{
    nodes.contains(&node)
}

impl<'a> Reading<'a> {
    /// Before the first line.
    pub fn new(alloc: Global) -> Reading<'a>
        ensures { seen result ≡ start }
    {
        Reading {
            place: Place::Start,
            cache: CACHE,
            begun: Vec::new(alloc),
            labels: BTreeMap::new(alloc),
            made: 0,
            blocks: Vec::new(alloc),
        }
    }

    /// Reads `nodes N`.
    #[tactic(auto, unfolding(crate::specs::Progress::nodes_line))]
    fn nodes_line(&mut self, alloc: Global, rest: &[u8]) -> Result<(), LineFault>
        ensures read { Leads result (seen self.new) (nodes_line (seen self.old) (words_of rest.now)) }
        ensures made { self.new.made ≤ self.old.made }
        ensures blocks { OnOk result (vec_len self.new.blocks ≤ 64) }
    {
        let Words::One(word) = split_words(rest) else {
            return Err(LineFault::Bad(ScriptWhy::BadWord));
        };
        let nodes = number(word, u64::MAX, ScriptWhy::BadNumber)?;
        if nodes < 1 || nodes > NODE_LIMIT as u64 {
            return Err(LineFault::Bad(ScriptWhy::BadNodes));
        }
        self.blocks = empty_blocks(alloc, nodes as NodeNo)?;
        self.place = Place::Head;
        Ok(())
    }

    /// Reads `cache C`.
    #[tactic(auto, unfolding(crate::specs::Progress::cache_line))]
    fn cache_line(&mut self, rest: &[u8]) -> Result<(), LineFault>
        ensures read { Leads result (seen self.new) (cache_line (seen self.old) (words_of rest.now)) }
        ensures made { self.new.made ≤ self.old.made }
        ensures blocks { vec_len self.new.blocks ≡ vec_len self.old.blocks }
    {
        let Words::One(word) = split_words(rest) else {
            return Err(LineFault::Bad(ScriptWhy::BadWord));
        };
        let cache = number(word, u16::MAX as u64, ScriptWhy::BadNumber)?;
        self.cache = cache as u16;
        self.place = Place::Outside;
        Ok(())
    }

    /// Reads `node I`.
    #[tactic(auto, unfolding(crate::specs::Progress::node_line))]
    fn node_line(&mut self, rest: &[u8]) -> Result<(), LineFault>
        requires { vec_len self.old.blocks ≤ 64 }
        ensures read { Leads result (seen self.new) (node_line (seen self.old) (words_of rest.now)) }
        ensures made { self.new.made ≤ self.old.made }
        ensures blocks { vec_len self.new.blocks ≡ vec_len self.old.blocks }
    {
        let Words::One(word) = split_words(rest) else {
            return Err(LineFault::Bad(ScriptWhy::BadWord));
        };
        let number = short_number(word, ScriptWhy::BadNumber)?;
        if number as usize >= self.blocks.len() {
            return Err(LineFault::Bad(ScriptWhy::BadNode));
        }
        let node = number as NodeNo;
        if is_among(self.begun.as_slice(), node) {
            return Err(LineFault::Bad(ScriptWhy::TwiceNode));
        }
        self.begun.push(node)?;
        self.made = 0;
        self.place = Place::Inside(node);
        Ok(())
    }

    /// Reads `create L SIZE` in a node's block.
    #[tactic(auto, unfolding(crate::specs::Progress::create_line, crate::specs::Progress::with_statement))]
    fn create_line(&mut self, node: NodeNo, rest: &'a [u8]) -> Result<(), LineFault>
        requires { self.old.made + 1 < 2 ^ 32 }
        ensures read { Leads result (seen self.new) (create_line (seen self.old) node (words_of rest.now)) }
        ensures made { self.new.made ≤ self.old.made + 1 }
        ensures blocks { vec_len self.new.blocks ≡ vec_len self.old.blocks }
    {
        let Words::Two(label, size) = split_words(rest) else {
            return Err(LineFault::Bad(ScriptWhy::BadWord));
        };
        if !is_label(label) {
            return Err(LineFault::Bad(ScriptWhy::BadWord));
        }
        if self.labels.contains_key(&label) {
            return Err(LineFault::Bad(ScriptWhy::TwiceLabel));
        }
        let size = short_number(size, ScriptWhy::BadSize)?;
        let create = Statement::Call(Call::Create { size });
        put_statement(&mut self.blocks, node, create)?;
        self.made += 1;
        give(&mut self.labels, label, Name::new(node, self.made))
    }

    /// Reads a statement but for `create` in a node's block.
    #[tactic(auto, unfolding(crate::specs::Progress::other_line, crate::specs::Progress::with_statement))]
    fn other_line(
        &mut self,
        alloc: Global,
        known: Known<'_, 'a>,
        node: NodeNo,
        word: &[u8],
        rest: &[u8],
    ) -> Result<(), LineFault>
        ensures read { Leads result (seen self.new) (other_line (names_at known.entry (names_in self.old.labels)) (seen self.old) node (kind_of word.now) (words_of rest.now)) }
        ensures made { self.new.made ≤ self.old.made }
        ensures blocks { vec_len self.new.blocks ≡ vec_len self.old.blocks }
    {
        let Some(kind) = kind(word) else {
            return Err(LineFault::Bad(ScriptWhy::BadWord));
        };
        let statement = statement(alloc, known.labels(&self.labels), kind, rest)?;
        put_statement(&mut self.blocks, node, statement)
    }

    /// Reads a statement in a node's block.
    #[tactic(auto, unfolding(crate::specs::Progress::statement_line))]
    fn statement_line(
        &mut self,
        alloc: Global,
        known: Known<'_, 'a>,
        node: NodeNo,
        word: &[u8],
        rest: &'a [u8],
    ) -> Result<(), LineFault>
        requires { self.old.made + 1 < 2 ^ 32 }
        ensures read { Leads result (seen self.new) (statement_line (names_at known.entry (names_in self.old.labels)) (seen self.old) node word.now (words_of rest.now)) }
        ensures made { self.new.made ≤ self.old.made + 1 }
        ensures blocks { vec_len self.new.blocks ≡ vec_len self.old.blocks }
    {
        if word == b"create".as_slice() {
            return self.create_line(node, rest);
        }
        self.other_line(alloc, known, node, word, rest)
    }

    /// Reads a line that begins with this word.
    #[tactic(auto, unfolding(crate::specs::Progress::line_at))]
    fn line_at(
        &mut self,
        alloc: Global,
        known: Known<'_, 'a>,
        word: &[u8],
        rest: &'a [u8],
    ) -> Result<(), LineFault>
        requires made { self.old.made + 1 < 2 ^ 32 }
        requires blocks { vec_len self.old.blocks ≤ 64 }
        ensures read { Leads result (seen self.new) (line_at (names_at known.entry (names_in self.old.labels)) (seen self.old) self.old.place word.now (words_of rest.now)) }
        ensures made { self.new.made ≤ self.old.made + 1 }
        ensures blocks { OnOk result (vec_len self.new.blocks ≤ 64) }
    {
        match self.place {
            Place::Start if word == b"nodes".as_slice() => self.nodes_line(alloc, rest),
            Place::Start => Err(LineFault::Bad(ScriptWhy::NoNodes)),
            _ if word == b"node".as_slice() => self.node_line(rest),
            Place::Head if word == b"cache".as_slice() => self.cache_line(rest),
            Place::Inside(node) => self.statement_line(alloc, known, node, word, rest),
            _ => Err(LineFault::Bad(ScriptWhy::BadWord)),
        }
    }

    /// Reads a line. After an error what was read is of no use.
    #[tactic(auto, unfolding(crate::specs::Progress::line_of))]
    pub fn line(
        &mut self,
        alloc: Global,
        known: Known<'_, 'a>,
        piece: Piece<'a>,
    ) -> Result<(), LineFault>
        requires made { self.old.made + 1 < 2 ^ 32 }
        requires blocks { vec_len self.old.blocks ≤ 64 }
        ensures read { Leads result (seen self.new) (line_of (names_at known.entry (names_in self.old.labels)) (seen self.old) (line_seen piece.entry)) }
        ensures made { self.new.made ≤ self.old.made + 1 }
        ensures blocks { OnOk result (vec_len self.new.blocks ≤ 64) }
    {
        if piece.size > LINE_LIMIT {
            return Err(LineFault::Bad(ScriptWhy::LineTooLong));
        }
        match next_word(piece.bytes) {
            None => Ok(()),
            Some((word, rest)) => {
                if is_comment(word) {
                    return Ok(());
                }
                self.line_at(alloc, known, word, rest)
            }
        }
    }
}

/// Whether a word makes its line a comment.
fn is_comment(word: &[u8]) -> bool
    ensures { result ≡ is_comment word.now }
{
    !word.is_empty() && word[0] == b'#'
}
