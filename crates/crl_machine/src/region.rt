//! A region of the single machine, and what each node has of it.
ghost use Rattle.std.specs.Prelude.{◌≡◌, ◌+◌, ◌<◌, ◌≤◌, ℕ, [], max, IsSome, IsOk, OnOk, None, replicate, slice_set, length, vec_capacity};
ghost use Rattle.crl_machine.specs.Tables.{readers_of};
ghost use Rattle.crl_model.specs.declared.TheConstants.{REGION_LIMIT};
ghost use Rattle.crl_model.specs.Stages.{is_there};

use crate::share::Share;
use crl_model::bytes::Bytes;
use crl_model::stage::Stage;
use crl_model::{NodeNo, OutOfMemory, REGION_LIMIT};
use std::alloc::Global;

/// A region that was created. Its bytes are zeros up to its first write section. Before a node maps it it
/// takes no memory besides its own; then there is room for its bytes, and a share of the node.
#[derive(Drop)]
pub struct Region {
    pub stage: Stage,
    size: u32,
    /// What the last write section left, with room for as much; empty before the first.
    written: Vec<u8>,
    /// Of each node, up to the last that mapped the region, what it has of it.
    shares: Vec<Share>,
    /// How many nodes have read sections open.
    pub readers: usize,
    /// The node with a write section open.
    pub writer: Option<NodeNo>,
    ghost readers_fit: { readers ≡ readers_of shares.items },
    ghost some: { 0 < size },
    ghost few: { size ≤ REGION_LIMIT },
    ghost whole: { 0 < length written.items → length written.items ≡ size },
    ghost room: { 0 < length shares.items → size ≤ vec_capacity written },
    ghost writing: { IsSome writer → 0 < length shares.items },
}

impl Region {
    ghost use Rattle.crl_machine.specs.Contents.{bytes_of, share_at};

    /// A live region of zeros that no node has mapped.
    pub fn new(alloc: Global, size: u32) -> Region
        requires some { 0 < size }
        requires few { size ≤ REGION_LIMIT }
        ensures stage { result.stage ≡ Stage.Live }
        ensures size { result.size ≡ size }
        ensures bytes { bytes_of result ≡ replicate size 0 }
        ensures shares { result.shares.items ≡ [] }
        ensures writer { result.writer ≡ None }
    {
        Region {
            stage: Stage::Live,
            size,
            written: Vec::new(alloc),
            shares: Vec::new(alloc),
            readers: 0,
            writer: None,
        }
    }

    /// The number of its bytes.
    pub fn size(&self) -> u32
        ensures { result ≡ length (bytes_of self.now) }
    {
        self.size
    }

    /// Its bytes, given at least as many zeros.
    pub fn bytes<'a>(&'a self, zeros: &'a [u8]) -> &'a [u8]
        requires many { self.now.size ≤ length zeros.now }
        requires zeros { zeros.now ≡ replicate (length zeros.now) 0 }
        ensures { result.now ≡ bytes_of self.now }
    {
        if self.written.is_empty() {
            &zeros[..self.size as usize]
        } else {
            self.written.as_slice()
        }
    }

    /// What the node has of the region.
    pub fn share(&self, node: NodeNo) -> Share
        ensures { result ≡ share_at self.now node }
    {
        match self.shares.get(node as usize) {
            Some(share) => *share,
            None => Share::BLANK,
        }
    }

    /// Makes room for a share of the node, and for the region's bytes.
    ///
    /// # Errors
    ///
    /// `OutOfMemory`, which comes only where the node had no share.
    pub fn ready(&mut self, node: NodeNo) -> Result<(), OutOfMemory>
        ensures stage { self.new.stage ≡ self.old.stage }
        ensures size { self.new.size ≡ self.old.size }
        ensures bytes { bytes_of self.new ≡ bytes_of self.old }
        ensures writer { self.new.writer ≡ self.old.writer }
        ensures shares { (m : ℕ) → share_at self.new m ≡ share_at self.old m }
        ensures few { length self.new.shares.items ≤ max (length self.old.shares.items) (node + 1) }
        ensures ok { OnOk result (node < length self.new.shares.items) }
        ensures succeeds { node < length self.old.shares.items → IsOk result }
    {
        if (node as usize) < self.shares.len() {
            return Ok(());
        }
        self.written
            .reserve_exact(self.size as usize - self.written.len())?;
        self.shares.resize(node as usize + 1, Share::BLANK)?;
        Ok(())
    }

    /// Puts the node's share.
    pub fn put_share(&mut self, node: NodeNo, share: Share)
        requires { node < length self.old.shares.items }
        ensures shares { self.new.shares.items ≡ slice_set self.old.shares.items node share }
        ensures stage { self.new.stage ≡ self.old.stage }
        ensures size { self.new.size ≡ self.old.size }
        ensures bytes { bytes_of self.new ≡ bytes_of self.old }
        ensures writer { self.new.writer ≡ self.old.writer }
    {
        let old = self.shares[node as usize];
        if old.reads > 0 {
            self.readers -= 1;
        }
        if share.reads > 0 {
            self.readers += 1;
        }
        self.shares[node as usize] = share;
    }

    /// Notes the node, one with a share, that has a write section open.
    pub fn put_writer(&mut self, writer: Option<NodeNo>)
        requires { IsSome writer → 0 < length self.old.shares.items }
        ensures writer { self.new.writer ≡ writer }
        ensures shares { self.new.shares.items ≡ self.old.shares.items }
        ensures stage { self.new.stage ≡ self.old.stage }
        ensures size { self.new.size ≡ self.old.size }
        ensures bytes { bytes_of self.new ≡ bytes_of self.old }
    {
        self.writer = writer;
    }

    /// Puts these bytes, of the same length, in the place of the old ones.
    pub fn overwrite(&mut self, bytes: &Bytes)
        requires len { length (bytes_of self.old) ≡ length bytes.now }
        requires shared { 0 < length self.old.shares.items }
        ensures bytes { bytes_of self.new ≡ bytes.now }
        ensures shares { self.new.shares.items ≡ self.old.shares.items }
        ensures stage { self.new.stage ≡ self.old.stage }
        ensures size { self.new.size ≡ self.old.size }
        ensures writer { self.new.writer ≡ self.old.writer }
    {
        self.written.clear();
        match self.written.extend_from_slice(bytes.as_slice()) {
            Ok(()) => {}
            Err(_) => unreachable!(),
        }
    }

    /// Moves the region to another stage.
    pub fn put_stage(&mut self, stage: Stage)
        ensures stage { self.new.stage ≡ stage }
        ensures size { self.new.size ≡ self.old.size }
        ensures bytes { bytes_of self.new ≡ bytes_of self.old }
        ensures shares { self.new.shares.items ≡ self.old.shares.items }
        ensures writer { self.new.writer ≡ self.old.writer }
    {
        self.stage = stage;
    }

    /// Whether the region's delete isn't done.
    pub fn is_there(&self) -> bool
        ensures { result ≡ is_there self.now.stage }
    {
        matches!(self.stage, Stage::Live | Stage::Going(_))
    }
}
