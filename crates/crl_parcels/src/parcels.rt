//! The pieces that came to a node of messages of which some are missing.
ghost use Rattle.std.specs.Prelude.{◌≡◌, ◌+◌, ◌<◌, ◌≤◌, [], true, None, IsSome, IfSome, MatchOption, OnOk, OnErr, is_some, length};
ghost use Rattle.crl_pieces.specs.Pieces as pieces;
ghost use Rattle.crl_protocol.specs.Parcels.{at_key, slots_or};
ghost use Rattle.crl_parcels.specs.ParcelKeys.{key_of_parcel};
ghost use Rattle.crl_parcels.specs.ParcelsState.{parcels_of, sizes_of, gathering_in};
ghost use Rattle.crl_parcels.specs.PieceComes.{IsReadyFor, IsOfSize, slots_after, whole_of, kept_of, size_kept, size_at_key, gathering_kept, IsChangedAt, IsFoundAt};

use crate::key::{ParcelKey, is_key};
use crate::parcel::Parcel;
use crl_model::OutOfMemory;
use crl_model::bytes::Bytes;
use crl_pieces::gather::Gather;
use std::alloc::Global;
use std::marker::Model;

/// The pieces that came to a node of messages of which some are missing. A contract sees it as a
/// `ParcelsState`. Only `ready` takes memory. Finding a key looks at each message once.
#[derive(Drop)]
pub struct Parcels {
    list: Vec<Parcel>,
}

impl Model for Parcels {
    ghost use Rattle.std.specs.Prelude.{◌-◌, vec_len, vec_capacity};
    ghost use Rattle.crl_parcels.specs.ParcelsState.{ParcelsState, AreApart};

    ghost Value = { ParcelsState };

    ghost view = { λ p. record { list = p.list.items; room = vec_capacity p.list - vec_len p.list } };

    ghost invariant = { λ p. AreApart p.list.items };
}

impl Parcels {
    /// No piece came of any message.
    pub fn new(alloc: Global) -> Parcels
        ensures list { result.list ≡ [] }
        ensures nothing { parcels_of result ≡ (λ key. None) }
    {
        Parcels {
            list: Vec::new(alloc),
        }
    }

    /// Room for one message more.
    ///
    /// # Errors
    ///
    /// `OutOfMemory`. Nothing changes.
    pub fn ready(&mut self) -> Result<(), OutOfMemory>
        ensures list { self.new.list ≡ self.old.list }
        ensures ok { OnOk result (0 < self.new.room) }
        ensures more { self.old.room ≤ self.new.room }
        ensures err { OnErr result (self.new ≡ self.old) }
    {
        self.list.reserve(1)
    }

    /// Whether a piece came of the message with this key.
    pub fn has(&self, key: ParcelKey) -> bool
        ensures { result ≡ is_some (parcels_of self.now (key_of_parcel key)) }
    {
        place_of(self.list.as_slice(), key).is_some()
    }

    /// Whether the piece of this index of the message with this key, which has so many pieces if none of
    /// them came, is one of its pieces and didn't come.
    pub fn is_missing(&self, key: ParcelKey, index: u32, number: u32) -> bool
        ensures { result ≡ pieces.is_missing index (slots_or number (parcels_of self.now (key_of_parcel key))) }
    {
        match place_of(self.list.as_slice(), key) {
            Some(place) => self.list[place].gather.is_missing(index),
            None => index < number,
        }
    }

    /// How many bytes the message with this key carries, if a piece of it came.
    pub fn size_of(&self, key: ParcelKey) -> Option<u32>
        ensures { result ≡ sizes_of self.now (key_of_parcel key) }
    {
        match place_of(self.list.as_slice(), key) {
            Some(place) => Some(self.list[place].gather.size()),
            None => None,
        }
    }

    /// The piece of this index, which is missing, comes of the message with this key, that carries the
    /// bytes of a region of this size. If no other is missing, answers the whole, and forgets the message.
    /// `blank` is needed if no other piece came. This takes no memory.
    pub fn add(
        &mut self,
        key: ParcelKey,
        index: u32,
        part: &[u8],
        size: u32,
        blank: Option<Gather>,
    ) -> Option<Bytes>
        requires missing { pieces.is_missing index (slots_or (pieces.count size) (parcels_of self.old (key_of_parcel key))) ≡ true }
        requires fits { length part.now ≡ pieces.piece_size size index }
        requires size { IsOfSize size (sizes_of self.old (key_of_parcel key)) }
        requires ready { IsReadyFor size (parcels_of self.old (key_of_parcel key)) blank self.old.room }
        ensures whole { result ≡ whole_of (slots_after key index part.now size self.old) }
        ensures parcels { parcels_of self.new ≡ at_key (parcels_of self.old) (key_of_parcel key) (kept_of (slots_after key index part.now size self.old)) }
        ensures sizes { sizes_of self.new ≡ size_at_key (sizes_of self.old) (key_of_parcel key) (size_kept size (slots_after key index part.now size self.old)) }
        ensures places { length self.new.list + self.new.room ≡ length self.old.list + self.old.room }
    {
        let gather = self.take(key).or(blank).unwrap();
        self.put(key, gather, index, part)
    }

    /// Takes out what came of the message with this key, if any of it came.
    fn take(&mut self, key: ParcelKey) -> Option<Gather>
        ensures gather { result ≡ gathering_in (key_of_parcel key) self.old.list }
        ensures list { IsChangedAt (key_of_parcel key) None self.old.list self.new.list }
        ensures room { IfSome result (λ g. 0 < self.new.room) }
        ensures more { self.old.room ≤ self.new.room }
        ensures places { length self.new.list + self.new.room ≡ length self.old.list + self.old.room }
    {
        match place_of(self.list.as_slice(), key) {
            Some(place) => Some(self.list.remove(place).gather),
            None => None,
        }
    }

    /// Adds a piece to what came of the message with this key, which isn't kept. Answers the whole if no
    /// piece is missing; else keeps what came.
    fn put(&mut self, key: ParcelKey, gather: Gather, index: u32, part: &[u8]) -> Option<Bytes>
        requires apart { gathering_in (key_of_parcel key) self.old.list ≡ None }
        requires missing { pieces.is_missing index gather.slots ≡ true }
        requires fits { length part.now ≡ pieces.piece_size gather.size index }
        requires room { 0 < self.old.room }
        ensures whole { result ≡ whole_of (pieces.with_piece index part.now gather.slots) }
        ensures list { IsChangedAt (key_of_parcel key) (gathering_kept gather.size (pieces.with_piece index part.now gather.slots)) self.old.list self.new.list }
        ensures places { length self.new.list + self.new.room ≡ length self.old.list + self.old.room }
    {
        let mut gather = gather;
        if gather.add(index, part) {
            return Some(gather.into_whole());
        }
        self.list.push_reserved(Parcel { key, gather });
        None
    }
}

/// The place of the message with this key, if it is there.
fn place_of(list: &[Parcel], key: ParcelKey) -> Option<usize>
    ensures { MatchOption result (gathering_in (key_of_parcel key) list.now ≡ None) (IsFoundAt (key_of_parcel key) list.now) }
{
    for place in 0..list.len() {
        if is_key(key, list[place].key) {
            return Some(place);
        }
    }
    None
}
