//! Pieces of messages in their order, with places for more of them.
ghost use Rattle.std.specs.Prelude.{◌≡◌, ◌+◌, ◌-◌, ◌<◌, ◌≤◌, ◌++◌, ◌∷◌, [], Some, OnOk, OnErr, length, take, drop, slice_index_or, min};
ghost use Rattle.crl_protocol.specs.Places.{take_out};
ghost use Rattle.crl_protocol.specs.Parcels.{load_of, pieces_of};
ghost use Rattle.crl_pieces.specs.Pieces as pieces;
ghost use Rattle.crl_pieces.specs.declared.TheConstants.{PIECE_LEN as PIECE};
ghost use Rattle.crl_outbox.specs.Covers.{message_with};
ghost use Rattle.crl_outbox.specs.Stacks.{AreSheets};

use crate::cover::Cover;
use crate::paper::{Paper, Sheets};
use crl_model::OutOfMemory;
use crl_model::message::Message;
use crl_model::piece::Piece;
use crl_pieces::PIECE_LEN;
use std::alloc::Global;
use std::marker::Model;

/// The outbox or the inbox of a node: pieces of messages, the oldest first, with places for more of
/// them. A contract sees it as a `MailboxState`. Only `reserve` takes memory.
#[derive(Drop)]
pub struct Mailbox {
    held: Vec<Piece>,
}

impl Model for Mailbox {
    ghost use Rattle.std.specs.Prelude.{◌-◌, vec_len, vec_capacity};
    ghost use Rattle.crl_outbox.specs.MailboxState.{MailboxState};

    ghost Value = { MailboxState };

    ghost view = { λ m. record { list = m.held.items; room = vec_capacity m.held - vec_len m.held } };
}

impl Mailbox {
    /// No piece, and no place.
    pub fn new(alloc: Global) -> Mailbox
        ensures { result.list ≡ [] }
    {
        Mailbox {
            held: Vec::new(alloc),
        }
    }

    /// At least so many places.
    ///
    /// # Errors
    ///
    /// `OutOfMemory`. The mailbox is as it was.
    pub fn reserve(&mut self, places: usize) -> Result<(), OutOfMemory>
        ensures list { self.new.list ≡ self.old.list }
        ensures ok { OnOk result (places ≤ self.new.room) }
        ensures more { self.old.room ≤ self.new.room }
        ensures err { OnErr result (self.new ≡ self.old) }
    {
        self.held.reserve(places)
    }

    /// The number of pieces.
    pub fn len(&self) -> usize
        ensures { result ≡ length self.now.list }
    {
        self.held.len()
    }

    /// The number of places.
    pub fn room(&self) -> usize
        ensures { result ≡ self.now.room }
    {
        self.held.capacity() - self.held.len()
    }

    /// Puts the piece behind the others, into a place.
    pub fn put(&mut self, piece: Piece)
        requires { 0 < self.old.room }
        ensures list { self.new.list ≡ self.old.list ++ piece ∷ [] }
        ensures room { self.new.room + 1 ≡ self.old.room }
        ensures places { length self.new.list + self.new.room ≡ length self.old.list + self.old.room }
    {
        self.held.push_reserved(piece);
    }

    /// The piece at this place of the list.
    pub fn piece(&self, place: usize) -> &Piece
        requires { place < length self.now.list }
        ensures { result.now ≡ slice_index_or self.now.list place result.now }
    {
        &self.held[place]
    }

    /// Takes out the piece at this place of the list, and there is one place more.
    pub fn take(&mut self, place: usize) -> Piece
        requires { place < length self.old.list }
        ensures taken { take_out place self.old.list ≡ Some (record { taken = result; rest = self.new.list }) }
        ensures len { length self.new.list + 1 ≡ length self.old.list }
        ensures room { self.new.room ≡ self.old.room + 1 }
    {
        self.held.remove(place)
    }

    /// Posts a message without bytes of a region.
    pub fn post(&mut self, message: Message)
        requires bare { load_of message.kind ≡ [] }
        requires room { 0 < self.old.room }
        ensures list { self.new.list ≡ self.old.list ++ pieces_of message }
        ensures room { self.new.room + 1 ≡ self.old.room }
        ensures places { length self.new.list + self.new.room ≡ length self.old.list + self.old.room }
    {
        self.put(Piece {
            message,
            pieces: 1,
            index: 0,
        });
    }

    /// Posts the message under this cover with these bytes, in pieces.
    pub fn post_bytes(&mut self, cover: Cover, bytes: &[u8], sheets: Sheets)
        requires sheets { sheets ≡ length bytes.now }
        requires room { pieces.count (length bytes.now) ≤ self.old.room }
        ensures list { self.new.list ≡ self.old.list ++ pieces_of (message_with cover bytes.now) }
        ensures room { self.new.room + pieces.count (length bytes.now) ≡ self.old.room }
        ensures places { length self.new.list + self.new.room ≡ length self.old.list + self.old.room }
    {
        let number = sheets.pieces();
        let Sheets { size, others, last } = sheets;
        self.post_on(cover, bytes, size, number, others, last);
    }

    fn post_on(
        &mut self,
        cover: Cover,
        bytes: &[u8],
        size: u32,
        number: u32,
        others: Vec<Paper>,
        last: Paper,
    )
        requires sheets { (size ≡ length bytes.now) × (number ≡ pieces.count size) × AreSheets size others.items last }
        requires room { number ≤ self.old.room }
        ensures list { self.new.list ≡ self.old.list ++ pieces_of (message_with cover bytes.now) }
        ensures room { self.new.room + number ≡ self.old.room }
        ensures places { length self.new.list + self.new.room ≡ length self.old.list + self.old.room }
    {
        let mut others = others;
        let mut rest = bytes;
        for index in 0..number - 1 {
            let sheet = others.pop().unwrap();
            rest = self.post_piece(cover, rest, number, index, sheet);
        }
        let _ = self.post_piece(cover, rest, number, number - 1, last);
    }

    /// Posts the first piece of these bytes, and answers the bytes behind it.
    fn post_piece<'a>(
        &mut self,
        cover: Cover,
        bytes: &'a [u8],
        number: u32,
        index: u32,
        sheet: Paper,
    ) -> &'a [u8]
        requires sheet { min (length bytes.now) PIECE ≤ sheet }
        requires room { 0 < self.old.room }
        ensures rest { result.now ≡ drop PIECE bytes.now }
        ensures list { self.new.list ≡ self.old.list ++ record { message = message_with cover (take PIECE bytes.now); pieces = number; index = index } ∷ [] }
        ensures room { self.new.room + 1 ≡ self.old.room }
        ensures places { length self.new.list + self.new.room ≡ length self.old.list + self.old.room }
    {
        let (part, rest) = first_piece(bytes);
        self.put(Piece {
            message: cover.message(sheet.write(part)),
            pieces: number,
            index,
        });
        rest
    }
}

/// The bytes of the first piece, and those behind it.
fn first_piece(bytes: &[u8]) -> (&[u8], &[u8])
    ensures { (result.0.now ≡ take PIECE bytes.now) × (result.1.now ≡ drop PIECE bytes.now) }
{
    bytes.split_at(bytes.len().min(PIECE_LEN as usize))
}
