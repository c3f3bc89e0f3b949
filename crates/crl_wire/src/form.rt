//! The forms of frames: a kind of message with its flag.
use crl_model::message::DeleteTold;

/// What the home of a name says of it to a node that maps it, without the size.
#[derive(Clone, Copy, Debug, PartialEq, Eq)]
pub(crate) enum ToldForm {
    Live,
    Unknown,
    Deleted,
}

/// What a grant gives, without the bytes.
#[derive(Clone, Copy, Debug, PartialEq, Eq)]
pub(crate) enum GrantedForm {
    Shared,
    Exclusive,
    Upgrade,
}

/// What a node brings to a round, without bytes and numbers.
#[derive(Clone, Copy, Debug, PartialEq, Eq)]
pub(crate) enum PartForm {
    Barrier,
    Send,
    Receive,
    Sum,
    Min,
    Max,
}

/// What a round gives, without bytes and numbers.
#[derive(Clone, Copy, Debug, PartialEq, Eq)]
pub(crate) enum FoldForm {
    Barrier,
    Broadcast,
    Sum,
    Min,
    Max,
    Mixed,
}

/// A message without its ends, name, number and body.
#[derive(Clone, Copy, Debug, PartialEq, Eq)]
pub(crate) enum Form {
    InfoAsk,
    InfoIs(ToldForm),
    AskRead,
    AskWrite,
    Grant(GrantedForm),
    Recall,
    /// A return without bytes.
    ReturnPlain,
    /// A return with bytes.
    ReturnBytes,
    DeleteAsk,
    DeleteIs(DeleteTold),
    Purge,
    Purged,
    Come(PartForm),
    Result(FoldForm),
    Yield,
    Release,
}

/// Whose the name in a frame is.
#[derive(Clone, Copy, Debug, PartialEq, Eq)]
pub(crate) enum Home {
    /// The sender is the home of the name.
    Sender,
    /// The addressee is the home of the name.
    Addressee,
    /// There is no name, and the frame goes to node 0.
    ToZero,
    /// There is no name, and the frame comes from node 0.
    FromZero,
}

/// Which numbers may stand in a frame.
#[derive(Clone, Copy, Debug, PartialEq, Eq)]
pub(crate) enum Number {
    /// Only 0.
    Zero,
    /// Any number.
    Any,
    /// A version or the number of a round, from 1.
    FromOne,
    /// The size of a region.
    Size,
}

/// How long the body of a frame may be.
#[derive(Clone, Copy, Debug, PartialEq, Eq)]
pub(crate) enum Body {
    Empty,
    /// A piece of the bytes of a region.
    Region,
    /// The bytes of a broadcast.
    Broadcast,
    /// A node's value, in 8 bytes.
    Value,
    /// A sum of nodes' values, in 16 bytes.
    Total,
}

/// What the header of a form must be.
#[derive(Clone, Copy, Debug, PartialEq, Eq)]
pub(crate) struct Shape {
    pub kind: u8,
    pub flag: u8,
    pub home: Home,
    pub number: Number,
    pub body: Body,
}
