//! The statements of a script.
use crate::bytes::Bytes;
use crate::call::Call;
use crate::name::Name;

/// One statement of a script. A label is seen as the name of the region that its `create` makes.
#[derive(Debug, Drop, PartialEq)]
pub enum Statement {
    /// A call. That of `endwrite` has an empty `after`.
    Call(Call),
    /// Puts these bytes into the open write section, from `offset` on.
    Put {
        name: Name,
        offset: u32,
        bytes: Bytes,
    },
    /// Adds to the eight bytes of the open write section from `offset` on, which are a number, the
    /// highest byte first. The sum is taken modulo 2^64.
    Add {
        name: Name,
        offset: u32,
        number: u64,
    },
}
