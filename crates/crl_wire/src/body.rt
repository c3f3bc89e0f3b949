//! The body of a message.
ghost use Rattle.std.specs.Prelude.{◌≡◌, ◌+◌, ◌≤◌, ◌++◌, ◌<◌, ◌^◌, length, vec_len, vec_capacity};
ghost use Rattle.crl_wire.specs.Frame.{value_bytes, total_bytes, part_body, fold_body, body_of, FitsPart, FitsFold, FitsValues};

use crate::field::put;
use crl_model::bytes::Bytes;
use crl_model::collective::{Fold, Part};
use crl_model::message::{Granted, Kind};

/// The number of bytes of a node's value.
const VALUE_LEN: usize = 8;

/// The number of bytes of a sum.
const TOTAL_LEN: usize = 16;

/// The number of bytes.
fn len(bytes: &Bytes) -> usize
    ensures len { result ≡ length bytes.now }
    ensures small { result < 2 ^ 63 }
{
    bytes.as_slice().len()
}

/// The number of bytes of the body.
pub(crate) fn body_len(kind: &Kind) -> usize
    ensures len { result ≡ length (body_of kind.now) }
    ensures small { result < 2 ^ 63 }
{
    match kind {
        Kind::Grant { granted, .. } => match granted {
            Granted::Shared(bytes) | Granted::Exclusive(bytes) => len(bytes),
            Granted::Upgrade => 0,
        },
        Kind::Return {
            bytes: Some(bytes),
            ..
        }
        | Kind::Release { bytes, .. } => len(bytes),
        Kind::Come { part, .. } => match part {
            Part::Send(bytes) => len(bytes),
            Part::Sum(_) | Part::Min(_) | Part::Max(_) => VALUE_LEN,
            Part::Barrier | Part::Receive => 0,
        },
        Kind::Result { fold, .. } => match fold {
            Fold::Broadcast(bytes) => len(bytes),
            Fold::Sum(_) => TOTAL_LEN,
            Fold::Min(_) | Fold::Max(_) => VALUE_LEN,
            Fold::Barrier | Fold::Mixed => 0,
        },
        _ => 0,
    }
}

/// Puts a node's value at the end of `out`, which has spare capacity for it.
fn put_value(value: i64, out: &mut Vec<u8>)
    requires { vec_len out.old + VALUE_LEN ≤ vec_capacity out.old }
    ensures items { out.new.items ≡ out.old.items ++ value_bytes value }
    ensures capacity { vec_capacity out.old ≤ vec_capacity out.new }
{
    put(&value.cast_unsigned().to_be_bytes(), out);
}

/// Puts a sum at the end of `out`, which has spare capacity for it.
fn put_total(value: i128, out: &mut Vec<u8>)
    requires { vec_len out.old + TOTAL_LEN ≤ vec_capacity out.old }
    ensures items { out.new.items ≡ out.old.items ++ total_bytes value }
    ensures capacity { vec_capacity out.old ≤ vec_capacity out.new }
{
    put(&value.cast_unsigned().to_be_bytes(), out);
}

/// Puts what the node brings at the end of `out`, which has spare capacity for it.
fn put_part(part: &Part, out: &mut Vec<u8>)
    requires { vec_len out.old + length (part_body part.now) ≤ vec_capacity out.old }
    ensures items { out.new.items ≡ out.old.items ++ part_body part.now }
    ensures capacity { vec_capacity out.old ≤ vec_capacity out.new }
    ensures fits { FitsPart part.now }
{
    match part {
        Part::Send(bytes) => put(bytes.as_slice(), out),
        Part::Sum(value) | Part::Min(value) | Part::Max(value) => put_value(*value, out),
        Part::Barrier | Part::Receive => {}
    }
}

/// Puts what the round gives at the end of `out`, which has spare capacity for it.
fn put_fold(fold: &Fold, out: &mut Vec<u8>)
    requires { vec_len out.old + length (fold_body fold.now) ≤ vec_capacity out.old }
    ensures items { out.new.items ≡ out.old.items ++ fold_body fold.now }
    ensures capacity { vec_capacity out.old ≤ vec_capacity out.new }
    ensures fits { FitsFold fold.now }
{
    match fold {
        Fold::Broadcast(bytes) => put(bytes.as_slice(), out),
        Fold::Sum(value) => put_total(*value, out),
        Fold::Min(value) | Fold::Max(value) => put_value(*value, out),
        Fold::Barrier | Fold::Mixed => {}
    }
}

/// Puts the body at the end of `out`, which has spare capacity for it. The values in it are in the
/// range of their types.
pub(crate) fn put_body(kind: &Kind, out: &mut Vec<u8>)
    requires { vec_len out.old + length (body_of kind.now) ≤ vec_capacity out.old }
    ensures items { out.new.items ≡ out.old.items ++ body_of kind.now }
    ensures capacity { vec_capacity out.old ≤ vec_capacity out.new }
    ensures fits { FitsValues kind.now }
{
    match kind {
        Kind::Grant { granted, .. } => match granted {
            Granted::Shared(bytes) | Granted::Exclusive(bytes) => put(bytes.as_slice(), out),
            Granted::Upgrade => {}
        },
        Kind::Return {
            bytes: Some(bytes),
            ..
        }
        | Kind::Release { bytes, .. } => put(bytes.as_slice(), out),
        Kind::Come { part, .. } => put_part(part, out),
        Kind::Result { fold, .. } => put_fold(fold, out),
        _ => {}
    }
}
