//! The message of a form, with its name, its number and its body.
ghost use Rattle.std.specs.Prelude.{◌≡◌, true, length, IfOk};
ghost use Rattle.crl_wire.specs.declared.form.Form.TheVariants as forms;
ghost use Rattle.crl_wire.specs.Table as table;
ghost use Rattle.crl_wire.specs.Decoding as decoding;

use crate::form::{FoldForm, Form, GrantedForm, PartForm, ToldForm};
use crl_model::OutOfMemory;
use crl_model::bytes::Bytes;
use crl_model::collective::{Fold, Part};
use crl_model::message::{Granted, Kind, Told};
use crl_model::name::Name;
use std::alloc::Global;

fn value_from(body: &[u8]) -> i64
    requires { length body.now ≡ 8 }
    ensures { result ≡ decoding.value_from body.now }
{
    let bits = u64::from_be_bytes([
        body[0], body[1], body[2], body[3], body[4], body[5], body[6], body[7],
    ]);
    bits.cast_signed()
}

fn total_from(body: &[u8]) -> i128
    requires { length body.now ≡ 16 }
    ensures { result ≡ decoding.total_from body.now }
{
    let bits = u128::from_be_bytes([
        body[0], body[1], body[2], body[3], body[4], body[5], body[6], body[7], body[8], body[9],
        body[10], body[11], body[12], body[13], body[14], body[15],
    ]);
    bits.cast_signed()
}

fn told_from(form: ToldForm, number: u64) -> Told
    requires { table.is_number (table.shape_of (forms.InfoIs form)).number number ≡ true }
    ensures { result ≡ decoding.told_from form number }
{
    match form {
        ToldForm::Live => Told::Live {
            size: number as u32,
        },
        ToldForm::Unknown => Told::Unknown,
        ToldForm::Deleted => Told::Deleted,
    }
}

fn granted_from(alloc: Global, form: GrantedForm, body: &[u8]) -> Result<Granted, OutOfMemory>
    ensures { IfOk result (λ granted. granted ≡ decoding.granted_from form body.now) }
{
    Ok(match form {
        GrantedForm::Shared => Granted::Shared(Bytes::copy_of(alloc, body)?),
        GrantedForm::Exclusive => Granted::Exclusive(Bytes::copy_of(alloc, body)?),
        GrantedForm::Upgrade => Granted::Upgrade,
    })
}

fn part_from(alloc: Global, form: PartForm, body: &[u8]) -> Result<Part, OutOfMemory>
    requires { table.is_len (table.shape_of (forms.Come form)).body (length body.now) ≡ true }
    ensures { IfOk result (λ part. part ≡ decoding.part_from form body.now) }
{
    Ok(match form {
        PartForm::Barrier => Part::Barrier,
        PartForm::Send => Part::Send(Bytes::copy_of(alloc, body)?),
        PartForm::Receive => Part::Receive,
        PartForm::Sum => Part::Sum(value_from(body)),
        PartForm::Min => Part::Min(value_from(body)),
        PartForm::Max => Part::Max(value_from(body)),
    })
}

fn fold_from(alloc: Global, form: FoldForm, body: &[u8]) -> Result<Fold, OutOfMemory>
    requires { table.is_len (table.shape_of (forms.Result form)).body (length body.now) ≡ true }
    ensures { IfOk result (λ fold. fold ≡ decoding.fold_from form body.now) }
{
    Ok(match form {
        FoldForm::Barrier => Fold::Barrier,
        FoldForm::Broadcast => Fold::Broadcast(Bytes::copy_of(alloc, body)?),
        FoldForm::Sum => Fold::Sum(total_from(body)),
        FoldForm::Min => Fold::Min(value_from(body)),
        FoldForm::Max => Fold::Max(value_from(body)),
        FoldForm::Mixed => Fold::Mixed,
    })
}

fn ask(name: Name, write: bool, have: u64) -> Kind
    ensures { result ≡ Kind.Ask name write have }
{
    Kind::Ask { name, write, have }
}

fn returned(name: Name, version: u64, bytes: Option<Bytes>) -> Kind
    ensures { result ≡ Kind.Return name version bytes }
{
    Kind::Return {
        name,
        version,
        bytes,
    }
}

/// The kind of message of a form, with a number and a body that its shape allows.
///
/// # Errors
///
/// `OutOfMemory`.
pub(crate) fn kind_from(
    alloc: Global,
    form: Form,
    name: Name,
    number: u64,
    body: &[u8],
) -> Result<Kind, OutOfMemory>
    requires number { table.is_number (table.shape_of form).number number ≡ true }
    requires body { table.is_len (table.shape_of form).body (length body.now) ≡ true }
    ensures { IfOk result (λ kind. kind ≡ decoding.kind_from form name number body.now) }
{
    let version = number;
    Ok(match form {
        Form::InfoAsk => Kind::InfoAsk { name },
        Form::InfoIs(form) => Kind::InfoIs {
            name,
            told: told_from(form, number),
        },
        Form::AskRead => ask(name, false, 0),
        Form::AskWrite => ask(name, true, number),
        Form::Grant(form) => Kind::Grant {
            name,
            version,
            granted: granted_from(alloc, form, body)?,
        },
        Form::Recall => Kind::Recall { name, version },
        Form::ReturnPlain => returned(name, version, None),
        Form::ReturnBytes => returned(name, version, Some(Bytes::copy_of(alloc, body)?)),
        Form::DeleteAsk => Kind::DeleteAsk { name },
        Form::DeleteIs(told) => Kind::DeleteIs { name, told },
        Form::Purge => Kind::Purge { name },
        Form::Purged => Kind::Purged { name },
        Form::Come(form) => Kind::Come {
            round: number,
            part: part_from(alloc, form, body)?,
        },
        Form::Result(form) => Kind::Result {
            round: number,
            fold: fold_from(alloc, form, body)?,
        },
        Form::Yield => Kind::Yield { name, version },
        Form::Release => Kind::Release {
            name,
            version,
            bytes: Bytes::copy_of(alloc, body)?,
        },
    })
}
