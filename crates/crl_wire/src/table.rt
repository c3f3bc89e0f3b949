//! The table of the forms, and the form of a header.
ghost use Rattle.std.specs.Prelude.{◌≡◌, ◌==◌, ◌&&◌};
ghost use Rattle.crl_model.specs.declared.message.DeleteTold.{DeleteTold};
ghost use Rattle.crl_wire.specs.declared.form.Form.TheVariants as forms;
ghost use Rattle.crl_wire.specs.Table as table;
ghost use Rattle.crl_wire.specs.Table.{cells, all_forms};
ghost use Rattle.crl_wire.specs.Decoding as decoding;

use crate::form::{Body, FoldForm, Form, GrantedForm, Home, Number, PartForm, Shape, ToldForm};
use crate::header::Header;
use crate::rule::is_shaped;
use crl_model::message::DeleteTold;

/// All forms, by their kinds and flags.
const FORMS: [Form; 32] = [
    Form::InfoAsk,
    Form::InfoIs(ToldForm::Live),
    Form::InfoIs(ToldForm::Unknown),
    Form::InfoIs(ToldForm::Deleted),
    Form::AskRead,
    Form::AskWrite,
    Form::Grant(GrantedForm::Shared),
    Form::Grant(GrantedForm::Exclusive),
    Form::Grant(GrantedForm::Upgrade),
    Form::Recall,
    Form::ReturnPlain,
    Form::ReturnBytes,
    Form::DeleteAsk,
    Form::DeleteIs(DeleteTold::Done),
    Form::DeleteIs(DeleteTold::Unknown),
    Form::DeleteIs(DeleteTold::Deleted),
    Form::Purge,
    Form::Purged,
    Form::Come(PartForm::Barrier),
    Form::Come(PartForm::Send),
    Form::Come(PartForm::Receive),
    Form::Come(PartForm::Sum),
    Form::Come(PartForm::Min),
    Form::Come(PartForm::Max),
    Form::Result(FoldForm::Barrier),
    Form::Result(FoldForm::Broadcast),
    Form::Result(FoldForm::Sum),
    Form::Result(FoldForm::Min),
    Form::Result(FoldForm::Max),
    Form::Result(FoldForm::Mixed),
    Form::Yield,
    Form::Release,
];

fn cells(kind: u8, flag: u8, home: Home, number: Number, body: Body) -> Shape
    ensures { result ≡ cells kind flag home number body }
{
    Shape {
        kind,
        flag,
        home,
        number,
        body,
    }
}

fn told_shape(form: ToldForm) -> Shape
    ensures { result ≡ table.shape_of (forms.InfoIs form) }
{
    match form {
        ToldForm::Live => cells(2, 0, Home::Sender, Number::Size, Body::Empty),
        ToldForm::Unknown => cells(2, 1, Home::Sender, Number::Zero, Body::Empty),
        ToldForm::Deleted => cells(2, 2, Home::Sender, Number::Zero, Body::Empty),
    }
}

fn granted_shape(form: GrantedForm) -> Shape
    ensures { result ≡ table.shape_of (forms.Grant form) }
{
    match form {
        GrantedForm::Shared => cells(4, 0, Home::Sender, Number::FromOne, Body::Region),
        GrantedForm::Exclusive => cells(4, 1, Home::Sender, Number::FromOne, Body::Region),
        GrantedForm::Upgrade => cells(4, 2, Home::Sender, Number::FromOne, Body::Empty),
    }
}

fn deleted_shape(told: DeleteTold) -> Shape
    ensures { result ≡ table.shape_of (forms.DeleteIs told) }
{
    match told {
        DeleteTold::Done => cells(8, 0, Home::Sender, Number::Zero, Body::Empty),
        DeleteTold::Unknown => cells(8, 1, Home::Sender, Number::Zero, Body::Empty),
        DeleteTold::Deleted => cells(8, 2, Home::Sender, Number::Zero, Body::Empty),
    }
}

fn part_shape(form: PartForm) -> Shape
    ensures { result ≡ table.shape_of (forms.Come form) }
{
    match form {
        PartForm::Barrier => cells(11, 0, Home::ToZero, Number::FromOne, Body::Empty),
        PartForm::Send => cells(11, 1, Home::ToZero, Number::FromOne, Body::Broadcast),
        PartForm::Receive => cells(11, 2, Home::ToZero, Number::FromOne, Body::Empty),
        PartForm::Sum => cells(11, 3, Home::ToZero, Number::FromOne, Body::Value),
        PartForm::Min => cells(11, 4, Home::ToZero, Number::FromOne, Body::Value),
        PartForm::Max => cells(11, 5, Home::ToZero, Number::FromOne, Body::Value),
    }
}

fn fold_shape(form: FoldForm) -> Shape
    ensures { result ≡ table.shape_of (forms.Result form) }
{
    match form {
        FoldForm::Barrier => cells(12, 0, Home::FromZero, Number::FromOne, Body::Empty),
        FoldForm::Broadcast => cells(12, 1, Home::FromZero, Number::FromOne, Body::Broadcast),
        FoldForm::Sum => cells(12, 3, Home::FromZero, Number::FromOne, Body::Total),
        FoldForm::Min => cells(12, 4, Home::FromZero, Number::FromOne, Body::Value),
        FoldForm::Max => cells(12, 5, Home::FromZero, Number::FromOne, Body::Value),
        FoldForm::Mixed => cells(12, 6, Home::FromZero, Number::FromOne, Body::Empty),
    }
}

/// What the header of the form must be.
pub(crate) fn shape_of(form: Form) -> Shape
    ensures { result ≡ table.shape_of form }
{
    match form {
        Form::InfoAsk => cells(1, 0, Home::Addressee, Number::Zero, Body::Empty),
        Form::InfoIs(form) => told_shape(form),
        Form::AskRead => cells(3, 0, Home::Addressee, Number::Zero, Body::Empty),
        Form::AskWrite => cells(3, 1, Home::Addressee, Number::Any, Body::Empty),
        Form::Grant(form) => granted_shape(form),
        Form::Recall => cells(5, 0, Home::Sender, Number::FromOne, Body::Empty),
        Form::ReturnPlain => cells(6, 0, Home::Addressee, Number::FromOne, Body::Empty),
        Form::ReturnBytes => cells(6, 1, Home::Addressee, Number::FromOne, Body::Region),
        Form::DeleteAsk => cells(7, 0, Home::Addressee, Number::Zero, Body::Empty),
        Form::DeleteIs(told) => deleted_shape(told),
        Form::Purge => cells(9, 0, Home::Sender, Number::Zero, Body::Empty),
        Form::Purged => cells(10, 0, Home::Addressee, Number::Zero, Body::Empty),
        Form::Come(form) => part_shape(form),
        Form::Result(form) => fold_shape(form),
        Form::Yield => cells(13, 0, Home::Sender, Number::FromOne, Body::Empty),
        Form::Release => cells(14, 0, Home::Addressee, Number::FromOne, Body::Region),
    }
}

/// Whether the form has this kind and flag.
fn is_of(form: Form, kind: u8, flag: u8) -> bool
    ensures { result ≡ (((table.shape_of form).kind == kind) && ((table.shape_of form).flag == flag)) }
{
    let shape = shape_of(form);
    shape.kind == kind && shape.flag == flag
}

/// The form with this kind and flag.
#[tactic(auto, unfolding(crate::specs::Decoding::form_at))]
fn form_at(kind: u8, flag: u8) -> Option<Form>
    ensures { result ≡ decoding.form_at kind flag }
{
    FORMS.iter().copied().find(|form| is_of(*form, kind, flag))
}

/// The form whose header this is.
#[tactic(auto, unfolding(crate::specs::Decoding::form_in))]
pub(crate) fn form_in(header: &Header) -> Option<Form>
    ensures { result ≡ decoding.form_in header.now }
{
    let form = form_at(header.kind, header.flag)?;
    if is_shaped(shape_of(form), header) {
        Some(form)
    } else {
        None
    }
}
