//! The form, the name and the number of a kind.
ghost use Rattle.std.specs.Prelude.{◌≡◌};
ghost use Rattle.crl_wire.specs.Frame as frames;

use crate::form::{FoldForm, Form, GrantedForm, PartForm, ToldForm};
use crl_model::collective::{Fold, Part};
use crl_model::message::{Granted, Kind, Told};
use crl_model::name::Name;

fn told_form(told: Told) -> ToldForm
    ensures { result ≡ frames.told_form told }
{
    match told {
        Told::Live { size: _ } => ToldForm::Live,
        Told::Unknown => ToldForm::Unknown,
        Told::Deleted => ToldForm::Deleted,
    }
}

fn granted_form(granted: &Granted) -> GrantedForm
    ensures { result ≡ frames.granted_form granted.now }
{
    match granted {
        Granted::Shared(_) => GrantedForm::Shared,
        Granted::Exclusive(_) => GrantedForm::Exclusive,
        Granted::Upgrade => GrantedForm::Upgrade,
    }
}

fn part_form(part: &Part) -> PartForm
    ensures { result ≡ frames.part_form part.now }
{
    match part {
        Part::Barrier => PartForm::Barrier,
        Part::Send(_) => PartForm::Send,
        Part::Receive => PartForm::Receive,
        Part::Sum(_) => PartForm::Sum,
        Part::Min(_) => PartForm::Min,
        Part::Max(_) => PartForm::Max,
    }
}

fn fold_form(fold: &Fold) -> FoldForm
    ensures { result ≡ frames.fold_form fold.now }
{
    match fold {
        Fold::Barrier => FoldForm::Barrier,
        Fold::Broadcast(_) => FoldForm::Broadcast,
        Fold::Sum(_) => FoldForm::Sum,
        Fold::Min(_) => FoldForm::Min,
        Fold::Max(_) => FoldForm::Max,
        Fold::Mixed => FoldForm::Mixed,
    }
}

pub(crate) fn form_of(kind: &Kind) -> Form
    ensures { result ≡ frames.form_of kind.now }
{
    match kind {
        Kind::InfoAsk { .. } => Form::InfoAsk,
        Kind::InfoIs { told, .. } => Form::InfoIs(told_form(*told)),
        Kind::Ask { write: false, .. } => Form::AskRead,
        Kind::Ask { write: true, .. } => Form::AskWrite,
        Kind::Grant { granted, .. } => Form::Grant(granted_form(granted)),
        Kind::Recall { .. } => Form::Recall,
        Kind::Return { bytes: None, .. } => Form::ReturnPlain,
        Kind::Return { bytes: Some(_), .. } => Form::ReturnBytes,
        Kind::DeleteAsk { .. } => Form::DeleteAsk,
        Kind::DeleteIs { told, .. } => Form::DeleteIs(*told),
        Kind::Purge { .. } => Form::Purge,
        Kind::Purged { .. } => Form::Purged,
        Kind::Come { part, .. } => Form::Come(part_form(part)),
        Kind::Result { fold, .. } => Form::Result(fold_form(fold)),
        Kind::Yield { .. } => Form::Yield,
        Kind::Release { .. } => Form::Release,
    }
}

/// The name, 0:0 where there is none.
pub(crate) fn name_of(kind: &Kind) -> Name
    ensures { result ≡ frames.name_of kind.now }
{
    match kind {
        Kind::InfoAsk { name }
        | Kind::InfoIs { name, .. }
        | Kind::Ask { name, .. }
        | Kind::Grant { name, .. }
        | Kind::Recall { name, .. }
        | Kind::Return { name, .. }
        | Kind::DeleteAsk { name }
        | Kind::DeleteIs { name, .. }
        | Kind::Purge { name }
        | Kind::Purged { name }
        | Kind::Yield { name, .. }
        | Kind::Release { name, .. } => *name,
        Kind::Come { .. } | Kind::Result { .. } => Name::new(0, 0),
    }
}

/// The size, the version that a node has, the version, or the number of the round; else 0.
pub(crate) fn number_of(kind: &Kind) -> u64
    ensures { result ≡ frames.number_of kind.now }
{
    match kind {
        Kind::InfoIs {
            told: Told::Live { size },
            ..
        } => u64::from(*size),
        Kind::Ask { have, .. } => *have,
        Kind::Grant { version, .. }
        | Kind::Recall { version, .. }
        | Kind::Return { version, .. }
        | Kind::Yield { version, .. }
        | Kind::Release { version, .. } => *version,
        Kind::Come { round, .. } | Kind::Result { round, .. } => *round,
        Kind::InfoAsk { .. }
        | Kind::InfoIs { .. }
        | Kind::DeleteAsk { .. }
        | Kind::DeleteIs { .. }
        | Kind::Purge { .. }
        | Kind::Purged { .. } => 0,
    }
}
