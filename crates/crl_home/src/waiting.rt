//! The asks that wait.
use crl_model::directory::Asked;
use crl_outbox::Sheets;

/// An ask that waits, with the paper for the bytes that it is to be given.
#[derive(Drop)]
pub(crate) struct Waiting {
    pub(crate) asked: Asked,
    pub(crate) sheets: Sheets,
}
