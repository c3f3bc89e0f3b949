//! What a call gives where it is not refused, by the form of its answer.
ghost use Rattle.std.specs.Prelude.{◌≡◌, ℕ, List, IfOk};
ghost use Rattle.crl_model.specs.declared.collective.Fold.TheVariants as fold;
ghost use Rattle.crl_protocol.specs.Node as node;

use crate::names::Mapped;
use crl_guard::{Reading, Writing};
use crl_model::activity::Answer;
use crl_model::bytes::Bytes;
use crl_model::collective::Fold;
use crl_model::name::Name;

/// What a call gives where it is not refused.
pub(crate) trait Form: Drop {
    ghost use Rattle.crl_protocol.specs.Node.{Answer};

    type Out;

    // The answer gives this.
    ghost gives: { Self → Self.Out → Answer → Type 0 };

    /// What the answer gives. An answer that is not of the form comes back.
    fn take(&self, answer: Answer<Reading, Writing>) -> Result<Self::Out, Answer<Reading, Writing>>
        ensures { IfOk result (λ out. gives self.now out answer) };
}

/// A create gives the name.
#[derive(Drop)]
pub(crate) struct Creates;

impl Form for Creates {
    type Out = Name;

    ghost gives = { λ _ name answer. answer ≡ node.Made name };

    fn take(&self, answer: Answer<Reading, Writing>) -> Result<Name, Answer<Reading, Writing>> {
        match answer {
            Answer::Made(name) => Ok(name),
            other => Err(other),
        }
    }
}

/// A map gives the name and the region's size.
#[derive(Drop)]
pub(crate) struct Maps {
    pub(crate) name: Name,
}

impl Form for Maps {
    type Out = Mapped;

    ghost gives = { λ form mapped answer. (mapped.name ≡ form.name) × (answer ≡ node.Mapped form.name mapped.size) };

    fn take(&self, answer: Answer<Reading, Writing>) -> Result<Mapped, Answer<Reading, Writing>> {
        match answer {
            Answer::Mapped { name, size } if name == self.name => Ok(Mapped { name, size }),
            other => Err(other),
        }
    }
}

/// A delete, an unmap or a flush gives nothing.
#[derive(Drop)]
pub(crate) struct GivesNothing;

impl Form for GivesNothing {
    type Out = ();

    ghost gives = { λ _ _ answer. answer ≡ node.Done };

    fn take(&self, answer: Answer<Reading, Writing>) -> Result<(), Answer<Reading, Writing>> {
        match answer {
            Answer::Done => Ok(()),
            other => Err(other),
        }
    }
}

/// The start of a read section gives the guard of the region.
#[derive(Drop)]
pub(crate) struct StartsRead {
    pub(crate) name: Name,
}

impl Form for StartsRead {
    type Out = Reading;

    ghost gives = { λ form guard answer. (guard.name ≡ form.name) × (answer ≡ node.Reading guard) };

    fn take(&self, answer: Answer<Reading, Writing>) -> Result<Reading, Answer<Reading, Writing>> {
        match answer {
            Answer::Reading(guard) => {
                if guard.name() == self.name {
                    Ok(guard)
                } else {
                    Err(Answer::Reading(guard))
                }
            }
            other => Err(other),
        }
    }
}

/// The start of a write section gives the guard of the region.
#[derive(Drop)]
pub(crate) struct StartsWrite {
    pub(crate) name: Name,
}

impl Form for StartsWrite {
    type Out = Writing;

    ghost gives = { λ form guard answer. (guard.name ≡ form.name) × (answer ≡ node.Writing guard) };

    fn take(&self, answer: Answer<Reading, Writing>) -> Result<Writing, Answer<Reading, Writing>> {
        match answer {
            Answer::Writing(guard) => {
                if guard.name() == self.name {
                    Ok(guard)
                } else {
                    Err(Answer::Writing(guard))
                }
            }
            other => Err(other),
        }
    }
}

/// A barrier gives nothing.
#[derive(Drop)]
pub(crate) struct Barriers;

impl Form for Barriers {
    type Out = ();

    ghost gives = { λ _ _ answer. (round : ℕ) × (answer ≡ node.Came round fold.Barrier) };

    fn take(&self, answer: Answer<Reading, Writing>) -> Result<(), Answer<Reading, Writing>> {
        match answer {
            Answer::Came {
                round: _,
                fold: Fold::Barrier,
            } => Ok(()),
            other => Err(other),
        }
    }
}

/// A broadcast that is sent gives nothing.
#[derive(Drop)]
pub(crate) struct Sends;

impl Form for Sends {
    type Out = ();

    ghost gives = { λ _ _ answer. (round : ℕ) × (sent : List ℕ) × (answer ≡ node.Came round (fold.Broadcast sent)) };

    fn take(&self, answer: Answer<Reading, Writing>) -> Result<(), Answer<Reading, Writing>> {
        match answer {
            Answer::Came {
                round: _,
                fold: Fold::Broadcast(_),
            } => Ok(()),
            other => Err(other),
        }
    }
}

/// A broadcast that is received gives its bytes.
#[derive(Drop)]
pub(crate) struct Receives;

impl Form for Receives {
    type Out = Bytes;

    ghost gives = { λ _ bytes answer. (round : ℕ) × (answer ≡ node.Came round (fold.Broadcast bytes)) };

    fn take(&self, answer: Answer<Reading, Writing>) -> Result<Bytes, Answer<Reading, Writing>> {
        match answer {
            Answer::Came {
                round: _,
                fold: Fold::Broadcast(bytes),
            } => Ok(bytes),
            other => Err(other),
        }
    }
}

/// A sum.
#[derive(Drop)]
pub(crate) struct Sums;

impl Form for Sums {
    type Out = i128;

    ghost gives = { λ _ value answer. (round : ℕ) × (answer ≡ node.Came round (fold.Sum value)) };

    fn take(&self, answer: Answer<Reading, Writing>) -> Result<i128, Answer<Reading, Writing>> {
        match answer {
            Answer::Came {
                round: _,
                fold: Fold::Sum(value),
            } => Ok(value),
            other => Err(other),
        }
    }
}

/// The least of the values.
#[derive(Drop)]
pub(crate) struct Leasts;

impl Form for Leasts {
    type Out = i64;

    ghost gives = { λ _ value answer. (round : ℕ) × (answer ≡ node.Came round (fold.Min value)) };

    fn take(&self, answer: Answer<Reading, Writing>) -> Result<i64, Answer<Reading, Writing>> {
        match answer {
            Answer::Came {
                round: _,
                fold: Fold::Min(value),
            } => Ok(value),
            other => Err(other),
        }
    }
}

/// The greatest of the values.
#[derive(Drop)]
pub(crate) struct Greatests;

impl Form for Greatests {
    type Out = i64;

    ghost gives = { λ _ value answer. (round : ℕ) × (answer ≡ node.Came round (fold.Max value)) };

    fn take(&self, answer: Answer<Reading, Writing>) -> Result<i64, Answer<Reading, Writing>> {
        match answer {
            Answer::Came {
                round: _,
                fold: Fold::Max(value),
            } => Ok(value),
            other => Err(other),
        }
    }
}
