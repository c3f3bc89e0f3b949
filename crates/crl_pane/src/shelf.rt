//! The pane of one region at one node: its own as long as nothing reads it, then shared.
ghost use Rattle.std.specs.Prelude.{◌≡◌, true, false, IfOk, IsSome, OnOk, OnErr};
ghost use Rattle.std.specs.Arc.{arc_value};
ghost use Rattle.crl_pane.specs.Shelves.{kept_bytes, IsSpareOf};

use crate::pane::Pane;
use crl_model::OutOfMemory;
use std::alloc::Global;
use std::marker::Model;
use std::sync::Arc;

#[derive(Drop)]
pub enum Kept {
    Own(Pane),
    Shared(Arc<Pane, Global>),
}

/// A pane in its place. It is shared with guards without a copy: what is shared is counted, and takes
/// some words. A share can be laid by, so that handing it out can't fail. A pane that is put in place
/// of a shared one leaves the old one to its guards.
#[derive(Drop)]
pub struct Shelf {
    alloc: Global,
    kept: Option<Kept>,
    spare: Option<Arc<Pane, Global>>,
}

impl Model for Shelf {
    ghost use Rattle.std.specs.Prelude.{IsSome};
    ghost use Rattle.crl_pane.specs.Shown.{Shown};

    ghost Value = { Shown };

    ghost use Rattle.std.specs.Arc.{arc_value};
    ghost use Rattle.crl_pane.specs.Shelves.{kept_bytes, has_spare, IsSpareOf};

    ghost view = { λ s. record { bytes = kept_bytes s.kept; is_ready = has_spare s.spare } };

    ghost invariant = { λ s. IsSome s.kept × IsSpareOf arc_value (kept_bytes s.kept) s.spare };
}

impl Shelf {
    /// A shelf with this pane, and no share laid by.
    pub fn new(alloc: Global, pane: Pane) -> Shelf
        ensures { result ≡ record { bytes = pane; is_ready = false } }
    {
        Shelf {
            alloc,
            kept: Some(Kept::Own(pane)),
            spare: None,
        }
    }

    /// The bytes of the pane.
    pub fn bytes(&self) -> &[u8]
        ensures { result.now ≡ self.now.bytes }
    {
        match &self.kept {
            Some(Kept::Own(pane)) => pane.bytes(),
            Some(Kept::Shared(pane)) => pane.bytes(),
            None => &[],
        }
    }

    /// Whether a share is laid by.
    pub fn is_ready(&self) -> bool
        ensures { result ≡ self.now.is_ready }
    {
        self.spare.is_some()
    }

    /// Puts another pane in place. It takes no memory.
    pub fn put(&mut self, pane: Pane)
        ensures { self.new ≡ record { bytes = pane; is_ready = false } }
    {
        self.spare = None;
        self.kept = Some(Kept::Own(pane));
    }

    /// A share of the pane. On an error nothing has changed.
    ///
    /// # Errors
    ///
    /// `OutOfMemory`.
    pub fn share(&mut self) -> Result<Arc<Pane, Global>, OutOfMemory>
        ensures value { IfOk result (λ pane. arc_value pane ≡ self.old.bytes) }
        ensures same { self.new ≡ self.old }
    {
        let (kept, result) = share_of(self.alloc, self.kept.take());
        self.kept = kept;
        result
    }

    /// Lays a share by. On an error nothing has changed.
    ///
    /// # Errors
    ///
    /// `OutOfMemory`.
    pub fn prepare(&mut self) -> Result<(), OutOfMemory>
        ensures ok { OnOk result (self.new ≡ record { bytes = self.old.bytes; is_ready = true }) }
        ensures err { OnErr result (self.new ≡ self.old) }
    {
        self.spare = Some(self.share()?);
        Ok(())
    }

    /// Hands out the share that is laid by. It takes no memory.
    pub fn take(&mut self) -> Arc<Pane, Global>
        requires { self.old.is_ready ≡ true }
        ensures value { arc_value result ≡ self.old.bytes }
        ensures after { self.new ≡ record { bytes = self.old.bytes; is_ready = false } }
    {
        match self.spare.take() {
            Some(spare) => spare,
            None => unreachable!(),
        }
    }
}

/// Makes the pane a shared one where it isn't yet, and gives a share of it.
fn share_of(
    alloc: Global,
    kept: Option<Kept>,
) -> (Option<Kept>, Result<Arc<Pane, Global>, OutOfMemory>)
    requires { IsSome kept }
    ensures same { IsSome result.0 × (kept_bytes result.0 ≡ kept_bytes kept) }
    ensures shared { IfOk result.1 (λ pane. arc_value pane ≡ kept_bytes kept) }
{
    match kept {
        Some(Kept::Own(pane)) => match Arc::new(alloc, pane) {
            Ok(made) => {
                let result = Arc::try_clone(&made);
                (Some(Kept::Shared(made)), result)
            }
            Err(refused) => (Some(Kept::Own(refused.value)), Err(OutOfMemory)),
        },
        Some(Kept::Shared(made)) => {
            let result = Arc::try_clone(&made);
            (Some(Kept::Shared(made)), result)
        }
        None => (None, Err(OutOfMemory)),
    }
}
