//! What a node is at.
ghost use Rattle.std.specs.Prelude.{◌≡◌};
ghost use Rattle.crl_model.specs.declared.activity.Activity.TheVariants.{Free, Waiting, Ready};
ghost use Rattle.crl_guard.specs.Standings.{answer_at, once_taken, awaited_at, stands_free, stands_ready};

use crate::guards::{Reading, Writing};
use crl_model::activity::{Activity, Answer, Awaited};
use std::marker::Model;
use std::mem;

/// What a node is at: nothing, a wait, or an answer that it has yet to take. A guard in an answer that
/// isn't taken is discarded with it.
pub struct Standing {
    activity: Activity<Reading, Writing>,
}

impl Model for Standing {
    ghost use Rattle.crl_model.specs.Guards.{Guard};
    ghost use Rattle.crl_model.specs.declared.activity.Activity.{Activity};

    ghost Value = { Activity Guard Guard };

    ghost view = { λ s. s.activity };
}

impl Standing {
    /// A node that is at nothing.
    pub fn new() -> Standing
        ensures { result ≡ Free }
    {
        Standing {
            activity: Activity::Free,
        }
    }

    /// What the node is at.
    pub fn activity(&self) -> &Activity<Reading, Writing>
        ensures { result.now ≡ self.now }
    {
        &self.activity
    }

    /// What it waits for, if it waits.
    pub fn awaited(&self) -> Option<Awaited>
        ensures { result ≡ awaited_at self.now }
    {
        match &self.activity {
            Activity::Waiting(awaited) => Some(*awaited),
            _ => None,
        }
    }

    /// Whether it is at nothing.
    pub fn is_free(&self) -> bool
        ensures { result ≡ stands_free self.now }
    {
        matches!(&self.activity, Activity::Free)
    }

    /// Whether it has an answer to take.
    pub fn is_ready(&self) -> bool
        ensures { result ≡ stands_ready self.now }
    {
        matches!(&self.activity, Activity::Ready(_))
    }

    /// It waits from now on. What it was at is discarded.
    pub fn wait(&mut self, awaited: Awaited)
        ensures { self.new ≡ Waiting awaited }
    {
        self.put(Activity::Waiting(awaited));
    }

    /// It has this answer to take from now on. What it was at is discarded.
    pub fn ready(&mut self, answer: Answer<Reading, Writing>)
        ensures { self.new ≡ Ready answer }
    {
        self.put(Activity::Ready(answer));
    }

    /// Takes the answer, and it is at nothing then. None, and nothing changes, if it has no answer to take.
    pub fn take(&mut self) -> Option<Answer<Reading, Writing>>
        ensures answer { result ≡ answer_at self.old }
        ensures after { self.new ≡ once_taken self.old }
    {
        match mem::replace(&mut self.activity, Activity::Free) {
            Activity::Free => None,
            Activity::Waiting(awaited) => {
                self.wait(awaited);
                None
            }
            Activity::Ready(answer) => Some(answer),
        }
    }

    fn put(&mut self, activity: Activity<Reading, Writing>)
        ensures { self.new ≡ activity }
    {
        discard(mem::replace(&mut self.activity, activity));
    }
}

impl Drop for Standing {
    fn drop(self) {
        let Standing { activity } = self;
        discard(activity);
    }
}

/// Spends the guard that the node has yet to take, if there is one.
fn discard(activity: Activity<Reading, Writing>) {
    match activity {
        Activity::Ready(answer) => discard_answer(answer),
        Activity::Free | Activity::Waiting(_) => (),
    }
}

/// Spends the guard in the answer, if there is one.
fn discard_answer(answer: Answer<Reading, Writing>) {
    match answer {
        Answer::Reading(guard) => guard.discard(),
        Answer::Writing(guard) => guard.discard(),
        Answer::Came { round: _, fold } => drop(fold),
        Answer::Made(_)
        | Answer::Mapped { name: _, size: _ }
        | Answer::Done
        | Answer::Refused(_)
        | Answer::Wait => (),
    }
}
