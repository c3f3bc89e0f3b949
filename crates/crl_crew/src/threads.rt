//! Tasks that run at once, each in a thread of its own.
ghost use Rattle.std.specs.Prelude.{◌≡◌, length, IfOk};
ghost use Rattle.std.specs.List.{All};
ghost use Rattle.crl_crew.specs.Tasks.{AreEndsOf};

use crl_cluster::Pass;
use crl_model::OutOfMemory;
use std::thread::{Threads, map_vec};

/// What a thread does with a pass.
pub(crate) trait Task: Sized {
    ghost use Rattle.crl_cluster.specs.declared.cluster.Pass.{Pass};

    // What it needs.
    ghost can_run: { Self → Type 0 };

    // What it leaves.
    ghost leaves: { Self → Pass → Type 0 };

    /// Runs to its end, and leaves its pass.
    ///
    /// # Errors
    ///
    /// `OutOfMemory`.
    fn run(self) -> Result<Pass, OutOfMemory>
        requires { can_run self }
        ensures { IfOk result (λ pass. leaves self pass) };
}

/// All tasks at once, each in a thread of its own where one can be made. The passes that they left, in order.
///
/// # Errors
///
/// `OutOfMemory`; then some tasks may not have run.
pub(crate) fn run_all<R: Threads + Sync, J: Task + Send + Drop>(
    rt: &R,
    tasks: Vec<J>,
) -> Result<Vec<Result<Pass, OutOfMemory>>, OutOfMemory>
    requires { All J.can_run tasks.items }
    ensures many { IfOk result (λ ends. length ends.items ≡ length tasks.items) }
    ensures ends { IfOk result (λ ends. AreEndsOf J.leaves tasks.items ends.items) }
{
    map_vec(
        rt,
        tasks,
        &|task: J| -> Result<Pass, OutOfMemory>
            requires { J.can_run task }
            ensures { IfOk result (λ pass. J.leaves task pass) }
        { task.run() },
    )
}
