//! What the words ask for.
ghost use Rattle.std.specs.Prelude.{◌≤◌, IfSome};

use crl_model::NodeNo;
use crl_model::name::Name;

/// The most threads.
pub const THREAD_LIMIT: NodeNo = 16;

/// What each thread does, by its caller.
#[derive(Clone, Copy, Debug, PartialEq, Eq)]
pub enum Work {
    /// It raises the number in a region of 8 bytes that its node created.
    Own,
    /// The same with 65,536 bytes.
    OwnLarge,
    /// It raises the number in the one region, of 8 bytes.
    Counter,
    /// It reads the number in the one region, of 64 bytes, which node 0 raised once.
    Reads,
}

const WORKS: [Work; 4] = [Work::Own, Work::OwnLarge, Work::Counter, Work::Reads];

impl Work {
    /// The word that asks for it.
    pub fn word(self) -> &'static str {
        match self {
            Work::Own => "own",
            Work::OwnLarge => "own64k",
            Work::Counter => "counter",
            Work::Reads => "reads",
        }
    }

    /// The size in bytes of each region.
    pub fn size(self) -> u32 {
        match self {
            Work::Own | Work::Counter => 8,
            Work::OwnLarge => 65_536,
            Work::Reads => 64,
        }
    }

    /// The region that the caller of this node uses: the first of the node, or of node 0.
    pub fn region(self, node: NodeNo) -> Name {
        match self {
            Work::Own | Work::OwnLarge => Name::new(node, 1),
            Work::Counter | Work::Reads => Name::new(0, 1),
        }
    }
}

/// A work, so many threads with a node each, and so many sections for each of them.
#[derive(Clone, Copy, Debug, PartialEq, Eq)]
pub struct Plan {
    pub work: Work,
    pub threads: NodeNo,
    pub each: u32,
}

fn work_of(word: &str) -> Option<Work> {
    WORKS.into_iter().find(|work| work.word() == word)
}

/// The number of threads that the word gives, 1 to 16.
fn threads_of(word: &str) -> Option<NodeNo>
    ensures { IfSome result (λ threads. (1 ≤ threads) × (threads ≤ THREAD_LIMIT)) }
{
    match word.parse::<NodeNo>() {
        Ok(threads) if 1 <= threads && threads <= THREAD_LIMIT => Some(threads),
        _ => None,
    }
}

/// The plan of the words `WORK THREADS SECTIONS`.
pub fn plan_of(words: &[String]) -> Option<Plan>
    ensures { IfSome result (λ plan. (1 ≤ plan.threads) × (plan.threads ≤ THREAD_LIMIT)) }
{
    let [work, threads, sections] = words else {
        return None;
    };
    let work = work_of(work.as_str())?;
    let threads = threads_of(threads.as_str())?;
    let sections = sections.as_str().parse::<u32>().ok()?;
    Some(Plan {
        work,
        threads,
        each: sections / threads as u32,
    })
}
