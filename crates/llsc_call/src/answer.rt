//! What a request is answered with, before anything is said of it.
ghost use Rattle.std.specs.Prelude.{◌≡◌, None, Some};

use crate::beside::ClosedRun;
use crate::outcome::Outcome;
use version_memory::VersionStory;

/// What a call comes to, and the history that goes with it.
#[derive(Drop)]
pub struct Answer {
    /// What the call comes to.
    pub outcome: Outcome,
    /// The history of the accesses of threads that ran beside each other, where any did. Nothing of it is read at run time.
    pub story: Option<VersionStory>,
}

impl Answer {
    /// Threads ran beside each other, each with so many steps at most.
    pub fn of_threads(budget: u64, done: ClosedRun<VersionStory>) -> Answer
        ensures { result ≡ record { outcome = Outcome.Beside budget done.ends; story = Some done.story } }
    {
        Answer {
            outcome: Outcome::Beside {
                budget,
                ends: done.ends,
            },
            story: Some(done.story),
        }
    }
}

impl From<Outcome> for Answer {
    /// No threads ran beside each other.
    fn from(outcome: Outcome) -> Answer
        ensures outcome { result.outcome ≡ outcome }
        ensures story { result.story ≡ None }
    {
        Answer {
            outcome,
            story: None,
        }
    }
}
