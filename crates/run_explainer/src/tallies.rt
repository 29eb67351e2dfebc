//! How many store-exclusives came out in which way.
ghost use Rattle.std.specs.Prelude.{◌≡◌, ◌<◌, ◌+◌, ◌^◌, ◌==◌, []};
ghost use Rattle.run_explainer.specs.Attempts.{tally_of};
ghost use Rattle.run_explainer.specs.inner.Steps.{CanTally, counted, sum_of};

use crate::attempts::Outcome;
use crate::reasons::Why;

/// How many store-exclusives came out in which way.
#[derive(Clone, Copy, Debug, PartialEq, Eq)]
pub struct Tally {
    /// They succeeded.
    pub stored: u32,
    /// They failed to others' writes.
    pub written: u32,
    /// They failed without a reservation of the row.
    pub without: u32,
    /// They failed otherwise.
    pub otherwise: u32,
    /// They failed to others' writes, and the value had come back.
    pub came_back: u32,
}

impl Tally {
    /// None.
    pub(crate) fn none() -> Tally
        ensures { result ≡ tally_of [] }
    {
        Tally {
            stored: 0,
            written: 0,
            without: 0,
            otherwise: 0,
            came_back: 0,
        }
    }

    /// Whether it is of no store-exclusive.
    pub(crate) fn is_empty(&self) -> bool
        ensures { result ≡ (sum_of self.now == 0) }
    {
        let failed = u64::from(self.written) + u64::from(self.without) + u64::from(self.otherwise);
        u64::from(self.stored) + failed == 0
    }

    /// Counts one more.
    pub(crate) fn count(&mut self, outcome: &Outcome)
        requires { CanTally self.old }
        ensures { self.new ≡ counted self.old outcome.now }
    {
        match outcome {
            Outcome::Stored => self.stored += 1,
            Outcome::Failed(Why::Written { came_back, .. }) => {
                self.written += 1;
                self.came_back += u32::from(*came_back);
            }
            Outcome::Failed(Why::Otherwise { .. }) => self.otherwise += 1,
            Outcome::Failed(
                Why::NoLoadExclusive | Why::AnotherRow { .. } | Why::EndedItself { .. },
            ) => self.without += 1,
        }
    }
}
