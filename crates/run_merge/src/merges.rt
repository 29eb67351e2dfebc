//! The merge of a run's logs.
ghost use Rattle.std.specs.Prelude.{◌≡◌, ◌≤◌, ◌<◌, ◌+◌, IfErr, IfNone, IfOk, IfSome, length, map, sum_by};
ghost use Rattle.std.specs.Result.{OnOk};
ghost use Rattle.history.specs.Accesses.{history_of};
ghost use Rattle.history.specs.Parts.{accesses_of};
ghost use Rattle.version_memory.specs.Memory.{pass_seen};
ghost use Rattle.run_record.specs.Limits.{most_accesses};
ghost use Rattle.run_merge.specs.Logs.{access_of};
ghost use Rattle.run_merge.specs.Merge.{IsMerge, merge_fault_name};
ghost use Rattle.run_merge.specs.inner.Merging.{AreLogs};

use crate::filling::begun;
use crate::logs::Log;
use crate::merging::Merging;
use crate::runs::LoggedRun;
use history::Access;
use run_record::MOST_ACCESSES;
use std::alloc::{AllocError, Global};
use thiserror::Error;

/// Why there is no merge.
#[derive(Clone, Copy, Debug, PartialEq, Eq, Error)]
pub enum MergeFault {
    /// The run has more accesses than a record may have, which is 1,000,000.
    #[error("the run has more than 1000000 accesses")]
    TooLong,
    /// Want of memory.
    #[error("out of memory")]
    Memory,
}

impl MergeFault {
    /// The variant's name.
    pub fn name(&self) -> &str
        ensures { result.now ≡ merge_fault_name self.now }
    {
        match self {
            MergeFault::TooLong => "TooLong",
            MergeFault::Memory => "Memory",
        }
    }
}

/// How many accesses logs count together, unless that is more than a record may have.
fn sum_of(logs: &[Log]) -> Option<u64>
    requires few { length logs.now ≤ 16 }
    ensures some { IfSome result (λ total. (total ≡ sum_by (λ log. log.count) logs.now) × (total ≤ most_accesses)) }
    ensures none { IfNone result (most_accesses < sum_by (λ log. log.count) logs.now) }
{
    let mut total: u64 = 0;
    for t in 0..logs.len() {
        let count = logs[t].count;
        if count > MOST_ACCESSES as u64 {
            return None;
        }
        total += count;
    }
    if total > MOST_ACCESSES as u64 {
        return None;
    }
    Some(total)
}

/// How many accesses a run has, unless that is more than a record may have. Where it isn't, its logs are whole.
fn total_of(run: &LoggedRun) -> Option<u64>
    ensures some { IfSome result (λ _. length (accesses_of (pass_seen run.now.pass)) ≤ most_accesses) }
    ensures logs { IfSome result (λ _. AreLogs run.now.size (pass_seen run.now.pass) run.now.logs.items) }
    ensures none { IfNone result (most_accesses < length (accesses_of (pass_seen run.now.pass))) }
{
    prove!(run.size.threads() <= 16);
    sum_of(run.logs.as_slice())
}

/// Merges the logs of a run to one list of its accesses: those of each thread in order, and each load and each store with as many
/// stores of its class before it as its stamp says. A failed store-exclusive has no stamp. As far as the logs allow, a store of its class
/// stands between it and its thread's load-exclusive.
///
/// # Errors
///
/// [`MergeFault::TooLong`] exactly where the run has more than 1,000,000 accesses. [`MergeFault::Memory`] is want of memory, of a run
/// that isn't too long.
pub fn merge(alloc: Global, run: &LoggedRun) -> Result<Vec<Access>, MergeFault>
    ensures merge { IfOk result (λ merged. IsMerge run.now.size (pass_seen run.now.pass) merged.items) }
    ensures form { IfOk result (λ merged. merged.items ≡ map access_of (history_of merged.items)) }
    ensures count { IfOk result (λ merged. length merged.items ≡ length (accesses_of (pass_seen run.now.pass))) }
    ensures few { OnOk result (length (accesses_of (pass_seen run.now.pass)) ≤ most_accesses) }
    ensures long { IfErr result (λ fault. fault ≡ MergeFault.TooLong → most_accesses < length (accesses_of (pass_seen run.now.pass))) }
    ensures wanting { IfErr result (λ fault. fault ≡ MergeFault.Memory → length (accesses_of (pass_seen run.now.pass)) ≤ most_accesses) }
{
    let Some(total) = total_of(run) else {
        return Err(MergeFault::TooLong);
    };
    let logs = run.logs.as_slice();
    let Ok(mut merging) = begun(alloc, &run.size, &run.pass, logs, total as usize) else {
        return Err(MergeFault::Memory);
    };
    let Ok(()) = merging.take_all(&run.size, &run.pass, logs) else {
        return Err(MergeFault::Memory);
    };
    let Merging {
        at: _,
        base: _,
        left: _,
        count: _,
        reservations: _,
        out,
    } = merging;
    Ok(out)
}
