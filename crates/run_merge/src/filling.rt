//! The tables of a merge, filled.
ghost use Rattle.std.specs.Prelude.{◌≡◌, ◌≤◌, ◌<◌, ◌+◌, ◌^◌, ℕ, Some, IfOk, length, get_or, slice_get, slice_index, sum_by};
ghost use Rattle.std.specs.List.{count_by};
ghost use Rattle.history.specs.Parts.{accesses_of};
ghost use Rattle.version_memory.specs.Memory.{pass_seen};
ghost use Rattle.run_record.specs.Limits.{most_accesses};
ghost use Rattle.run_merge.specs.inner.Merging.{AreLogs, IsMerging};
ghost use Rattle.run_merge.specs.Taking.{AreKnown};
ghost use Rattle.run_merge.specs.inner.Filling.{AreSmall, AreWide, IsStack, most_width};
ghost use Rattle.run_merge.specs.inner.Tables.{is_read_at, spot};
ghost use Rattle.run_merge.specs.declared.logs.Stamped.{Stamped};
ghost use Rattle.run_merge.specs.declared.logs.Log.{Log};

use crate::logs::{Log, Stamped};
use crate::merging::{Merging, class_of, loads};
use crate::reservations::Reservations;
use llsc_base::MachineSize;
use std::alloc::{AllocError, Global};
use version_memory::VersionPass;

/// The widths of classes once each stamp of a log is below that of its class.
fn widened(mut widths: Vec<usize>, size: &MachineSize, entries: &[Stamped]) -> Vec<usize>
    requires len { length widths.items ≡ size.now.classes }
    requires small { AreSmall entries.now }
    requires bound { (c : ℕ) → slice_index widths.items c ≤ most_width }
    ensures len { length result.items ≡ size.now.classes }
    ensures bound { (c : ℕ) → slice_index result.items c ≤ most_width }
    ensures no_less { (c : ℕ) → slice_index widths.items c ≤ slice_index result.items c }
    ensures wide { AreWide size.now entries.now (length entries.now) result.items }
{
    for i in 0..entries.len() {
        let one = entries[i];
        let class = class_of(size, &one);
        if widths.as_slice()[class] as u64 <= one.stamp {
            widths[class] = one.stamp as usize + 1;
        }
    }
    widths
}

/// Where each class begins, and where the last ends.
fn stacked(mut widths: Vec<usize>) -> (Vec<usize>, usize)
    requires few { length widths.items ≤ 2 ^ 30 }
    requires bound { (c : ℕ) → slice_index widths.items c ≤ most_width }
    ensures len { length result.0.items ≡ length widths.items }
    ensures stack { IsStack widths.items (length widths.items) result.0.items result.1 }
{
    let mut total: usize = 0;
    for c in 0..widths.len() {
        let width = widths.as_slice()[c];
        widths[c] = total;
        total += width;
    }
    (widths, total)
}

/// How many Reads of each class and stamp are left, with those of one log more.
fn counted(
    mut left: Vec<usize>,
    base: &[usize],
    size: &MachineSize,
    entries: &[Stamped],
) -> Vec<usize>
    requires base { length base.now ≡ size.now.classes }
    requires spots { (i : ℕ) (d : Stamped) → i < length entries.now → spot size.now base.now (get_or entries.now i d) < length left.items }
    requires few { (k : ℕ) → slice_index left.items k + length entries.now < 2 ^ 63 }
    ensures len { length result.items ≡ length left.items }
    ensures left { (k : ℕ) → slice_index result.items k ≡ slice_index left.items k + count_by (is_read_at size.now base.now k) entries.now }
{
    for i in 0..entries.len() {
        let one = entries[i];
        if loads(one.access.deed) {
            let spot = base[class_of(size, &one)] + one.stamp as usize;
            left[spot] += 1;
        }
    }
    left
}

/// The widths of classes, by all logs.
fn widths_of(mut widths: Vec<usize>, size: &MachineSize, logs: &[Log]) -> Vec<usize>
    requires len { length widths.items ≡ size.now.classes }
    requires small { (t : ℕ) (log : Log) → slice_get logs.now t ≡ Some log → AreSmall log.entries.items }
    requires bound { (c : ℕ) → slice_index widths.items c ≤ most_width }
    ensures len { length result.items ≡ size.now.classes }
    ensures bound { (c : ℕ) → slice_index result.items c ≤ most_width }
    ensures wide { (t : ℕ) (log : Log) → slice_get logs.now t ≡ Some log → AreWide size.now log.entries.items (length log.entries.items) result.items }
{
    for t in 0..logs.len() {
        widths = widened(widths, size, logs[t].entries.as_slice());
    }
    widths
}

/// How many Reads of each class and stamp there are, by all logs.
fn counts_of(mut left: Vec<usize>, base: &[usize], size: &MachineSize, logs: &[Log]) -> Vec<usize>
    requires base { length base.now ≡ size.now.classes }
    requires zero { (k : ℕ) → slice_index left.items k ≡ 0 }
    requires spots { (t : ℕ) (log : Log) → slice_get logs.now t ≡ Some log → (i : ℕ) (d : Stamped) → i < length log.entries.items → spot size.now base.now (get_or log.entries.items i d) < length left.items }
    requires short { (t : ℕ) (log : Log) → slice_get logs.now t ≡ Some log → length log.entries.items ≤ most_accesses }
    requires few { length logs.now ≤ 16 }
    ensures len { length result.items ≡ length left.items }
    ensures left { (k : ℕ) → slice_index result.items k ≡ sum_by (λ log. count_by (is_read_at size.now base.now k) log.entries.items) logs.now }
{
    for t in 0..logs.len() {
        left = counted(left, base, size, logs[t].entries.as_slice());
    }
    left
}

/// The tables of logs of which nothing is taken, with room for so many accesses.
pub(crate) fn begun(
    alloc: Global,
    size: &MachineSize,
    pass: &VersionPass,
    logs: &[Log],
    total: usize,
) -> Result<Merging, AllocError>
    requires logs { AreLogs size.now (pass_seen pass.now) logs.now }
    requires known { AreKnown size.now.threads (pass_seen pass.now) }
    requires few { length (accesses_of (pass_seen pass.now)) ≤ most_accesses }
    ensures { IfOk result (λ merging. IsMerging size.now (pass_seen pass.now) merging) }
{
    let classes = size.classes() as usize;
    let threads = size.threads() as usize;
    let widths = widths_of(vec![in alloc; 0; classes]?, size, logs);
    let (base, end) = stacked(widths);
    let none = vec![in alloc; 0; end]?;
    let left = counts_of(none, base.as_slice(), size, logs);
    let at = vec![in alloc; 0; threads]?;
    let count = vec![in alloc; 0; classes]?;
    let reservations = Reservations::new(alloc, threads)?;
    let out = Vec::with_capacity(alloc, total)?;
    Ok(Merging {
        at,
        base,
        left,
        count,
        reservations,
        out,
    })
}
