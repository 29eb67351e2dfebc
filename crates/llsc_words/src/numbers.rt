//! The numbers that options give.
ghost use Rattle.std.specs.Prelude.{◌≡◌, ◌≤◌, true, IfSome};
ghost use Rattle.std.specs.Option.{option_map};
ghost use Rattle.llsc_base.specs.Limits.{most_budget};
ghost use Rattle.llsc_words.specs.Request.{budget_or, is_budget, is_workers, may_start, number_in, number_or, spare_or, workers_or};

use crate::sets::SetName;
use llsc_base::MOST_STEPS;
use number_text::plain_number;

/// The most workers of a pool.
const MOST_WORKERS: u64 = 4;

/// The number that a value is, `None` where it is none or isn't given.
pub fn number_in(value: Option<&str>) -> Option<u64>
    ensures { result ≡ number_in (option_map (λ text. text.now) value.entry) }
{
    plain_number(value?.as_bytes())
}

/// The number that an option's value is, `None` where it is none, and the default where no value is given.
pub fn number_or(default: u64, value: Option<&str>) -> Option<u64>
    ensures { result ≡ number_or default (option_map (λ text. text.now) value.entry) }
{
    match value {
        Some(text) => plain_number(text.as_bytes()),
        None => Some(default),
    }
}

/// Whether a thread may have so many steps.
fn is_budget(budget: u64) -> bool
    ensures { result ≡ is_budget budget }
{
    1 <= budget && budget <= MOST_STEPS
}

/// The budget that an option's value is, `None` where it is no number of steps that a thread may have.
pub fn budget_or(default: u64, value: Option<&str>) -> Option<u64>
    ensures number { result ≡ budget_or default (option_map (λ text. text.now) value.entry) }
    ensures range { IfSome result (λ budget. (1 ≤ budget) × (budget ≤ most_budget)) }
{
    let budget = number_or(default, value)?;
    if !is_budget(budget) {
        return None;
    }
    Some(budget)
}

/// Whether a pool may have so many workers.
fn is_workers(workers: u64) -> bool
    ensures { result ≡ is_workers workers }
{
    1 <= workers && workers <= MOST_WORKERS
}

/// The workers that an option's value gives a pool, `None` where it is no number of workers that one may have.
pub fn workers_or(default: u64, value: Option<&str>) -> Option<u64>
    ensures number { result ≡ workers_or default (option_map (λ text. text.now) value.entry) }
    ensures range { IfSome result (λ workers. (1 ≤ workers) × (workers ≤ 4)) }
{
    let workers = number_or(default, value)?;
    if !is_workers(workers) {
        return None;
    }
    Some(workers)
}

/// Whether each thread of such instructions may start so many others.
fn may_start(set: SetName, spare: u64) -> bool
    ensures { result ≡ may_start set spare }
{
    match set {
        SetName::A32 => true,
        SetName::Rv32 => spare == 0,
    }
}

/// How many others each thread of such instructions may start by an option's value, `None` where it is no number of those that one
/// may start.
pub fn spare_or(default: u64, set: SetName, value: Option<&str>) -> Option<u64>
    ensures number { result ≡ spare_or default set (option_map (λ text. text.now) value.entry) }
    ensures range { IfSome result (λ spare. may_start set spare ≡ true) }
{
    let spare = number_or(default, value)?;
    if !may_start(set, spare) {
        return None;
    }
    Some(spare)
}
