//! Why the store-exclusives of a record failed, as a text that is written page by page.
ghost use Rattle.std.specs.Prelude.{◌≡◌, ◌<◌, ◌≤◌, ◌+◌, ◌*◌, ◌%◌, ◌^◌, ◌∷◌, ◌++◌, [], All, List, IfOk, OnOk, codes, length};
ghost use Rattle.llsc_host.specs.Writes.{Writes};
ghost use Rattle.run_record.specs.Limits.{IsRecord};
ghost use Rattle.run_explainer.specs.Attempts.{tally_of};
ghost use Rattle.run_explainer.specs.Text.{explanation, instruction_text, instructions_text, outcome_text, tally_text};
ghost use Rattle.run_explainer.specs.declared.attempts.Attempt.{Attempt as AttemptSpec};
ghost use Rattle.run_explainer.specs.declared.events.Event.{Event as EventSpec};
ghost use Rattle.run_explainer.specs.Explaining.{AreTallies, HasSeen};
ghost use Rattle.run_explainer.specs.inner.Steps.{HasSeenFew};
ghost use Rattle.run_explainer.specs.inner.Texts.{GoesOn, event_text, failures_text};

use crate::attempts::Outcome;
use crate::events::{Event, Events, is_attempt};
use crate::explainer::Explainer;
use crate::shown::Shown;
use crate::tallies::Tally;
use crate::text::{put_failure, put_instruction, put_tally};
use llsc_base::Image;
use llsc_host::{Failed, Host, write};
use llsc_texts::{Page, make_room};
use run_checker::Sightings;
use run_record::{Accesses, RunRecord};
use std::alloc::{AllocError, Global};
use std::marker::Model;

/// A record that is to be explained, with all memory that this takes.
#[derive(Drop)]
pub struct Explanation {
    shown: Shown,
    accesses: Accesses,
    sightings: Sightings,
    explainer: Explainer,
    page: Page,
}

impl Model for Explanation {
    ghost use Rattle.std.specs.Prelude.{◌≡◌, ◌<◌, ◌≤◌, ◌/◌, [], All, List, ℕ, length};
    ghost use Rattle.run_explainer.specs.Text.{explanation};
    ghost use Rattle.run_explainer.specs.Explaining.{CanExplain};

    ghost Value = { List ℕ };

    ghost view = { λ e. explanation e.explainer.granule e.shown e.accesses e.sightings };

    ghost invariant = { λ e. CanExplain e.shown e.accesses e.explainer × (e.page ≡ []) };
}

impl Explanation {
    /// The explanation of a record of an image's threads, whose accesses have these sightings. The image has `mem` bytes.
    ///
    /// # Errors
    ///
    /// `AllocError` is want of memory.
    pub fn new(
        alloc: Global,
        image: Image,
        mem: u32,
        run: RunRecord,
        sightings: Sightings,
    ) -> Result<Explanation, AllocError>
        requires whole { length image.bytes ≡ mem }
        requires limits { IsRecord run }
        ensures { IfOk result (λ text. text ≡ explanation run.granule image run.accesses sightings) }
    {
        let explainer = Explainer::new(alloc, run.granule, run.threads, mem)?;
        let shown = Shown::new(alloc, image)?;
        let page = Page::new(alloc)?;
        Ok(Explanation {
            shown,
            accesses: run.accesses,
            sightings,
            explainer,
            page,
        })
    }
}

/// Adds why a store-exclusive failed to the page.
fn add_failure<H: Host>(
    host: &mut H,
    page: &mut Page,
    shown: &mut Shown,
    event: &Event,
    outcome: &Outcome,
) -> Result<(), Failed>
    ensures program { shown.new ≡ shown.old }
    ensures text { GoesOn H.Host host.old host.new page.new (page.old ++ outcome_text shown.old event.now outcome.now) result }
{
    let Outcome::Failed(why) = outcome else {
        return Ok(());
    };
    make_room(host, page, 1250)?;
    put_failure(page, shown, event, why);
    Ok(())
}

/// Adds an event to the page, where it is a store-exclusive that failed.
fn add_event<H: Host>(
    host: &mut H,
    page: &mut Page,
    shown: &mut Shown,
    explainer: &mut Explainer,
    event: &Event,
) -> Result<(), Failed>
    requires granule { explainer.old.granule ≤ 8 }
    requires thread { event.now.access.thread < length explainer.old.reservations.items }
    requires aligned { event.now.sighting.pc % 4 ≡ 0 }
    requires few { HasSeenFew explainer.old }
    requires numbers { length explainer.old.reservations.items < 2 ^ 32 }
    ensures program { shown.new ≡ shown.old }
    ensures text { (seen : List EventSpec) → HasSeen explainer.old seen
        → GoesOn H.Host host.old host.new page.new (page.old ++ event_text explainer.old.granule shown.old seen event.now) result }
    ensures seen { (seen : List EventSpec) → HasSeen explainer.old seen → HasSeen explainer.new (seen ++ event.now ∷ []) }
    ensures granule { explainer.new.granule ≡ explainer.old.granule }
    ensures threads { length explainer.new.reservations.items ≡ length explainer.old.reservations.items }
    ensures words { length explainer.new.tallies.items ≡ length explainer.old.tallies.items }
{
    if !is_attempt(event.access.deed) {
        explainer.take_in(event);
        return Ok(());
    }
    let outcome = explainer.take_in_attempt(event);
    add_failure(host, page, shown, event, &outcome)
}

/// Adds why the store-exclusives of a record failed to the page, in order.
fn add_failures<H: Host>(
    host: &mut H,
    page: &mut Page,
    shown: &mut Shown,
    explainer: &mut Explainer,
    events: &mut Events<'_>,
) -> Result<(), Failed>
    requires start { HasSeen explainer.old [] }
    requires rows { explainer.old.granule ≤ 8 }
    requires few { length events.old ≤ 1000000 }
    requires numbers { length explainer.old.reservations.items < 2 ^ 32 }
    requires threads { All (λ event. event.access.thread < length explainer.old.reservations.items) events.old }
    ensures program { shown.new ≡ shown.old }
    ensures text { GoesOn H.Host host.old host.new page.new (page.old ++ failures_text explainer.old.granule shown.old events.old) result }
    ensures seen { OnOk result (HasSeen explainer.new events.old) }
    ensures granule { explainer.new.granule ≡ explainer.old.granule }
    ensures words { length explainer.new.tallies.items ≡ length explainer.old.tallies.items }
{
    while let Some(event) = events.next() {
        add_event(host, page, shown, explainer, &event)?;
    }
    Ok(())
}

/// Adds the line of the instruction at an address to the page, where it has made a store-exclusive.
fn add_instruction<H: Host>(
    host: &mut H,
    page: &mut Page,
    shown: &mut Shown,
    addr: u32,
    tally: &Tally,
) -> Result<(), Failed>
    ensures program { shown.new ≡ shown.old }
    ensures text { (attempts : List AttemptSpec) → tally.now ≡ tally_of attempts
        → GoesOn H.Host host.old host.new page.new (page.old ++ instruction_text shown.old addr attempts) result }
{
    if tally.is_empty() {
        return Ok(());
    }
    make_room(host, page, 800)?;
    put_instruction(page, shown, addr, tally);
    Ok(())
}

/// Adds the lines of all instructions to the page, by rising address.
fn add_instructions<H: Host>(
    host: &mut H,
    page: &mut Page,
    shown: &mut Shown,
    tallies: &[Tally],
) -> Result<(), Failed>
    requires { 4 * length tallies.now < 2 ^ 32 }
    ensures program { shown.new ≡ shown.old }
    ensures text { (attempts : List AttemptSpec) → AreTallies tallies.now attempts
        → GoesOn H.Host host.old host.new page.new (page.old ++ instructions_text shown.old attempts (length tallies.now)) result }
{
    for word in 0..tallies.len() {
        add_instruction(host, page, shown, 4 * word as u32, &tallies[word])?;
    }
    Ok(())
}

/// Adds the line of all store-exclusives to the page.
fn add_all<H: Host>(host: &mut H, page: &mut Page, all: &Tally) -> Result<(), Failed>
    ensures { GoesOn H.Host host.old host.new page.new (page.old ++ (codes "all" ++ tally_text all.now)) result }
{
    make_room(host, page, 603)?;
    page.push(b"all");
    put_tally(page, all);
    Ok(())
}

/// Writes an explanation, a page at a time. No memory is taken.
///
/// # Errors
///
/// `Failed` where a write failed: a front of the explanation is written.
pub fn write_explanation<H: Host>(host: &mut H, explanation: Explanation) -> Result<(), Failed>
    ensures { Writes H.Host host.old host.new explanation result }
{
    let Explanation {
        mut shown,
        accesses,
        sightings,
        mut explainer,
        mut page,
    } = explanation;
    let mut events = Events::new(accesses.as_slice(), sightings.as_slice());
    add_failures(host, &mut page, &mut shown, &mut explainer, &mut events)?;
    add_instructions(host, &mut page, &mut shown, explainer.tallies())?;
    add_all(host, &mut page, explainer.all())?;
    write(host, page.bytes())
}
