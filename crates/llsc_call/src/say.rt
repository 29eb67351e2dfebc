//! What is said of an outcome, and with which status.
ghost use Rattle.std.specs.Prelude.{◌≡◌, IsOk};
ghost use Rattle.llsc_host.specs.Writes.{KeepsWrites, Writes};
ghost use Rattle.llsc_call.specs.inner.Outcome.{text_of, CanBeSaid, Says};

use crate::outcome::Outcome;
use llsc_host::{Failed, Host, write};
use llsc_report::{write_report, write_summary};
use llsc_texts::write_listing;
use run_explainer::write_explanation;

/// Writes the text of an outcome, piece by piece. No memory is taken.
fn write_outcome<H: Host>(host: &mut H, outcome: Outcome) -> Result<(), Failed>
    requires { CanBeSaid outcome }
    ensures text { Writes H.Host host.old host.new (text_of outcome) result }
    ensures wanting { outcome ≡ Outcome.NoMemory → IsOk result × KeepsWrites H.Host host.old host.new }
{
    match outcome {
        Outcome::NoRequest => write(host, b"llsc: words\n"),
        Outcome::Unread => write(host, b"llsc: read failed\n"),
        Outcome::NoMemory => Ok(()),
        Outcome::Refused(text) => write(host, text.as_bytes()),
        Outcome::Assembled(file) => write(host, file.as_slice()),
        Outcome::Listed(listing) => write_listing(host, listing),
        Outcome::Recorded { text, .. } => write(host, text.as_slice()),
        Outcome::Judged { text, .. } => write(host, text.as_bytes()),
        Outcome::Explained(explanation) => write_explanation(host, explanation),
        Outcome::Alone { budget, end } => write_report(host, budget, &[end]),
        Outcome::Beside { budget, ends } => write_report(host, budget, ends.as_slice()),
        Outcome::Counted { numbers, rows } => write_summary(host, &numbers, &rows),
    }
}

/// Says what a call comes to, and ends with its status, or with 5 where a write failed.
pub fn say<H: Host>(host: &mut H, outcome: Outcome) -> u8
    requires { CanBeSaid outcome }
    ensures says { Says H.Host host.old host.new outcome result }
    ensures wanting { outcome ≡ Outcome.NoMemory → (result ≡ 6) × KeepsWrites H.Host host.old host.new }
{
    let status = outcome.status();
    match write_outcome(host, outcome) {
        Ok(()) => status,
        Err(_) => 5,
    }
}
