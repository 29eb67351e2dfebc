//! What a call comes to, before anything is said of it.
ghost use Rattle.std.specs.Prelude.{◌≡◌};
ghost use Rattle.llsc_call.specs.inner.Outcome.{refused_by, status_of};
ghost use Rattle.llsc_call.specs.Check.{verdict_status};

use guest_thread::GuestEnd;
use llsc_files::Refusal;
use llsc_report::{status, status_of_all};
use llsc_texts::Listing;
use llsc_words::LoadNumbers;
use run_checker::Verdict;
use run_explainer::Explanation;
use shared_memory::Rows;

/// What a call comes to.
#[derive(Drop)]
pub enum Outcome {
    /// The words ask for nothing.
    NoRequest,
    /// A file could not be read.
    Unread,
    /// Memory is wanting.
    NoMemory,
    /// The request is refused: what is said of that.
    Refused(String),
    /// A text was assembled: the file of its program.
    Assembled(Vec<u8>),
    /// A program is shown word by word.
    Listed(Listing),
    /// A run was recorded: the text of its record, and the ends of its threads.
    Recorded { text: Vec<u8>, ends: Vec<GuestEnd> },
    /// A record was judged: the verdict, and its text.
    Judged { verdict: Verdict, text: String },
    /// A record was judged good, and is explained.
    Explained(Explanation),
    /// One thread ran alone, with so many steps at most.
    Alone { budget: u64, end: GuestEnd },
    /// Threads ran beside each other, with so many steps each at most.
    Beside { budget: u64, ends: Vec<GuestEnd> },
    /// The threads of a load of these numbers have left with code 0: the cells of memory as it was left.
    Counted { numbers: LoadNumbers, rows: Rows },
}

/// 0 for a good record, 7 for a bad one.
fn status_of_verdict(verdict: Verdict) -> u8
    ensures { result ≡ verdict_status verdict }
{
    match verdict {
        Verdict::Good => 0,
        Verdict::Bad { .. } => 7,
    }
}

impl Outcome {
    /// The status with which the program ends where what it says of this is written whole.
    pub fn status(&self) -> u8
        ensures { result ≡ status_of self.now }
    {
        match self {
            Outcome::Assembled(_)
            | Outcome::Listed(_)
            | Outcome::Explained(_)
            | Outcome::Counted { .. } => 0,
            Outcome::Recorded { ends, .. } | Outcome::Beside { ends, .. } => {
                status_of_all(ends.as_slice())
            }
            Outcome::Alone { end, .. } => status(end.stop),
            Outcome::Judged { verdict, .. } => status_of_verdict(*verdict),
            Outcome::NoRequest => 2,
            Outcome::Unread => 3,
            Outcome::Refused(_) => 4,
            Outcome::NoMemory => 6,
        }
    }
}

impl From<Refusal> for Outcome {
    fn from(refusal: Refusal) -> Outcome
        ensures { result ≡ refused_by refusal }
    {
        match refusal {
            Refusal::Said(text) => Outcome::Refused(text),
            Refusal::Memory => Outcome::NoMemory,
        }
    }
}
