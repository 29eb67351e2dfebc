//! Laws of records as text, each a function of no effect whose contract is the law.
ghost use Rattle.std.specs.Prelude.{◌≡◌, ◌++◌, ℕ, List, Ok, Err, codes, flat_map, length};
ghost use Rattle.std.specs.Fmt.{decimal};
ghost use Rattle.run_record.specs.Fault.{HasFault};
ghost use Rattle.run_record.specs.Limits.{IsRecord};
ghost use Rattle.run_record.specs.Reading.{record_of};
ghost use Rattle.run_record.specs.Text.{line_text, record_text};

use crate::faults::RecordFault;
use crate::records::RunRecord;

/// The text of a record with granule 0 has a header line of the first format, in which no granule stands.
#[tactic(auto, unfolding(crate::specs::Text::header_text, crate::specs::Text::record_text))]
pub fn least_granules_have_the_first_format()
    ensures { (run : RunRecord) → run.granule ≡ 0 →
        let header = codes "llsc-run 1 threads " ++ decimal run.threads ++ codes " budget " ++ decimal run.budget
        ++ codes " accesses " ++ decimal (length run.accesses) ++ codes "\n" in
        record_text run ≡ header ++ flat_map line_text run.accesses }
{}

/// The text of a record is read as that record. So different records have different texts.
pub fn records_are_read_again()
    ensures { (run : RunRecord) → IsRecord run → record_of (record_text run) ≡ Ok run }
{}

/// Bytes that are read as a record are the text of that record, and it is within the limits.
pub fn read_records_have_their_text()
    ensures { (bytes : List ℕ) (run : RunRecord) → record_of bytes ≡ Ok run → (record_text run ≡ bytes) × IsRecord run }
{}

/// The fault that is read is the first that the bytes have, and each fault that is the first is read. So bytes have one
/// first fault at most, and the text of a record has none.
pub fn faults_are_the_first()
    ensures first { (bytes : List ℕ) (fault : RecordFault) → record_of bytes ≡ Err fault → HasFault bytes fault }
    ensures read { (bytes : List ℕ) (fault : RecordFault) → HasFault bytes fault → record_of bytes ≡ Err fault }
{}
