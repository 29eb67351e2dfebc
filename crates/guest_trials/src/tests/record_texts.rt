//! Records that are read and printed again.
use super::same;
use run_record::{RecordFault, print_record, read_record};
use std::alloc::Global;
use std::test::Fail;

/// A record without accesses, whose other numbers are the most.
const NO_ACCESS: &str = "llsc-run 1 threads 16 budget 1000000000000 accesses 0\n";

/// A word loaded, and stored by both threads, of which one fails; and an access of each other kind.
const RUN: &str = "llsc-run 1 threads 2 budget 10000 accesses 8\n\
    0 loadex 4 00002000 0000000000000000\n\
    1 loadex 4 00002000 0000000000000000\n\
    0 storeex 4 00002000 0000000000000007\n\
    1 fail 4 00002000 00000000ffffffff\n\
    1 clear\n\
    0 store 1 0000ffff 00000000000000ff\n\
    0 store 8 00ffabc8 fedcba9876543210\n\
    1 load 2 fffffffe 000000000000ffff\n";

/// A place taken and stored to, on rows of 16 bytes.
const WIDE_ROWS: &str = "llsc-run 2 threads 1 granule 1 budget 10000 accesses 2\n\
    0 loadex 4 00002000 0000000000000000\n\
    0 storeex 4 00002000 0000000000000001\n";

/// The longest header line.
const WIDEST_ROWS: &str = "llsc-run 2 threads 16 granule 8 budget 1000000000000 accesses 0\n";

/// Whether a text is that of a record with this granule number and so many accesses, which prints as the same text.
fn prints_as_it_was(alloc: Global, text: &str, granule: u32, count: usize) -> Result<bool, Fail> {
    let run = read_record(alloc, text.as_bytes())?;
    let printed = print_record(alloc, &run)?;
    Ok(
        run.granule == granule
            && run.accesses.as_slice().len() == count
            && printed.as_slice() == text.as_bytes(),
    )
}

/// Records, each with its granule number, and how many accesses it has.
const RECORDS: &[(&str, u32, usize)] = &[
    (NO_ACCESS, 0, 0),
    (RUN, 0, 8),
    (WIDE_ROWS, 1, 2),
    (WIDEST_ROWS, 8, 0),
];

#[test]
fn records_are_printed_as_they_were_read(rt: HostRuntime) -> Result<(), Fail> {
    for &(text, granule, count) in RECORDS {
        assert!(rt;
            prints_as_it_was(rt.alloc(), text, granule, count)?,
            "{text}"
        );
    }
    same(&rt, RecordFault::Thread(2).name(), "Thread");
    Ok(())
}
