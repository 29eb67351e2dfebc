//! Hosts that fail, in each of their calls.
use super::*;

/// The words of a call, the calls of the host that fail, the status, and what is written.
type Failure = (&'static str, &'static [Failing], u8, &'static [u8]);

/// What is written where a file can't be read.
const UNREAD: &[u8] = b"llsc: read failed\n";

/// The first write of a report of `leave`.
const FIRST: &[u8] = b"thread 0 stop exit 0 steps 3 out 0\n";

/// A read that fails, also where the write that says so fails too, and one of the three writes of a report, or of the five of two
/// threads.
const RUNS: &[Failure] = &[
    ("solo --flat hi", &[(0, 0)], 3, UNREAD),
    ("solo --flat hi", &[(0, 0), (1, 4)], 5, b"llsc"),
    ("solo --flat leave", &[(2, 0)], 5, FIRST),
    (
        "solo --flat leave",
        &[(3, 5)],
        5,
        b"thread 0 stop exit 0 steps 3 out 0\n\nreads",
    ),
    ("run --flat leave", &[(0, 0)], 3, UNREAD),
    ("run --flat leave", &[(2, 0)], 5, FIRST),
    (
        "run --flat leave",
        &[(4, 1)],
        5,
        b"thread 0 stop exit 0 steps 3 out 0\n\nthread 1 stop exit 0 steps 3 out 0\n\n",
    ),
];

/// The third write of a summary fails, and that of a refusal; and texts, three bytes of whose answers go through.
const OTHERS: &[Failure] = &[
    (
        "load 0 --threads 2 --rounds 1",
        &[(2, 4)],
        5,
        b"load seed 0 threads 2 rounds 1\ncounter 0 0\ncoun",
    ),
    ("load 7 --rounds 0", &[(0, 0)], 5, b""),
    ("asm --flat nop", &[(1, 3)], 5, b"\x00\xf0\x20"),
    ("asm nop", &[(1, 3)], 5, b"\x7fEL"),
    ("asm fly", &[(1, 3)], 5, b"lls"),
];

/// The program is read before the record, which `fly` isn't. There is no file `none`.
const CHECKS: &[Failure] = &[
    ("check --flat none fly", &[], 3, UNREAD),
    ("check --flat leave none", &[], 3, UNREAD),
    ("check --flat leave fly", &[(0, 0)], 3, UNREAD),
    ("check --flat leave fly", &[(1, 0)], 3, UNREAD),
    ("check --flat leave fly", &[(2, 9)], 5, b"llsc: Hea"),
];

#[test]
fn answers_each_failure(rt: HostRuntime) -> Result<(), Fail> {
    for table in [RUNS, OTHERS, CHECKS] {
        for (words, failing, status, text) in table {
            compare(&rt, words, failing, SPACE, (*status, *text))?;
        }
    }
    Ok(())
}

#[test]
fn fills_a_host(rt: HostRuntime) -> Result<(), Fail> {
    compare(&rt, "solo --flat hi", &[], 10, (5, b"thread 0 s"))?;
    compare(&rt, "solo --flat hi", &[], 0, (5, b""))
}

/// The writes of the report of `hi`: the number of each call, what was written before, and the text.
const WRITES: &[(u64, &str, &str)] = &[
    (1, "", "thread 0 stop exit 0 steps 8 out 2\n"),
    (2, "thread 0 stop exit 0 steps 8 out 2\n", "Hi"),
    (3, "thread 0 stop exit 0 steps 8 out 2\nHi", "\n"),
    (
        4,
        "thread 0 stop exit 0 steps 8 out 2\nHi\n",
        "reads 2 writes 0 fails 0\n",
    ),
];

/// Lets a write fail behind each front of its text, the whole text too.
fn fail_behind_each_byte<R: Threads + Wait + Sync + AllocGlobal + Abort>(
    rt: &R,
    call: u64,
    before: &str,
    text: &str,
) -> Result<(), Fail> {
    for passed in 0..u32::MAX {
        let Some(front) = text.as_bytes().get(..passed as usize) else {
            return Ok(());
        };
        let mut written = before.as_bytes().to_vec(rt.alloc())?;
        written.extend_from_slice(front)?;
        let answer = (5, written.as_slice());
        compare(rt, "solo --flat hi", &[(call, passed)], SPACE, answer)?;
    }
    Ok(())
}

#[test]
fn cuts_reports_off(rt: HostRuntime) -> Result<(), Fail> {
    for (call, before, text) in WRITES {
        fail_behind_each_byte(&rt, *call, before, text)?;
    }
    Ok(())
}

/// A host that fails, the status, and how much is written of 2500 lines of 29 bytes each: a page has 2259 of them.
const PAGES: &[(Failing, u8, usize)] = &[((9, 0), 0, 72_500), ((2, 7), 5, 65_518)];

#[test]
fn shows_a_page_at_a_time(rt: HostRuntime) -> Result<(), Fail> {
    for &(failing, status, length) in PAGES {
        let file = bytes_of(rt.alloc(), &[0xe3a0_0000; 2500])?;
        let files = holding(rt.alloc(), "moves", file)?;
        let (ended, written) = called(&rt, "dis --flat moves", files, &[failing], SPACE)?;
        assert!(rt; ended == status && written.len() == length);
    }
    Ok(())
}
