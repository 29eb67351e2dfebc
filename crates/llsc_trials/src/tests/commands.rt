//! Each command once, over a host in memory.
use super::*;

/// The words of a call, and its text: its status is 0.
const CALLS: &[(&str, &str)] = &[
    ("solo --flat leave", LEFT),
    ("run --flat --threads 1 leave", LEFT),
    ("pool --flat --threads 1 leave", LEFT),
    ("record --flat --threads 1 leave", RECORD),
    ("asm --flat text", "abcd"),
    (
        "dis --flat leave",
        "00001000 e3a00000 mov r0, #0\n00001004 e3a07001 mov r7, #1\n00001008 ef000000 svc #0\n",
    ),
    ("trace --flat --threads 1 leave", RECORD),
    ("check --flat leave record", "good\n"),
    ("explain --flat leave record", EXPLAINED),
    ("load 0 --threads 1 --rounds 1", ROUND),
];

/// What is explained of a record with no store-exclusive.
const EXPLAINED: &str =
    "all: succeeded 0, failed to others' writes 0, without a reservation 0, otherwise 0, values came back 0\n";

/// What a load prints whose one thread makes one round.
const ROUND: &str = "\
load seed 0 threads 1 rounds 1
counter 0 0
counter 1 0
counter 2 0
counter 3 1
counter 4 0
counter 5 0
counter 6 0
counter 7 0
counter 8 0
counter 9 0
counter 10 0
counter 11 0
counter 12 0
counter 13 0
counter 14 0
counter 15 0
total 1
";

#[test]
fn answers_each_command(rt: HostRuntime) -> Result<(), Fail> {
    for (words, text) in CALLS {
        compare(&rt, words, &[], SPACE, (0, text.as_bytes()))?;
    }
    Ok(())
}
