//! Multiplications.

use super::*;

/// The rows of multiplications.
const PRODUCTS: &str = "\
; word    r0       r1       r2       r3  flags   r0       r1  flags
; muls r0, r1, r2
e0100291         0        0        5        0 0         0        0 4
e0100291         0 ffffffff ffffffff        0 0         1 ffffffff 0
e0100291         0 80000000        2        0 0         0 80000000 4
e0100291         0    10001     ffff        0 0  ffffffff    10001 8
e0100291         0 7fffffff        3        0 0  7ffffffd 7fffffff 0
e0100291         0        0        5        0 3         0        0 7
e0100291         0 ffffffff ffffffff        0 3         1 ffffffff 3
e0100291         0 80000000        2        0 3         0 80000000 7
e0100291         0    10001     ffff        0 3  ffffffff    10001 b
e0100291         0 7fffffff        3        0 3  7ffffffd 7fffffff 3
; mlas r0, r1, r2, r3
e0303291         0 ffffffff ffffffff ffffffff 3         0 ffffffff 7
; mls r0, r1, r2, r3
e0603291         0 ffffffff ffffffff ffffffff 6  fffffffe ffffffff 6
; mlas r0, r1, r2, r3
e0303291         0 80000000        2        7 3         7 80000000 3
; mls r0, r1, r2, r3
e0603291         0 80000000        2        7 6         7 80000000 6
; mlas r0, r1, r2, r3
e0303291         0        3        5 fffffff1 3         0        3 7
; mls r0, r1, r2, r3
e0603291         0        3        5 fffffff1 6  ffffffe2        3 6
; mlas r0, r1, r2, r3
e0303291         0 7fffffff 7fffffff 80000000 3  80000001 7fffffff b
; mls r0, r1, r2, r3
e0603291         0 7fffffff 7fffffff 80000000 6  7fffffff 7fffffff 6
; umulls r0, r1, r2, r3
e0910392         9        9 ffffffff ffffffff 3         1 fffffffe b
e0910392         9        9 80000000 80000000 3         0 40000000 3
e0910392         9        9 80000000 7fffffff 3  80000000 3fffffff 3
e0910392         9        9        0 ffffffff 3         0        0 7
e0910392         9        9 ffffffff        2 3  fffffffe        1 3
; umlals r0, r1, r2, r3
e0b10392         1 fffffffe ffffffff ffffffff 3         2 fffffffc b
e0b10392         0        1 ffffffff ffffffff 3         1 ffffffff b
e0b10392  ffffffff ffffffff ffffffff ffffffff 3         0 fffffffe b
e0b10392         1 fffffffe 80000000 80000000 3         1 3ffffffe 3
e0b10392         0        1 80000000 80000000 3         0 40000001 3
e0b10392  ffffffff ffffffff 80000000 80000000 3  ffffffff 3fffffff 3
e0b10392         1 fffffffe 80000000 7fffffff 3  80000001 3ffffffd 3
e0b10392         0        1 80000000 7fffffff 3  80000000 40000000 3
e0b10392  ffffffff ffffffff 80000000 7fffffff 3  7fffffff 3fffffff 3
e0b10392         1 fffffffe        0 ffffffff 3         1 fffffffe b
e0b10392         0        1        0 ffffffff 3         0        1 3
e0b10392  ffffffff ffffffff        0 ffffffff 3  ffffffff ffffffff b
e0b10392         1 fffffffe ffffffff        2 3  ffffffff ffffffff b
e0b10392         0        1 ffffffff        2 3  fffffffe        2 3
e0b10392  ffffffff ffffffff ffffffff        2 3  fffffffd        1 3
; smulls r0, r1, r2, r3
e0d10392         9        9 ffffffff ffffffff 3         1        0 3
e0d10392         9        9 80000000 80000000 3         0 40000000 3
e0d10392         9        9 80000000 7fffffff 3  80000000 c0000000 b
e0d10392         9        9        0 ffffffff 3         0        0 7
e0d10392         9        9 ffffffff        2 3  fffffffe ffffffff b
; smlals r0, r1, r2, r3
e0f10392         1 fffffffe ffffffff ffffffff 3         2 fffffffe b
e0f10392         0        1 ffffffff ffffffff 3         1        1 3
e0f10392  ffffffff ffffffff ffffffff ffffffff 3         0        0 7
e0f10392         1 fffffffe 80000000 80000000 3         1 3ffffffe 3
e0f10392         0        1 80000000 80000000 3         0 40000001 3
e0f10392  ffffffff ffffffff 80000000 80000000 3  ffffffff 3fffffff 3
e0f10392         1 fffffffe 80000000 7fffffff 3  80000001 bffffffe b
e0f10392         0        1 80000000 7fffffff 3  80000000 c0000001 b
e0f10392  ffffffff ffffffff 80000000 7fffffff 3  7fffffff c0000000 b
e0f10392         1 fffffffe        0 ffffffff 3         1 fffffffe b
e0f10392         0        1        0 ffffffff 3         0        1 3
e0f10392  ffffffff ffffffff        0 ffffffff 3  ffffffff ffffffff b
e0f10392         1 fffffffe ffffffff        2 3  ffffffff fffffffd b
e0f10392         0        1 ffffffff        2 3  fffffffe        0 3
e0f10392  ffffffff ffffffff ffffffff        2 3  fffffffd ffffffff b
";

#[test]
fn multiplies(rt: HostRuntime) -> Result<(), Fail> {
    for row in PRODUCTS.lines() {
        assert!(rt; agrees(rt.alloc(), row)?, "{row}");
    }
    Ok(())
}
