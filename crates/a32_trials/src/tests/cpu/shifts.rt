//! Moves of shifted operands, with the flags that they set.

use super::*;

/// The rows of shifted operands.
const SHIFTS: &str = "\
; word    r0       r1       r2       r3  flags   r0       r1  flags
; Shifts by a register
; movs r0, r1, lsl r2
e1b00211         0        1        0        0 1         1        1 1
e1b00211         0        1        0        0 3         1        1 3
e1b00211         0 80000000        0        0 1  80000000 80000000 9
e1b00211         0 80000000        0        0 3  80000000 80000000 b
e1b00211         0        0        1        0 0         0        0 4
e1b00211         0        1        1        0 2         2        1 0
e1b00211         0 7fffffff        1        0 0  fffffffe 7fffffff 8
e1b00211         0 80000000        1        0 2         0 80000000 6
e1b00211         0 ffffffff        1        0 0  fffffffe ffffffff a
e1b00211         0        0       1f        0 0         0        0 4
e1b00211         0        1       1f        0 2  80000000        1 8
e1b00211         0 7fffffff       1f        0 0  80000000 7fffffff a
e1b00211         0 80000000       1f        0 2         0 80000000 4
e1b00211         0 ffffffff       1f        0 0  80000000 ffffffff a
e1b00211         0        0       20        0 0         0        0 4
e1b00211         0        1       20        0 2         0        1 6
e1b00211         0 7fffffff       20        0 0         0 7fffffff 6
e1b00211         0 80000000       20        0 2         0 80000000 4
e1b00211         0 ffffffff       20        0 0         0 ffffffff 6
e1b00211         0        0       21        0 0         0        0 4
e1b00211         0        1       21        0 2         0        1 4
e1b00211         0 7fffffff       21        0 0         0 7fffffff 4
e1b00211         0 80000000       21        0 2         0 80000000 4
e1b00211         0 ffffffff       21        0 0         0 ffffffff 4
e1b00211         0        0       ff        0 0         0        0 4
e1b00211         0        1       ff        0 2         0        1 4
e1b00211         0 7fffffff       ff        0 0         0 7fffffff 4
e1b00211         0 80000000       ff        0 2         0 80000000 4
e1b00211         0 ffffffff       ff        0 0         0 ffffffff 4
e1b00211         0        1      100        0 1         1        1 1
e1b00211         0        1      100        0 3         1        1 3
e1b00211         0 80000000      100        0 1  80000000 80000000 9
e1b00211         0 80000000      100        0 3  80000000 80000000 b
e1b00211         0 80000001 ffffff01        0 0         2 80000001 2
; movs r0, r1, lsr r2
e1b00231         0        1        0        0 1         1        1 1
e1b00231         0        1        0        0 3         1        1 3
e1b00231         0 80000000        0        0 1  80000000 80000000 9
e1b00231         0 80000000        0        0 3  80000000 80000000 b
e1b00231         0        0        1        0 0         0        0 4
e1b00231         0        1        1        0 2         0        1 6
e1b00231         0 7fffffff        1        0 0  3fffffff 7fffffff 2
e1b00231         0 80000000        1        0 2  40000000 80000000 0
e1b00231         0 ffffffff        1        0 0  7fffffff ffffffff 2
e1b00231         0        0       1f        0 0         0        0 4
e1b00231         0        1       1f        0 2         0        1 4
e1b00231         0 7fffffff       1f        0 0         0 7fffffff 6
e1b00231         0 80000000       1f        0 2         1 80000000 0
e1b00231         0 ffffffff       1f        0 0         1 ffffffff 2
e1b00231         0        0       20        0 0         0        0 4
e1b00231         0        1       20        0 2         0        1 4
e1b00231         0 7fffffff       20        0 0         0 7fffffff 4
e1b00231         0 80000000       20        0 2         0 80000000 6
e1b00231         0 ffffffff       20        0 0         0 ffffffff 6
e1b00231         0        0       21        0 0         0        0 4
e1b00231         0        1       21        0 2         0        1 4
e1b00231         0 7fffffff       21        0 0         0 7fffffff 4
e1b00231         0 80000000       21        0 2         0 80000000 4
e1b00231         0 ffffffff       21        0 0         0 ffffffff 4
e1b00231         0        0       ff        0 0         0        0 4
e1b00231         0        1       ff        0 2         0        1 4
e1b00231         0 7fffffff       ff        0 0         0 7fffffff 4
e1b00231         0 80000000       ff        0 2         0 80000000 4
e1b00231         0 ffffffff       ff        0 0         0 ffffffff 4
e1b00231         0        1      100        0 1         1        1 1
e1b00231         0        1      100        0 3         1        1 3
e1b00231         0 80000000      100        0 1  80000000 80000000 9
e1b00231         0 80000000      100        0 3  80000000 80000000 b
e1b00231         0 80000001 ffffff01        0 0  40000000 80000001 2
; movs r0, r1, asr r2
e1b00251         0        1        0        0 1         1        1 1
e1b00251         0        1        0        0 3         1        1 3
e1b00251         0 80000000        0        0 1  80000000 80000000 9
e1b00251         0 80000000        0        0 3  80000000 80000000 b
e1b00251         0        0        1        0 0         0        0 4
e1b00251         0        1        1        0 2         0        1 6
e1b00251         0 7fffffff        1        0 0  3fffffff 7fffffff 2
e1b00251         0 80000000        1        0 2  c0000000 80000000 8
e1b00251         0 ffffffff        1        0 0  ffffffff ffffffff a
e1b00251         0        0       1f        0 0         0        0 4
e1b00251         0        1       1f        0 2         0        1 4
e1b00251         0 7fffffff       1f        0 0         0 7fffffff 6
e1b00251         0 80000000       1f        0 2  ffffffff 80000000 8
e1b00251         0 ffffffff       1f        0 0  ffffffff ffffffff a
e1b00251         0        0       20        0 0         0        0 4
e1b00251         0        1       20        0 2         0        1 4
e1b00251         0 7fffffff       20        0 0         0 7fffffff 4
e1b00251         0 80000000       20        0 2  ffffffff 80000000 a
e1b00251         0 ffffffff       20        0 0  ffffffff ffffffff a
e1b00251         0        0       21        0 0         0        0 4
e1b00251         0        1       21        0 2         0        1 4
e1b00251         0 7fffffff       21        0 0         0 7fffffff 4
e1b00251         0 80000000       21        0 2  ffffffff 80000000 a
e1b00251         0 ffffffff       21        0 0  ffffffff ffffffff a
e1b00251         0        0       ff        0 0         0        0 4
e1b00251         0        1       ff        0 2         0        1 4
e1b00251         0 7fffffff       ff        0 0         0 7fffffff 4
e1b00251         0 80000000       ff        0 2  ffffffff 80000000 a
e1b00251         0 ffffffff       ff        0 0  ffffffff ffffffff a
e1b00251         0        1      100        0 1         1        1 1
e1b00251         0        1      100        0 3         1        1 3
e1b00251         0 80000000      100        0 1  80000000 80000000 9
e1b00251         0 80000000      100        0 3  80000000 80000000 b
e1b00251         0 80000001 ffffff01        0 0  c0000000 80000001 a
; movs r0, r1, ror r2
e1b00271         0        1        0        0 1         1        1 1
e1b00271         0        1        0        0 3         1        1 3
e1b00271         0 80000000        0        0 1  80000000 80000000 9
e1b00271         0 80000000        0        0 3  80000000 80000000 b
e1b00271         0        0        1        0 0         0        0 4
e1b00271         0        1        1        0 2  80000000        1 a
e1b00271         0 7fffffff        1        0 0  bfffffff 7fffffff a
e1b00271         0 80000000        1        0 2  40000000 80000000 0
e1b00271         0 ffffffff        1        0 0  ffffffff ffffffff a
e1b00271         0        0       1f        0 0         0        0 4
e1b00271         0        1       1f        0 2         2        1 0
e1b00271         0 7fffffff       1f        0 0  fffffffe 7fffffff a
e1b00271         0 80000000       1f        0 2         1 80000000 0
e1b00271         0 ffffffff       1f        0 0  ffffffff ffffffff a
e1b00271         0        0       20        0 0         0        0 4
e1b00271         0        1       20        0 2         1        1 0
e1b00271         0 7fffffff       20        0 0  7fffffff 7fffffff 0
e1b00271         0 80000000       20        0 2  80000000 80000000 a
e1b00271         0 ffffffff       20        0 0  ffffffff ffffffff a
e1b00271         0        0       21        0 0         0        0 4
e1b00271         0        1       21        0 2  80000000        1 a
e1b00271         0 7fffffff       21        0 0  bfffffff 7fffffff a
e1b00271         0 80000000       21        0 2  40000000 80000000 0
e1b00271         0 ffffffff       21        0 0  ffffffff ffffffff a
e1b00271         0        0       ff        0 0         0        0 4
e1b00271         0        1       ff        0 2         2        1 0
e1b00271         0 7fffffff       ff        0 0  fffffffe 7fffffff a
e1b00271         0 80000000       ff        0 2         1 80000000 0
e1b00271         0 ffffffff       ff        0 0  ffffffff ffffffff a
e1b00271         0        1      100        0 1         1        1 1
e1b00271         0        1      100        0 3         1        1 3
e1b00271         0 80000000      100        0 1  80000000 80000000 9
e1b00271         0 80000000      100        0 3  80000000 80000000 b
e1b00271         0 80000001 ffffff01        0 0  c0000000 80000001 a
; Shifts by a number
; movs r0, r1
e1b00001         0        0        0        0 0         0        0 4
e1b00001         0        1        0        0 2         1        1 2
e1b00001         0 7fffffff        0        0 0  7fffffff 7fffffff 0
e1b00001         0 80000000        0        0 2  80000000 80000000 a
e1b00001         0 ffffffff        0        0 0  ffffffff ffffffff 8
; movs r0, r1, lsl #1
e1b00081         0        0        0        0 0         0        0 4
e1b00081         0        1        0        0 2         2        1 0
e1b00081         0 7fffffff        0        0 0  fffffffe 7fffffff 8
e1b00081         0 80000000        0        0 2         0 80000000 6
e1b00081         0 ffffffff        0        0 0  fffffffe ffffffff a
; movs r0, r1, lsl #31
e1b00f81         0        0        0        0 0         0        0 4
e1b00f81         0        1        0        0 2  80000000        1 8
e1b00f81         0 7fffffff        0        0 0  80000000 7fffffff a
e1b00f81         0 80000000        0        0 2         0 80000000 4
e1b00f81         0 ffffffff        0        0 0  80000000 ffffffff a
; movs r0, r1, lsr #1
e1b000a1         0        0        0        0 0         0        0 4
e1b000a1         0        1        0        0 2         0        1 6
e1b000a1         0 7fffffff        0        0 0  3fffffff 7fffffff 2
e1b000a1         0 80000000        0        0 2  40000000 80000000 0
e1b000a1         0 ffffffff        0        0 0  7fffffff ffffffff 2
; movs r0, r1, lsr #31
e1b00fa1         0        0        0        0 0         0        0 4
e1b00fa1         0        1        0        0 2         0        1 4
e1b00fa1         0 7fffffff        0        0 0         0 7fffffff 6
e1b00fa1         0 80000000        0        0 2         1 80000000 0
e1b00fa1         0 ffffffff        0        0 0         1 ffffffff 2
; movs r0, r1, lsr #32
e1b00021         0        0        0        0 0         0        0 4
e1b00021         0        1        0        0 2         0        1 4
e1b00021         0 7fffffff        0        0 0         0 7fffffff 4
e1b00021         0 80000000        0        0 2         0 80000000 6
e1b00021         0 ffffffff        0        0 0         0 ffffffff 6
; movs r0, r1, asr #1
e1b000c1         0        0        0        0 0         0        0 4
e1b000c1         0        1        0        0 2         0        1 6
e1b000c1         0 7fffffff        0        0 0  3fffffff 7fffffff 2
e1b000c1         0 80000000        0        0 2  c0000000 80000000 8
e1b000c1         0 ffffffff        0        0 0  ffffffff ffffffff a
; movs r0, r1, asr #31
e1b00fc1         0        0        0        0 0         0        0 4
e1b00fc1         0        1        0        0 2         0        1 4
e1b00fc1         0 7fffffff        0        0 0         0 7fffffff 6
e1b00fc1         0 80000000        0        0 2  ffffffff 80000000 8
e1b00fc1         0 ffffffff        0        0 0  ffffffff ffffffff a
; movs r0, r1, asr #32
e1b00041         0        0        0        0 0         0        0 4
e1b00041         0        1        0        0 2         0        1 4
e1b00041         0 7fffffff        0        0 0         0 7fffffff 4
e1b00041         0 80000000        0        0 2  ffffffff 80000000 a
e1b00041         0 ffffffff        0        0 0  ffffffff ffffffff a
; movs r0, r1, ror #1
e1b000e1         0        0        0        0 0         0        0 4
e1b000e1         0        1        0        0 2  80000000        1 a
e1b000e1         0 7fffffff        0        0 0  bfffffff 7fffffff a
e1b000e1         0 80000000        0        0 2  40000000 80000000 0
e1b000e1         0 ffffffff        0        0 0  ffffffff ffffffff a
; movs r0, r1, ror #31
e1b00fe1         0        0        0        0 0         0        0 4
e1b00fe1         0        1        0        0 2         2        1 0
e1b00fe1         0 7fffffff        0        0 0  fffffffe 7fffffff a
e1b00fe1         0 80000000        0        0 2         1 80000000 0
e1b00fe1         0 ffffffff        0        0 0  ffffffff ffffffff a
; movs r0, r1, rrx
e1b00061         0        0        0        0 0         0        0 4
e1b00061         0        0        0        0 2  80000000        0 8
e1b00061         0        1        0        0 0         0        1 6
e1b00061         0        1        0        0 2  80000000        1 a
e1b00061         0 7fffffff        0        0 0  3fffffff 7fffffff 2
e1b00061         0 7fffffff        0        0 2  bfffffff 7fffffff a
e1b00061         0 80000000        0        0 0  40000000 80000000 0
e1b00061         0 80000000        0        0 2  c0000000 80000000 8
e1b00061         0 ffffffff        0        0 0  7fffffff ffffffff 2
e1b00061         0 ffffffff        0        0 2  ffffffff ffffffff a
; movs r0, r1
e1b00001         0        1        0        0 2         1        1 2
; Immediates
; movs r0, #0
e3b00000         0        0        0        0 0         0        0 4
e3b00000         0        0        0        0 3         0        0 7
e3b00000         0        0        0        0 e         0        0 6
; movs r0, #255
e3b000ff         0        0        0        0 0        ff        0 0
e3b000ff         0        0        0        0 3        ff        0 3
e3b000ff         0        0        0        0 e        ff        0 2
; movs r0, #0xff000000
e3b004ff         0        0        0        0 0  ff000000        0 a
e3b004ff         0        0        0        0 3  ff000000        0 b
e3b004ff         0        0        0        0 e  ff000000        0 a
; movs r0, #0x80000000
e3b00102         0        0        0        0 0  80000000        0 a
e3b00102         0        0        0        0 3  80000000        0 b
e3b00102         0        0        0        0 e  80000000        0 a
; movs r0, #4
e3b00004         0        0        0        0 0         4        0 0
e3b00004         0        0        0        0 3         4        0 3
e3b00004         0        0        0        0 e         4        0 2
";

#[test]
fn shifts_operands(rt: HostRuntime) -> Result<(), Fail> {
    for row in SHIFTS.lines() {
        assert!(rt; agrees(rt.alloc(), row)?, "{row}");
    }
    Ok(())
}
