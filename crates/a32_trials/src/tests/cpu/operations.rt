//! Data processing, wide moves, CLZ, REV and extends.

use super::*;

/// The rows of data processing, wide moves, CLZ, REV and extends.
const OPERATIONS: &str = "\
; word    r0       r1       r2       r3  flags   r0       r1  flags
; Sums
; subs r0, r1, r2
e0510002         0        0        0        0 f         0        0 6
e0510002         0        0        1        0 0  ffffffff        0 8
e0510002         0        1        0        0 0         1        1 2
e0510002         0        1        1        0 f         0        1 6
e0510002         0 7fffffff        1        0 f  7ffffffe 7fffffff 2
e0510002         0 80000000        1        0 0  7fffffff 80000000 3
e0510002         0 80000000 80000000        0 f         0 80000000 6
e0510002         0 ffffffff        1        0 f  fffffffe ffffffff a
e0510002         0 ffffffff ffffffff        0 f         0 ffffffff 6
e0510002         0        0 80000000        0 f  80000000        0 9
e0510002         0 7fffffff ffffffff        0 f  80000000 7fffffff 9
e0510002         0        0 ffffffff        0 0         1        0 0
; rsbs r0, r1, r2
e0710002         0        0        0        0 f         0        0 6
e0710002         0        0        1        0 0         1        0 2
e0710002         0        1        0        0 0  ffffffff        1 8
e0710002         0        1        1        0 f         0        1 6
e0710002         0 7fffffff        1        0 f  80000002 7fffffff 8
e0710002         0 80000000        1        0 0  80000001 80000000 9
e0710002         0 80000000 80000000        0 f         0 80000000 6
e0710002         0 ffffffff        1        0 f         2 ffffffff 0
e0710002         0 ffffffff ffffffff        0 f         0 ffffffff 6
e0710002         0        0 80000000        0 f  80000000        0 a
e0710002         0 7fffffff ffffffff        0 f  80000000 7fffffff a
e0710002         0        0 ffffffff        0 0  ffffffff        0 a
; adds r0, r1, r2
e0910002         0        0        0        0 f         0        0 4
e0910002         0        0        1        0 0         1        0 0
e0910002         0        1        0        0 0         1        1 0
e0910002         0        1        1        0 f         2        1 0
e0910002         0 7fffffff        1        0 f  80000000 7fffffff 9
e0910002         0 80000000        1        0 0  80000001 80000000 8
e0910002         0 80000000 80000000        0 f         0 80000000 7
e0910002         0 ffffffff        1        0 f         0 ffffffff 6
e0910002         0 ffffffff ffffffff        0 f  fffffffe ffffffff a
e0910002         0        0 80000000        0 f  80000000        0 8
e0910002         0 7fffffff ffffffff        0 f  7ffffffe 7fffffff 2
e0910002         0        0 ffffffff        0 0  ffffffff        0 8
; adcs r0, r1, r2
e0b10002         0        0        0        0 0         0        0 4
e0b10002         0        0        0        0 2         1        0 0
e0b10002         0        0        1        0 0         1        0 0
e0b10002         0        0        1        0 2         2        0 0
e0b10002         0        1        0        0 0         1        1 0
e0b10002         0        1        0        0 2         2        1 0
e0b10002         0        1        1        0 0         2        1 0
e0b10002         0        1        1        0 2         3        1 0
e0b10002         0 7fffffff        1        0 0  80000000 7fffffff 9
e0b10002         0 7fffffff        1        0 2  80000001 7fffffff 9
e0b10002         0 80000000        1        0 0  80000001 80000000 8
e0b10002         0 80000000        1        0 2  80000002 80000000 8
e0b10002         0 80000000 80000000        0 0         0 80000000 7
e0b10002         0 80000000 80000000        0 2         1 80000000 3
e0b10002         0 ffffffff        1        0 0         0 ffffffff 6
e0b10002         0 ffffffff        1        0 2         1 ffffffff 2
e0b10002         0 ffffffff ffffffff        0 0  fffffffe ffffffff a
e0b10002         0 ffffffff ffffffff        0 2  ffffffff ffffffff a
e0b10002         0        0 80000000        0 0  80000000        0 8
e0b10002         0        0 80000000        0 2  80000001        0 8
e0b10002         0 7fffffff ffffffff        0 0  7ffffffe 7fffffff 2
e0b10002         0 7fffffff ffffffff        0 2  7fffffff 7fffffff 2
e0b10002         0        0 ffffffff        0 0  ffffffff        0 8
e0b10002         0        0 ffffffff        0 2         0        0 6
; sbcs r0, r1, r2
e0d10002         0        0        0        0 0  ffffffff        0 8
e0d10002         0        0        0        0 2         0        0 6
e0d10002         0        0        1        0 0  fffffffe        0 8
e0d10002         0        0        1        0 2  ffffffff        0 8
e0d10002         0        1        0        0 0         0        1 6
e0d10002         0        1        0        0 2         1        1 2
e0d10002         0        1        1        0 0  ffffffff        1 8
e0d10002         0        1        1        0 2         0        1 6
e0d10002         0 7fffffff        1        0 0  7ffffffd 7fffffff 2
e0d10002         0 7fffffff        1        0 2  7ffffffe 7fffffff 2
e0d10002         0 80000000        1        0 0  7ffffffe 80000000 3
e0d10002         0 80000000        1        0 2  7fffffff 80000000 3
e0d10002         0 80000000 80000000        0 0  ffffffff 80000000 8
e0d10002         0 80000000 80000000        0 2         0 80000000 6
e0d10002         0 ffffffff        1        0 0  fffffffd ffffffff a
e0d10002         0 ffffffff        1        0 2  fffffffe ffffffff a
e0d10002         0 ffffffff ffffffff        0 0  ffffffff ffffffff 8
e0d10002         0 ffffffff ffffffff        0 2         0 ffffffff 6
e0d10002         0        0 80000000        0 0  7fffffff        0 0
e0d10002         0        0 80000000        0 2  80000000        0 9
e0d10002         0 7fffffff ffffffff        0 0  7fffffff 7fffffff 0
e0d10002         0 7fffffff ffffffff        0 2  80000000 7fffffff 9
e0d10002         0        0 ffffffff        0 0         0        0 4
e0d10002         0        0 ffffffff        0 2         1        0 0
; rscs r0, r1, r2
e0f10002         0        0        0        0 0  ffffffff        0 8
e0f10002         0        0        0        0 2         0        0 6
e0f10002         0        0        1        0 0         0        0 6
e0f10002         0        0        1        0 2         1        0 2
e0f10002         0        1        0        0 0  fffffffe        1 8
e0f10002         0        1        0        0 2  ffffffff        1 8
e0f10002         0        1        1        0 0  ffffffff        1 8
e0f10002         0        1        1        0 2         0        1 6
e0f10002         0 7fffffff        1        0 0  80000001 7fffffff 8
e0f10002         0 7fffffff        1        0 2  80000002 7fffffff 8
e0f10002         0 80000000        1        0 0  80000000 80000000 9
e0f10002         0 80000000        1        0 2  80000001 80000000 9
e0f10002         0 80000000 80000000        0 0  ffffffff 80000000 8
e0f10002         0 80000000 80000000        0 2         0 80000000 6
e0f10002         0 ffffffff        1        0 0         1 ffffffff 0
e0f10002         0 ffffffff        1        0 2         2 ffffffff 0
e0f10002         0 ffffffff ffffffff        0 0  ffffffff ffffffff 8
e0f10002         0 ffffffff ffffffff        0 2         0 ffffffff 6
e0f10002         0        0 80000000        0 0  7fffffff        0 3
e0f10002         0        0 80000000        0 2  80000000        0 a
e0f10002         0 7fffffff ffffffff        0 0  7fffffff 7fffffff 3
e0f10002         0 7fffffff ffffffff        0 2  80000000 7fffffff a
e0f10002         0        0 ffffffff        0 0  fffffffe        0 a
e0f10002         0        0 ffffffff        0 2  ffffffff        0 a
; cmp r1, r2
e1510002         9        1        1        0 0         9        1 6
e1510002         9 7fffffff        1        0 0         9 7fffffff 2
e1510002         9 80000000        1        0 0         9 80000000 3
e1510002         9 80000000 80000000        0 0         9 80000000 6
e1510002         9 ffffffff        1        0 0         9 ffffffff a
e1510002         9 ffffffff ffffffff        0 0         9 ffffffff 6
e1510002         9        0 80000000        0 0         9        0 9
; cmn r1, r2
e1710002         9        1        1        0 0         9        1 0
e1710002         9 7fffffff        1        0 0         9 7fffffff 9
e1710002         9 80000000        1        0 0         9 80000000 8
e1710002         9 80000000 80000000        0 0         9 80000000 7
e1710002         9 ffffffff        1        0 0         9 ffffffff 6
e1710002         9 ffffffff ffffffff        0 0         9 ffffffff a
e1710002         9        0 80000000        0 0         9        0 8
; Logical operations
; ands r0, r1, r2, lsl #1
e0110082         0  f0f0f0f   ff00ff        0 1   10e010e  f0f0f0f 1
e0110082         0 ffffffff 80000000        0 2         0 ffffffff 6
e0110082         0 7fffffff 80000000        0 3         0 7fffffff 7
; eors r0, r1, r2, lsl #1
e0310082         0  f0f0f0f   ff00ff        0 1   ef10ef1  f0f0f0f 1
e0310082         0 ffffffff 80000000        0 2  ffffffff ffffffff a
e0310082         0 7fffffff 80000000        0 3  7fffffff 7fffffff 3
; orrs r0, r1, r2, lsl #1
e1910082         0  f0f0f0f   ff00ff        0 1   fff0fff  f0f0f0f 1
e1910082         0 ffffffff 80000000        0 2  ffffffff ffffffff a
e1910082         0 7fffffff 80000000        0 3  7fffffff 7fffffff 3
; bics r0, r1, r2, lsl #1
e1d10082         0  f0f0f0f   ff00ff        0 1   e010e01  f0f0f0f 1
e1d10082         0 ffffffff 80000000        0 2  ffffffff ffffffff a
e1d10082         0 7fffffff 80000000        0 3  7fffffff 7fffffff 3
; tst r1, r2, lsr #1
e11100a2         9  f0f0f0f   ff00ff        0 3         9  f0f0f0f 3
e11100a2         9 ffffffff 80000000        0 0         9 ffffffff 0
e11100a2         9 7fffffff 80000000        0 1         9 7fffffff 1
; teq r1, r2, lsr #1
e13100a2         9  f0f0f0f   ff00ff        0 3         9  f0f0f0f 3
e13100a2         9 ffffffff 80000000        0 0         9 ffffffff 8
e13100a2         9 7fffffff 80000000        0 1         9 7fffffff 1
; mvns r0, r1, ror #4
e1f00261         0        0        0        0 3  ffffffff        0 9
e1f00261         0 ffffffff        0        0 3         0 ffffffff 7
e1f00261         0 12345678        0        0 3  7edcba98 12345678 3
; and r0, r1, r2
e0010002         0 ffffffff 80000001        0 6  80000001 ffffffff 6
; sub r0, r1, r2
e0410002         0 ffffffff 80000001        0 6  7ffffffe ffffffff 6
; mov r0, r2
e1a00002         0 ffffffff 80000001        0 6  80000001 ffffffff 6
; adc r0, r1, r2
e0a10002         0 ffffffff 80000001        0 6  80000001 ffffffff 6
; Moves and parts
; movw r0, #0xffff
e30f0fff  12345678        0        0        0 9      ffff        0 9
; movw r0, #0x8001
e3080001  ffffffff        0        0        0 0      8001        0 0
; movt r0, #0xffff
e34f0fff  12345678        0        0        0 9  ffff5678        0 9
; movt r0, #0
e3400000  ffff1234        0        0        0 0      1234        0 0
; nop
e320f000         5        0        0        0 a         5        0 a
; yield
e320f001         5        0        0        0 5         5        0 5
; clz r0, r1
e16f0f11         0        0        0        0 4        20        0 4
e16f0f11         0        1        0        0 4        1f        1 4
e16f0f11         0 7fffffff        0        0 4         1 7fffffff 4
e16f0f11         0 80000000        0        0 4         0 80000000 4
e16f0f11         0 ffffffff        0        0 4         0 ffffffff 4
e16f0f11         0    10000        0        0 4         f    10000 4
; rev r0, r1
e6bf0f31         0 12345678        0        0 0  78563412 12345678 0
e6bf0f31         0 80000001        0        0 0   1000080 80000001 0
; sxtb r0, r1
e6af0071         0 7fff8080        0        0 0  ffffff80 7fff8080 0
e6af0071         0 80807f7f        0        0 0        7f 80807f7f 0
; sxtb r0, r1, ror #8
e6af0471         0 1280ff34        0        0 0  ffffffff 1280ff34 0
; sxtb r0, r1, ror #16
e6af0871         0 8081ff34        0        0 0  ffffff81 8081ff34 0
; sxtb r0, r1, ror #24
e6af0c71         0 f0123480        0        0 0  fffffff0 f0123480 0
; sxth r0, r1
e6bf0071         0 7fff8080        0        0 0  ffff8080 7fff8080 0
e6bf0071         0 80807f7f        0        0 0      7f7f 80807f7f 0
; sxth r0, r1, ror #8
e6bf0471         0 1280ff34        0        0 0  ffff80ff 1280ff34 0
; sxth r0, r1, ror #16
e6bf0871         0 8081ff34        0        0 0  ffff8081 8081ff34 0
; sxth r0, r1, ror #24
e6bf0c71         0 f0123480        0        0 0  ffff80f0 f0123480 0
; uxtb r0, r1
e6ef0071         0 7fff8080        0        0 0        80 7fff8080 0
e6ef0071         0 80807f7f        0        0 0        7f 80807f7f 0
; uxtb r0, r1, ror #8
e6ef0471         0 1280ff34        0        0 0        ff 1280ff34 0
; uxtb r0, r1, ror #16
e6ef0871         0 8081ff34        0        0 0        81 8081ff34 0
; uxtb r0, r1, ror #24
e6ef0c71         0 f0123480        0        0 0        f0 f0123480 0
; uxth r0, r1
e6ff0071         0 7fff8080        0        0 0      8080 7fff8080 0
e6ff0071         0 80807f7f        0        0 0      7f7f 80807f7f 0
; uxth r0, r1, ror #8
e6ff0471         0 1280ff34        0        0 0      80ff 1280ff34 0
; uxth r0, r1, ror #16
e6ff0871         0 8081ff34        0        0 0      8081 8081ff34 0
; uxth r0, r1, ror #24
e6ff0c71         0 f0123480        0        0 0      80f0 f0123480 0
";

#[test]
fn operates(rt: HostRuntime) -> Result<(), Fail> {
    for row in OPERATIONS.lines() {
        assert!(rt; agrees(rt.alloc(), row)?, "{row}");
    }
    Ok(())
}
