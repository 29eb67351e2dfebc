//! Loads and stores of a block of registers, in memory of 0x10000 bytes with the program's one word at 0x1000. What a
//! row wants was computed from the pseudocode of DDI 0406C A8.8.58 to A8.8.61 and A8.8.199 to A8.8.202. Where nothing
//! stops the thread, `qemu-arm` does the same.

use super::transcripts::check;
use super::*;

/// The rows of blocks.
const BLOCKS: &str = "\
; LDM
e8920008 6 r2=2040 : 800000a3 : load 4 2040, done 1004 r3=800000a3
e8924021 6 r2=2040 : 800000a0 a5 ae : load 4 2040, load 4 2044, load 4 2048, done 1004 r0=800000a0 r5=a5 r14=ae
e8925ff1 6 r2=2040 : 800000a0 a4 a5 800000a6 a7 a8 800000a9 aa ab 800000ac ae : load 4 2040, load 4 2044, load 4 2048, load 4 204c, load 4 2050, load 4 2054, load 4 2058, load 4 205c, load 4 2060, load 4 2064, load 4 2068, done 1004 r0=800000a0 r4=a4 r5=a5 r6=800000a6 r7=a7 r8=a8 r9=800000a9 r10=aa r11=ab r12=800000ac r14=ae
e8b20008 6 r2=2040 : 800000a3 : load 4 2040, done 1004 r2=2044 r3=800000a3
e8b24021 6 r2=2040 : 800000a0 a5 ae : load 4 2040, load 4 2044, load 4 2048, done 1004 r0=800000a0 r2=204c r5=a5 r14=ae
e8b25ff1 6 r2=2040 : 800000a0 a4 a5 800000a6 a7 a8 800000a9 aa ab 800000ac ae : load 4 2040, load 4 2044, load 4 2048, load 4 204c, load 4 2050, load 4 2054, load 4 2058, load 4 205c, load 4 2060, load 4 2064, load 4 2068, done 1004 r0=800000a0 r2=206c r4=a4 r5=a5 r6=800000a6 r7=a7 r8=a8 r9=800000a9 r10=aa r11=ab r12=800000ac r14=ae
e9920008 6 r2=2040 : 800000a3 : load 4 2044, done 1004 r3=800000a3
e9924021 6 r2=2040 : 800000a0 a5 ae : load 4 2044, load 4 2048, load 4 204c, done 1004 r0=800000a0 r5=a5 r14=ae
e9925ff1 6 r2=2040 : 800000a0 a4 a5 800000a6 a7 a8 800000a9 aa ab 800000ac ae : load 4 2044, load 4 2048, load 4 204c, load 4 2050, load 4 2054, load 4 2058, load 4 205c, load 4 2060, load 4 2064, load 4 2068, load 4 206c, done 1004 r0=800000a0 r4=a4 r5=a5 r6=800000a6 r7=a7 r8=a8 r9=800000a9 r10=aa r11=ab r12=800000ac r14=ae
e9b20008 6 r2=2040 : 800000a3 : load 4 2044, done 1004 r2=2044 r3=800000a3
e9b24021 6 r2=2040 : 800000a0 a5 ae : load 4 2044, load 4 2048, load 4 204c, done 1004 r0=800000a0 r2=204c r5=a5 r14=ae
e9b25ff1 6 r2=2040 : 800000a0 a4 a5 800000a6 a7 a8 800000a9 aa ab 800000ac ae : load 4 2044, load 4 2048, load 4 204c, load 4 2050, load 4 2054, load 4 2058, load 4 205c, load 4 2060, load 4 2064, load 4 2068, load 4 206c, done 1004 r0=800000a0 r2=206c r4=a4 r5=a5 r6=800000a6 r7=a7 r8=a8 r9=800000a9 r10=aa r11=ab r12=800000ac r14=ae
e8120008 6 r2=2040 : 800000a3 : load 4 2040, done 1004 r3=800000a3
e8124021 6 r2=2040 : 800000a0 a5 ae : load 4 2038, load 4 203c, load 4 2040, done 1004 r0=800000a0 r5=a5 r14=ae
e8125ff1 6 r2=2040 : 800000a0 a4 a5 800000a6 a7 a8 800000a9 aa ab 800000ac ae : load 4 2018, load 4 201c, load 4 2020, load 4 2024, load 4 2028, load 4 202c, load 4 2030, load 4 2034, load 4 2038, load 4 203c, load 4 2040, done 1004 r0=800000a0 r4=a4 r5=a5 r6=800000a6 r7=a7 r8=a8 r9=800000a9 r10=aa r11=ab r12=800000ac r14=ae
e8320008 6 r2=2040 : 800000a3 : load 4 2040, done 1004 r2=203c r3=800000a3
e8324021 6 r2=2040 : 800000a0 a5 ae : load 4 2038, load 4 203c, load 4 2040, done 1004 r0=800000a0 r2=2034 r5=a5 r14=ae
e8325ff1 6 r2=2040 : 800000a0 a4 a5 800000a6 a7 a8 800000a9 aa ab 800000ac ae : load 4 2018, load 4 201c, load 4 2020, load 4 2024, load 4 2028, load 4 202c, load 4 2030, load 4 2034, load 4 2038, load 4 203c, load 4 2040, done 1004 r0=800000a0 r2=2014 r4=a4 r5=a5 r6=800000a6 r7=a7 r8=a8 r9=800000a9 r10=aa r11=ab r12=800000ac r14=ae
e9120008 6 r2=2040 : 800000a3 : load 4 203c, done 1004 r3=800000a3
e9124021 6 r2=2040 : 800000a0 a5 ae : load 4 2034, load 4 2038, load 4 203c, done 1004 r0=800000a0 r5=a5 r14=ae
e9125ff1 6 r2=2040 : 800000a0 a4 a5 800000a6 a7 a8 800000a9 aa ab 800000ac ae : load 4 2014, load 4 2018, load 4 201c, load 4 2020, load 4 2024, load 4 2028, load 4 202c, load 4 2030, load 4 2034, load 4 2038, load 4 203c, done 1004 r0=800000a0 r4=a4 r5=a5 r6=800000a6 r7=a7 r8=a8 r9=800000a9 r10=aa r11=ab r12=800000ac r14=ae
e9320008 6 r2=2040 : 800000a3 : load 4 203c, done 1004 r2=203c r3=800000a3
e9324021 6 r2=2040 : 800000a0 a5 ae : load 4 2034, load 4 2038, load 4 203c, done 1004 r0=800000a0 r2=2034 r5=a5 r14=ae
e9325ff1 6 r2=2040 : 800000a0 a4 a5 800000a6 a7 a8 800000a9 aa ab 800000ac ae : load 4 2014, load 4 2018, load 4 201c, load 4 2020, load 4 2024, load 4 2028, load 4 202c, load 4 2030, load 4 2034, load 4 2038, load 4 203c, done 1004 r0=800000a0 r2=2014 r4=a4 r5=a5 r6=800000a6 r7=a7 r8=a8 r9=800000a9 r10=aa r11=ab r12=800000ac r14=ae
; STM
e8820008 6 r2=2040 : : store 4 2040 3, done 1004
e8824021 6 r2=2040 : : store 4 2040 0, store 4 2044 5, store 4 2048 e, done 1004
e8825ff1 6 r2=2040 : : store 4 2040 0, store 4 2044 4, store 4 2048 5, store 4 204c 6, store 4 2050 7, store 4 2054 8, store 4 2058 9, store 4 205c a, store 4 2060 b, store 4 2064 c, store 4 2068 e, done 1004
e8a20008 6 r2=2040 : : store 4 2040 3, done 1004 r2=2044
e8a24021 6 r2=2040 : : store 4 2040 0, store 4 2044 5, store 4 2048 e, done 1004 r2=204c
e8a25ff1 6 r2=2040 : : store 4 2040 0, store 4 2044 4, store 4 2048 5, store 4 204c 6, store 4 2050 7, store 4 2054 8, store 4 2058 9, store 4 205c a, store 4 2060 b, store 4 2064 c, store 4 2068 e, done 1004 r2=206c
e9820008 6 r2=2040 : : store 4 2044 3, done 1004
e9824021 6 r2=2040 : : store 4 2044 0, store 4 2048 5, store 4 204c e, done 1004
e9825ff1 6 r2=2040 : : store 4 2044 0, store 4 2048 4, store 4 204c 5, store 4 2050 6, store 4 2054 7, store 4 2058 8, store 4 205c 9, store 4 2060 a, store 4 2064 b, store 4 2068 c, store 4 206c e, done 1004
e9a20008 6 r2=2040 : : store 4 2044 3, done 1004 r2=2044
e9a24021 6 r2=2040 : : store 4 2044 0, store 4 2048 5, store 4 204c e, done 1004 r2=204c
e9a25ff1 6 r2=2040 : : store 4 2044 0, store 4 2048 4, store 4 204c 5, store 4 2050 6, store 4 2054 7, store 4 2058 8, store 4 205c 9, store 4 2060 a, store 4 2064 b, store 4 2068 c, store 4 206c e, done 1004 r2=206c
e8020008 6 r2=2040 : : store 4 2040 3, done 1004
e8024021 6 r2=2040 : : store 4 2038 0, store 4 203c 5, store 4 2040 e, done 1004
e8025ff1 6 r2=2040 : : store 4 2018 0, store 4 201c 4, store 4 2020 5, store 4 2024 6, store 4 2028 7, store 4 202c 8, store 4 2030 9, store 4 2034 a, store 4 2038 b, store 4 203c c, store 4 2040 e, done 1004
e8220008 6 r2=2040 : : store 4 2040 3, done 1004 r2=203c
e8224021 6 r2=2040 : : store 4 2038 0, store 4 203c 5, store 4 2040 e, done 1004 r2=2034
e8225ff1 6 r2=2040 : : store 4 2018 0, store 4 201c 4, store 4 2020 5, store 4 2024 6, store 4 2028 7, store 4 202c 8, store 4 2030 9, store 4 2034 a, store 4 2038 b, store 4 203c c, store 4 2040 e, done 1004 r2=2014
e9020008 6 r2=2040 : : store 4 203c 3, done 1004
e9024021 6 r2=2040 : : store 4 2034 0, store 4 2038 5, store 4 203c e, done 1004
e9025ff1 6 r2=2040 : : store 4 2014 0, store 4 2018 4, store 4 201c 5, store 4 2020 6, store 4 2024 7, store 4 2028 8, store 4 202c 9, store 4 2030 a, store 4 2034 b, store 4 2038 c, store 4 203c e, done 1004
e9220008 6 r2=2040 : : store 4 203c 3, done 1004 r2=203c
e9224021 6 r2=2040 : : store 4 2034 0, store 4 2038 5, store 4 203c e, done 1004 r2=2034
e9225ff1 6 r2=2040 : : store 4 2014 0, store 4 2018 4, store 4 201c 5, store 4 2020 6, store 4 2024 7, store 4 2028 8, store 4 202c 9, store 4 2030 a, store 4 2034 b, store 4 2038 c, store 4 203c e, done 1004 r2=2014
; All registers, and all but the base
e890ffff 0 r0=2080 : 800000a0 a1 a2 800000a3 a4 a5 800000a6 a7 a8 800000a9 aa ab 800000ac ad ae 3000 : load 4 2080, load 4 2084, load 4 2088, load 4 208c, load 4 2090, load 4 2094, load 4 2098, load 4 209c, load 4 20a0, load 4 20a4, load 4 20a8, load 4 20ac, load 4 20b0, load 4 20b4, load 4 20b8, load 4 20bc, done 3000 r0=800000a0 r1=a1 r2=a2 r3=800000a3 r4=a4 r5=a5 r6=800000a6 r7=a7 r8=a8 r9=800000a9 r10=aa r11=ab r12=800000ac r13=ad r14=ae
e880ffff 0 r0=2080 : : store 4 2080 2080, store 4 2084 1, store 4 2088 2, store 4 208c 3, store 4 2090 4, store 4 2094 5, store 4 2098 6, store 4 209c 7, store 4 20a0 8, store 4 20a4 9, store 4 20a8 a, store 4 20ac b, store 4 20b0 c, store 4 20b4 d, store 4 20b8 e, store 4 20bc 1008, done 1004
e8a0ffff 0 r0=2080 : : store 4 2080 2080, store 4 2084 1, store 4 2088 2, store 4 208c 3, store 4 2090 4, store 4 2094 5, store 4 2098 6, store 4 209c 7, store 4 20a0 8, store 4 20a4 9, store 4 20a8 a, store 4 20ac b, store 4 20b0 c, store 4 20b4 d, store 4 20b8 e, store 4 20bc 1008, done 1004 r0=20c0
e990ffff 0 r0=2080 : 800000a0 a1 a2 800000a3 a4 a5 800000a6 a7 a8 800000a9 aa ab 800000ac ad ae 3000 : load 4 2084, load 4 2088, load 4 208c, load 4 2090, load 4 2094, load 4 2098, load 4 209c, load 4 20a0, load 4 20a4, load 4 20a8, load 4 20ac, load 4 20b0, load 4 20b4, load 4 20b8, load 4 20bc, load 4 20c0, done 3000 r0=800000a0 r1=a1 r2=a2 r3=800000a3 r4=a4 r5=a5 r6=800000a6 r7=a7 r8=a8 r9=800000a9 r10=aa r11=ab r12=800000ac r13=ad r14=ae
e980ffff 0 r0=2080 : : store 4 2084 2080, store 4 2088 1, store 4 208c 2, store 4 2090 3, store 4 2094 4, store 4 2098 5, store 4 209c 6, store 4 20a0 7, store 4 20a4 8, store 4 20a8 9, store 4 20ac a, store 4 20b0 b, store 4 20b4 c, store 4 20b8 d, store 4 20bc e, store 4 20c0 1008, done 1004
e9a0ffff 0 r0=2080 : : store 4 2084 2080, store 4 2088 1, store 4 208c 2, store 4 2090 3, store 4 2094 4, store 4 2098 5, store 4 209c 6, store 4 20a0 7, store 4 20a4 8, store 4 20a8 9, store 4 20ac a, store 4 20b0 b, store 4 20b4 c, store 4 20b8 d, store 4 20bc e, store 4 20c0 1008, done 1004 r0=20c0
e810ffff 0 r0=2080 : 800000a0 a1 a2 800000a3 a4 a5 800000a6 a7 a8 800000a9 aa ab 800000ac ad ae 3000 : load 4 2044, load 4 2048, load 4 204c, load 4 2050, load 4 2054, load 4 2058, load 4 205c, load 4 2060, load 4 2064, load 4 2068, load 4 206c, load 4 2070, load 4 2074, load 4 2078, load 4 207c, load 4 2080, done 3000 r0=800000a0 r1=a1 r2=a2 r3=800000a3 r4=a4 r5=a5 r6=800000a6 r7=a7 r8=a8 r9=800000a9 r10=aa r11=ab r12=800000ac r13=ad r14=ae
e800ffff 0 r0=2080 : : store 4 2044 2080, store 4 2048 1, store 4 204c 2, store 4 2050 3, store 4 2054 4, store 4 2058 5, store 4 205c 6, store 4 2060 7, store 4 2064 8, store 4 2068 9, store 4 206c a, store 4 2070 b, store 4 2074 c, store 4 2078 d, store 4 207c e, store 4 2080 1008, done 1004
e820ffff 0 r0=2080 : : store 4 2044 2080, store 4 2048 1, store 4 204c 2, store 4 2050 3, store 4 2054 4, store 4 2058 5, store 4 205c 6, store 4 2060 7, store 4 2064 8, store 4 2068 9, store 4 206c a, store 4 2070 b, store 4 2074 c, store 4 2078 d, store 4 207c e, store 4 2080 1008, done 1004 r0=2040
e910ffff 0 r0=2080 : 800000a0 a1 a2 800000a3 a4 a5 800000a6 a7 a8 800000a9 aa ab 800000ac ad ae 3000 : load 4 2040, load 4 2044, load 4 2048, load 4 204c, load 4 2050, load 4 2054, load 4 2058, load 4 205c, load 4 2060, load 4 2064, load 4 2068, load 4 206c, load 4 2070, load 4 2074, load 4 2078, load 4 207c, done 3000 r0=800000a0 r1=a1 r2=a2 r3=800000a3 r4=a4 r5=a5 r6=800000a6 r7=a7 r8=a8 r9=800000a9 r10=aa r11=ab r12=800000ac r13=ad r14=ae
e900ffff 0 r0=2080 : : store 4 2040 2080, store 4 2044 1, store 4 2048 2, store 4 204c 3, store 4 2050 4, store 4 2054 5, store 4 2058 6, store 4 205c 7, store 4 2060 8, store 4 2064 9, store 4 2068 a, store 4 206c b, store 4 2070 c, store 4 2074 d, store 4 2078 e, store 4 207c 1008, done 1004
e920ffff 0 r0=2080 : : store 4 2040 2080, store 4 2044 1, store 4 2048 2, store 4 204c 3, store 4 2050 4, store 4 2054 5, store 4 2058 6, store 4 205c 7, store 4 2060 8, store 4 2064 9, store 4 2068 a, store 4 206c b, store 4 2070 c, store 4 2074 d, store 4 2078 e, store 4 207c 1008, done 1004 r0=2040
e8bddfff 0 r13=8000 : 800000a0 a1 a2 800000a3 a4 a5 800000a6 a7 a8 800000a9 aa ab 800000ac ae 3000 : load 4 8000, load 4 8004, load 4 8008, load 4 800c, load 4 8010, load 4 8014, load 4 8018, load 4 801c, load 4 8020, load 4 8024, load 4 8028, load 4 802c, load 4 8030, load 4 8034, load 4 8038, done 3000 r0=800000a0 r1=a1 r2=a2 r3=800000a3 r4=a4 r5=a5 r6=800000a6 r7=a7 r8=a8 r9=800000a9 r10=aa r11=ab r12=800000ac r13=803c r14=ae
; The PC in the list
e89d8010 b r13=8000 : 44 3000 : load 4 8000, load 4 8004, done 3000 r4=44
e89d8010 b r13=8000 : 44 fffffffc : load 4 8000, load 4 8004, done fffffffc r4=44
e89d8010 b r13=8000 : 44 3001 : load 4 8000, load 4 8004, thumb 1000
e89d8010 b r13=8000 : 44 3003 : load 4 8000, load 4 8004, thumb 1000
e89d8010 b r13=8000 : 44 3002 : load 4 8000, load 4 8004, unpredictable 1000
e8bd8010 b r13=8000 : 44 3000 : load 4 8000, load 4 8004, done 3000 r4=44 r13=8008
e8bd8010 b r13=8000 : 44 fffffffc : load 4 8000, load 4 8004, done fffffffc r4=44 r13=8008
e8bd8010 b r13=8000 : 44 3001 : load 4 8000, load 4 8004, thumb 1000
e8bd8010 b r13=8000 : 44 3003 : load 4 8000, load 4 8004, thumb 1000
e8bd8010 b r13=8000 : 44 3002 : load 4 8000, load 4 8004, unpredictable 1000
e99d8010 b r13=8000 : 44 3000 : load 4 8004, load 4 8008, done 3000 r4=44
e99d8010 b r13=8000 : 44 fffffffc : load 4 8004, load 4 8008, done fffffffc r4=44
e99d8010 b r13=8000 : 44 3001 : load 4 8004, load 4 8008, thumb 1000
e99d8010 b r13=8000 : 44 3003 : load 4 8004, load 4 8008, thumb 1000
e99d8010 b r13=8000 : 44 3002 : load 4 8004, load 4 8008, unpredictable 1000
e9bd8010 b r13=8000 : 44 3000 : load 4 8004, load 4 8008, done 3000 r4=44 r13=8008
e9bd8010 b r13=8000 : 44 fffffffc : load 4 8004, load 4 8008, done fffffffc r4=44 r13=8008
e9bd8010 b r13=8000 : 44 3001 : load 4 8004, load 4 8008, thumb 1000
e9bd8010 b r13=8000 : 44 3003 : load 4 8004, load 4 8008, thumb 1000
e9bd8010 b r13=8000 : 44 3002 : load 4 8004, load 4 8008, unpredictable 1000
e81d8010 b r13=8000 : 44 3000 : load 4 7ffc, load 4 8000, done 3000 r4=44
e81d8010 b r13=8000 : 44 fffffffc : load 4 7ffc, load 4 8000, done fffffffc r4=44
e81d8010 b r13=8000 : 44 3001 : load 4 7ffc, load 4 8000, thumb 1000
e81d8010 b r13=8000 : 44 3003 : load 4 7ffc, load 4 8000, thumb 1000
e81d8010 b r13=8000 : 44 3002 : load 4 7ffc, load 4 8000, unpredictable 1000
e83d8010 b r13=8000 : 44 3000 : load 4 7ffc, load 4 8000, done 3000 r4=44 r13=7ff8
e83d8010 b r13=8000 : 44 fffffffc : load 4 7ffc, load 4 8000, done fffffffc r4=44 r13=7ff8
e83d8010 b r13=8000 : 44 3001 : load 4 7ffc, load 4 8000, thumb 1000
e83d8010 b r13=8000 : 44 3003 : load 4 7ffc, load 4 8000, thumb 1000
e83d8010 b r13=8000 : 44 3002 : load 4 7ffc, load 4 8000, unpredictable 1000
e91d8010 b r13=8000 : 44 3000 : load 4 7ff8, load 4 7ffc, done 3000 r4=44
e91d8010 b r13=8000 : 44 fffffffc : load 4 7ff8, load 4 7ffc, done fffffffc r4=44
e91d8010 b r13=8000 : 44 3001 : load 4 7ff8, load 4 7ffc, thumb 1000
e91d8010 b r13=8000 : 44 3003 : load 4 7ff8, load 4 7ffc, thumb 1000
e91d8010 b r13=8000 : 44 3002 : load 4 7ff8, load 4 7ffc, unpredictable 1000
e93d8010 b r13=8000 : 44 3000 : load 4 7ff8, load 4 7ffc, done 3000 r4=44 r13=7ff8
e93d8010 b r13=8000 : 44 fffffffc : load 4 7ff8, load 4 7ffc, done fffffffc r4=44 r13=7ff8
e93d8010 b r13=8000 : 44 3001 : load 4 7ff8, load 4 7ffc, thumb 1000
e93d8010 b r13=8000 : 44 3003 : load 4 7ff8, load 4 7ffc, thumb 1000
e93d8010 b r13=8000 : 44 3002 : load 4 7ff8, load 4 7ffc, unpredictable 1000
e8bd8000 0 r13=8000 : 3000 : load 4 8000, done 3000 r13=8004
e91d8000 0 r13=8000 : 3000 : load 4 7ffc, done 3000
e8bd8000 0 r13=8000 : 3001 : load 4 8000, thumb 1000
e91d8000 0 r13=8000 : 3001 : load 4 7ffc, thumb 1000
e8bd8000 0 r13=8000 : 3002 : load 4 8000, unpredictable 1000
e91d8000 0 r13=8000 : 3002 : load 4 7ffc, unpredictable 1000
e89da001 0 r13=8000 : 10 9000 3000 : load 4 8000, load 4 8004, load 4 8008, done 3000 r0=10 r13=9000
e89da001 0 r13=8000 : 10 9000 3001 : load 4 8000, load 4 8004, load 4 8008, thumb 1000
e8adc000 0 r13=8000 : : store 4 8000 e, store 4 8004 1008, done 1004 r13=8008
e88d8000 0 r13=8000 : : store 4 8000 1008, done 1004
e9adc000 0 r13=8000 : : store 4 8004 e, store 4 8008 1008, done 1004 r13=8008
e98d8000 0 r13=8000 : : store 4 8004 1008, done 1004
e82dc000 0 r13=8000 : : store 4 7ffc e, store 4 8000 1008, done 1004 r13=7ff8
e80d8000 0 r13=8000 : : store 4 8000 1008, done 1004
e92dc000 0 r13=8000 : : store 4 7ff8 e, store 4 7ffc 1008, done 1004 r13=7ff8
e90d8000 0 r13=8000 : : store 4 7ffc 1008, done 1004
; The base in the list
e8940038 0 r4=2040 : 800000a3 a4 a5 : load 4 2040, load 4 2044, load 4 2048, done 1004 r3=800000a3 r4=a4 r5=a5
e8940010 0 r4=2040 : a4 : load 4 2040, done 1004 r4=a4
e8b40038 0 r4=2040 : : unpredictable 1000
e8840038 0 r4=2040 : : store 4 2040 3, store 4 2044 2040, store 4 2048 5, done 1004
e8a40070 0 r4=2040 : : store 4 2040 2040, store 4 2044 5, store 4 2048 6, done 1004 r4=204c
e8a40010 0 r4=2040 : : store 4 2040 2040, done 1004 r4=2044
e9940038 0 r4=2040 : 800000a3 a4 a5 : load 4 2044, load 4 2048, load 4 204c, done 1004 r3=800000a3 r4=a4 r5=a5
e9940010 0 r4=2040 : a4 : load 4 2044, done 1004 r4=a4
e9b40038 0 r4=2040 : : unpredictable 1000
e9840038 0 r4=2040 : : store 4 2044 3, store 4 2048 2040, store 4 204c 5, done 1004
e9a40070 0 r4=2040 : : store 4 2044 2040, store 4 2048 5, store 4 204c 6, done 1004 r4=204c
e9a40010 0 r4=2040 : : store 4 2044 2040, done 1004 r4=2044
e8140038 0 r4=2040 : 800000a3 a4 a5 : load 4 2038, load 4 203c, load 4 2040, done 1004 r3=800000a3 r4=a4 r5=a5
e8140010 0 r4=2040 : a4 : load 4 2040, done 1004 r4=a4
e8340038 0 r4=2040 : : unpredictable 1000
e8040038 0 r4=2040 : : store 4 2038 3, store 4 203c 2040, store 4 2040 5, done 1004
e8240070 0 r4=2040 : : store 4 2038 2040, store 4 203c 5, store 4 2040 6, done 1004 r4=2034
e8240010 0 r4=2040 : : store 4 2040 2040, done 1004 r4=203c
e9140038 0 r4=2040 : 800000a3 a4 a5 : load 4 2034, load 4 2038, load 4 203c, done 1004 r3=800000a3 r4=a4 r5=a5
e9140010 0 r4=2040 : a4 : load 4 203c, done 1004 r4=a4
e9340038 0 r4=2040 : : unpredictable 1000
e9040038 0 r4=2040 : : store 4 2034 3, store 4 2038 2040, store 4 203c 5, done 1004
e9240070 0 r4=2040 : : store 4 2034 2040, store 4 2038 5, store 4 203c 6, done 1004 r4=2034
e9240010 0 r4=2040 : : store 4 203c 2040, done 1004 r4=203c
; The end of memory: the last three words, and blocks whose third, second or first word is past it
e8b20242 0 r2=fff4 : a1 800000a6 800000a9 : load 4 fff4, load 4 fff8, load 4 fffc, done 1004 r1=a1 r2=10000 r6=800000a6 r9=800000a9
e8b20242 0 r2=fff8 : : outside 10000
e8920642 0 r2=fffc : : outside 10000
e8920002 0 r2=10000 : : outside 10000
e9b20242 0 r2=fff0 : a1 800000a6 800000a9 : load 4 fff4, load 4 fff8, load 4 fffc, done 1004 r1=a1 r2=fffc r6=800000a6 r9=800000a9
e9b20242 0 r2=fff4 : : outside 10000
e9920642 0 r2=fff8 : : outside 10000
e9920002 0 r2=fffc : : outside 10000
e8320242 0 r2=fffc : a1 800000a6 800000a9 : load 4 fff4, load 4 fff8, load 4 fffc, done 1004 r1=a1 r2=fff0 r6=800000a6 r9=800000a9
e8320242 0 r2=10000 : : outside 10000
e8120642 0 r2=10008 : : outside 10000
e8120002 0 r2=10000 : : outside 10000
e9320242 0 r2=10000 : a1 800000a6 800000a9 : load 4 fff4, load 4 fff8, load 4 fffc, done 1004 r1=a1 r2=fff4 r6=800000a6 r9=800000a9
e9320242 0 r2=10004 : : outside 10000
e9120642 0 r2=1000c : : outside 10000
e9120002 0 r2=10004 : : outside 10000
e8a20242 0 r2=fff4 : : store 4 fff4 1, store 4 fff8 6, store 4 fffc 9, done 1004 r2=10000
e8a20242 0 r2=fff8 : : outside 10000
e8820642 0 r2=fffc : : outside 10000
e8820002 0 r2=10000 : : outside 10000
e9a20242 0 r2=fff0 : : store 4 fff4 1, store 4 fff8 6, store 4 fffc 9, done 1004 r2=fffc
e9a20242 0 r2=fff4 : : outside 10000
e9820642 0 r2=fff8 : : outside 10000
e9820002 0 r2=fffc : : outside 10000
e8220242 0 r2=fffc : : store 4 fff4 1, store 4 fff8 6, store 4 fffc 9, done 1004 r2=fff0
e8220242 0 r2=10000 : : outside 10000
e8020642 0 r2=10008 : : outside 10000
e8020002 0 r2=10000 : : outside 10000
e9220242 0 r2=10000 : : store 4 fff4 1, store 4 fff8 6, store 4 fffc 9, done 1004 r2=fff4
e9220242 0 r2=10004 : : outside 10000
e9020642 0 r2=1000c : : outside 10000
e9020002 0 r2=10004 : : outside 10000
; The program's words: no block that has one is stored
e8a20242 0 r2=ff4 : : store 4 ff4 1, store 4 ff8 6, store 4 ffc 9, done 1004 r2=1000
e8820242 0 r2=ff8 : : readonly 1000
e8a20242 0 r2=1000 : : readonly 1000
e8a20242 0 r2=ffc : : readonly 1000
e8a20242 0 r2=1004 : : store 4 1004 1, store 4 1008 6, store 4 100c 9, done 1004 r2=1010
e8b20242 0 r2=1004 : e7f000f0 800000a6 800000a9 : load 4 1004, load 4 1008, load 4 100c, done 1004 r1=e7f000f0 r2=1010 r6=800000a6 r9=800000a9
e9a20242 0 r2=ff0 : : store 4 ff4 1, store 4 ff8 6, store 4 ffc 9, done 1004 r2=ffc
e9820242 0 r2=ff4 : : readonly 1000
e9a20242 0 r2=ffc : : readonly 1000
e9a20242 0 r2=ff8 : : readonly 1000
e9a20242 0 r2=1000 : : store 4 1004 1, store 4 1008 6, store 4 100c 9, done 1004 r2=100c
e9b20242 0 r2=1000 : e7f000f0 800000a6 800000a9 : load 4 1004, load 4 1008, load 4 100c, done 1004 r1=e7f000f0 r2=100c r6=800000a6 r9=800000a9
e8220242 0 r2=ffc : : store 4 ff4 1, store 4 ff8 6, store 4 ffc 9, done 1004 r2=ff0
e8020242 0 r2=1000 : : readonly 1000
e8220242 0 r2=1008 : : readonly 1000
e8220242 0 r2=1004 : : readonly 1000
e8220242 0 r2=100c : : store 4 1004 1, store 4 1008 6, store 4 100c 9, done 1004 r2=1000
e8320242 0 r2=100c : e7f000f0 800000a6 800000a9 : load 4 1004, load 4 1008, load 4 100c, done 1004 r1=e7f000f0 r2=1000 r6=800000a6 r9=800000a9
e9220242 0 r2=1000 : : store 4 ff4 1, store 4 ff8 6, store 4 ffc 9, done 1004 r2=ff4
e9020242 0 r2=1004 : : readonly 1000
e9220242 0 r2=100c : : readonly 1000
e9220242 0 r2=1008 : : readonly 1000
e9220242 0 r2=1010 : : store 4 1004 1, store 4 1008 6, store 4 100c 9, done 1004 r2=1004
e9320242 0 r2=1010 : e7f000f0 800000a6 800000a9 : load 4 1004, load 4 1008, load 4 100c, done 1004 r1=e7f000f0 r2=1004 r6=800000a6 r9=800000a9
; Address 0, and blocks that wrap to it from the last words of all addresses
e8b20242 0 r2=0 : a1 800000a6 800000a9 : load 4 0, load 4 4, load 4 8, done 1004 r1=a1 r2=c r6=800000a6 r9=800000a9
e8920242 0 r2=fffffffc : : outside fffffffc
e8b20242 0 r2=fffffff8 : : outside fffffff8
e9b20242 0 r2=fffffffc : a1 800000a6 800000a9 : load 4 0, load 4 4, load 4 8, done 1004 r1=a1 r2=8 r6=800000a6 r9=800000a9
e9920242 0 r2=fffffff8 : : outside fffffffc
e9b20242 0 r2=fffffff4 : : outside fffffff8
e8320242 0 r2=8 : a1 800000a6 800000a9 : load 4 0, load 4 4, load 4 8, done 1004 r1=a1 r2=fffffffc r6=800000a6 r9=800000a9
e8120242 0 r2=4 : : outside fffffffc
e8320242 0 r2=0 : : outside fffffff8
e9320242 0 r2=c : a1 800000a6 800000a9 : load 4 0, load 4 4, load 4 8, done 1004 r1=a1 r2=0 r6=800000a6 r9=800000a9
e9120242 0 r2=8 : : outside fffffffc
e9320242 0 r2=4 : : outside fffffff8
e8a20242 0 r2=0 : : store 4 0 1, store 4 4 6, store 4 8 9, done 1004 r2=c
e8820242 0 r2=fffffffc : : outside fffffffc
e8a20242 0 r2=fffffff8 : : outside fffffff8
e9a20242 0 r2=fffffffc : : store 4 0 1, store 4 4 6, store 4 8 9, done 1004 r2=8
e9820242 0 r2=fffffff8 : : outside fffffffc
e9a20242 0 r2=fffffff4 : : outside fffffff8
e8220242 0 r2=8 : : store 4 0 1, store 4 4 6, store 4 8 9, done 1004 r2=fffffffc
e8020242 0 r2=4 : : outside fffffffc
e8220242 0 r2=0 : : outside fffffff8
e9220242 0 r2=c : : store 4 0 1, store 4 4 6, store 4 8 9, done 1004 r2=0
e9020242 0 r2=8 : : outside fffffffc
e9220242 0 r2=4 : : outside fffffff8
; Addresses that are no multiples of 4
e8b20242 0 r2=2001 : : alignment 2001
e8920242 0 r2=2002 : : alignment 2002
e8b20200 0 r2=ffff : : alignment ffff
e9b20242 0 r2=1ffd : : alignment 2001
e9920242 0 r2=1ffe : : alignment 2002
e9b20200 0 r2=fffb : : alignment ffff
e8320242 0 r2=2009 : : alignment 2001
e8120242 0 r2=200a : : alignment 2002
e8320200 0 r2=ffff : : alignment ffff
e9320242 0 r2=200d : : alignment 2001
e9120242 0 r2=200e : : alignment 2002
e9320200 0 r2=10003 : : alignment ffff
e8a20242 0 r2=2001 : : alignment 2001
e8820242 0 r2=2002 : : alignment 2002
e8a20200 0 r2=ffff : : alignment ffff
e9a20242 0 r2=1ffd : : alignment 2001
e9820242 0 r2=1ffe : : alignment 2002
e9a20200 0 r2=fffb : : alignment ffff
e8220242 0 r2=2009 : : alignment 2001
e8020242 0 r2=200a : : alignment 2002
e8220200 0 r2=ffff : : alignment ffff
e9220242 0 r2=200d : : alignment 2001
e9020242 0 r2=200e : : alignment 2002
e9220200 0 r2=10003 : : alignment ffff
; Under conditions
18b24021 4 r2=2040 : : done 1004
08b24021 4 r2=2040 : 800000a0 a5 ae : load 4 2040, load 4 2044, load 4 2048, done 1004 r0=800000a0 r2=204c r5=a5 r14=ae
49328001 0 r2=2041 : : done 1004
18a24021 4 r2=2040 : : done 1004
08a24021 4 r2=2040 : : store 4 2040 0, store 4 2044 5, store 4 2048 e, done 1004 r2=204c
49228001 0 r2=2041 : : done 1004
";

#[test]
fn moves_blocks(rt: HostRuntime) -> Result<(), Fail> {
    check(&rt, rt.alloc(), BLOCKS)
}
