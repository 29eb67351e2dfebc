//! Loads and stores of one register at the edges of memory, which has 0x10000 bytes, and of the program's one word at
//! 0x1000. What a row wants was computed from the pseudocode of DDI 0406C A8.8.62 to A8.8.90 and A8.8.203 to A8.8.218.
//! Where nothing stops the thread, and where it stops past the end of memory, `qemu-arm` does the same.

use super::transcripts::check;
use super::*;

/// The rows at the edges.
const EDGES: &str = "\
; The first place of memory, the last one, one past it, and the last of all addresses
e5910000 0 r1=0 : 89abcdef : load 4 0, done 1004 r0=89abcdef
e5910000 0 r1=fffc : 89abcdef : load 4 fffc, done 1004 r0=89abcdef
e5910000 0 r1=10000 : : outside 10000
e5910000 0 r1=fffffffc : : outside fffffffc
e5810000 0 r0=89abcdef r1=0 : : store 4 0 89abcdef, done 1004
e5810000 0 r0=89abcdef r1=fffc : : store 4 fffc 89abcdef, done 1004
e5810000 0 r0=89abcdef r1=10000 : : outside 10000
e5810000 0 r0=89abcdef r1=fffffffc : : outside fffffffc
e5d10000 0 r1=0 : 8d : load 1 0, done 1004 r0=8d
e5d10000 0 r1=ffff : 8d : load 1 ffff, done 1004 r0=8d
e5d10000 0 r1=10000 : : outside 10000
e5d10000 0 r1=ffffffff : : outside ffffffff
e5c10000 0 r0=89abcdef r1=0 : : store 1 0 ef, done 1004
e5c10000 0 r0=89abcdef r1=ffff : : store 1 ffff ef, done 1004
e5c10000 0 r0=89abcdef r1=10000 : : outside 10000
e5c10000 0 r0=89abcdef r1=ffffffff : : outside ffffffff
e1d100b0 0 r1=0 : 8bcd : load 2 0, done 1004 r0=8bcd
e1d100b0 0 r1=fffe : 8bcd : load 2 fffe, done 1004 r0=8bcd
e1d100b0 0 r1=10000 : : outside 10000
e1d100b0 0 r1=fffffffe : : outside fffffffe
e1c100b0 0 r0=89abcdef r1=0 : : store 2 0 cdef, done 1004
e1c100b0 0 r0=89abcdef r1=fffe : : store 2 fffe cdef, done 1004
e1c100b0 0 r0=89abcdef r1=10000 : : outside 10000
e1c100b0 0 r0=89abcdef r1=fffffffe : : outside fffffffe
e1d100d0 0 r1=0 : 8d : load 1 0, done 1004 r0=ffffff8d
e1d100d0 0 r1=ffff : 8d : load 1 ffff, done 1004 r0=ffffff8d
e1d100d0 0 r1=10000 : : outside 10000
e1d100d0 0 r1=ffffffff : : outside ffffffff
e1d100f0 0 r1=0 : 8bcd : load 2 0, done 1004 r0=ffff8bcd
e1d100f0 0 r1=fffe : 8bcd : load 2 fffe, done 1004 r0=ffff8bcd
e1d100f0 0 r1=10000 : : outside 10000
e1d100f0 0 r1=fffffffe : : outside fffffffe
; Addresses that wrap below 0 and past 2 to the 32, and that pass the end
e5110004 0 r1=0 : : outside fffffffc
e5310004 0 r1=0 : : outside fffffffc
e4110004 0 r1=0 : 89abcdef : load 4 0, done 1004 r0=89abcdef r1=fffffffc
e5b10008 0 r1=fffffffc : 89abcdef : load 4 4, done 1004 r0=89abcdef r1=4
e4910008 0 r1=fffffffc : : outside fffffffc
e7b10002 0 r1=8 r2=fffffff8 : 89abcdef : load 4 0, done 1004 r0=89abcdef r1=0
e7110002 0 r1=0 r2=fffffffc : 89abcdef : load 4 4, done 1004 r0=89abcdef
e5b10004 0 r1=fffc : : outside 10000
e4910004 0 r1=fffc : 89abcdef : load 4 fffc, done 1004 r0=89abcdef r1=10000
e5010004 0 r0=89abcdef r1=0 : : outside fffffffc
e5210004 0 r0=89abcdef r1=0 : : outside fffffffc
e4010004 0 r0=89abcdef r1=0 : : store 4 0 89abcdef, done 1004 r1=fffffffc
e5a10008 0 r0=89abcdef r1=fffffffc : : store 4 4 89abcdef, done 1004 r1=4
e4810008 0 r0=89abcdef r1=fffffffc : : outside fffffffc
e7a10002 0 r0=89abcdef r1=8 r2=fffffff8 : : store 4 0 89abcdef, done 1004 r1=0
e7010002 0 r0=89abcdef r1=0 r2=fffffffc : : store 4 4 89abcdef, done 1004
e5a10004 0 r0=89abcdef r1=fffc : : outside 10000
e4810004 0 r0=89abcdef r1=fffc : : store 4 fffc 89abcdef, done 1004 r1=10000
e5510001 0 r1=0 : : outside ffffffff
e5710001 0 r1=0 : : outside ffffffff
e4510001 0 r1=0 : 8d : load 1 0, done 1004 r0=8d r1=ffffffff
e5f10002 0 r1=ffffffff : 8d : load 1 1, done 1004 r0=8d r1=1
e4d10002 0 r1=ffffffff : : outside ffffffff
e7f10002 0 r1=8 r2=fffffff8 : 8d : load 1 0, done 1004 r0=8d r1=0
e7510002 0 r1=0 r2=ffffffff : 8d : load 1 1, done 1004 r0=8d
e5f10001 0 r1=ffff : : outside 10000
e4d10001 0 r1=ffff : 8d : load 1 ffff, done 1004 r0=8d r1=10000
e5410001 0 r0=89abcdef r1=0 : : outside ffffffff
e5610001 0 r0=89abcdef r1=0 : : outside ffffffff
e4410001 0 r0=89abcdef r1=0 : : store 1 0 ef, done 1004 r1=ffffffff
e5e10002 0 r0=89abcdef r1=ffffffff : : store 1 1 ef, done 1004 r1=1
e4c10002 0 r0=89abcdef r1=ffffffff : : outside ffffffff
e7e10002 0 r0=89abcdef r1=8 r2=fffffff8 : : store 1 0 ef, done 1004 r1=0
e7410002 0 r0=89abcdef r1=0 r2=ffffffff : : store 1 1 ef, done 1004
e5e10001 0 r0=89abcdef r1=ffff : : outside 10000
e4c10001 0 r0=89abcdef r1=ffff : : store 1 ffff ef, done 1004 r1=10000
e15100b2 0 r1=0 : : outside fffffffe
e17100b2 0 r1=0 : : outside fffffffe
e05100b2 0 r1=0 : 8bcd : load 2 0, done 1004 r0=8bcd r1=fffffffe
e1f100b4 0 r1=fffffffe : 8bcd : load 2 2, done 1004 r0=8bcd r1=2
e0d100b4 0 r1=fffffffe : : outside fffffffe
e1b100b2 0 r1=8 r2=fffffff8 : 8bcd : load 2 0, done 1004 r0=8bcd r1=0
e11100b2 0 r1=0 r2=fffffffe : 8bcd : load 2 2, done 1004 r0=8bcd
e1f100b2 0 r1=fffe : : outside 10000
e0d100b2 0 r1=fffe : 8bcd : load 2 fffe, done 1004 r0=8bcd r1=10000
e14100b2 0 r0=89abcdef r1=0 : : outside fffffffe
e16100b2 0 r0=89abcdef r1=0 : : outside fffffffe
e04100b2 0 r0=89abcdef r1=0 : : store 2 0 cdef, done 1004 r1=fffffffe
e1e100b4 0 r0=89abcdef r1=fffffffe : : store 2 2 cdef, done 1004 r1=2
e0c100b4 0 r0=89abcdef r1=fffffffe : : outside fffffffe
e1a100b2 0 r0=89abcdef r1=8 r2=fffffff8 : : store 2 0 cdef, done 1004 r1=0
e10100b2 0 r0=89abcdef r1=0 r2=fffffffe : : store 2 2 cdef, done 1004
e1e100b2 0 r0=89abcdef r1=fffe : : outside 10000
e0c100b2 0 r0=89abcdef r1=fffe : : store 2 fffe cdef, done 1004 r1=10000
e15100d1 0 r1=0 : : outside ffffffff
e17100d1 0 r1=0 : : outside ffffffff
e05100d1 0 r1=0 : 8d : load 1 0, done 1004 r0=ffffff8d r1=ffffffff
e1f100d2 0 r1=ffffffff : 8d : load 1 1, done 1004 r0=ffffff8d r1=1
e0d100d2 0 r1=ffffffff : : outside ffffffff
e1b100d2 0 r1=8 r2=fffffff8 : 8d : load 1 0, done 1004 r0=ffffff8d r1=0
e11100d2 0 r1=0 r2=ffffffff : 8d : load 1 1, done 1004 r0=ffffff8d
e1f100d1 0 r1=ffff : : outside 10000
e0d100d1 0 r1=ffff : 8d : load 1 ffff, done 1004 r0=ffffff8d r1=10000
e15100f2 0 r1=0 : : outside fffffffe
e17100f2 0 r1=0 : : outside fffffffe
e05100f2 0 r1=0 : 8bcd : load 2 0, done 1004 r0=ffff8bcd r1=fffffffe
e1f100f4 0 r1=fffffffe : 8bcd : load 2 2, done 1004 r0=ffff8bcd r1=2
e0d100f4 0 r1=fffffffe : : outside fffffffe
e1b100f2 0 r1=8 r2=fffffff8 : 8bcd : load 2 0, done 1004 r0=ffff8bcd r1=0
e11100f2 0 r1=0 r2=fffffffe : 8bcd : load 2 2, done 1004 r0=ffff8bcd
e1f100f2 0 r1=fffe : : outside 10000
e0d100f2 0 r1=fffe : 8bcd : load 2 fffe, done 1004 r0=ffff8bcd r1=10000
; Addresses that are no multiples of the size
e5910000 0 r1=2001 : : alignment 2001
e5910000 0 r1=2002 : : alignment 2002
e5910000 0 r1=2003 : : alignment 2003
e5910000 0 r1=ffff : : alignment ffff
e5910000 0 r1=10001 : : alignment 10001
e5910000 0 r1=ffffffff : : alignment ffffffff
e5910000 0 r1=fff : : alignment fff
e5910000 0 r1=1001 : : alignment 1001
e5b10001 0 r1=2000 : : alignment 2001
e4910001 0 r1=2000 : 89abcdef : load 4 2000, done 1004 r0=89abcdef r1=2001
e5b10001 0 r1=2003 : 89abcdef : load 4 2004, done 1004 r0=89abcdef r1=2004
e5810000 0 r0=89abcdef r1=2001 : : alignment 2001
e5810000 0 r0=89abcdef r1=2002 : : alignment 2002
e5810000 0 r0=89abcdef r1=2003 : : alignment 2003
e5810000 0 r0=89abcdef r1=ffff : : alignment ffff
e5810000 0 r0=89abcdef r1=10001 : : alignment 10001
e5810000 0 r0=89abcdef r1=ffffffff : : alignment ffffffff
e5810000 0 r0=89abcdef r1=fff : : alignment fff
e5810000 0 r0=89abcdef r1=1001 : : alignment 1001
e5a10001 0 r0=89abcdef r1=2000 : : alignment 2001
e4810001 0 r0=89abcdef r1=2000 : : store 4 2000 89abcdef, done 1004 r1=2001
e5a10001 0 r0=89abcdef r1=2003 : : store 4 2004 89abcdef, done 1004 r1=2004
e5d10000 0 r1=2001 : 8d : load 1 2001, done 1004 r0=8d
e5c10000 0 r0=89abcdef r1=2001 : : store 1 2001 ef, done 1004
e1d100b0 0 r1=2001 : : alignment 2001
e1d100b0 0 r1=2003 : : alignment 2003
e1d100b0 0 r1=ffff : : alignment ffff
e1d100b0 0 r1=10001 : : alignment 10001
e1d100b0 0 r1=ffffffff : : alignment ffffffff
e1d100b0 0 r1=fff : : alignment fff
e1d100b0 0 r1=1001 : : alignment 1001
e1f100b1 0 r1=2000 : : alignment 2001
e0d100b1 0 r1=2000 : 8bcd : load 2 2000, done 1004 r0=8bcd r1=2001
e1f100b1 0 r1=2001 : 8bcd : load 2 2002, done 1004 r0=8bcd r1=2002
e1c100b0 0 r0=89abcdef r1=2001 : : alignment 2001
e1c100b0 0 r0=89abcdef r1=2003 : : alignment 2003
e1c100b0 0 r0=89abcdef r1=ffff : : alignment ffff
e1c100b0 0 r0=89abcdef r1=10001 : : alignment 10001
e1c100b0 0 r0=89abcdef r1=ffffffff : : alignment ffffffff
e1c100b0 0 r0=89abcdef r1=fff : : alignment fff
e1c100b0 0 r0=89abcdef r1=1001 : : alignment 1001
e1e100b1 0 r0=89abcdef r1=2000 : : alignment 2001
e0c100b1 0 r0=89abcdef r1=2000 : : store 2 2000 cdef, done 1004 r1=2001
e1e100b1 0 r0=89abcdef r1=2001 : : store 2 2002 cdef, done 1004 r1=2002
e1d100d0 0 r1=2001 : 8d : load 1 2001, done 1004 r0=ffffff8d
e1d100f0 0 r1=2001 : : alignment 2001
e1d100f0 0 r1=2003 : : alignment 2003
e1d100f0 0 r1=ffff : : alignment ffff
e1d100f0 0 r1=10001 : : alignment 10001
e1d100f0 0 r1=ffffffff : : alignment ffffffff
e1d100f0 0 r1=fff : : alignment fff
e1d100f0 0 r1=1001 : : alignment 1001
e1f100f1 0 r1=2000 : : alignment 2001
e0d100f1 0 r1=2000 : 8bcd : load 2 2000, done 1004 r0=ffff8bcd r1=2001
e1f100f1 0 r1=2001 : 8bcd : load 2 2002, done 1004 r0=ffff8bcd r1=2002
; Just before the program's words, in them and just after them
e5910000 0 r1=ffc : 89abcdef : load 4 ffc, done 1004 r0=89abcdef
e5910000 0 r1=1000 : e5910000 : load 4 1000, done 1004 r0=e5910000
e5910000 0 r1=1004 : e7f000f0 : load 4 1004, done 1004 r0=e7f000f0
e5810000 0 r0=89abcdef r1=ffc : : store 4 ffc 89abcdef, done 1004
e5810000 0 r0=89abcdef r1=1000 : : readonly 1000
e5810000 0 r0=89abcdef r1=1004 : : store 4 1004 89abcdef, done 1004
e5a10004 0 r0=89abcdef r1=ffc : : readonly 1000
e4810004 0 r0=89abcdef r1=1000 : : readonly 1000
e4810004 0 r0=89abcdef r1=ffc : : store 4 ffc 89abcdef, done 1004 r1=1000
e5d10000 0 r1=fff : 8d : load 1 fff, done 1004 r0=8d
e5d10000 0 r1=1000 : 0 : load 1 1000, done 1004
e5d10000 0 r1=1001 : 0 : load 1 1001, done 1004
e5d10000 0 r1=1002 : d1 : load 1 1002, done 1004 r0=d1
e5d10000 0 r1=1003 : e5 : load 1 1003, done 1004 r0=e5
e5d10000 0 r1=1004 : f0 : load 1 1004, done 1004 r0=f0
e5c10000 0 r0=89abcdef r1=fff : : store 1 fff ef, done 1004
e5c10000 0 r0=89abcdef r1=1000 : : readonly 1000
e5c10000 0 r0=89abcdef r1=1001 : : readonly 1001
e5c10000 0 r0=89abcdef r1=1002 : : readonly 1002
e5c10000 0 r0=89abcdef r1=1003 : : readonly 1003
e5c10000 0 r0=89abcdef r1=1004 : : store 1 1004 ef, done 1004
e5e10001 0 r0=89abcdef r1=fff : : readonly 1000
e4c10001 0 r0=89abcdef r1=1000 : : readonly 1000
e4c10001 0 r0=89abcdef r1=fff : : store 1 fff ef, done 1004 r1=1000
e1d100b0 0 r1=ffe : 8bcd : load 2 ffe, done 1004 r0=8bcd
e1d100b0 0 r1=1000 : b0 : load 2 1000, done 1004 r0=b0
e1d100b0 0 r1=1002 : e1d1 : load 2 1002, done 1004 r0=e1d1
e1d100b0 0 r1=1004 : f0 : load 2 1004, done 1004 r0=f0
e1c100b0 0 r0=89abcdef r1=ffe : : store 2 ffe cdef, done 1004
e1c100b0 0 r0=89abcdef r1=1000 : : readonly 1000
e1c100b0 0 r0=89abcdef r1=1002 : : readonly 1002
e1c100b0 0 r0=89abcdef r1=1004 : : store 2 1004 cdef, done 1004
e1e100b2 0 r0=89abcdef r1=ffe : : readonly 1000
e0c100b2 0 r0=89abcdef r1=1000 : : readonly 1000
e0c100b2 0 r0=89abcdef r1=ffe : : store 2 ffe cdef, done 1004 r1=1000
e1d100d0 0 r1=fff : 8d : load 1 fff, done 1004 r0=ffffff8d
e1d100d0 0 r1=1000 : d0 : load 1 1000, done 1004 r0=ffffffd0
e1d100d0 0 r1=1001 : 0 : load 1 1001, done 1004
e1d100d0 0 r1=1002 : d1 : load 1 1002, done 1004 r0=ffffffd1
e1d100d0 0 r1=1003 : e1 : load 1 1003, done 1004 r0=ffffffe1
e1d100d0 0 r1=1004 : f0 : load 1 1004, done 1004 r0=fffffff0
e1d100f0 0 r1=ffe : 8bcd : load 2 ffe, done 1004 r0=ffff8bcd
e1d100f0 0 r1=1000 : f0 : load 2 1000, done 1004 r0=f0
e1d100f0 0 r1=1002 : e1d1 : load 2 1002, done 1004 r0=ffffe1d1
e1d100f0 0 r1=1004 : f0 : load 2 1004, done 1004 r0=f0
; The largest immediates
e5910fff 0 r1=2001 : 89abcdef : load 4 3000, done 1004 r0=89abcdef
e5310fff 0 r1=2fff : 89abcdef : load 4 2000, done 1004 r0=89abcdef r1=2000
e5810fff 0 r0=89abcdef r1=2001 : : store 4 3000 89abcdef, done 1004
e5210fff 0 r0=89abcdef r1=2fff : : store 4 2000 89abcdef, done 1004 r1=2000
e5d10fff 0 r1=2001 : 8d : load 1 3000, done 1004 r0=8d
e5710fff 0 r1=2fff : 8d : load 1 2000, done 1004 r0=8d r1=2000
e5c10fff 0 r0=89abcdef r1=2001 : : store 1 3000 ef, done 1004
e5610fff 0 r0=89abcdef r1=2fff : : store 1 2000 ef, done 1004 r1=2000
e1d10fbf 0 r1=2001 : 8bcd : load 2 2100, done 1004 r0=8bcd
e1710fbf 0 r1=20ff : 8bcd : load 2 2000, done 1004 r0=8bcd r1=2000
e1c10fbf 0 r0=89abcdef r1=2001 : : store 2 2100 cdef, done 1004
e1610fbf 0 r0=89abcdef r1=20ff : : store 2 2000 cdef, done 1004 r1=2000
e1d10fdf 0 r1=2001 : 8d : load 1 2100, done 1004 r0=ffffff8d
e1710fdf 0 r1=20ff : 8d : load 1 2000, done 1004 r0=ffffff8d r1=2000
e1d10fff 0 r1=2001 : 8bcd : load 2 2100, done 1004 r0=ffff8bcd
e1710fff 0 r1=20ff : 8bcd : load 2 2000, done 1004 r0=ffff8bcd r1=2000
; A register in two places, the stack pointer, and the PC as the base
e5911004 0 r1=2000 : 89abcdef : load 4 2004, done 1004 r1=89abcdef
e7910001 0 r1=2000 : 89abcdef : load 4 4000, done 1004 r0=89abcdef
e7b12002 0 r1=2000 r2=304 : 89abcdef : load 4 2304, done 1004 r1=2304 r2=89abcdef
e6112002 0 r1=2000 r2=304 : 89abcdef : load 4 2000, done 1004 r1=1cfc r2=89abcdef
e49de008 0 r13=8000 : 89abcdef : load 4 8000, done 1004 r13=8008 r14=89abcdef
e59f0008 0 : 89abcdef : load 4 1010, done 1004 r0=89abcdef
e71f0002 0 r2=8 : e71f0002 : load 4 1000, done 1004 r0=e71f0002
e5811004 0 r1=2000 : : store 4 2004 2000, done 1004
e7810001 0 r0=89abcdef r1=2000 : : store 4 4000 89abcdef, done 1004
e7a12002 0 r1=2000 r2=304 : : store 4 2304 304, done 1004 r1=2304
e6012002 0 r1=2000 r2=304 : : store 4 2000 304, done 1004 r1=1cfc
e48de008 0 r13=8000 : : store 4 8000 e, done 1004 r13=8008
e58f0008 0 r0=89abcdef : : store 4 1010 89abcdef, done 1004
e70f0002 0 r0=89abcdef r2=8 : : readonly 1000
e5d11004 0 r1=2000 : 8d : load 1 2004, done 1004 r1=8d
e7d10001 0 r1=2000 : 8d : load 1 4000, done 1004 r0=8d
e7f12002 0 r1=2000 r2=304 : 8d : load 1 2304, done 1004 r1=2304 r2=8d
e6512002 0 r1=2000 r2=304 : 8d : load 1 2000, done 1004 r1=1cfc r2=8d
e4dde008 0 r13=8000 : 8d : load 1 8000, done 1004 r13=8008 r14=8d
e5df0008 0 : 8d : load 1 1010, done 1004 r0=8d
e75f0002 0 r2=8 : 2 : load 1 1000, done 1004 r0=2
e5c11004 0 r1=2000 : : store 1 2004 0, done 1004
e7c10001 0 r0=89abcdef r1=2000 : : store 1 4000 ef, done 1004
e7e12002 0 r1=2000 r2=304 : : store 1 2304 4, done 1004 r1=2304
e6412002 0 r1=2000 r2=304 : : store 1 2000 4, done 1004 r1=1cfc
e4cde008 0 r13=8000 : : store 1 8000 e, done 1004 r13=8008
e5cf0008 0 r0=89abcdef : : store 1 1010 ef, done 1004
e74f0002 0 r0=89abcdef r2=8 : : readonly 1000
e1d110b4 0 r1=2000 : 8bcd : load 2 2004, done 1004 r1=8bcd
e19100b1 0 r1=2000 : 8bcd : load 2 4000, done 1004 r0=8bcd
e1b120b2 0 r1=2000 r2=304 : 8bcd : load 2 2304, done 1004 r1=2304 r2=8bcd
e01120b2 0 r1=2000 r2=304 : 8bcd : load 2 2000, done 1004 r1=1cfc r2=8bcd
e0dde0b8 0 r13=8000 : 8bcd : load 2 8000, done 1004 r13=8008 r14=8bcd
e1df00b8 0 : 8bcd : load 2 1010, done 1004 r0=8bcd
e11f00b2 0 r2=8 : b2 : load 2 1000, done 1004 r0=b2
e1c110b4 0 r1=2000 : : store 2 2004 2000, done 1004
e18100b1 0 r0=89abcdef r1=2000 : : store 2 4000 cdef, done 1004
e1a120b2 0 r1=2000 r2=304 : : store 2 2304 304, done 1004 r1=2304
e00120b2 0 r1=2000 r2=304 : : store 2 2000 304, done 1004 r1=1cfc
e0cde0b8 0 r13=8000 : : store 2 8000 e, done 1004 r13=8008
e1cf00b8 0 r0=89abcdef : : store 2 1010 cdef, done 1004
e10f00b2 0 r0=89abcdef r2=8 : : readonly 1000
e1d110d4 0 r1=2000 : 8d : load 1 2004, done 1004 r1=ffffff8d
e19100d1 0 r1=2000 : 8d : load 1 4000, done 1004 r0=ffffff8d
e1b120d2 0 r1=2000 r2=304 : 8d : load 1 2304, done 1004 r1=2304 r2=ffffff8d
e01120d2 0 r1=2000 r2=304 : 8d : load 1 2000, done 1004 r1=1cfc r2=ffffff8d
e0dde0d8 0 r13=8000 : 8d : load 1 8000, done 1004 r13=8008 r14=ffffff8d
e1df00d8 0 : 8d : load 1 1010, done 1004 r0=ffffff8d
e11f00d2 0 r2=8 : d2 : load 1 1000, done 1004 r0=ffffffd2
e1d110f4 0 r1=2000 : 8bcd : load 2 2004, done 1004 r1=ffff8bcd
e19100f1 0 r1=2000 : 8bcd : load 2 4000, done 1004 r0=ffff8bcd
e1b120f2 0 r1=2000 r2=304 : 8bcd : load 2 2304, done 1004 r1=2304 r2=ffff8bcd
e01120f2 0 r1=2000 r2=304 : 8bcd : load 2 2000, done 1004 r1=1cfc r2=ffff8bcd
e0dde0f8 0 r13=8000 : 8bcd : load 2 8000, done 1004 r13=8008 r14=ffff8bcd
e1df00f8 0 : 8bcd : load 2 1010, done 1004 r0=ffff8bcd
e11f00f2 0 r2=8 : f2 : load 2 1000, done 1004 r0=f2
; The PC stored and loaded
e581f004 0 r1=2000 : : store 4 2004 1008, done 1004
e591f004 9 r1=2000 : 3000 : load 4 2004, done 3000
e591f004 9 r1=2000 : fffffffc : load 4 2004, done fffffffc
e591f004 9 r1=2000 : 3001 : load 4 2004, thumb 1000
e591f004 9 r1=2000 : 3003 : load 4 2004, thumb 1000
e591f004 9 r1=2000 : 3002 : load 4 2004, unpredictable 1000
e5a1f004 0 r1=2000 : : store 4 2004 1008, done 1004 r1=2004
e5b1f004 9 r1=2000 : 3000 : load 4 2004, done 3000 r1=2004
e5b1f004 9 r1=2000 : fffffffc : load 4 2004, done fffffffc r1=2004
e5b1f004 9 r1=2000 : 3001 : load 4 2004, thumb 1000
e5b1f004 9 r1=2000 : 3003 : load 4 2004, thumb 1000
e5b1f004 9 r1=2000 : 3002 : load 4 2004, unpredictable 1000
e481f004 0 r1=2000 : : store 4 2000 1008, done 1004 r1=2004
e491f004 9 r1=2000 : 3000 : load 4 2000, done 3000 r1=2004
e491f004 9 r1=2000 : fffffffc : load 4 2000, done fffffffc r1=2004
e491f004 9 r1=2000 : 3001 : load 4 2000, thumb 1000
e491f004 9 r1=2000 : 3003 : load 4 2000, thumb 1000
e491f004 9 r1=2000 : 3002 : load 4 2000, unpredictable 1000
; Under conditions
15b10004 4 r1=2000 : : done 1004
05b10004 4 r1=2000 : 89abcdef : load 4 2004, done 1004 r0=89abcdef r1=2004
34910004 2 r1=ffffffff : : done 1004
15a10004 4 r0=89abcdef r1=2000 : : done 1004
05a10004 4 r0=89abcdef r1=2000 : : store 4 2004 89abcdef, done 1004 r1=2004
34810004 2 r0=89abcdef r1=ffffffff : : done 1004
15f10004 4 r1=2000 : : done 1004
05f10004 4 r1=2000 : 8d : load 1 2004, done 1004 r0=8d r1=2004
34d10004 2 r1=ffffffff : : done 1004
15e10004 4 r0=89abcdef r1=2000 : : done 1004
05e10004 4 r0=89abcdef r1=2000 : : store 1 2004 ef, done 1004 r1=2004
34c10004 2 r0=89abcdef r1=ffffffff : : done 1004
11f100b4 4 r1=2000 : : done 1004
01f100b4 4 r1=2000 : 8bcd : load 2 2004, done 1004 r0=8bcd r1=2004
30d100b4 2 r1=ffffffff : : done 1004
11e100b4 4 r0=89abcdef r1=2000 : : done 1004
01e100b4 4 r0=89abcdef r1=2000 : : store 2 2004 cdef, done 1004 r1=2004
30c100b4 2 r0=89abcdef r1=ffffffff : : done 1004
11f100d4 4 r1=2000 : : done 1004
01f100d4 4 r1=2000 : 8d : load 1 2004, done 1004 r0=ffffff8d r1=2004
30d100d4 2 r1=ffffffff : : done 1004
11f100f4 4 r1=2000 : : done 1004
01f100f4 4 r1=2000 : 8bcd : load 2 2004, done 1004 r0=ffff8bcd r1=2004
30d100f4 2 r1=ffffffff : : done 1004
";

#[test]
fn accesses_at_edges(rt: HostRuntime) -> Result<(), Fail> {
    check(&rt, rt.alloc(), EDGES)
}
