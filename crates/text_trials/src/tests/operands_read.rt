//! Operands that are read by forms.
use a32_forms::{Chosen, chosen};
use a32_instr::Reg;

/// Whether what was chosen is this form with these numbers and this name.
fn is_chosen(found: Option<Chosen<'_>>, form: usize, numbers: &[u64], name: &[u8]) -> bool {
    let Some(found) = found else {
        return false;
    };
    for (at, number) in numbers.iter().enumerate() {
        if found.number(at) != *number {
            return false;
        }
    }
    found.form() == form && found.number(numbers.len()) == 0 && found.name() == name
}

/// An address, as loads and stores have it.
fn address(text: &[u8]) -> Option<Chosen<'_>> {
    chosen(b"r, [r]|r, [r, #~n]!|r, [r], #~n", text)
}

/// A base and a list of registers.
fn block(text: &[u8]) -> Option<Chosen<'_>> {
    chosen(b"r!, {b}", text)
}

/// A register and a number, or half of a label's address.
fn half(text: &[u8]) -> Option<Chosen<'_>> {
    chosen(b"r, #n|r, #L(l)|r, #H(l)|r, k #n|r, X", text)
}

/// The base of an address: a register without a test, since each number of a form is within what its sign may take.
fn base_of(text: &[u8]) -> Option<Reg> {
    let found = chosen(b"r, [r]|r, [r, #~n]!|k, n", text)?;
    if found.form() == 2 {
        return None;
    }
    if found.form() == 1 {
        return Some(Reg::new(found.number(1) as u8));
    }
    Some(Reg::new(found.number(0) as u8))
}

/// Addresses with the form that is chosen and the numbers in it.
const ADDRESSES: [(&str, usize, &[u64]); 5] = [
    ("r0,[r15]", 0, &[0, 15]),
    ("r1, [sp ,#-0x1F] !", 1, &[1, 13, 1, 31, 1]),
    ("\tr1 , [ lr ] , # 007", 2, &[1, 14, 0, 7]),
    ("r2, [pc, #4294967296]", 1, &[2, 15, 0, 0x1_0000_0000, 0]),
    (
        "r2, [pc, #0x99999999999999999999]",
        1,
        &[2, 15, 0, 0x1_0000_0000, 0],
    ),
];

/// Texts that are no addresses.
const NO_ADDRESSES: [&str; 5] = [
    "r1, [r2, #0X1]",
    "r1, [r2, #1f]",
    "r1, [r2], r3",
    "r1, [r2] r3",
    "R1, [r2]",
];

#[test]
fn reads_addresses(rt: HostRuntime) {
    for &(text, form, numbers) in &ADDRESSES {
        assert!(rt;
            is_chosen(address(text.as_bytes()), form, numbers, b""),
            "{text}"
        );
    }
    for text in &NO_ADDRESSES {
        assert!(rt; address(text.as_bytes()).is_none(), "{text}");
    }
    assert!(rt; base_of(b"r1, [r2]").is_some());
}

/// Bases and lists with the numbers of their form.
const LISTS: [(&str, &[u64]); 3] = [
    ("sp!, {r0, r2-r4, lr}", &[13, 1, 0x401d]),
    ("r1,{r1}", &[1, 0, 2]),
    ("r1,{ r0 - pc }", &[1, 0, 0xffff]),
];

/// Texts that are no bases and lists.
const NO_LISTS: [&str; 6] = [
    "r1, {r4-r3}",
    "r1, {r3, r3}",
    "r1, {r2-r4, r4}",
    "r1, {}",
    "r1, {r2,}",
    "r1, {r2",
];

#[test]
fn reads_lists(rt: HostRuntime) {
    for &(text, numbers) in &LISTS {
        assert!(rt;
            is_chosen(block(text.as_bytes()), 0, numbers, b""),
            "{text}"
        );
    }
    for text in &NO_LISTS {
        assert!(rt; block(text.as_bytes()).is_none(), "{text}");
    }
}

/// Halves with the form that is chosen, the numbers in it and the label.
const HALVES: [(&str, usize, &[u64], &[u8]); 4] = [
    ("r3, #lo(far_away)", 1, &[3], b"far_away"),
    ("r3, # hi ( _x1 )", 2, &[3], b"_x1"),
    ("r3, ror #31", 3, &[3, 3, 31], b""),
    ("r3, rrx", 4, &[3], b""),
];

/// Texts that are no halves.
const NO_HALVES: [&str; 2] = ["r3, #lo(1x)", ""];

#[test]
fn reads_halves(rt: HostRuntime) {
    for &(text, form, numbers, name) in &HALVES {
        assert!(rt;
            is_chosen(half(text.as_bytes()), form, numbers, name),
            "{text}"
        );
    }
    for text in &NO_HALVES {
        assert!(rt; half(text.as_bytes()).is_none(), "{text}");
    }
}
