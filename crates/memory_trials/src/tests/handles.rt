//! What a handle answers: each call where nothing stands against it, and each refusal.
ghost use Rattle.std.specs.Prelude.{◌≡◌, IfOk, vec_len};
ghost use Rattle.std.specs.Arc.{arc_value};
ghost use Rattle.memory_handle.specs.Handles.{AreAlike, handle_origin};

use super::same;
use super::tried::{MANY, Shape, USUAL, machine};
use memory_handle::{Handle, Misuse};
use std::alloc::Global;
use std::test::Fail;
use std::thread::{Threads, join};

/// Where all accesses go that may be made.
const AT: u64 = 0x2000;

/// So often each thread tries to count.
const TRIES: u32 = 10_000;

/// A memory of zeros, and all of its threads.
fn opened(alloc: Global, threads: u64, shape: Shape) -> Result<Handle, Fail>
    ensures { IfOk result (λ handle. (handle_origin handle).size.mem ≡ 65536) }
{
    let size = machine(threads, shape)?;
    let bytes = vec![in alloc; 0; 65_536]?;
    Ok(Handle::open(alloc, bytes.as_slice(), &size)?)
}

/// The two threads of a memory of zeros.
fn two(alloc: Global) -> Result<(Handle, Handle), Fail>
    ensures mem { IfOk result (λ both. (handle_origin both.0).size.mem ≡ 65536) }
    ensures memory { IfOk result (λ both. arc_value both.1.memory ≡ arc_value both.0.memory) }
{
    let mut one = opened(alloc, 2, USUAL)?;
    let other = one.split()?;
    Ok((one, other))
}

/// The bytes that two threads leave, of which one comes behind the other.
fn left_by(alloc: Global, mut one: Handle, other: Handle) -> Result<Vec<u8>, Fail>
    requires mem { (handle_origin one).size.mem ≡ 65536 }
    requires memory { arc_value other.memory ≡ arc_value one.memory }
    ensures { IfOk result (λ bytes. vec_len bytes ≡ 65536) }
{
    let mut bytes = vec![in alloc; 0; 65_536]?;
    if !one.is_next(&other) {
        return Err(Fail::from("is next"));
    }
    one.join(other);
    if !one.has_all() {
        return Err(Fail::from("has all"));
    }
    one.close(bytes.as_mut_slice());
    Ok(bytes)
}

#[test]
fn one_thread_makes_each_access(rt: HostRuntime) -> Result<(), Fail> {
    let mut handle = opened(rt.alloc(), 1, USUAL)?;
    same(&rt, (handle.mem(), handle.has_all()), (65_536, true));
    handle.store(AT, 4, 0x0403_0201)?;
    let bytes = [
        handle.load(AT, 1)?,
        handle.load(AT + 3, 1)?,
        handle.load(AT, 8)?,
    ];
    same(&rt, bytes, [1, 4, 0x0403_0201]);
    same(&rt, handle.load_ex(AT, 2)?, (0x0201, true));
    same(&rt, handle.store_ex(AT, 2, 7)?, true);
    same(&rt, handle.store_ex(AT, 2, 8)?, false);
    same(&rt, handle.load_ex(AT, 2)?, (7, true));
    handle.clear_ex()?;
    same(&rt, handle.store_ex(AT, 2, 8)?, false);
    Ok(())
}

#[test]
fn threads_are_split_and_joined(rt: HostRuntime) -> Result<(), Fail> {
    let (mut one, mut other) = two(rt.alloc())?;
    same(
        &rt,
        [
            one.is_next(&other),
            other.is_next(&one),
            one.has_all(),
            other.has_all(),
        ],
        [true, false, false, false],
    );
    one.store(AT, 2, 0x0201)?;
    same(&rt, other.load(AT, 2)?, 0x0201);
    other.store(65_535, 1, 9)?;
    let bytes = left_by(rt.alloc(), one, other)?;
    let bytes = bytes.as_slice();
    same(
        &rt,
        [bytes[0], bytes[0x2000], bytes[0x2001], bytes[65_535]],
        [0, 1, 2, 9],
    );
    Ok(())
}

/// What a load, a load-exclusive, a store and a store-exclusive are answered, where they are refused.
fn refusals(handle: &mut Handle, addr: u64, width: u32, value: u64) -> [Option<Misuse>; 4] {
    [
        handle.load(addr, width).err(),
        handle.load_ex(addr, width).err(),
        handle.store(addr, width, value).err(),
        handle.store_ex(addr, width, value).err(),
    ]
}

#[test]
fn each_refusal_has_its_misuse(rt: HostRuntime) -> Result<(), Fail> {
    let mut handle = opened(rt.alloc(), 1, USUAL)?;
    for (addr, width, wanted) in [
        (AT, 0, Misuse::Width),
        (AT, 3, Misuse::Width),
        (AT, 16, Misuse::Width),
        (AT + 1, 2, Misuse::Alignment),
        (AT + 2, 4, Misuse::Alignment),
        (AT + 4, 8, Misuse::Alignment),
        (65_536, 1, Misuse::Outside),
        (65_535, 2, Misuse::Outside),
        (1 << 32, 4, Misuse::Outside),
        (u64::MAX, 8, Misuse::Outside),
    ] {
        same(
            &rt,
            refusals(&mut handle, addr, width, 0),
            [Some(wanted); 4],
        );
    }
    for (width, value) in [(1, 1 << 8), (2, 1 << 16), (4, 1 << 32)] {
        let value_alone = [None, None, Some(Misuse::Value), Some(Misuse::Value)];
        same(&rt, refusals(&mut handle, AT, width, value), value_alone);
        same(&rt, handle.store(AT, width, value - 1).err(), None);
    }
    same(&rt, handle.split().err(), Some(Misuse::One));
    Ok(())
}

#[test]
fn several_threads_make_no_access(rt: HostRuntime) -> Result<(), Fail> {
    let mut all = opened(rt.alloc(), 3, USUAL)?;
    let several = Some(Misuse::Several);
    same(&rt, refusals(&mut all, 1, 3, MANY), [several; 4]);
    same(&rt, all.clear_ex().err(), several);
    let last = all.split()?;
    if all.is_next(&last) {
        all.join(last);
    }
    same(&rt, all.split().err(), Some(Misuse::Used));
    Ok(())
}

#[test]
fn a_spent_class_takes_no_store(rt: HostRuntime) -> Result<(), Fail> {
    let shape = Shape {
        classes: 1,
        limit: 1,
        granule: 0,
    };
    let mut handle = opened(rt.alloc(), 1, shape)?;
    same(&rt, handle.store(AT, 8, 5).err(), None);
    same(&rt, handle.store(AT + 8, 8, 6).err(), Some(Misuse::Spent));
    same(&rt, handle.load_ex(AT, 8)?, (5, true));
    same(&rt, handle.store_ex(AT, 8, 6)?, false);
    Ok(())
}

/// One try to add 1 to the counter, and whether it came about.
fn try_count(handle: &mut Handle) -> Result<bool, Misuse>
    ensures { AreAlike handle.old handle.new }
{
    let (value, _reserved) = handle.load_ex(AT, 8)?;
    handle.store_ex(AT, 8, value.wrapping_add(1))
}

/// Tries so often to count, and how often it came about.
fn count(mut handle: Handle) -> (u64, Handle)
    ensures { AreAlike handle result.1 }
{
    let mut count = 0u64;
    for _ in 0..TRIES {
        if try_count(&mut handle) == Ok(true) {
            count = count.wrapping_add(1);
        }
    }
    (count, handle)
}

/// Two threads count beside each other: how often that came about, and the handles again.
fn count_both<R: Threads + Sync>(rt: &R, one: Handle, other: Handle) -> (u64, Handle, Handle)
    ensures { AreAlike one result.1 × AreAlike other result.2 }
{
    let ((count_of_one, one), (count_of_other, other)) = join(
        rt,
        move || -> (u64, Handle)
            ensures { AreAlike one result.1 }
        { count(one) },
        move || -> (u64, Handle)
            ensures { AreAlike other result.1 }
        { count(other) },
    );
    (count_of_one.wrapping_add(count_of_other), one, other)
}

#[test]
fn threads_count_beside_each_other(rt: HostRuntime) -> Result<(), Fail> {
    let (one, other) = two(rt.alloc())?;
    let (count, one, other) = count_both(&rt, one, other);
    let bytes = left_by(rt.alloc(), one, other)?;
    let counter = &bytes.as_slice()[0x2000..0x2008];
    let mut left = [0; 8];
    left.copy_from_slice(counter);
    same(&rt, u64::from_le_bytes(left), count);
    Ok(())
}
