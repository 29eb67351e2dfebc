//! How often the threads of the counter guest name a counter.
ghost use Rattle.std.specs.Prelude.{◌≡◌, ◌<◌, ◌≤◌};
ghost use Rattle.guest_gen.specs.Counters.{AreInRange};
ghost use Rattle.guest_gen.specs.Namings.{drawn_after, first_draw, namings_in, namings_of, one_at};

/// The number that a thread begins its draws with.
fn first_draw(seed: u64, thread: u32) -> u32
    requires { thread < 16 }
    ensures { result ≡ first_draw seed thread }
{
    ((seed % (1 << 32) + u64::from(thread)) % (1 << 32)) as u32
}

/// The next number of the generator.
fn drawn_after(x: u32) -> u32
    ensures { result ≡ drawn_after x }
{
    ((1_664_525 * u64::from(x) + 1_013_904_223) % (1 << 32)) as u32
}

/// One where a counter is the one that was named.
fn one_at(index: u32, named: u32) -> u32
    ensures value { result ≡ one_at index named }
    ensures few { result ≤ 1 }
{
    if named == index { 1 } else { 0 }
}

/// How often a thread names a counter in so many rounds behind a draw.
#[tactic(auto, using(crate::proofs::Loops::namings_more, crate::proofs::Loops::namings_none))]
fn namings_in(first: u32, rounds: u32, index: u32) -> u32
    requires { rounds ≤ 50000 }
    ensures value { result ≡ namings_in first rounds index }
    ensures few { result ≤ rounds }
{
    let mut x = first;
    let mut count = 0;
    for round in 0..rounds {
        x = drawn_after(x);
        count += one_at(index, x / (1 << 28));
    }
    count
}

/// How often the threads of the counter guest name a counter, each in so many rounds: 1 to 16 threads, 1 to 50,000 rounds, and
/// one of the counters 0 to 15. Of the seed the low 32 bits count.
#[tactic(auto, using(crate::proofs::Loops::threads_more, crate::proofs::Loops::threads_none))]
pub fn named(seed: u64, threads: u32, rounds: u32, index: u32) -> u32
    requires range { AreInRange threads rounds }
    requires known { index < 16 }
    ensures { result ≡ namings_of seed threads rounds index }
{
    let mut count = 0;
    for thread in 0..threads {
        count += namings_in(first_draw(seed, thread), rounds, index);
    }
    count
}
