//! Which thread numbers a pass holds, as marks.
ghost use Rattle.std.specs.Prelude.{◌≡◌, ◌≢◌, ◌<◌, ◌≤◌, ℕ, length, nat_lt, slice_set, false, true};
ghost use Rattle.shared_memory.specs.Passes.{marked, one_mark};
ghost use Rattle.shared_memory.specs.Seen.{IsOneOf, joint};

/// For each number whether it is held.
pub type Marks = [bool; 16];

/// A number that is held, other than this one.
pub fn other_number(has: &Marks, t: u32) -> u32
    requires { (other : ℕ) × (other ≢ t) × IsOneOf other (marked has.now) }
    ensures one { IsOneOf result (marked has.now) }
    ensures other { result ≢ t }
{
    for u in 0..16u32 {
        if has[u as usize] && u != t {
            return u;
        }
    }
    unreachable!()
}

/// The marks of one number alone.
pub fn only_mark(t: u32) -> Marks
    requires { t < 16 }
    ensures { (u : ℕ) → marked result u ≡ marked (one_mark t) u }
{
    let mut has = [false; 16];
    has[t as usize] = true;
    has
}

/// The marks of both.
pub fn merge_marks(one: &Marks, other: &Marks) -> Marks
    ensures { (u : ℕ) → marked result u ≡ joint (marked one.now) (marked other.now) u }
{
    let mut has = *one;
    for t in 0..16usize {
        has[t] = has[t] || other[t];
    }
    has
}

/// The marks of the first numbers.
pub fn first_marks(threads: u32) -> Marks
    requires { threads ≤ 16 }
    ensures { (t : ℕ) → marked result t ≡ nat_lt t threads }
{
    let mut has = [false; 16];
    for t in 0..threads as usize {
        has[t] = true;
    }
    has
}
