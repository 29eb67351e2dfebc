//! The memory by versions for emulators that are written in C or C++: a static library.
//!
//! C has a struct of 16 bytes (`threads`), all zeros at first, which is no thread. `llsc_open` makes a memory, and the struct holds
//! all of its threads then. `llsc_split` splits the last of them off into a struct of its own, until each host thread has those
//! that it runs. A struct of one thread makes its accesses by the calls of `plain` and `exclusive`, none of which waits for another
//! thread. In the end `llsc_join` takes in what was split off, and `llsc_close` gives the bytes that all threads have left; or
//! `llsc_end` ends a struct's threads wherever they are.
//!
//! Each call answers by a number of `answers`, and says when by which (`specs/Answers`). What it has done to the handle that a
//! struct holds is told by `specs/Threads`, in the words of `memory_handle`. A call that is refused has changed nothing, but that a
//! thread may have seen more of the history where its store was not done.
//!
//! The pointer that C has is `held`'s, and three functions there are proved by hand; what is owned behind it stands in
//! `specs/inner/Holds`. No export has a proof that knows of it.
#![tactic(auto)]

mod answers;
mod exclusive;
mod held;
pub mod laws;
mod opening;
mod parts;
mod plain;
pub mod sequences;
mod threads;
