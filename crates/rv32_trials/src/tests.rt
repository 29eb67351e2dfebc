//! Words, their instructions, what a core does with those, and the threads of a guest beside each other.
mod carried;
mod computing;
mod crews;
mod decoder;
mod fixed_bits;
mod guests;
mod memory;
mod programs;
