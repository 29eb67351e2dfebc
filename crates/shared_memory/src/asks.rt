//! What a call is about, and what the steps that every memory makes tell their caller.
//!
//! A step of a memory is one atomic operation on its table. A type that is its [`Play`], as [`Load`], says in `then` what the
//! step tells its caller: how what the seat knows has moved on, by the number that the operation gave. That is about the call's
//! memory, place and value, which the operation isn't given: they are the `ask` of a type that is [`Asks`], a parameter of the
//! play and of each function on the way. A public call passes [`Brand`] for it, and its proof picks the `ask` of that: what the
//! call was given. No value of these types is made.
use crate::views::View;
use atomic_table::Play;
use std::marker::{Brand, PhantomData};

/// What a call is about: a call picks it, and the steps that it makes speak of it.
pub trait Asks {
    ghost use Rattle.shared_memory.specs.Told.{Ask};

    ghost ask: { Ask };
}

impl Asks for Brand {
    ghost use Rattle.shared_memory.specs.inner.Told.{no_ask};

    ghost ask = { no_ask };
}

/// A load of a cell, as a load of the place.
pub struct Load<J> {
    of: PhantomData<J>,
}

impl<D, J: Asks> Play<(), View<D>> for Load<J> {
    ghost use Rattle.shared_memory.specs.Told.{loaded};

    ghost then = { loaded J.ask };
}

/// A load that is no access.
pub struct Look<J> {
    of: PhantomData<J>,
}

impl<D, J: Asks> Play<(), View<D>> for Look<J> {
    ghost use Rattle.shared_memory.specs.Told.{looked_at};

    ghost then = { looked_at J.ask };
}

/// A load by which a seat learns that what it has seen is legal.
pub struct Vouch<J> {
    of: PhantomData<J>,
}

impl<D, J: Asks> Play<(), View<D>> for Vouch<J> {
    ghost use Rattle.shared_memory.specs.Told.{vouched_at};

    ghost then = { vouched_at J.ask };
}

/// A seat that has taken in another learns what it had seen.
pub struct Settle;

impl<D> Play<(), View<D>> for Settle {
    ghost use Rattle.shared_memory.specs.Told.{settled_at};

    ghost then = { settled_at };
}
