//! What each step tells its caller.
use crate::hands::HstView;
use atomic_table::Play;
use shared_memory::Asks;
use std::marker::PhantomData;

/// A store comes into the shared section.
pub struct Enter<J> {
    of: PhantomData<J>,
}

impl<J: Asks> Play<(), HstView> for Enter<J> {
    ghost use Rattle.hst_memory.specs.inner.Told.{entered};

    ghost then = { entered J.ask };
}

/// It begins: its name goes into the tag of its class.
pub struct Tag<J> {
    of: PhantomData<J>,
}

impl<J: Asks> Play<(), HstView> for Tag<J> {
    ghost use Rattle.hst_memory.specs.inner.Told.{tagged};

    ghost then = { tagged J.ask };
}

/// It changes the cell.
pub struct Change<J> {
    of: PhantomData<J>,
}

impl<J: Asks> Play<(), HstView> for Change<J> {
    ghost use Rattle.hst_memory.specs.inner.Told.{changed};

    ghost then = { changed J.ask };
}

/// It leaves the section.
pub struct Leave<J> {
    of: PhantomData<J>,
}

impl<J: Asks> Play<(), HstView> for Leave<J> {
    ghost use Rattle.hst_memory.specs.inner.Told.{left_shared};

    ghost then = { left_shared J.ask };
}

/// A thread comes in alone.
pub struct EnterAlone<J> {
    of: PhantomData<J>,
}

impl<J: Asks> Play<(), HstView> for EnterAlone<J> {
    ghost use Rattle.hst_memory.specs.inner.Told.{entered_alone};

    ghost then = { entered_alone J.ask };
}

/// Its load-exclusive begins: its name goes into the tag of the class.
pub struct Watch<J> {
    of: PhantomData<J>,
}

impl<J: Asks> Play<(), HstView> for Watch<J> {
    ghost use Rattle.hst_memory.specs.inner.Told.{watched};

    ghost then = { watched J.ask };
}

/// And loads the cell.
pub struct ReadEx<J> {
    of: PhantomData<J>,
}

impl<J: Asks> Play<(), HstView> for ReadEx<J> {
    ghost use Rattle.hst_memory.specs.inner.Told.{read_ex};

    ghost then = { read_ex J.ask };
}

/// It leaves.
pub struct LeaveAlone<J> {
    of: PhantomData<J>,
}

impl<J: Asks> Play<(), HstView> for LeaveAlone<J> {
    ghost use Rattle.hst_memory.specs.inner.Told.{left_alone};

    ghost then = { left_alone J.ask };
}

/// Its store-exclusive is decided by the tag.
pub struct Test<J> {
    of: PhantomData<J>,
}

impl<J: Asks> Play<(), HstView> for Test<J> {
    ghost use Rattle.hst_memory.specs.inner.Told.{tested};

    ghost then = { tested J.ask };
}

/// It changes the cell.
pub struct ChangeAlone<J> {
    of: PhantomData<J>,
}

impl<J: Asks> Play<(), HstView> for ChangeAlone<J> {
    ghost use Rattle.hst_memory.specs.inner.Told.{changed_alone};

    ghost then = { changed_alone J.ask };
}

/// And leaves.
pub struct LeaveWritten<J> {
    of: PhantomData<J>,
}

impl<J: Asks> Play<(), HstView> for LeaveWritten<J> {
    ghost use Rattle.hst_memory.specs.inner.Told.{left_written};

    ghost then = { left_written J.ask };
}

/// A store-exclusive fails for want of a reservation.
pub struct Absent<J> {
    of: PhantomData<J>,
}

impl<J: Asks> Play<(), HstView> for Absent<J> {
    ghost use Rattle.hst_memory.specs.inner.Told.{absent};

    ghost then = { absent J.ask };
}

/// CLREX.
pub struct Clear<J> {
    of: PhantomData<J>,
}

impl<J: Asks> Play<(), HstView> for Clear<J> {
    ghost use Rattle.hst_memory.specs.inner.Told.{cleared};

    ghost then = { cleared J.ask };
}
