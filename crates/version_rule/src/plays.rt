//! What each step tells its caller.
use crate::hands::VersionView;
use atomic_table::Play;
use shared_memory::Asks;
use std::marker::{Brand, PhantomData};

/// Which thread a call starts: a call picks it, and the step that it makes speaks of it.
pub trait Births {
    ghost use Rattle.version_rule.specs.Told.{Birth};

    ghost birth: { Birth };
}

impl Births for Brand {
    ghost use Rattle.version_rule.specs.inner.Told.{no_birth};

    ghost birth = { no_birth };
}

/// A load of a tag, which is no access.
pub struct LookAtTag<J> {
    of: PhantomData<J>,
}

impl<J: Asks> Play<(), VersionView> for LookAtTag<J> {
    ghost use Rattle.version_rule.specs.Told.{tag_found};

    ghost then = { tag_found J.ask };
}

/// A store begins: it claims its class.
pub struct Claim<J> {
    of: PhantomData<J>,
}

impl<J: Asks> Play<(), VersionView> for Claim<J> {
    ghost use Rattle.version_rule.specs.Told.{claimed};

    ghost then = { claimed J.ask };
}

/// A write that holds its class loads the cell.
pub struct Take<J> {
    of: PhantomData<J>,
}

impl<J: Asks> Play<(), VersionView> for Take<J> {
    ghost use Rattle.version_rule.specs.Told.{taken};

    ghost then = { taken J.ask };
}

/// It stores the changed cell.
pub struct Change<J> {
    of: PhantomData<J>,
}

impl<J: Asks> Play<(), VersionView> for Change<J> {
    ghost use Rattle.version_rule.specs.Told.{changed};

    ghost then = { changed J.ask };
}

/// It gives the class back.
pub struct Release<J> {
    of: PhantomData<J>,
}

impl<J: Asks> Play<(), VersionView> for Release<J> {
    ghost use Rattle.version_rule.specs.Told.{released};

    ghost then = { released J.ask };
}

/// A load-exclusive begins.
pub struct Watch<J> {
    of: PhantomData<J>,
}

impl<J: Asks> Play<(), VersionView> for Watch<J> {
    ghost use Rattle.version_rule.specs.Told.{watched};

    ghost then = { watched J.ask };
}

/// The same, where it waits rather than to begin without a reservation.
pub struct TryWatch<J> {
    of: PhantomData<J>,
}

impl<J: Asks> Play<(), VersionView> for TryWatch<J> {
    ghost use Rattle.version_rule.specs.Told.{watched_or_not};

    ghost then = { watched_or_not J.ask };
}

/// It loads the cell.
pub struct ReadEx<J> {
    of: PhantomData<J>,
}

impl<J: Asks> Play<(), VersionView> for ReadEx<J> {
    ghost use Rattle.version_rule.specs.Told.{read_ex};

    ghost then = { read_ex J.ask };
}

/// A store-exclusive is decided: it claims its class, or fails.
pub struct ClaimEx<J> {
    of: PhantomData<J>,
}

impl<J: Asks> Play<(), VersionView> for ClaimEx<J> {
    ghost use Rattle.version_rule.specs.Told.{claimed_ex};

    ghost then = { claimed_ex J.ask };
}

/// A store-exclusive fails for want of a reservation.
pub struct Absent<J> {
    of: PhantomData<J>,
}

impl<J: Asks> Play<(), VersionView> for Absent<J> {
    ghost use Rattle.version_rule.specs.Told.{absent};

    ghost then = { absent J.ask };
}

/// A store-exclusive fails since its class has had all of its writes.
pub struct Limited<J> {
    of: PhantomData<J>,
}

impl<J: Asks> Play<(), VersionView> for Limited<J> {
    ghost use Rattle.version_rule.specs.Told.{limited};

    ghost then = { limited J.ask };
}

/// CLREX.
pub struct Clear<J> {
    of: PhantomData<J>,
}

impl<J: Asks> Play<(), VersionView> for Clear<J> {
    ghost use Rattle.version_rule.specs.Told.{cleared};

    ghost then = { cleared J.ask };
}

/// A stamped load finds a version.
pub struct FirstLook<J> {
    of: PhantomData<J>,
}

impl<J: Asks> Play<(), VersionView> for FirstLook<J> {
    ghost use Rattle.version_rule.specs.Told.{first_found};

    ghost then = { first_found J.ask };
}

/// It loads the cell.
pub struct SecondLook<J> {
    of: PhantomData<J>,
}

impl<J: Asks> Play<(), VersionView> for SecondLook<J> {
    ghost use Rattle.version_rule.specs.Told.{second_found};

    ghost then = { second_found J.ask };
}

/// It is over where it finds the version again.
pub struct ThirdLook<J> {
    of: PhantomData<J>,
}

impl<J: Asks> Play<(), VersionView> for ThirdLook<J> {
    ghost use Rattle.version_rule.specs.Told.{third_found};

    ghost then = { third_found J.ask };
}

/// The same of a stamped load-exclusive.
pub struct ThirdLookEx<J> {
    of: PhantomData<J>,
}

impl<J: Asks> Play<(), VersionView> for ThirdLookEx<J> {
    ghost use Rattle.version_rule.specs.Told.{third_found_ex};

    ghost then = { third_found_ex J.ask };
}

/// A thread is started.
pub struct StartChild<J> {
    of: PhantomData<J>,
}

impl<J: Births> Play<(), VersionView> for StartChild<J> {
    ghost use Rattle.version_rule.specs.Told.{started};

    ghost then = { started J.birth };
}

/// A seat learns that its thread is one of the machine's.
pub struct Know<J> {
    of: PhantomData<J>,
}

impl<J: Asks> Play<(), VersionView> for Know<J> {
    ghost use Rattle.version_rule.specs.Told.{known_own};

    ghost then = { known_own J.ask };
}

/// A thread looks whether it was started.
pub struct LookAtStart<J> {
    of: PhantomData<J>,
}

impl<J: Asks> Play<(), VersionView> for LookAtStart<J> {
    ghost use Rattle.version_rule.specs.Told.{start_found};

    ghost then = { start_found J.ask };
}

/// A seat that holds every number looks at a cell as all threads have left it.
pub struct LookAtLeft<J> {
    of: PhantomData<J>,
}

impl<J: Asks> Play<(), VersionView> for LookAtLeft<J> {
    ghost use Rattle.version_rule.specs.Told.{left_found};

    ghost then = { left_found J.ask };
}
