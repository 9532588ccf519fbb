// Which locks may be asked for beside which.
ghost use Rattle.std.specs.Prelude.{◌≡◌, Bool, false};
ghost use Rattle.scheduler.specs.declared.lock.Kind.{Kind};
ghost use Rattle.scheduler.specs.declared.lock.Kind.TheVariants.{Read, Write};
ghost use Rattle.scheduler.specs.Rules.{writers_pass_readers, deferred_updates, rigorous};
ghost use Rattle.std.proofs.Common.{rules};

use crate::lock::Kind;

/// A lock rule: four yeses or noes, by the two kinds alone.
pub trait LockRule {
    ghost allows: { Self → Kind → Kind → Bool };

    /// Whether `asked` may be asked for beside another transaction's lock of the kind `held`.
    fn allows(&self, asked: Kind, held: Kind) -> bool
        ensures { result ≡ allows self.now asked held };

    // A read beside a write is no.
    ghost apart: { (rule : Self) → allows rule Read Write ≡ false };
}

/// A write does not wait for readers; writers exclude each other.
#[derive(Clone, Copy, PartialEq, Eq, Debug)]
pub struct WritersPassReaders;

/// A write waits for nobody: for stores that keep pending writes apart until the commit.
#[derive(Clone, Copy, PartialEq, Eq, Debug)]
pub struct DeferredUpdates;

/// A write waits for readers and for writers.
#[derive(Clone, Copy, PartialEq, Eq, Debug)]
pub struct Rigorous;

// Each rule is a table of its own: they differ in their answers, and in no type or constant.

impl LockRule for WritersPassReaders {
    ghost allows = { λ _. writers_pass_readers };

    ghost apart = { Prim.search rules };

    fn allows(&self, asked: Kind, held: Kind) -> bool {
        match (asked, held) {
            (Kind::Read, Kind::Read) | (Kind::Write, Kind::Read) => true,
            (Kind::Read, Kind::Write) | (Kind::Write, Kind::Write) => false,
        }
    }
}

impl LockRule for DeferredUpdates {
    ghost allows = { λ _. deferred_updates };

    ghost apart = { Prim.search rules };

    fn allows(&self, asked: Kind, held: Kind) -> bool {
        match (asked, held) {
            (Kind::Read, Kind::Read) | (Kind::Write, Kind::Read) | (Kind::Write, Kind::Write) =>
                true,
            (Kind::Read, Kind::Write) => false,
        }
    }
}

impl LockRule for Rigorous {
    ghost allows = { λ _. rigorous };

    ghost apart = { Prim.search rules };

    fn allows(&self, asked: Kind, held: Kind) -> bool {
        match (asked, held) {
            (Kind::Read, Kind::Read) => true,
            (Kind::Read, Kind::Write) | (Kind::Write, Kind::Read) | (Kind::Write, Kind::Write) =>
                false,
        }
    }
}
