//! Certificates and steps are counted.
ghost use Rattle.std.specs.Prelude.{◌≡◌, ◌+◌, ◌<◌, ◌^◌};
ghost use Rattle.circ_check.specs.Checking.{no_tally, with_one, with_failure, counted};

/// How many certificates and steps there were, and the first that failed.
#[derive(Clone, Copy)]
pub(crate) struct Tally {
    pub(crate) count: u64,
    pub(crate) failed: Option<u64>,
}

impl Tally {
    pub(crate) fn new() -> Tally
        ensures { result ≡ no_tally }
    {
        Tally {
            count: 0,
            failed: None,
        }
    }

    /// With one more, which holds or comes after a failure.
    pub(crate) fn with_one(self) -> Tally
        requires { self.count + 1 < 2 ^ 64 }
        ensures { result ≡ with_one self }
    {
        Tally {
            count: self.count + 1,
            failed: self.failed,
        }
    }

    /// With one more, which fails.
    pub(crate) fn with_failure(self) -> Tally
        requires { self.count + 1 < 2 ^ 64 }
        ensures { result ≡ with_failure self }
    {
        let count = self.count + 1;
        Tally {
            count,
            failed: self.failed.or(Some(count)),
        }
    }

    /// With one more, which holds or fails.
    pub(crate) fn counted(self, holds: bool) -> Tally
        requires { self.count + 1 < 2 ^ 64 }
        ensures { result ≡ counted holds self }
    {
        if holds {
            self.with_one()
        } else {
            self.with_failure()
        }
    }
}
