//! The work area of a call: it is all zeros again at the end of the call, however it ends. Each call promises that of
//! its own slice.
ghost use Rattle.std.specs.Prelude.{◌≡◌, length, replicate};

// Holds the work area while a call works, and zeroes it when the call is over.
pub(crate) struct WorkArea<'a>(pub(crate) &'a mut [u16]);

impl Drop for WorkArea<'_> {
    fn drop(self)
        ensures { self.exit.0.now ≡ replicate (length self.entry.0.now) 0 }
    {
        self.0.fill(0);
        let WorkArea(_) = self;
    }
}
