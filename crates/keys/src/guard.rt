//! Lent key bytes that do not outlast their use.
ghost use Rattle.std.specs.Prelude.{◌≡◌, length, replicate};

/// Holds lent key bytes and zeroes them at its end, on every way out.
pub(crate) struct Zeroing<'a>(pub(crate) &'a mut [u8]);

impl Drop for Zeroing<'_> {
    fn drop(self)
        ensures { self.exit.0.now ≡ replicate (length self.entry.0.now) 0 }
    {
        self.0.fill(0);
        let Zeroing(_) = self;
    }
}
