ghost use Rattle.std.specs.Prelude.{◌≡◌, true, false};

use std::marker::Model;

/// Whether a write was answered with an error, and whether one was made after that.
#[derive(Drop)]
pub(crate) struct Errors {
    stopped: bool,
    late: bool,
}

impl Model for Errors {
    ghost use Rattle.wp_outside.specs.Devices.{WriteErrors};

    ghost Value = { WriteErrors };

    ghost view = { λ s. record { stopped = s.stopped; late = s.late } };
}

impl Errors {
    pub(crate) fn none() -> Errors
        ensures { result ≡ record { stopped = false; late = false } }
    {
        Errors {
            stopped: false,
            late: false,
        }
    }

    /// One more write, which was answered with an error or wasn't.
    pub(crate) fn note(&mut self, error: bool)
        ensures sound { error ≡ false → self.new.stopped ≡ self.old.stopped }
        ensures stopped { error ≡ true → self.new.stopped ≡ true }
        ensures early { self.old.stopped ≡ false → self.new.late ≡ self.old.late }
        ensures late { self.old.stopped ≡ true → self.new.late ≡ true }
    {
        if self.stopped {
            self.late = true;
        }
        if error {
            self.stopped = true;
        }
    }
}
