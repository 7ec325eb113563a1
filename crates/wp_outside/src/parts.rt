//! Texts that are printed one after the other.
ghost use Rattle.std.specs.Prelude.{◌≡◌, ℕ, ◌<◌, List, IfOk};
ghost use Rattle.wp_outside.specs.Sections.{GrowsBy};

use std::alloc::Global;
use wp_model::Memory;

/// Texts that are printed one after the other, numbered from 0.
pub trait Parts {
    /// How many there are.
    ghost count: { Self → ℕ };

    /// What the text of the part with a number may be.
    ghost says: { Self → ℕ → List ℕ → Type 0 };

    /// What has to be known before a part is printed.
    ghost can_print: { Self → Type 0 };

    /// How many there are.
    fn count(&self) -> usize
        ensures { result ≡ count self.now };

    /// Adds the text of the part with a number. After an `Err`, which comes from a want of memory alone, the text may
    /// have some of it.
    fn print(&self, alloc: Global, number: usize, text: &mut Vec<u8>) -> Result<(), Memory>
        requires ready { can_print self.now }
        requires within { number < count self.now }
        ensures { IfOk result (λ _. GrowsBy (says self.now number) text.old.items text.new.items) };
}

/// A section of an output: a first line, or nothing; its parts; and a last line, or nothing.
#[derive(Drop)]
pub struct Section<'a, P> {
    pub heading: &'a [u8],
    pub parts: &'a P,
    pub ending: &'a [u8],
}
