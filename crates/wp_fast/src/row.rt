ghost use Rattle.std.specs.Prelude.{◌≡◌, unwrap_or};
ghost use Rattle.wp_classes.specs.declared.class.Class.{Class as ClassData};
ghost use Rattle.wp_fast.specs.Rows.{is_greatest as is_greatest_of, length_at, length_for, length_to};

use wp_classes::Class;

/// The number that stands for no length.
pub(crate) const NO_LENGTH: u64 = u64::MAX;

/// For each class after a run of aisles, the least length to it from one class before the run. None where there is
/// none.
#[derive(Clone, Copy)]
pub(crate) struct LengthsAcross {
    pub(crate) uu1: Option<u64>,
    pub(crate) e01: Option<u64>,
    pub(crate) ze1: Option<u64>,
    pub(crate) ee1: Option<u64>,
    pub(crate) ee2: Option<u64>,
    pub(crate) z00: Option<u64>,
    pub(crate) z01: Option<u64>,
}

/// For each class, whether the greatest number is itself the length.
#[derive(Clone, Copy)]
struct Greatest {
    uu1: bool,
    e01: bool,
    ze1: bool,
    ee1: bool,
    ee2: bool,
    z00: bool,
    z01: bool,
}

/// The same lengths, each as one number, so that sums and least ones need no test. The greatest number stands for no
/// length, unless it is the length itself.
#[derive(Clone, Copy)]
pub(crate) struct LengthRow {
    uu1: u64,
    e01: u64,
    ze1: u64,
    ee1: u64,
    ee2: u64,
    z00: u64,
    z01: u64,
    greatest: Greatest,
}

// The number that stands for a length, or for none.
#[inline(always)]
fn number_of(length: Option<u64>) -> u64
    ensures { result ≡ unwrap_or length NO_LENGTH }
{
    length.unwrap_or(NO_LENGTH)
}

// Whether a length is the greatest number.
#[inline(always)]
fn is_greatest(length: Option<u64>) -> bool
    ensures { result ≡ is_greatest_of length }
{
    match length {
        Some(number) => number == NO_LENGTH,
        None => false,
    }
}

// The length that a number stands for. The greatest may be one itself.
fn length_of(number: u64, itself: bool) -> Option<u64>
    ensures { result ≡ length_for number itself }
{
    (number != NO_LENGTH || itself).then_some(number)
}

impl LengthRow {
    /// The row of these lengths.
    #[inline(always)]
    pub(crate) fn of(lengths: &LengthsAcross) -> LengthRow
        ensures { (after : ClassData) → length_to result after ≡ length_at lengths.now after }
    {
        LengthRow {
            uu1: number_of(lengths.uu1),
            e01: number_of(lengths.e01),
            ze1: number_of(lengths.ze1),
            ee1: number_of(lengths.ee1),
            ee2: number_of(lengths.ee2),
            z00: number_of(lengths.z00),
            z01: number_of(lengths.z01),
            greatest: Greatest {
                uu1: is_greatest(lengths.uu1),
                e01: is_greatest(lengths.e01),
                ze1: is_greatest(lengths.ze1),
                ee1: is_greatest(lengths.ee1),
                ee2: is_greatest(lengths.ee2),
                z00: is_greatest(lengths.z00),
                z01: is_greatest(lengths.z01),
            },
        }
    }

    /// The number that stands for the length to a class.
    #[inline(always)]
    pub(crate) fn number(&self, after: Class) -> u64
        ensures { result ≡ unwrap_or (length_to self.now after) NO_LENGTH }
    {
        match after {
            Class::UU1 => self.uu1,
            Class::E01 => self.e01,
            Class::ZE1 => self.ze1,
            Class::EE1 => self.ee1,
            Class::EE2 => self.ee2,
            Class::Z00 => self.z00,
            Class::Z01 => self.z01,
        }
    }

    /// The length to a class, where there is one.
    pub(crate) fn length(&self, after: Class) -> Option<u64>
        ensures { result ≡ length_to self.now after }
    {
        match after {
            Class::UU1 => length_of(self.uu1, self.greatest.uu1),
            Class::E01 => length_of(self.e01, self.greatest.e01),
            Class::ZE1 => length_of(self.ze1, self.greatest.ze1),
            Class::EE1 => length_of(self.ee1, self.greatest.ee1),
            Class::EE2 => length_of(self.ee2, self.greatest.ee2),
            Class::Z00 => length_of(self.z00, self.greatest.z00),
            Class::Z01 => length_of(self.z01, self.greatest.z01),
        }
    }
}
