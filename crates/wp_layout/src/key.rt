ghost use Rattle.std.specs.Prelude.{◌≡◌, Some};
ghost use Rattle.wp_layout.specs.Keys.{key_text};

use std::fmt;

/// A key of a layout file.
#[derive(Clone, Copy, Debug, PartialEq, Eq)]
pub enum Key {
    /// The version of the form of the file, which is 1 or 2.
    Version,
    /// The number of aisles.
    Aisles,
    /// The number of slots of each aisle.
    Slots,
    /// The length between neighbouring slots.
    Pitch,
    /// The length from an end of an aisle to its nearest slot.
    Clearance,
    /// The length between neighbouring aisles, in version 1.
    Spacing,
    /// The lengths from each aisle but the last to the next one, in version 2.
    Spacings,
    /// The aisle at one end of which the depot lies.
    Depot,
    /// The end of its aisle at which the depot lies, in version 2.
    End,
}

/// The keys of version 2, in the order in which they are tested.
pub(crate) const SECOND_KEYS: [Key; 8] = [
    Key::Version,
    Key::Aisles,
    Key::Slots,
    Key::Pitch,
    Key::Clearance,
    Key::Spacings,
    Key::Depot,
    Key::End,
];

/// The keys of version 1, in the order in which they are tested.
pub(crate) const FIRST_KEYS: [Key; 7] = [
    Key::Version,
    Key::Aisles,
    Key::Slots,
    Key::Pitch,
    Key::Clearance,
    Key::Spacing,
    Key::Depot,
];

impl Key {
    /// The key as it stands in the file.
    pub(crate) fn name(self) -> &'static str
        ensures { result.now ≡ key_text self }
    {
        match self {
            Key::Version => "version",
            Key::Aisles => "aisles",
            Key::Slots => "slots",
            Key::Pitch => "pitch",
            Key::Clearance => "clearance",
            Key::Spacing => "spacing",
            Key::Spacings => "spacings",
            Key::Depot => "depot",
            Key::End => "end",
        }
    }
}

impl fmt::Display for Key {
    ghost output = { λ key. Some (key_text key) };

    fn fmt<W: fmt::Write>(&self, f: &mut fmt::Formatter<W>) -> fmt::Result {
        f.write_str(self.name())
    }
}
