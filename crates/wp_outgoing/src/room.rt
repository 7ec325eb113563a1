//! How many waves there is room for.
ghost use Rattle.std.specs.Prelude.{◌≡◌, ◌≤◌};
ghost use Rattle.wp_model.specs.Limits.{most_entries};
ghost use Rattle.wp_outgoing.specs.Room.{waves_with_room};

use wp_model::MOST_ENTRIES;

/// How many of so many waves go out, after so many entries of a journal: as many as are asked for at most, and as many
/// as the journal has room for, where each has two commands.
pub fn waves_with_room(waves: u64, most: u64, entries: u64) -> u64
    requires { entries ≤ most_entries }
    ensures { result ≡ waves_with_room waves most entries }
{
    waves.min(most).min((MOST_ENTRIES - entries) / 2)
}
