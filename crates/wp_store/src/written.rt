ghost use Rattle.std.specs.Prelude.{◌≡◌, ◌+◌, ◌<◌, ◌≤◌, ◌∷◌, length, vec_len, vec_capacity};
ghost use Rattle.wp_store.specs.Disk.{written_over};
ghost use Rattle.wp_store.specs.InMemory.{newest_first, call_of_kind};

use crate::done::{Done, Kind};
use std::snapshot::Snapshot;

/// Writes a piece over what stands at a place, and past the end, where there is room.
pub(crate) fn write_over(bytes: &mut Vec<u8>, place: usize, piece: &[u8])
    requires within { place ≤ vec_len bytes.old }
    requires room { place + length piece.now ≤ vec_capacity bytes.old }
    ensures written { bytes.new.items ≡ written_over place piece.now bytes.old.items }
    ensures capacity { vec_capacity bytes.old ≤ vec_capacity bytes.new }
{
    let overlap = piece.len().min(bytes.len() - place);
    overwrite(bytes, place, &piece[..overlap]);
    let _grown = bytes.extend_from_slice(&piece[overlap..]);
}

fn overwrite(bytes: &mut Vec<u8>, place: usize, piece: &[u8])
    requires { place + length piece.now ≤ vec_len bytes.old }
    ensures written { bytes.new.items ≡ written_over place piece.now bytes.old.items }
    ensures capacity { vec_capacity bytes.new ≡ vec_capacity bytes.old }
{
    bytes[place..place + piece.len()].copy_from_slice(piece);
}

/// Puts these bytes in the place of those, where there is room.
pub(crate) fn keep(kept: &mut Vec<u8>, bytes: &[u8])
    requires { length bytes.now ≤ vec_capacity kept.old }
    ensures kept { kept.new.items ≡ bytes.now }
    ensures capacity { vec_capacity kept.old ≤ vec_capacity kept.new }
{
    kept.clear();
    let _kept = kept.extend_from_slice(bytes);
}

/// Notes a call that was done, where there is room.
pub(crate) fn note(done: &mut Vec<Done>, kind: Kind, bytes: &Vec<u8>)
    requires { vec_len done.old < vec_capacity done.old }
    ensures noted { newest_first done.new.items
        ≡ call_of_kind kind bytes.now.items ∷ newest_first done.old.items }
    ensures len { vec_len done.new ≡ vec_len done.old + 1 }
    ensures capacity { vec_capacity done.new ≡ vec_capacity done.old }
{
    done.push_reserved(Done {
        kind,
        after: Snapshot::of(bytes),
    });
}
