ghost use Rattle.std.specs.Prelude.{◌≡◌, ◌≤◌, length, vec_len, position, string_bytes, option_copied, IfOk, OnOk};
ghost use Rattle.std.specs.Prelude.{IsErrOf};
ghost use Rattle.std.specs.Str.{bytes_eq};
ghost use Rattle.wp_model.specs.Limits.{most_file_bytes};
ghost use Rattle.wp_outside.specs.Outside.{IsTooLong};
ghost use Rattle.wp_outside.specs.InMemory.{files_of, bytes_of};

use crate::files::FileFault;
use std::alloc::Global;
use std::marker::Model;
use wp_model::MOST_FILE_BYTES;

/// Names, and beside each its bytes. Clauses see a list of pairs.
#[derive(Drop)]
pub(crate) struct Shelf {
    names: Vec<String>,
    contents: Vec<Vec<u8>>,
}

impl Model for Shelf {
    ghost use Rattle.std.specs.Prelude.{◌≡◌, ℕ, List, length};
    ghost use Rattle.wp_outside.specs.InMemory.{files_of};

    ghost Value = { List (List ℕ × List ℕ) };

    ghost view = { λ s. files_of s.names.items s.contents.items };

    ghost invariant = { λ s. length s.contents.items ≡ length s.names.items };
}

impl Shelf {
    pub(crate) fn of(names: Vec<String>, contents: Vec<Vec<u8>>) -> Shelf
        requires { vec_len contents ≡ vec_len names }
        ensures { result ≡ files_of names.items contents.items }
    {
        Shelf { names, contents }
    }

    /// What the first of the equal names holds.
    #[tactic(auto, using(crate::proofs::Shelves::none_held, crate::proofs::Shelves::held_beside))]
    pub(crate) fn bytes_of(&self, name: &str) -> Option<&[u8]>
        ensures { option_copied result ≡ bytes_of self.now name.now }
    {
        let at = first_place(&self.names, name)?;
        Some(self.contents[at].as_slice())
    }
}

fn first_place(names: &Vec<String>, name: &str) -> Option<usize>
    ensures { result
        ≡ position (λ known. bytes_eq (string_bytes known) name.now) names.now.items }
{
    names.iter().position(|known| known.as_str() == name)
}

/// A copy of a file's bytes, unless they are too many.
pub(crate) fn whole_copy(alloc: Global, bytes: &[u8]) -> Result<Vec<u8>, FileFault>
    ensures copy { IfOk result (λ copy. copy.items ≡ bytes.now) }
    ensures fits { OnOk result (length bytes.now ≤ most_file_bytes) }
    ensures too_long { IsErrOf result FileFault.TooLong → IsTooLong bytes.now }
    ensures no_fault { ¬ IsErrOf result FileFault.Failed }
{
    if bytes.len() > MOST_FILE_BYTES {
        return Err(FileFault::TooLong);
    }
    Ok(bytes.to_vec(alloc)?)
}
