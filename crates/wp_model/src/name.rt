ghost use Rattle.std.specs.Prelude.{◌≡◌, ◌≤◌, ◌∷◌, ℕ, List, [], length, replicate, IsTrue, Some};
ghost use Rattle.std.specs.List.{list_all};
ghost use Rattle.wp_model.specs.Limits.{most_name_bytes};
ghost use Rattle.wp_model.specs.Name.{is_name, is_name_byte, name_in, padded_out};
ghost use Rattle.std.specs.Hash.{first_alike, on_Alike, same_Alike};
ghost use Rattle.std.specs.Cmp.Lexicographic.{bytes_decides};

use crate::limits::MOST_NAME_BYTES;
use crate::listing::Listing;
use std::fmt;
use std::hash::{Hash, Hasher};
use std::marker::Model;

/// A name of a wave, an order or an article: 1 to 40 bytes, each an ASCII letter, an ASCII digit, `-`, `_`
/// or `.`. Contracts see the list of its bytes.
#[derive(Clone, Copy, Debug, PartialEq, Eq)]
pub struct Name {
    bytes: [u8; MOST_NAME_BYTES],
    len: u8,
}

/// A list of names.
pub type Names = Listing<Name>;

impl Model for Name {
    ghost use Rattle.std.specs.Prelude.{List, ℕ, ◌≡◌, take, length, IsTrue};

    ghost Value = { List ℕ };

    ghost use Rattle.wp_model.specs.Name.{is_name, padded_out};

    ghost view = { λ n. take n.len n.bytes };

    ghost invariant = { λ n. IsTrue (is_name (take n.len n.bytes)) × (n.bytes ≡ padded_out (take n.len n.bytes))
        × (n.len ≡ length (take n.len n.bytes)) };

    ghost inverse = { λ text. record { bytes = padded_out text; len = length text } };

    ghost use Rattle.std.proofs.Common.{sym};

    ghost inverse_ok = { λ a h i. record { bytes = sym h.1 i; len = sym h.2 i } };
}

fn zeros() -> [u8; MOST_NAME_BYTES]
    ensures { result ≡ replicate most_name_bytes 0 }
{
    [0; MOST_NAME_BYTES]
}

fn padded(text: &[u8]) -> [u8; MOST_NAME_BYTES]
    requires { length text.now ≤ most_name_bytes }
    ensures { result ≡ padded_out text.now }
{
    let mut bytes = zeros();
    bytes[..text.len()].copy_from_slice(text);
    bytes
}

fn may_stand(byte: u8) -> bool
    ensures { result ≡ is_name_byte byte }
{
    matches!(byte, b'0'..=b'9' | b'A'..=b'Z' | b'a'..=b'z' | b'-' | b'_' | b'.')
}

fn all_may_stand(text: &[u8]) -> bool
    ensures { result ≡ list_all is_name_byte text.now }
{
    text.iter().all(|byte| may_stand(*byte))
}

fn is_name_text(text: &[u8]) -> bool
    ensures { result ≡ is_name text.now }
{
    !text.is_empty() && text.len() <= MOST_NAME_BYTES && all_may_stand(text)
}

impl Name {
    /// The name that this text is. None comes exactly where the text is no name.
    pub fn new(text: &[u8]) -> Option<Name>
        ensures { result ≡ name_in text.now }
    {
        if !is_name_text(text) {
            return None;
        }
        Some(Name {
            bytes: padded(text),
            len: text.len() as u8,
        })
    }

    /// The bytes of the name, 1 to 40 of them.
    pub fn as_bytes(&self) -> &[u8]
        ensures bytes { result.now ≡ self.now }
        ensures name { IsTrue (is_name self.now) }
    {
        &self.bytes[..self.len as usize]
    }
}

impl Name {
    /// The name as text.
    pub fn as_str(&self) -> &str
        ensures { result.now ≡ self.now }
    {
        str::from_utf8(self.as_bytes()).unwrap()
    }
}

impl Hash for Name {
    ghost hash_input = { λ name. padded_out name ∷ [] };

    ghost respects_eq = { (first_alike _ (on_Alike padded_out
        (same_Alike (λ (bytes : List ℕ). bytes ∷ []) bytes_decides))).fed };

    fn hash<H: Hasher>(&self, state: &mut H) {
        state.write(&self.bytes);
    }
}

impl fmt::Display for Name {
    ghost output = { λ name. Some name };

    fn fmt<W: fmt::Write>(&self, f: &mut fmt::Formatter<W>) -> fmt::Result {
        f.write_str(self.as_str())
    }
}
