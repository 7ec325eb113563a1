ghost use Rattle.std.specs.Prelude.{◌≡◌, IfOk, IfErr, None, Option, Some};
ghost use Rattle.serde_json.specs.Data.{Data};
ghost use Rattle.serde_json.specs.View.{view};
ghost use Rattle.wp_cert.specs.Text.{list_said, number_said, said_at};
ghost use Rattle.wp_cert.specs.declared.text.form.Unread.TheVariants as unread;

use crate::text::form::Unread;
use serde_json::Value;
use std::alloc::{AllocError, AllocFailed, Global};
use wp_model::{Listing, Memory};

impl From<AllocError> for Unread {
    ghost from_gives = { λ _ fault. fault ≡ unread.Memory };

    fn from(_refused: AllocError) -> Unread {
        Unread::Memory
    }
}

impl<T: Drop> From<AllocFailed<T>> for Unread {
    ghost from_gives = { λ _ fault. fault ≡ unread.Memory };

    fn from(_refused: AllocFailed<T>) -> Unread {
        Unread::Memory
    }
}

impl From<Memory> for Unread {
    ghost from_gives = { λ _ fault. fault ≡ unread.Memory };

    fn from(_refused: Memory) -> Unread {
        Unread::Memory
    }
}

/// A part of a certificate, which a value of JSON says.
pub(crate) trait CertificatePart: Drop {
    /// What a value says. Contracts alone name it.
    ghost said: { Data → Option Self };

    /// The part that a value says. `BadShape` comes where it says none.
    fn read(alloc: Global, value: &Value) -> Result<Self, Unread>
    where
        Self: Sized,
        ensures ok { IfOk result (λ part. said (view value.now) ≡ Some part) }
        ensures bad { IfErr result (λ fault. fault ≡ unread.BadShape → said (view value.now)
            ≡ None) };
}

impl CertificatePart for u64 {
    ghost said = { number_said };

    fn read(_alloc: Global, value: &Value) -> Result<u64, Unread> {
        value.as_u64().ok_or(Unread::BadShape)
    }
}

// The list of these items, which are fewer than 2^32: else there is no memory for the list.
fn listing<T: Drop>(items: Vec<T>) -> Result<Listing<T>, Unread>
    ensures ok { IfOk result (λ list. list ≡ items.items) }
    ensures bad { IfErr result (λ fault. fault ≡ unread.Memory) }
{
    if items.len() <= 4_294_967_295 {
        Ok(Listing::of(items))
    } else {
        Err(Unread::Memory)
    }
}

// The parts that the items of a list say.
fn read_items<T: CertificatePart>(alloc: Global, value: &Value) -> Result<Vec<T>, Unread>
    ensures ok { IfOk result (λ parts. list_said T.said (view value.now) ≡ Some parts.items) }
    ensures bad { IfErr result (λ fault. fault ≡ unread.BadShape → list_said T.said (view value.now)
        ≡ None) }
{
    let items = value.as_array().ok_or(Unread::BadShape)?;
    let mut parts = Vec::new(alloc);
    for item in items {
        parts.push(T::read(alloc, item)?)?;
    }
    Ok(parts)
}

// The list that a value says, of fewer than 2^32 parts.
pub(crate) fn read_list<T: CertificatePart>(
    alloc: Global,
    value: &Value,
) -> Result<Listing<T>, Unread>
    ensures ok { IfOk result (λ parts. list_said T.said (view value.now) ≡ Some parts) }
    ensures bad { IfErr result (λ fault. fault ≡ unread.BadShape → list_said T.said (view value.now)
        ≡ None) }
{
    listing(read_items(alloc, value)?)
}

// The part that the value at a key says.
pub(crate) fn read_at<T: CertificatePart>(
    alloc: Global,
    value: &Value,
    key: &str,
) -> Result<T, Unread>
    ensures ok { IfOk result (λ part. said_at T.said key.now (view value.now) ≡ Some part) }
    ensures bad { IfErr result (λ fault. fault ≡ unread.BadShape
        → said_at T.said key.now (view value.now) ≡ None) }
{
    let member = value.get(key).ok_or(Unread::BadShape)?;
    T::read(alloc, member)
}

// The parts that the items of the list at a key say.
pub(crate) fn items_at<T: CertificatePart>(
    alloc: Global,
    value: &Value,
    key: &str,
) -> Result<Vec<T>, Unread>
    ensures ok { IfOk result (λ parts. said_at (list_said T.said) key.now (view value.now)
        ≡ Some parts.items) }
    ensures bad { IfErr result (λ fault. fault ≡ unread.BadShape
        → said_at (list_said T.said) key.now (view value.now) ≡ None) }
{
    let member = value.get(key).ok_or(Unread::BadShape)?;
    read_items(alloc, member)
}

// The list at a key, of fewer than 2^32 parts.
pub(crate) fn list_at<T: CertificatePart>(
    alloc: Global,
    value: &Value,
    key: &str,
) -> Result<Listing<T>, Unread>
    ensures ok { IfOk result (λ parts. said_at (list_said T.said) key.now (view value.now)
        ≡ Some parts) }
    ensures bad { IfErr result (λ fault. fault ≡ unread.BadShape
        → said_at (list_said T.said) key.now (view value.now) ≡ None) }
{
    listing(items_at(alloc, value, key)?)
}
