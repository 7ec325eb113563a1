//! The keys under which the names of a file are hashed.
use super::tables::{STOCK_OF_TWO, orders_of, stock_of};
use std::alloc::{AllocError, Global};
use std::hash::BuildHasher;
use std::test::Fail;
use wp_model::Memory;
use wp_tables::{FileKey, Name};

/// A file of three blocks of the digest.
const FILE: &[u8] = b"order,article,quantity\n\
    O-000000000000000000000000000000000000001,A,100000\n\
    O-000000000000000000000000000000000000001,B,100000\n\
    O-000000000000000000000000000000000000002,A,100000\n\
    O-000000000000000000000000000000000000002,B,100000\n\
    O-000000000000000000000000000000000000003,A,100000\n\
    O-000000000000000000000000000000000000003,B,100000\n";

/// The file with another byte at a place.
fn file_with_other_byte(alloc: Global, place: usize) -> Result<Vec<u8>, AllocError> {
    let mut file = FILE.to_vec(alloc)?;
    if place < file.len() {
        file[place] ^= 1;
    }
    Ok(file)
}

/// The hash of a name in a file.
fn hash_in(file: &[u8], name: Name) -> u64 {
    FileKey::of(file).hash_one(name)
}

/// The first place at which another byte leaves the hash of a name as it is.
fn first_unheeded_place(alloc: Global, name: Name) -> Result<Option<usize>, AllocError> {
    let hash = hash_in(FILE, name);
    for place in 0..FILE.len() {
        let file = file_with_other_byte(alloc, place)?;
        if hash_in(file.as_slice(), name) == hash {
            return Ok(Some(place));
        }
    }
    Ok(None)
}

#[test]
fn each_file_has_a_key_of_its_own(rt: HostRuntime) -> Result<(), Fail> {
    let alloc = rt.alloc();
    let name = Name::new(b"O-1").ok_or(Memory)?;
    let copy = FILE.to_vec(alloc)?;
    assert_eq!(rt; hash_in(copy.as_slice(), name), hash_in(FILE, name));
    assert_eq!(rt; first_unheeded_place(alloc, name)?, None);
    Ok(())
}

/// The file of the orders of two lines.
const ORDERS_OF_TWO: &[u8] = b"order,article,quantity\nO,A,1\nP,B,2\n";

#[test]
fn names_are_hashed_by_their_own_file(rt: HostRuntime) -> Result<(), Fail> {
    let name = Name::new(b"A").ok_or(Memory)?;
    let stock = stock_of(rt.alloc(), STOCK_OF_TWO)?;
    assert_eq!(rt; stock.hash_of(name), hash_in(STOCK_OF_TWO, name));
    let orders = orders_of(rt.alloc(), ORDERS_OF_TWO)?;
    assert_eq!(rt; orders.hash_of(name), hash_in(ORDERS_OF_TWO, name));
    Ok(())
}
