//! How the maps of names hash, so that nobody can choose names that collide.
ghost use Rattle.std.specs.Prelude.{◌≡◌};
ghost use Rattle.std.specs.Hash.DefaultHasher.{initial, write};
ghost use Rattle.sha2.specs.Sha512.{sha512};

use sha2::{Digest, Sha512};
use std::hash::{BuildHasher, DefaultHasher, Hasher};
use std::marker::Model;

/// A key for the hashes of the names of one file: the SHA-512 digest of all of its bytes. Contracts
/// see the digest.
#[derive(Clone, Copy)]
pub struct FileKey {
    digest: [u8; 64],
}

impl Model for FileKey {
    ghost use Rattle.std.specs.Prelude.{List, ℕ};

    ghost Value = { List ℕ };

    ghost view = { λ key. key.digest };

    ghost inverse = { λ digest. record { digest = digest } };
}

impl FileKey {
    /// The key of the file with these bytes.
    pub fn of(bytes: &[u8]) -> FileKey
        ensures { result ≡ sha512 bytes.now }
    {
        FileKey {
            digest: Sha512::digest(bytes),
        }
    }
}

impl BuildHasher for FileKey {
    type Hasher = DefaultHasher;

    ghost build_hasher = { λ key. write initial key };

    fn build_hasher(&self) -> DefaultHasher {
        let mut hasher = DefaultHasher::new();
        hasher.write(&self.digest);
        hasher
    }
}
