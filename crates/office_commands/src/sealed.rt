//! The bytes of a tender, borrowed from a request or owned.
ghost use Rattle.std.specs.Prelude.{◌≡◌, IfOk, IfSome, IfNone};
ghost use Rattle.sha2.specs.Sha256.{sha256};
ghost use Rattle.office_commands.specs.SealedBytes.{IsSealed};

use sha2::{Digest, Sha256};
use std::alloc::{AllocError, Global};
use std::marker::Model;

/// The greatest length of a tender, in bytes.
pub const SEALED_LIMIT: usize = 32_768;

/// A tender of 1 to 32,768 bytes with its SHA-256 (FIPS 180-4). It borrows the bytes from the request.
#[derive(Drop)]
pub struct Sealed<'a> {
    bytes: &'a [u8],
    digest: [u8; 32],
}

impl<'a> Model for Sealed<'a> {
    ghost use Rattle.std.specs.Prelude.{◌≡◌, List, ℕ};
    ghost use Rattle.sha2.specs.Sha256.{sha256};
    ghost use Rattle.office_commands.specs.SealedBytes.{IsSealed};

    ghost Value = { List ℕ };

    ghost view = { λ s. s.bytes.now };

    ghost invariant = { λ s. IsSealed s.bytes.now × (s.digest ≡ sha256 s.bytes.now) };
}

impl<'a> Sealed<'a> {
    /// The tender with these bytes; None if there are none, or more than 32,768.
    pub fn read(bytes: &'a [u8]) -> Option<Sealed<'a>>
        ensures found { IfSome result (λ sealed. sealed ≡ bytes.now) }
        ensures right { IfSome result (λ _. IsSealed bytes.now) }
        ensures none { IfNone result (¬ (IsSealed bytes.now)) }
    {
        if bytes.is_empty() || bytes.len() > SEALED_LIMIT {
            return None;
        }
        let digest = Sha256::digest(bytes);
        Some(Sealed { bytes, digest })
    }

    /// The bytes of the tender, borrowed.
    pub fn as_slice(&self) -> &'a [u8]
        ensures value { result.now ≡ self.now }
        ensures right { IsSealed self.now }
    {
        self.bytes
    }

    /// The SHA-256 of the bytes.
    pub fn digest(&self) -> [u8; 32]
        ensures { result ≡ sha256 self.now }
    {
        self.digest
    }
}

/// A tender of 1 to 32,768 bytes that owns its bytes, as the office keeps it until the opening.
#[derive(Drop)]
pub struct SealedBytes {
    bytes: Vec<u8>,
}

impl Model for SealedBytes {
    ghost use Rattle.std.specs.Prelude.{List, ℕ};
    ghost use Rattle.office_commands.specs.SealedBytes.{IsSealed};

    ghost Value = { List ℕ };

    ghost view = { λ s. s.bytes.items };

    ghost invariant = { λ s. IsSealed s.bytes.items };
}

impl SealedBytes {
    /// The tender with these bytes; None if there are none, or more than 32,768. It allocates no memory.
    pub fn from_vec(bytes: Vec<u8>) -> Option<SealedBytes>
        ensures found { IfSome result (λ sealed. sealed ≡ bytes.items) }
        ensures right { IfSome result (λ _. IsSealed bytes.items) }
        ensures none { IfNone result (¬ (IsSealed bytes.items)) }
    {
        if bytes.is_empty() || bytes.len() > SEALED_LIMIT {
            return None;
        }
        Some(SealedBytes { bytes })
    }

    /// A copy of a tender that borrows its bytes. AllocError if there is too little memory.
    pub fn copy_of(alloc: Global, sealed: &Sealed<'_>) -> Result<SealedBytes, AllocError>
        ensures { IfOk result (λ copy. copy ≡ sealed.now) }
    {
        Ok(SealedBytes {
            bytes: Vec::from_slice(alloc, sealed.as_slice())?,
        })
    }

    /// The bytes of the tender, borrowed.
    pub fn as_slice(&self) -> &[u8]
        ensures value { result.now ≡ self.now }
        ensures right { IsSealed self.now }
    {
        self.bytes.as_slice()
    }
}

impl Clone for SealedBytes {
    ghost is_clone = { λ a b. b ≡ a };

    fn clone(&self) -> Result<SealedBytes, AllocError> {
        let bytes = Vec::from_slice(*self.bytes.allocator(), self.bytes.as_slice())?;
        Ok(SealedBytes { bytes })
    }
}
