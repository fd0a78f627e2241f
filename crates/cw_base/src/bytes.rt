//! Byte texts that own their bytes.
ghost use Rattle.std.specs.Prelude.{◌≡◌, [], ◌∷◌, ◌++◌, ◌==◌, length, IfOk, OnOk, OnErr};

use crate::Memory;
use std::alloc::Global;
use std::marker::Model;

/// A byte text that owns its bytes.
#[derive(Drop)]
pub struct Bytes {
    bytes: Vec<u8>,
}

impl Model for Bytes {
    ghost use Rattle.std.specs.Prelude.{List, ℕ};

    ghost Value = { List ℕ };

    ghost view = { λ b. b.bytes.items };
}

impl Bytes {
    /// An empty text. It takes no memory.
    pub fn new_in(alloc: Global) -> Bytes
        ensures { result ≡ [] }
    {
        Bytes {
            bytes: Vec::new(alloc),
        }
    }

    /// A copy of `bytes`.
    pub fn from_slice(alloc: Global, bytes: &[u8]) -> Result<Bytes, Memory>
        ensures { IfOk result (λ text. text ≡ bytes.now) }
    {
        let bytes = Vec::from_slice(alloc, bytes)?;
        Ok(Bytes { bytes })
    }

    /// The bytes of a vector, which isn't copied.
    pub fn from_vec(bytes: Vec<u8>) -> Bytes
        ensures { result ≡ bytes.items }
    {
        Bytes { bytes }
    }

    /// Gives the bytes back, without a copy.
    pub fn into_vec(self) -> Vec<u8>
        ensures { result.items ≡ self }
    {
        self.bytes
    }

    /// Appends one byte. After `Memory` the text is as before.
    #[inline(always)]
    pub fn push(&mut self, byte: u8) -> Result<(), Memory>
        ensures ok { OnOk result (self.new ≡ self.old ++ byte ∷ []) }
        ensures err { OnErr result (self.new ≡ self.old) }
    {
        self.bytes.push(byte)?;
        Ok(())
    }

    /// Appends all of `bytes`. After `Memory` the text is as before.
    pub fn append(&mut self, bytes: &[u8]) -> Result<(), Memory>
        ensures ok { OnOk result (self.new ≡ self.old ++ bytes.now) }
        ensures err { OnErr result (self.new ≡ self.old) }
    {
        self.bytes.extend_from_slice(bytes)?;
        Ok(())
    }

    /// How many bytes the text has.
    pub fn len(&self) -> usize
        ensures { result ≡ length self.now }
    {
        self.bytes.len()
    }

    /// Whether the text has no byte.
    pub fn is_empty(&self) -> bool
        ensures { result ≡ (length self.now == 0) }
    {
        self.bytes.is_empty()
    }

    /// The bytes, as a slice.
    pub fn as_slice(&self) -> &[u8]
        ensures { result.now ≡ self.now }
    {
        self.bytes.as_slice()
    }
}
