//! A buffer of keys whose memory is reused.
ghost use Rattle.std.specs.Prelude.{◌≡◌, ◌++◌, Some, length, IfOk, IfErr, OnOk, OnErr};
ghost use Rattle.lsm_writers.specs.Words as spec;

use sst_blocks::{Error, UserKey};
use std::alloc::{Allocator, Global};
use std::marker::Model;

/// A reusable buffer for the bytes of one key, or of several keys one after another.
///
/// Contracts see the bytes.
#[derive(Drop)]
#[derive_where(Debug)]
pub struct KeyBuffer<A: Allocator = Global> {
    bytes: Vec<u8, A>,
}

impl<A: Allocator> Model for KeyBuffer<A> {
    ghost use Rattle.std.specs.Prelude.{ℕ, List};

    ghost Value = { List ℕ };

    ghost view = { λ b. b.bytes.items };
}

impl<A: Allocator> KeyBuffer<A> {
    /// Copies a key into a new buffer.
    ///
    /// # Errors
    ///
    /// Only [`Error::OutOfMemory`].
    pub fn from(alloc: A, key: &[u8]) -> Result<KeyBuffer<A>, Error>
        ensures ok { IfOk result (λ b. b ≡ key.now) }
        ensures err { IfErr result (λ e. e ≡ spec.OutOfMemory) }
    {
        let mut bytes = Vec::new(alloc);
        bytes.extend_from_slice(key)?;
        Ok(KeyBuffer { bytes })
    }

    /// Returns the bytes.
    #[inline]
    pub fn as_slice(&self) -> &[u8]
        ensures { result.now ≡ self.now }
    {
        self.bytes.as_slice()
    }

    /// Returns the number of bytes.
    #[inline]
    pub fn len(&self) -> usize
        ensures { result ≡ length self.now }
    {
        self.bytes.len()
    }

    /// Replaces the bytes by those of another key, and reuses the memory.
    ///
    /// # Errors
    ///
    /// Only [`Error::OutOfMemory`]; nothing changes then.
    pub fn set(&mut self, key: &[u8]) -> Result<(), Error>
        ensures ok { OnOk result (self.new ≡ key.now) }
        ensures left { OnErr result (self.new ≡ self.old) }
        ensures err { IfErr result (λ e. e ≡ spec.OutOfMemory) }
    {
        let held = self.bytes.len();
        if key.len() > held {
            self.bytes.reserve(key.len() - held)?;
        }
        self.bytes.clear();
        self.bytes.extend_from_slice(key)?; // there is room
        Ok(())
    }

    /// Appends bytes.
    ///
    /// # Errors
    ///
    /// Only [`Error::OutOfMemory`]; nothing changes then.
    pub fn append(&mut self, bytes: &[u8]) -> Result<(), Error>
        ensures ok { OnOk result (self.new ≡ self.old ++ bytes.now) }
        ensures left { OnErr result (self.new ≡ self.old) }
        ensures err { IfErr result (λ e. e ≡ spec.OutOfMemory) }
    {
        self.bytes.extend_from_slice(bytes)?;
        Ok(())
    }
}

impl<A: Allocator + Clone> KeyBuffer<A> {
    ghost use Rattle.std.specs.Prelude.{◌≡◌, Some, IfOk, IfErr, OnOk, OnErr};
    ghost use Rattle.sst_entries.specs.declared.error.Error.TheVariants.{OutOfMemory};

    /// Converts the buffer into a key, which takes over the memory.
    ///
    /// # Errors
    ///
    /// Only [`Error::OutOfMemory`].
    pub fn into_key(self) -> Result<UserKey<A>, Error>
        ensures ok { IfOk result (λ key. key ≡ self) }
        ensures err { IfErr result (λ e. e ≡ OutOfMemory) }
    {
        UserKey::from_vec(self.bytes)
    }

    /// Stores a key in `kept`, and reuses the memory of the key stored there before.
    ///
    /// # Errors
    ///
    /// Only [`Error::OutOfMemory`]; nothing changes then.
    pub fn keep(kept: &mut Option<KeyBuffer<A>>, alloc: &A, key: &[u8]) -> Result<(), Error>
        ensures ok { OnOk result (kept.new ≡ Some key.now) }
        ensures left { OnErr result (kept.new ≡ kept.old) }
        ensures err { IfErr result (λ e. e ≡ OutOfMemory) }
    {
        if let Some(buffer) = kept {
            return buffer.set(key);
        }
        let first = KeyBuffer::from(alloc.clone()?, key)?;
        drop(kept.replace(first));
        Ok(())
    }
}
