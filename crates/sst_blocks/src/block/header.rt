//! Block headers.
ghost use Rattle.std.specs.Prelude.{◌≡◌, ◌∷◌, ◌++◌, [], length, None, Some, IfOk, MatchResult};
ghost use Rattle.sst_blocks.specs.Words as spec;

use crate::number::{u32_at, u64_at};
use crate::{BlockType, Error, TableVersion, TagName};

/// A decoded block header.
#[derive(Clone, Copy, Debug, PartialEq, Eq)]
pub struct Header {
    /// The version whose grammar the payload has.
    pub(crate) version: TableVersion,
    /// The length of the payload in bytes.
    pub(crate) data_len: u32,
    /// The length of the decompressed payload, which equals `data_len`: payloads are never
    /// compressed.
    pub(crate) uncompressed_len: u32,
    /// The checksum of the payload.
    pub(crate) checksum: u64,
}

impl Header {
    /// The length of a header in bytes.
    pub(crate) const LEN: u32 = 24;

    /// Returns the length of a header in bytes.
    pub fn serialized_len() -> usize
        ensures { result ≡ spec.header_len }
    {
        Self::LEN as usize
    }

    /// Encodes the header for a block of a kind.
    #[tactic(auto, unfolding(crate::specs::Number::le4, crate::specs::Number::le8))]
    pub(crate) fn encode(self, kind: BlockType) -> [u8; 24]
        ensures { result ≡ spec.mark self.version ++ (spec.kind_tag kind ∷ 0 ∷ 0 ∷ 0 ∷ [])
            ++ spec.le4 self.data_len ++ spec.le4 self.uncompressed_len ++ spec.le8 self.checksum }
    {
        let mut bytes = [0; 24];
        bytes[..4].copy_from_slice(&self.version.mark());
        bytes[4] = kind.tag();
        bytes[8..12].copy_from_slice(&self.data_len.to_le_bytes());
        bytes[12..16].copy_from_slice(&self.uncompressed_len.to_le_bytes());
        bytes[16..].copy_from_slice(&self.checksum.to_le_bytes());
        bytes
    }

    /// Decodes the header of a block of a kind.
    ///
    /// # Errors
    ///
    /// Fails with the first of these faults: [`Error::InvalidHeader`] for the magic number or the
    /// reserved bytes, [`Error::InvalidTag`], [`Error::UnsupportedCompression`].
    pub(crate) fn decode(bytes: &[u8], kind: BlockType) -> Result<Header, Error>
        requires { length bytes.now ≡ spec.header_len }
        ensures fault { MatchResult result (λ _. spec.header_fault kind bytes.now ≡ None)
            (λ e. spec.header_fault kind bytes.now ≡ Some e) }
        ensures version { IfOk result (λ h. h.version ≡ spec.version_in bytes.now) }
        ensures data_len { IfOk result (λ h. h.data_len ≡ spec.data_len bytes.now) }
        ensures uncompressed_len { let len = spec.uncompressed_len bytes.now in
            IfOk result (λ h. h.uncompressed_len ≡ len) }
        ensures checksum { IfOk result (λ h. h.checksum ≡ spec.stored_checksum bytes.now) }
    {
        let Some(version) = TableVersion::from_mark(&bytes[..4]) else {
            return Err(Error::InvalidHeader);
        };
        if bytes[6] != 0 || bytes[7] != 0 {
            return Err(Error::InvalidHeader);
        }
        if bytes[4] != kind.tag() {
            return Err(Error::InvalidTag(TagName::BlockType, bytes[4]));
        }
        if bytes[5] != 0 {
            return Err(Error::UnsupportedCompression);
        }
        Ok(Header {
            version,
            data_len: u32_at(&bytes[8..]),
            uncompressed_len: u32_at(&bytes[12..]),
            checksum: u64_at(&bytes[16..]),
        })
    }
}
