//! Encoding a handle of an index block.
use crate::item::Item;
use crate::number::{put_u32, put_u64};
use crate::{Error, HANDLE_HEAD_LEN, KeyedBlockHandle, TableVersion};
use std::alloc::Allocator;

impl<A: Allocator> Item for KeyedBlockHandle<A> {
    ghost use Rattle.sst_blocks.specs.Bounds.{handle_bound};
    ghost use Rattle.sst_blocks.specs.Encoding.{IsShortHandle, handle_fault_or};
    ghost use Rattle.sst_blocks.specs.Handles.{IsSpellableHandle, handle_spelled};
    ghost use Rattle.sst_blocks.specs.declared.version.TableVersion.TheVariants.{V4};

    ghost bytes = { handle_spelled V4 };

    ghost Fits = { IsSpellableHandle V4 };

    ghost Short = { IsShortHandle };

    ghost fault_or = { handle_fault_or };

    ghost bound = { handle_bound };

    #[inline]
    fn test(&self) -> Result<(), Error> {
        if self.end_key().len() > TableVersion::WRITTEN.longest_key() {
            return Err(Error::KeyTooLong);
        }
        Ok(())
    }

    #[inline]
    fn added_to(&self, len: u64) -> u64 {
        len.saturating_add(HANDLE_HEAD_LEN)
            .saturating_add(self.end_key().len() as u64)
    }

    #[tactic(auto, unfolding(crate::specs::Handles::handle_spelled))]
    fn put<B: Allocator>(&self, buf: &mut Vec<u8, B>) -> Result<(), Error> {
        let end_key = self.end_key().as_slice();
        put_u64(buf, self.seqno())?;
        put_u64(buf, self.offset().0)?;
        put_u32(buf, self.size())?;
        put_u32(buf, end_key.len() as u32)?;
        buf.extend_from_slice(end_key)?;
        Ok(())
    }

    #[inline(always)]
    fn takes() {}
}
