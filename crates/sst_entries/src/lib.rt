//! The entries of sorted tables: byte slices, keys, entries, their order, errors and streams.
#![tactic(auto)]

mod entry_ref;
mod error;
mod key;
mod lending;
mod order;
mod slice;
mod stream;
mod value;
mod value_type;

pub use entry_ref::EntryRef;
pub use error::{Error, TagName};
pub use key::InternalKey;
pub use lending::Lending;
pub use order::{are_strict, compare_versions};
pub use slice::{Slice, UserKey, UserValue};
pub use stream::{Direction, IterItem, answer_at, answers_at, from_the_front, source_of};
pub use value::InternalValue;
pub use value_type::ValueType;

/// A sequence number; larger is newer.
pub type SeqNo = u64;
