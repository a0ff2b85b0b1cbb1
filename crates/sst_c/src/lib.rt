//! The C interface to sorted tables: the calls of `include/sst.h`.
//!
//! A caller holds a [`Handle`], which is zeros while closed. Each call takes the contents out,
//! works on them with the calls of the library, and puts them back. Its contract states the result
//! in terms of theirs.
//!
//! A call returns 0 or an error code: 1 to 24 are the library's, codes from 100 on are those of
//! this interface.
#![tactic(auto)]

mod address;
mod adds;
mod answer_list;
mod answers;
mod asked;
mod boxed;
mod codes;
mod compaction_open;
mod compaction_steps;
mod compactions;
mod entries;
mod facts;
mod files;
mod found;
mod handle;
mod held;
mod kept;
mod laying;
mod loose;
mod many;
mod memory;
mod merged;
mod multi_writers;
mod options;
mod packed;
mod packing;
mod ranges;
mod reads;
mod run_list;
mod runs;
mod runs_scan;
mod runs_scan_open;
mod scans;
mod sentences;
mod shares;
mod tables;
mod takes;
mod verification;
mod verifier;
mod verify;
mod writers;

pub use adds::sst_writer_add_many;
pub use answers::sst_answers_take;
pub use asked::Asked;
pub use codes::sst_version;
pub use compaction_open::sst_compaction_open;
pub use compaction_steps::{OpenCompaction, sst_compaction_next};
pub use compactions::sst_compact;
pub use entries::EntryReport;
pub use facts::{TableFacts, sst_table_facts};
pub use files::{FileReport, sst_files_copy, sst_files_count, sst_files_tell};
pub use found::{Lent, sst_found_copy, sst_found_lend};
pub use handle::{Handle, sst_close};
pub use held::{Files, FoundEntry, Held, What};
pub use kept::sst_table_open_kept;
pub use loose::Loose;
pub use many::{sst_answers_copy, sst_answers_lend, sst_table_get_many};
pub use memory::{TableMemory, sst_table_memory};
pub use merged::sst_runs_range_open;
pub use multi_writers::{
    sst_multi_writer_add, sst_multi_writer_finish, sst_multi_writer_open, sst_multi_writer_take,
};
pub use options::{TableOptions, sst_options_default};
pub use packing::{
    sst_packing_chain, sst_packing_count, sst_packing_open, sst_packing_run, sst_packing_table,
    sst_runs_pack,
};
pub use ranges::{sst_range_next, sst_range_open, sst_range_take};
pub use run_list::RunList;
pub use runs::{sst_runs_add, sst_runs_get, sst_runs_open};
pub use runs_scan::RunsScan;
pub use runs_scan_open::sst_runs_scan_open;
pub use scans::{sst_scan_next, sst_scan_open, sst_scan_take};
pub use sentences::sst_strerror_copy;
pub use shares::sst_table_share;
pub use tables::{sst_table_get, sst_table_open};
pub use verification::{sst_verification_open, sst_verification_step};
pub use verifier::{ProgressReport, Verifier};
pub use verify::{VerifyReport, sst_table_verify, sst_table_verify_with};
pub use writers::{sst_writer_add, sst_writer_finish, sst_writer_open};
