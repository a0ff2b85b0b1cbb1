//! The law of lines.
ghost use Rattle.sst_tool.specs.make.Words as spec;

/// States a law: an input with one line for each of some entries, in their order, parses as exactly
/// these entries.
///
/// The call does nothing; its contract is the law.
pub fn lines_law()
    ensures { spec.LinesLaw }
{}
