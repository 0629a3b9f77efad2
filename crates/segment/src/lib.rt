// Segment files: a log as a data file and an index file, in the fields and widths of document 004; their header and a record written. The crate
// `segment_writer` writes the pair.
#![tactic(auto)]

pub mod header;
pub mod pair;
pub mod record;
