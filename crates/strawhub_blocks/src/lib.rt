// C calls: a payload's blocks, each a few lines over a proved function.
#![tactic(auto)]

pub mod block_reads; // block_reads.rt: reading a block by numbers
pub mod block_writes; // block_writes.rt: writing a block by numbers
pub mod listings; // listings.rt: a payload's blocks, listed
