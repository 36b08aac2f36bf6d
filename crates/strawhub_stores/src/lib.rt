// C calls: the store of pieces, each a few lines over a proved function.
#![tactic(auto)]

pub mod stores; // stores.rt: new, first piece, follow-on piece, sweep
pub mod deliveries; // deliveries.rt: what a block delivers, by numbers
