//! Laws of the owners that a store counts, for a caller that holds many maps over one store.
//! A contract sees a law as what the call ensures; the call does nothing.
ghost use Rattle.ele_blocks.specs.PlaceLaws.{PlaceLaws};
ghost use Rattle.ele_blocks.specs.Stock.{StockLaws};

/// What each call of a map leaves of the maps of many files, as laws over the stores before and
/// after.
#[tactic(auto, using(crate::proofs::Stocks::stock_laws))]
pub fn stocks()
    ensures { StockLaws }
{}

/// What a map that is made slot by slot leaves of the maps of many files, if each of its slots
/// shares the block that the slot and its writer have in the file.
#[tactic(auto, using(crate::proofs::PlacedStocks::place_laws))]
pub fn places()
    ensures { PlaceLaws }
{}
