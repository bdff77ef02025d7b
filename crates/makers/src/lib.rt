// Two makers in one recipe: neither's code can change the other's valve work. Definitions in
// specs/, the proof in proofs/; the functions do nothing but promise.

#![tactic(auto)]

ghost use Rattle.makers.specs.Claim.{KeptApart};
ghost use Rattle.makers.specs.Rows.{RowsHold};

/// Of every two tables, and every choice of either maker's procedures.
pub fn kept_apart(one: &[u8], other: &[u8])
    ensures { KeptApart one.now other.now }
{}

/// Of the rows: pairs of recipes that meet every sentence, pairs that break one and the claim, pairs
/// that differ in more than the claim allows and break it; and which sentences recipes break.
pub fn rows_hold()
    ensures { RowsHold }
{}
