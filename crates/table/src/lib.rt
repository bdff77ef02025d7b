// Recipe tables: the records of a table part, and the check of a whole table.

#![tactic(auto)]

pub mod check;
pub mod record;
pub mod refusal;
