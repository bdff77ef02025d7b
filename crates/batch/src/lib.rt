// A batch of recipes: all checked in one call.

#![tactic(auto)]

ghost use Rattle.std.specs.Prelude.{◌≡◌, ◌≤◌, length, Err};
ghost use Rattle.rules.specs.Batch.{count, total, outcome_bytes, outcomes_of, is_batch, checked, check_all_on, IsBatch, BatchSays};
ghost use Rattle.batch.specs.Numbers.{batch_number};

use fields::{put_word, word_at};
use table::check::check_table;

// How many recipes a batch has at most.
const MOST: usize = 64;

// A list of lengths that spells no batch of the buffer, or a space that does not fit it.
#[derive(Clone, Copy)]
pub struct NoBatch;

impl From<NoBatch> for u32 {
    ghost from_gives = { λ refused result. result ≡ batch_number (Err refused) };

    // The number that the published list has for it.
    fn from(_: NoBatch) -> Self {
        26
    }
}

// The lengths of a list added up, of so few that the sum does not wrap.
fn total(lengths: &[u8]) -> usize
    requires { count lengths.now ≤ 64 }
    ensures { result ≡ total (count lengths.now) lengths.now }
{
    let mut sum: usize = 0;
    for length in lengths.chunks_exact(4) {
        sum += word_at(length, 0) as usize;
    }
    sum
}

// Whether a list of lengths spells a batch of so many bytes, with so much space for its outcomes.
fn is_batch(size: usize, lengths: &[u8], space: usize) -> bool
    ensures { result ≡ is_batch size lengths.now space }
{
    let n = lengths.len() / 4;
    lengths.len() % 4 == 0 && n <= MOST && total(lengths) == size && space == 8 * n
}

// Checks a recipe and writes its outcome. (kept: 0 and 0 where it is accepted, as the outcome's bytes have it.)
fn put_outcome(recipe: &[u8], out: &mut [u8])
    requires { length out.old ≡ 8 }
    ensures { out.new ≡ outcome_bytes recipe.now }
{
    let (number, place) = match check_table(recipe) {
        Ok(_) => (0, 0),
        Err(refusal) => (refusal.rule.into(), refusal.place),
    };
    put_word(out, 0, number);
    put_word(out, 4, place);
}

// Checks each recipe of a batch in turn and writes its outcome. (kept: an index, and no zip with `chunks_exact_mut`: of what is written
// through that a proof knows no more than the length.)
fn put_outcomes(recipes: &[u8], lengths: &[u8], out: &mut [u8])
    requires { IsBatch (length recipes.now) lengths.now (length out.old) }
    ensures { out.new ≡ outcomes_of recipes.now lengths.now }
{
    let mut rest = recipes;
    for (i, length) in lengths.chunks_exact(4).enumerate() {
        let (recipe, more) = rest.split_at(word_at(length, 0) as usize);
        put_outcome(recipe, &mut out[8 * i..8 * i + 8]);
        rest = more;
    }
}

// Checks all recipes of a buffer, by the list of their lengths, and writes the outcome of each.
pub fn check_all(recipes: &[u8], lengths: &[u8], outcomes: &mut [u8]) -> Result<(), NoBatch>
    ensures outcomes_after { checked (batch_number result) outcomes.new ≡ check_all_on recipes.now lengths.now outcomes.old }
    ensures batch_says { BatchSays recipes.now lengths.now outcomes.old (checked (batch_number result) outcomes.new) }
{
    if !is_batch(recipes.len(), lengths, outcomes.len()) {
        return Err(NoBatch);
    }
    put_outcomes(recipes, lengths, outcomes);
    Ok(())
}
