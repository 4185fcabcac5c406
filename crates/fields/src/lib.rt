// The field calls: whether a field of an outer ring and up to sixteen inner ones is accepted, and where a point stands to it. A field is lent as two slices: the corner count of each ring, the outer one
// first, and the numbers of all rings one after the other, X and Y of each corner in turn. Each call answers as the rules do, refusals included, for every input; none
// copies the rings.
#![tactic(auto)]

ghost use Rattle.std.specs.Prelude.{◌≡◌};
ghost use Rattle.rules.specs.FieldAnswers.{accept_answer, join_answer, field_nozzle_answer, field_position_answer};
ghost use Rattle.rings.specs.Answers.{nozzle_paper};
ghost use Rattle.fields.specs.Checks.{field_checked};
ghost use Rattle.terms.specs.Papers.{corner_of, passed_paper};

use crate::field::Field;
use terms::{Corner, Position, Refusal};

mod counts;
mod field;
mod placing;
mod reading;
mod standing;

// Refuses a field by its numbers alone: 6, 7 or 8 of a ring, or 16, the first that is met ring by ring. Crossing, 9, and where the rings lie, 15, are not asked.
pub fn check(counts: &[u32], corners: &[i64]) -> Result<(), Refusal>
    ensures { passed_paper result ≡ field_checked counts.now corners.now }
{
    let field = Field::of(counts, corners)?;
    reading::check(&field)
}

// Whether a ring may join a field that was accepted before: the field is read, and then the ring's own 16, 6, 7, 8, 9 and 15.
pub fn join(counts: &[u32], corners: &[i64], ring: &[i64]) -> Result<(), Refusal>
    ensures { passed_paper result ≡ join_answer counts.now corners.now ring.now }
{
    let field = Field::of(counts, corners)?;
    reading::check(&field)?;
    placing::join(&field, ring)
}

// Whether a field is accepted: ring by ring, the outer one first, its 6, 7, 8 and 9, of an inner ring 15 after these, and 16 before anything is said of the seventeenth.
pub fn accept(counts: &[u32], corners: &[i64]) -> Result<(), Refusal>
    ensures { passed_paper result ≡ accept_answer counts.now corners.now }
{
    let field = Field::of(counts, corners)?;
    rings::crossing(field.outer())?;
    placing::accept_inner(&field)
}

// Where a point stands to a field, which is accepted first.
pub fn nozzle(counts: &[u32], corners: &[i64], p: Corner) -> Result<Position, Refusal>
    ensures { nozzle_paper result ≡ field_nozzle_answer counts.now corners.now (corner_of p) }
{
    accept(counts, corners)?;
    position(counts, corners, p)
}

// Where a point stands to a field that was accepted before: the checks 6, 7 and 8 of each ring are made, and 16; never 9 and 15.
pub fn position(counts: &[u32], corners: &[i64], p: Corner) -> Result<Position, Refusal>
    ensures { nozzle_paper result ≡ field_position_answer counts.now corners.now (corner_of p) }
{
    let field = Field::of(counts, corners)?;
    standing::over_rings(&field, p)
}
