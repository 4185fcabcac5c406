// A field that was accepted before, read again: the checks of each ring's numbers, the outer one first, and 16 at the seventeenth inner ring.
ghost use Rattle.std.specs.Prelude.{◌≡◌, ◌<◌, ◌≤◌, length, MatchResult};
ghost use Rattle.rules.specs.FieldAnswers.{cut, inner_checks};
ghost use Rattle.fields.specs.Checks.{inner_checked, rings_checked};
ghost use Rattle.terms.specs.Papers.{passed_paper, refusal_paper};

use crate::field::Field;
use terms::Refusal;

// 16 and 6 of an inner ring by its place alone and its length, before its numbers are asked; so many inner rings came before it.
#[tactic(auto, using(crate::specs::Laws::Inner::seventeenth, crate::specs::Laws::Inner::too_long))]
pub fn check_place(before: usize, ring: &[i64]) -> Result<(), Refusal>
    ensures { MatchResult result (λ _. (before < 16) × (length ring.now ≤ 256)) (λ refusal. refusal_paper refusal ≡ inner_checks before ring.now) }
{
    if 16 <= before {
        return Err(Refusal::TooManyRings);
    }
    if 256 < ring.len() {
        return Err(Refusal::CornerCount);
    }
    Ok(())
}

// 16, 6, 7 or 8 of an inner ring, the first that is met.
#[tactic(auto, using(crate::specs::Laws::Inner::not_long, ring_checks::proofs::Laws::Steps::refused_then))]
fn check_inner(before: usize, ring: &[i64]) -> Result<(), Refusal>
    ensures { passed_paper result ≡ inner_checked before ring.now }
{
    check_place(before, ring)?;
    rings::check(ring)
}

// The first refusal of a ring.
// Where the next ring starts is known from the counts before it, so `at` goes along, as in `accept_each`.
#[tactic(auto, using(crate::specs::Laws::Reading::reading_refused_first, crate::specs::Laws::Reading::reading_start, crate::specs::Laws::Reading::reading_inside))]
pub fn check(field: &Field) -> Result<(), Refusal>
    ensures { passed_paper result ≡ rings_checked (cut field.now.counts.now field.now.corners.now) }
{
    let outer = field.outer();
    rings::check(outer)?;
    let mut at = outer.len();
    for k in 1..field.counts.len() {
        let end = at + 2 * (field.counts[k] as usize);
        check_inner(k - 1, &field.corners[at..end])?;
        at = end;
    }
    Ok(())
}
