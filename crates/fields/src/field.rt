// A field as it is lent, once its counts are known to fit its numbers.
ghost use Rattle.std.specs.Prelude.{◌≡◌, true, false, ◌⊎◌, ◌*◌, ◌<◌, length, take, get_or, MatchResult};
ghost use Rattle.rules.specs.FieldAnswers.{summed, uneven};
ghost use Rattle.terms.specs.declared.refusals.Refusal.TheVariants.{CornerCount};

use crate::counts;
use terms::Refusal;

// The corner count of each ring, the outer one first, and the numbers of all rings one after the other. There is an outer ring, and the numbers are just so many.
#[derive(Clone, Copy)]
pub struct Field<'a> {
    pub counts: &'a [u32],
    pub corners: &'a [i64],
    ghost some: { 0 < length counts.now },
    ghost even: { 2 * summed counts.now ≡ length corners.now },
}

impl<'a> Field<'a> {
    // 6 where the counts do not fit the numbers, or there is no ring.
    #[tactic(auto, using(crate::specs::Laws::Calls::even))]
    pub fn of(counts: &'a [u32], corners: &'a [i64]) -> Result<Field<'a>, Refusal>
        ensures { MatchResult result
            (λ field. (field.counts.now ≡ counts.now) × (field.corners.now ≡ corners.now) × (uneven counts.now corners.now ≡ false))
            (λ refusal. (refusal ≡ CornerCount) × ((uneven counts.now corners.now ≡ true) ⊎ (length counts.now ≡ 0))) }
    {
        if counts::uneven(counts, corners.len()) || counts.is_empty() {
            return Err(Refusal::CornerCount);
        }
        Ok(Field { counts, corners })
    }

    // The outer ring.
    #[tactic(auto, using(crate::specs::Laws::Cut::first_inside))]
    pub fn outer(&self) -> &'a [i64]
        ensures first { result.now ≡ take (2 * get_or self.now.counts.now 0 0) self.now.corners.now }
        ensures many { length result.now ≡ 2 * get_or self.now.counts.now 0 0 }
    {
        &self.corners[0..2 * (self.counts[0] as usize)]
    }
}
