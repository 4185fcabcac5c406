// The corner counts of a field's rings, as they are lent: any numbers.
ghost use Rattle.std.specs.Prelude.{◌≡◌, not, ◌*◌, eqb};
ghost use Rattle.rules.specs.FieldAnswers.{summed};

// Whether the counts do not add up to just so many numbers, two for each corner. What is left of the numbers is counted down, so that no sum can overflow.
#[tactic(auto, using(crate::specs::Laws::Cut::too_few, crate::specs::Laws::Cut::left_over, crate::specs::Laws::Cut::summed_more))]
pub fn uneven(counts: &[u32], numbers: usize) -> bool
    ensures { result ≡ not (eqb (2 * summed counts.now) numbers) }
{
    let mut left = numbers;
    for &count in counts {
        let count = count as usize;
        if left / 2 < count {
            return true;
        }
        left -= 2 * count;
    }
    0 < left
}
