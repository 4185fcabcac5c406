// Where a point stands to a field's rings: so far, and beside one inner ring more. Border on any ring wins over shut, and the first refusal over both, so every ring is asked up to the first that is refused.
ghost use Rattle.std.specs.Prelude.{◌≡◌};
ghost use Rattle.rules.specs.FieldAnswers.{cut};
ghost use Rattle.rules.specs.Laws.Fields.{beside};
ghost use Rattle.rings.specs.Answers.{nozzle_paper};
ghost use Rattle.fields.specs.Walks.{inner_position, rings_position};
ghost use Rattle.terms.specs.Papers.{corner_of, nozzle_of};

use crate::field::Field;
use crate::reading;
use terms::{Corner, Position, Refusal};

// How a point stands to the rings before, and how to one inner ring: how to both. Inside an inner ring it is shut, and a border stays a border.
fn beside(so_far: Position, inner: Position) -> Position
    ensures { nozzle_of result ≡ beside (nozzle_of so_far) (nozzle_of inner) }
{
    match (so_far, inner) {
        (Position::Border, _) | (_, Position::Border) => Position::Border,
        (Position::Open, Position::Shut) => Position::Open,
        _ => Position::Shut,
    }
}

// An inner ring by itself, which has 128 corners at most; so many inner rings came before it.
#[tactic(auto, using(crate::specs::Laws::Inner::not_long, ring_checks::proofs::Laws::Steps::refused_bind), unfolding(crate::specs::Walks::inner_position, rings::specs::Answers::position_answer))]
fn inner_position(before: usize, ring: &[i64], p: Corner) -> Result<Position, Refusal>
    ensures { nozzle_paper result ≡ inner_position before ring.now (corner_of p) }
{
    reading::check_place(before, ring)?;
    rings::position(ring, p)
}

// All rings in turn.
// Where the next ring starts is known from the counts before it, so `at` goes along, as in `accept_each`.
#[tactic(auto, using(crate::specs::Laws::Walks::going_end, crate::specs::Laws::Walks::inside))]
pub fn over_rings(field: &Field, p: Corner) -> Result<Position, Refusal>
    ensures { nozzle_paper result ≡ rings_position (cut field.now.counts.now field.now.corners.now) (corner_of p) }
{
    let outer = field.outer();
    let mut so_far = rings::position(outer, p)?;
    let mut at = outer.len();
    for k in 1..field.counts.len() {
        let end = at + 2 * (field.counts[k] as usize);
        let inner = inner_position(k - 1, &field.corners[at..end], p)?;
        so_far = beside(so_far, inner);
        at = end;
    }
    Ok(so_far)
}
