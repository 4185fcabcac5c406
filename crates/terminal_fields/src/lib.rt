// The field calls as a terminal has them: a number that is returned, 0 or the refusal, and memory that is lent for the answer and for the place of refusal 9. The C interface
// hands these on; they stand in a crate of their own so that it stays small.
#![tactic(auto)]

ghost use Rattle.std.specs.Prelude.{◌≡◌, ◌∷◌, []};
ghost use Rattle.rules.specs.FieldAnswers.{accept_answer, field_nozzle_answer, field_position_answer};
ghost use Rattle.rings.specs.Answers.{nozzle_paper, refusal_of};
ghost use Rattle.ring_corners.specs.Corners.{corner};
ghost use Rattle.terminal_fields.specs.Lent.{lent, place_lent, nozzle_number, place_of, Held};
ghost use Rattle.terms.specs.Papers.{nozzle_of};

use terms::{Corner, Position, Refusal};

// Writes the place of refusal 9: the ring, its two edges and the pairs of edges looked at.
// As `mark` of terminal, for one array with the ring in it.
fn mark(refusal: Refusal, place: &mut [i64; 4])
    requires { Held refusal }
    ensures { place.new ≡ place_of refusal place.old }
{
    if let Refusal::RingCrossed(pair) = refusal {
        *place = [
            pair.ring as i64,
            pair.low as i64,
            pair.high as i64,
            pair.looked_at as i64,
        ];
    }
}

// Whether a field is accepted. `place` has on 9 the ring, its two edges and the pairs of edges looked at.
pub fn accept(counts: &[u32], corners: &[i64], place: &mut [i64; 4]) -> u8
    ensures number { result ≡ refusal_of (accept_answer counts.now corners.now) }
    ensures place { place.new ≡ place_lent (accept_answer counts.now corners.now) place.old }
{
    match fields::accept(counts, corners) {
        Ok(()) => 0,
        Err(refusal) => {
            mark(refusal, place);
            refusal.number()
        }
    }
}

fn number_of(position: Position) -> i64
    ensures { result ∷ [] ≡ nozzle_number (nozzle_of position) }
{
    match position {
        Position::Shut => 0,
        Position::Open => 1,
        Position::Border => 2,
    }
}

// Writes where a point stands to a ring or a field, unless it was refused, and returns the number of the refusal or 0.
pub fn store(said: Result<Position, Refusal>, answer: &mut [i64; 1]) -> u8
    ensures number { result ≡ refusal_of (nozzle_paper said) }
    ensures holds { answer.new ≡ lent nozzle_number (nozzle_paper said) answer.old }
{
    match said {
        Ok(position) => {
            *answer = [number_of(position)];
            0
        }
        Err(refusal) => refusal.number(),
    }
}

// The nozzle at a point: 0 shut, 1 open, 2 border. `place` has on 9 the ring, its two edges and the pairs of edges looked at.
// The point comes as two numbers, here and in `position`, as the C interface hands it on.
pub fn nozzle(
    counts: &[u32],
    corners: &[i64],
    px: i64,
    py: i64,
    answer: &mut [i64; 1],
    place: &mut [i64; 4],
) -> u8
    ensures number { result ≡ refusal_of (field_nozzle_answer counts.now corners.now (corner px py)) }
    ensures holds { answer.new ≡ lent nozzle_number (field_nozzle_answer counts.now corners.now (corner px py)) answer.old }
    ensures place { place.new ≡ place_lent (field_nozzle_answer counts.now corners.now (corner px py)) place.old }
{
    let said = fields::nozzle(counts, corners, Corner { x: px, y: py });
    if let Err(refusal) = said {
        mark(refusal, place);
    }
    store(said, answer)
}

// The same of a field that was accepted before: 9 and 15 are not judged.
pub fn position(counts: &[u32], corners: &[i64], px: i64, py: i64, answer: &mut [i64; 1]) -> u8
    ensures number { result ≡ refusal_of (field_position_answer counts.now corners.now (corner px py)) }
    ensures holds { answer.new ≡ lent nozzle_number (field_position_answer counts.now corners.now (corner px py)) answer.old }
{
    store(
        fields::position(counts, corners, Corner { x: px, y: py }),
        answer,
    )
}
