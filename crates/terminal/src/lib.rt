// The C interface of the terminal: each call hands on what the library answers. It returns 0 or the refusal's number, and what was lent holds what `Lent` says;
// the number and the lent memory are those of the worked value, and so of an answer that is right (`band`).
// include/misgwalor.h declares and documents the calls; the sizes of the fixed arrays are its duty.
#![tactic(auto)]

ghost use Rattle.std.specs.Prelude.{◌≡◌};
ghost use Rattle.rules.specs.Conversion.{held, RightConversion};
ghost use Rattle.rules.specs.FieldAnswers.{accept_answer, field_nozzle_answer, field_position_answer};
ghost use Rattle.rules.specs.Points.{RightForward, RightInverse, RightPlane, ShowsBoth};
ghost use Rattle.rules.specs.RingAnswers.{area_answer, turning_answer, crossing_answer, nozzle_answer};
ghost use Rattle.rings.specs.Answers.{refusal_of};
ghost use Rattle.rings.specs.Corners.{corner};
ghost use Rattle.projection.specs.Inverse.{worked_inverse};
ghost use Rattle.projection.specs.Worked.{worked_forward};
ghost use Rattle.conversion.specs.Plane.{worked_plane};
ghost use Rattle.conversion.specs.Ring.{worked_conversion};
ghost use Rattle.terminal.specs.Lent.{Held, edges_of, pairs_of, lent, edges_lent, pairs_lent, looked_lent, place_lent, point_numbers, tick_numbers, plane_numbers, whole_number, nozzle_number};

use terms::{Corner, Refusal};

// Latitude and longitude to plane: X, Y, scale and convergence.
#[unsafe(no_mangle)]
pub extern "C" fn misgwalor_forward(code: u8, b: i64, l: i64, answer: &mut [i64; 4]) -> u8
    ensures number { result ≡ refusal_of (worked_forward code b l) }
    ensures holds { answer.new ≡ lent point_numbers (worked_forward code b l) answer.old }
    ensures band { ShowsBoth (RightForward code b l) refusal_of (λ a. lent point_numbers a answer.old) result answer.new }
{
    match projection::forward(code, b, l) {
        Ok(point) => {
            *answer = [point.x, point.y, point.scale, point.convergence];
            0
        }
        Err(point_refused) => point_refused.number(),
    }
}

// Plane to latitude and longitude: B and L.
#[unsafe(no_mangle)]
pub extern "C" fn misgwalor_inverse(code: u8, x: i64, y: i64, answer: &mut [i64; 2]) -> u8
    ensures number { result ≡ refusal_of (worked_inverse code x y) }
    ensures holds { answer.new ≡ lent tick_numbers (worked_inverse code x y) answer.old }
    ensures band { ShowsBoth (RightInverse code x y) refusal_of (λ a. lent tick_numbers a answer.old) result answer.new }
{
    match projection::inverse(code, x, y) {
        Ok(ticks) => {
            *answer = [ticks.latitude, ticks.longitude];
            0
        }
        Err(ticks_refused) => ticks_refused.number(),
    }
}

// Plane to plane between two systems of one ellipsoid: X and Y.
#[unsafe(no_mangle)]
pub extern "C" fn misgwalor_plane_to_plane(
    source: u8,
    target: u8,
    x: i64,
    y: i64,
    answer: &mut [i64; 2],
) -> u8
    ensures number { result ≡ refusal_of (worked_plane source target x y) }
    ensures holds { answer.new ≡ lent plane_numbers (worked_plane source target x y) answer.old }
    ensures band { ShowsBoth (RightPlane source target x y) refusal_of (λ a. lent plane_numbers a answer.old) result answer.new }
{
    match conversion::plane_to_plane(source, target, x, y) {
        Ok(moved) => {
            *answer = [moved.x, moved.y];
            0
        }
        Err(move_refused) => move_refused.number(),
    }
}

// A whole ring from one system to another: the output holds its corners, and past them what it held.
#[unsafe(no_mangle)]
pub extern "C" fn misgwalor_convert_ring(
    source: u8,
    target: u8,
    corners: &[i64],
    output: &mut [i64],
) -> u8
    ensures number { result ≡ refusal_of (worked_conversion source target corners.now output.old) }
    ensures holds { output.new ≡ held (worked_conversion source target corners.now output.old) output.old }
    ensures band { ShowsBoth (RightConversion source target corners.now output.old) refusal_of (λ a. held a output.old) result output.new }
{
    match conversion::convert_ring(source, target, corners, output) {
        Ok(()) => 0,
        Err(ring_refused) => ring_refused.number(),
    }
}

// The doubled area of a ring.
#[unsafe(no_mangle)]
pub extern "C" fn misgwalor_area2(corners: &[i64], answer: &mut [i64; 1]) -> u8
    ensures number { result ≡ refusal_of (area_answer corners.now) }
    ensures holds { answer.new ≡ lent whole_number (area_answer corners.now) answer.old }
{
    match rings::area2(corners) {
        Ok(area) => {
            *answer = [area];
            0
        }
        Err(area_refused) => area_refused.number(),
    }
}

// The turning number of a ring at a point.
#[unsafe(no_mangle)]
pub extern "C" fn misgwalor_turning_number(
    corners: &[i64],
    px: i64,
    py: i64,
    answer: &mut [i64; 1],
) -> u8
    ensures number { result ≡ refusal_of (turning_answer corners.now (corner px py)) }
    ensures holds { answer.new ≡ lent whole_number (turning_answer corners.now (corner px py)) answer.old }
{
    match rings::turning_number(corners, Corner { x: px, y: py }) {
        Ok(turns) => {
            *answer = [turns];
            0
        }
        Err(turns_refused) => turns_refused.number(),
    }
}

// Writes on 9 the first crossed pair of edges, and how many pairs of edges were looked at.
// As `mark` of terminal_fields, for two arrays without the ring, as the C interface has them.
fn mark(refusal: Refusal, edges: &mut [i64; 2], pairs: &mut [i64; 1])
    requires { Held refusal }
    ensures edges { edges.new ≡ edges_of refusal edges.old }
    ensures looked { pairs.new ≡ pairs_of refusal pairs.old }
{
    if let Refusal::RingCrossed(pair) = refusal {
        *edges = [pair.low as i64, pair.high as i64];
        *pairs = [pair.looked_at as i64];
    }
}

// Whether a ring is crossed: 0 where it is clean, and 9 with its first pair of edges; with either, how many pairs of edges were looked at.
#[unsafe(no_mangle)]
pub extern "C" fn misgwalor_crossing(
    corners: &[i64],
    edges: &mut [i64; 2],
    pairs: &mut [i64; 1],
) -> u8
    ensures number { result ≡ refusal_of (crossing_answer corners.now) }
    ensures holds { edges.new ≡ edges_lent (crossing_answer corners.now) edges.old }
    ensures looked { pairs.new ≡ looked_lent (crossing_answer corners.now) pairs.old }
{
    match rings::crossing(corners) {
        Ok(all) => {
            *pairs = [all as i64];
            0
        }
        Err(refusal) => {
            mark(refusal, edges, pairs);
            refusal.number()
        }
    }
}

// The nozzle at a point: 0 shut, 1 open, 2 border; a crossed ring is refused with its first pair of edges, and how many pairs of edges were looked at.
#[unsafe(no_mangle)]
pub extern "C" fn misgwalor_nozzle(
    corners: &[i64],
    px: i64,
    py: i64,
    answer: &mut [i64; 1],
    edges: &mut [i64; 2],
    pairs: &mut [i64; 1],
) -> u8
    ensures number { result ≡ refusal_of (nozzle_answer corners.now (corner px py)) }
    ensures holds { answer.new ≡ lent nozzle_number (nozzle_answer corners.now (corner px py)) answer.old }
    ensures edges { edges.new ≡ edges_lent (nozzle_answer corners.now (corner px py)) edges.old }
    ensures looked { pairs.new ≡ pairs_lent (nozzle_answer corners.now (corner px py)) pairs.old }
{
    let said = rings::nozzle(corners, Corner { x: px, y: py });
    if let Err(refusal) = said {
        mark(refusal, edges, pairs);
    }
    terminal_fields::store(said, answer)
}

// Whether a field is accepted: `counts` has the corners of each ring, the outer one first, and `corners` the rings one after the other. On 9 `place` has the ring, its two
// edges and the pairs of edges looked at.
#[unsafe(no_mangle)]
pub extern "C" fn misgwalor_field_accept(
    counts: &[u32],
    corners: &[i64],
    place: &mut [i64; 4],
) -> u8
    ensures number { result ≡ refusal_of (accept_answer counts.now corners.now) }
    ensures place { place.new ≡ place_lent (accept_answer counts.now corners.now) place.old }
{
    terminal_fields::accept(counts, corners, place)
}

// The nozzle at a point of a field: 0 shut, 1 open, 2 border. On 9 `place` has what it has for `misgwalor_field_accept`.
#[unsafe(no_mangle)]
pub extern "C" fn misgwalor_field_nozzle(
    counts: &[u32],
    corners: &[i64],
    px: i64,
    py: i64,
    answer: &mut [i64; 1],
    place: &mut [i64; 4],
) -> u8
    ensures number { result ≡ refusal_of (field_nozzle_answer counts.now corners.now (corner px py)) }
    ensures holds { answer.new ≡ lent nozzle_number (field_nozzle_answer counts.now corners.now (corner px py)) answer.old }
    ensures place { place.new ≡ place_lent (field_nozzle_answer counts.now corners.now (corner px py)) place.old }
{
    terminal_fields::nozzle(counts, corners, px, py, answer, place)
}

// The same of a field that was accepted before: 9 and 15 are not judged.
#[unsafe(no_mangle)]
pub extern "C" fn misgwalor_field_position(
    counts: &[u32],
    corners: &[i64],
    px: i64,
    py: i64,
    answer: &mut [i64; 1],
) -> u8
    ensures number { result ≡ refusal_of (field_position_answer counts.now corners.now (corner px py)) }
    ensures holds { answer.new ≡ lent nozzle_number (field_position_answer counts.now corners.now (corner px py)) answer.old }
{
    terminal_fields::position(counts, corners, px, py, answer)
}
