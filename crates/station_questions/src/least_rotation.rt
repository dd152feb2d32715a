// A least rotation, for a caller that hands over numbers and slices.
ghost use Rattle.std.specs.Prelude.{◌≡◌};
ghost use Rattle.rotation.specs.Answers.{rotation_start, start_reply};
ghost use Rattle.station_questions.specs.Questions.{told_by, told_start};

use rotation::{LengthsDiffer, Rotation};
use tables::{Refusal, refusal_number};

// Where it starts, and how many comparisons that took.
const ROTATION_LENGTH: usize = 2;

// Where the least rotation of the keys (xs[i], ys[i]) starts, and the comparisons that finding it took.
#[unsafe(no_mangle)]
pub extern "C" fn tukmiheb_minimum_rotation_index(
    xs: &[u64],
    ys: &[u64],
    reply: &mut [usize; ROTATION_LENGTH],
) -> u32
    ensures { told_by result reply.new ≡ told_start reply.old (start_reply (rotation_start xs.now ys.now)) }
{
    match rotation::minimum_rotation_index(xs, ys) {
        Err(LengthsDiffer) => refusal_number(Refusal::ListTooShort),
        Ok(Rotation { start, comparisons }) => {
            *reply = [start, comparisons];
            0
        }
    }
}
