// The tests that a call begins with: numbers 6 and 7, and for a stage step 5. The slices are only
// read.
ghost use Rattle.std.specs.Prelude.{◌≡◌};
ghost use Rattle.rules.specs.Limits.{limits};
ghost use Rattle.tables.specs.Regions.{state_in};
ghost use Rattle.calls.specs.Checks.{sound_check, stage_check};

use crate::room::has_room;
use soundness::is_sound;
use tables::{PlanarGraph, Refusal};

// Numbers 6 and 7: the first test that fails, or none.
pub fn check_sound(
    graph: PlanarGraph,
    floats: &[f64],
    numbers: &[u16],
    stars: &[u16],
    marks: &[bool],
    ids: &[u32],
) -> Result<(), Refusal>
    ensures { result ≡ sound_check limits (state_in limits graph floats.now numbers.now stars.now marks.now ids.now) }
{
    if has_room(floats, numbers, stars, marks, ids) {
        if is_sound(graph, floats, numbers, stars, marks, ids) {
            return Ok(());
        }
        return Err(Refusal::Unsound);
    }
    Err(Refusal::TableTooShort)
}

// Numbers 6, 7 and 5: the graph is in the stage that the call needs.
pub fn check_stage(
    stage: u8,
    graph: PlanarGraph,
    floats: &[f64],
    numbers: &[u16],
    stars: &[u16],
    marks: &[bool],
    ids: &[u32],
) -> Result<(), Refusal>
    ensures { result ≡ stage_check limits stage (state_in limits graph floats.now numbers.now stars.now marks.now ids.now) }
{
    check_sound(graph, floats, numbers, stars, marks, ids)?;
    if graph.stage == stage {
        return Ok(());
    }
    Err(Refusal::WrongStage)
}
