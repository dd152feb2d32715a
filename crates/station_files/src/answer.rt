// Adding a file, as a number with the small state and the values written on success.
ghost use Rattle.file_taking.specs.Replies.{file_reply};
ghost use Rattle.replies.specs.Lent.{Answered};
ghost use Rattle.station_files.specs.Calls.{file_values};

use file_taking::{FileTaken, end_number};
use replies::{STATE_LENGTH, write_state};
use tables::{Answer, refusal_number};

// How many records were taken, and the number of what ended it.
pub const FILE_LENGTH: usize = 2;

pub fn answer_records(
    state: &mut [u16; STATE_LENGTH],
    reply: &mut [u64; FILE_LENGTH],
    done: Answer<FileTaken>,
) -> u32
    ensures { Answered file_values (file_reply done.reply) done.graph state.old reply.old result state.new reply.new }
{
    let answer = done.reply;
    let graph = done.graph;
    match answer {
        Err(why) => refusal_number(why),
        Ok(file) => {
            let taken = file.count as u64;
            let ended = u64::from(end_number(file.ended));
            *reply = [taken, ended];
            write_state(state, graph);
            0
        }
    }
}
