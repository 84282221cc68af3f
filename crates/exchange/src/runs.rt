// A list of calls on a draft.
ghost use Rattle.std.specs.Prelude.{◌≡◌, length};
ghost use Rattle.exchange.specs.Runs.{steps_of, all_made, Runs};

use drafter::{State, begin};
use plain::{Call, Reply};
use profile::Profile;

/// How many calls of a list were made, and the length of the encoding held after the last of them,
/// in bytes.
#[derive(Clone, Copy, PartialEq, Eq, Debug)]
pub struct Made {
    pub calls: usize,
    pub length: usize,
}

// Makes each call in turn, and gives the buffer back with the length of the encoding then held.
// When the list is over, a draft that is still out is released, and an open one is ended: neither
// changes the buffer.
fn make_calls<'a, P: Profile>(
    buffer: &'a mut [u8],
    calls: &[Call<'_, P>],
    replies: &mut [Reply],
) -> (usize, &'a mut [u8])
    requires { length calls.now ≡ length replies.old }
    ensures runs { Runs (steps_of P.Profile.tables calls.now) buffer.old result.1.now
        replies.old replies.new (all_made calls.now result.0) }
    ensures lent { result.1.ghost_name ≡ buffer.entry.ghost_name }
{
    let mut state = State::Open(begin(buffer));
    // By one index for both: a zip with the replies' iter_mut leaves a proof nothing of what is
    // written.
    for (i, call) in calls.iter().enumerate() {
        let (next, reply) = state.call(call);
        state = next;
        replies[i] = reply;
    }
    let length = state.bytes().len();
    (length, state.end())
}

/// Makes the calls on a draft that begins in the buffer, as many as there is room for replies. A
/// call that the state does not take is told as misplaced. Replies past those of the calls that are
/// made stay as they were. After the last call the draft ends in whichever state: one that is still
/// out is released, and the buffer keeps what the draft held.
pub fn run<P: Profile>(buffer: &mut [u8], calls: &[Call<'_, P>], replies: &mut [Reply]) -> Made
    ensures { Runs (steps_of P.Profile.tables calls.now) buffer.old buffer.new
        replies.old replies.new result }
{
    let n = calls.len().min(replies.len());
    let (length, _buffer) = make_calls(buffer, &calls[..n], &mut replies[..n]);
    Made { calls: n, length }
}
