// The header of a message.
ghost use Rattle.std.specs.Prelude.{◌≡◌, ◌+◌, ◌≤◌, length, IfOk};
ghost use Rattle.wire.specs.Answers.{map_ok};
ghost use Rattle.wire.specs.Limits.{fixed_header};
ghost use Rattle.wire.specs.Walking.{header_answer};

use layout::{map_fits, sessions_end};
use wire::{FIXED_HEADER, Refusal, SAKKE_MESSAGE, VERSION};

// The length of the header: ten fixed bytes, then the sessions of its map.
pub(crate) fn header(message: &[u8]) -> Result<usize, Refusal>
    ensures answer { result
        ≡ map_ok (λ info. fixed_header + length info) (header_answer message.now) }
    ensures within { IfOk result (λ n. (fixed_header ≤ n) × (n ≤ length message.now)) }
{
    let [version, data_type, _, _, _, _, _, _, cs, map_type, ..] = message else {
        return Err(Refusal::TooShort(message.len()));
    };
    if *version != VERSION {
        return Err(Refusal::Version);
    }
    if *data_type != SAKKE_MESSAGE {
        return Err(Refusal::DataType);
    }
    if !map_fits(*cs, *map_type) {
        return Err(Refusal::SessionMap(8));
    }
    sessions_end(*cs, FIXED_HEADER, message)
}
