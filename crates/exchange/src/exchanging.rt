// The whole way of messages: one is drafted, and one that came in is read at a station and drafted
// again for the archive.
ghost use Rattle.exchange.specs.Runs.{steps_of};
ghost use Rattle.exchange.specs.Promise.{Promise};
ghost use Rattle.exchange.specs.Exchanges.{lent, Exchanges};

use crate::redrafting::redraft;
use crate::runs::{Made, run};
use plain::{Call, Reply};
use profile::Profile;
use reader::read;
use verifier::Verifier;
use wire::{Refusal, Row, Walked};

/// What a station reads under.
#[derive_where(Clone, Copy)]
pub struct Station<'a, S, V> {
    pub profile: &'a S,
    pub verifier: &'a V,
}

/// What run answers of the calls, and read and redraft of the message that came in.
#[derive(Drop)]
pub struct Exchanged {
    pub made: Made,
    pub read: Result<Walked, Refusal>,
    pub again: Result<usize, Refusal>,
}

/// Makes the calls on a draft that begins in the buffer; reads an incoming message, which may be
/// any bytes, at a station into its rows; and drafts it again in the archive's buffer, under the
/// station's profile and verifier. What the draft delivers is for the caller to hand on.
pub fn exchange<P: Profile, S: Profile, V: Verifier>(
    buffer: &mut [u8],
    calls: &[Call<'_, P>],
    replies: &mut [Reply],
    incoming: &[u8],
    station: &Station<'_, S, V>,
    rows: &mut [Row],
    archive: &mut [u8],
) -> Exchanged
    ensures promise { Promise }
    ensures exchanges { Exchanges (steps_of P.Profile.tables calls.now)
        (S.Profile.tables station.now.profile.now) (V.passing station.now.verifier.now) incoming.now
        (lent buffer.old replies.old rows.old archive.old)
        (lent buffer.new replies.new rows.new archive.new) result }
{
    let Station { profile, verifier } = *station;
    let made = run(buffer, calls, replies);
    let read = read(incoming, rows, profile, verifier);
    let again = redraft(incoming, profile, verifier, archive);
    Exchanged { made, read, again }
}
