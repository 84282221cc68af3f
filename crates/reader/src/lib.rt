// Reads a message under a profile and a verifier.
#![tactic(auto)]

mod judgement;

ghost use Rattle.reader.specs.Reads.{Reads};

pub use judgement::judge;
use profile::Profile;
use verifier::Verifier;
use walk::walk_table;
use wire::{MOST_PAYLOADS, Refusal, Row, Walked};

/// Tells the payloads of a message that the profile admits and the verifier passes, in the first 24
/// rows, blank after the last, and three numbers. Where it refuses, the rows are as they were.
pub fn read<P: Profile, V: Verifier>(
    message: &[u8],
    rows: &mut [Row],
    profile: &P,
    verifier: &V,
) -> Result<Walked, Refusal>
    ensures { Reads (P.tables profile.now) (V.passing verifier.now) message.now rows.old result
        rows.new }
{
    if rows.len() < MOST_PAYLOADS {
        return Err(Refusal::FewRows);
    }
    // A table of its own: the caller's rows stay as they were until the last check has passed.
    let mut table = [Row::BLANK; MOST_PAYLOADS];
    let walked = walk_table(message, &mut table)?;
    judge(
        message,
        &table[..walked.count],
        walked.span,
        profile,
        verifier,
    )?;
    rows[..MOST_PAYLOADS].copy_from_slice(&table);
    Ok(walked)
}
