// What a profile, and then a verifier, say of a message that was walked.
ghost use Rattle.std.specs.Prelude.{◌≡◌};
ghost use Rattle.reader.specs.Reading.{signer_in, verify_answer};
ghost use Rattle.reader.specs.Judges.{Judges};

use layout::{Idr, body_of};
use profile::{Profile, admit};
use verifier::Verifier;
use walk::first_in_slot;
use wire::{Refusal, Row, Slot, bytes_at, bytes_from};

// The ID data of the first IDR of role 1; no bytes if there is none.
fn signer<'a>(message: &'a [u8], rows: &[Row]) -> &'a [u8]
    ensures { result.now ≡ signer_in message.now rows.now }
{
    match first_in_slot(rows, Slot::SIGNER) {
        Some(row) => {
            let payload = bytes_at(message, row.start as usize, row.length as usize);
            let body = body_of(payload);
            Idr { body }.content()
        }
        None => &[],
    }
}

fn verify<V: Verifier>(
    message: &[u8],
    rows: &[Row],
    span: usize,
    verifier: &V,
) -> Result<(), Refusal>
    ensures { result ≡ verify_answer (V.passing verifier.now) message.now rows.now span }
{
    let spanned = bytes_at(message, 0, span);
    let signature = bytes_from(message, span);
    if verifier.passes(signer(message, rows), spanned, signature) {
        Ok(())
    } else {
        Err(Refusal::NotPassed(span))
    }
}

/// Asks a profile, and then a verifier, about a message that was walked: by its rows, one for each
/// payload, and the length of its span.
///
/// Rows and a span that were told of other bytes are judged too, by what lies there.
pub fn judge<P: Profile, V: Verifier>(
    message: &[u8],
    rows: &[Row],
    span: usize,
    profile: &P,
    verifier: &V,
) -> Result<(), Refusal>
    ensures { Judges (P.tables profile.now) (V.passing verifier.now) message.now rows.now span
        result }
{
    admit(profile, message, rows)?;
    verify(message, rows, span, verifier)
}
