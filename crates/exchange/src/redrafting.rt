// A message drafted again from its own records.
ghost use Rattle.std.specs.Prelude.{◌≡◌, ◌≤◌, length};
ghost use Rattle.plain.specs.Steps.{header_of_head};
ghost use Rattle.exchange.specs.Redrafts.{IsAdmittedMessageIn, IsHeaderIn, DraftsMessage, Redrafts};

use drafter::begin;
use plain::Head;
use profile::Profile;
use reader::read;
use std::ops::Range;
use verifier::Verifier;
use wire::{MOST_PAYLOADS, Refusal, Row, Walked};

// The header in the first `header` bytes of a message.
fn head_of<'a>(message: &'a [u8], header: usize) -> Head<'a>
    requires least { 10 ≤ header }
    requires inside { header ≤ length message.now }
    ensures { IsHeaderIn message.now header (header_of_head result) }
{
    Head {
        byte3: message[3],
        csb: u32::from_be_bytes([message[4], message[5], message[6], message[7]]),
        cs: message[8],
        map_type: message[9],
        map_info: &message[10..header],
    }
}

// Makes the calls that draft a message which was read: head, add for each payload but SIGN, close
// and sign. None is refused. Answers the length delivered, and gives the buffer back.
fn draft_again<'a, P: Profile>(
    message: &[u8],
    rows: &[Row],
    walked: &Walked,
    profile: &P,
    buffer: &'a mut [u8],
) -> (usize, &'a mut [u8])
    requires told { IsAdmittedMessageIn (P.tables profile.now) message.now walked.now rows.now }
    requires room { length message.now ≤ length buffer.old }
    ensures drafted { DraftsMessage (P.tables profile.now) message.now buffer.old result.1.now
        result.0 }
    ensures lent { result.1.ghost_name ≡ buffer.entry.ghost_name }
{
    let last = walked.count - 1;
    let mut open = begin(buffer);
    let head = head_of(message, walked.header);
    let _ = open.head(head.byte3, head.csb, head.cs, head.map_type, head.map_info);
    for (i, row) in rows[..last].iter().enumerate() {
        let Range { start, end } = row.range();
        let _ = open.add(i, row.code, &message[start + 1..end]);
    }
    let sign_type = message[walked.span - 2] / 16;
    let signature = &message[walked.span..];
    let mut out = open.close(profile, sign_type, signature.len());
    let _ = out.sign(signature);
    out.release()
}

/// Reads a message under a profile and a verifier, and drafts it again from its own records in the
/// buffer. Answers its length in bytes.
///
/// It refuses what read refuses, and by `NoRoom` a message that is longer than the buffer, which is
/// then as it was.
pub fn redraft<P: Profile, V: Verifier>(
    message: &[u8],
    profile: &P,
    verifier: &V,
    buffer: &mut [u8],
) -> Result<usize, Refusal>
    ensures { Redrafts (P.tables profile.now) (V.passing verifier.now) message.now
        buffer.old buffer.new result }
{
    let mut rows = [Row::BLANK; MOST_PAYLOADS];
    let walked = read(message, &mut rows, profile, verifier)?;
    if buffer.len() < message.len() {
        return Err(Refusal::NoRoom);
    }
    let (length, _buffer) = draft_again(message, &rows, &walked, profile, buffer);
    Ok(length)
}
