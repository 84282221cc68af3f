// The trust file: a signer a line.
use crate::fault::Fault;
use verifier::TrustList;

// Enters each line as it stands. The last may go without its line feed.
pub fn enter_all<'a, V>(
    list: &mut TrustList<V>,
    file: &'a str,
    text: &[u8],
) -> Result<(), Fault<'a>> {
    let lines = text.split_inclusive(|byte| *byte == b'\n');
    for (line, signer) in (1..=usize::MAX).zip(lines) {
        let signer = signer.strip_suffix(b"\n").unwrap_or(signer);
        list.enter(signer).map_err(|refusal| Fault::LineRefused {
            file,
            line,
            refusal,
        })?;
    }
    Ok(())
}
