// Bytes in hexadecimal, where `-` stands for no bytes.
use crate::fault::Fault;
use hex::encode;
use std::alloc::AllocError;

// Room for the bytes that a word spells, two digits for each. Where there is not so much memory, a
// word with a wrong digit still makes its line no call.
pub fn scratch_for(rt: &HostRuntime, word: &str) -> Result<Vec<u8>, Fault> {
    vec![in rt.alloc(); 0; word.len() / 2].map_err(|error| {
        if word.bytes().all(|byte| byte.is_ascii_hexdigit()) {
            error.into()
        } else {
            Fault::NoCall
        }
    })
}

// The bytes in lower-case digits.
pub fn spelled(rt: &HostRuntime, bytes: &[u8]) -> Result<String, AllocError> {
    if bytes.is_empty() {
        return String::from_str(rt.alloc(), "-");
    }
    encode(rt.alloc(), bytes)
}
