// Numbers that the format fixes.

/// The version, which is the first byte of a message (RFC 3830, 6.1).
pub const VERSION: u8 = 1;

/// The data type of a SAKKE message, which is the second byte (RFC 6509).
pub const SAKKE_MESSAGE: u8 = 26;

/// The longest message, and how many bytes of a draft's buffer count at most.
pub const LONGEST: usize = 8192;

/// How many bytes a header has before its map info.
pub const FIXED_HEADER: usize = 10;

/// The longest signature.
pub const LONGEST_SIGNATURE: usize = 4095;

/// How many payloads a message may have, SIGN among them, and how many rows a table.
pub const MOST_PAYLOADS: usize = 24;
