// The sessions of a map, one after the other.
ghost use Rattle.std.specs.Prelude.{◌≡◌, ◌+◌, ℕ, List, ◌++◌, take, drop};
ghost use Rattle.std.specs.Iterator.{YieldsFirstBy, item_count};
ghost use Rattle.wire.specs.Layouts.{Sessions as DrawnSessions};
ghost use Rattle.wire.specs.Extents.{policy_count};
ghost use Rattle.layout.specs.Cursors.{sessions_in, Covers};
ghost use Rattle.layout.specs.Sessions.{session_seen, sessions_left};

use crate::sessions::{policy_count, session_length};
use wire::bytes_at;

/// A session, where it begins, and where its first policy number stands.
#[derive(Clone, Copy)]
pub struct SessionView<'a> {
    pub at: usize,
    pub policies_at: usize,
    pub bytes: &'a [u8],
}

impl<'a> SessionView<'a> {
    /// The policy numbers, a byte each.
    pub fn policies(&self) -> &'a [u8]
        ensures { result.now ≡ take (policy_count self.now.bytes.now) (drop 3 self.now.bytes.now) }
    {
        bytes_at(self.bytes, 3, policy_count(self.bytes))
    }
}

/// The sessions of a map that are all there and keep their rules, up to the first that doesn't.
#[derive(Clone, Copy)]
pub struct Sessions<'a> {
    left: u8,
    at: usize,
    bytes: &'a [u8],
}

impl<'a> Sessions<'a> {
    /// So many sessions, of which the first begins at a place. Places count from the bytes' start.
    pub fn new(count: u8, from: usize, bytes: &'a [u8]) -> Self
        ensures is { sessions_left result ≡ sessions_in count from (drop from bytes.now) }
        // Of a map that is drawn each session is handed out.
        ensures drawn { (info rest : List ℕ) → DrawnSessions count info
            → drop from bytes.now ≡ info ++ rest → Covers count info (sessions_left result) }
    {
        Sessions {
            left: count,
            at: from,
            bytes,
        }
    }
}

impl<'a> Iterator for Sessions<'a> {
    type Item = SessionView<'a>;

    ghost next_gives = { YieldsFirstBy session_seen sessions_left };

    ghost remaining = { item_count sessions_left };

    fn next(&mut self) -> Option<SessionView<'a>> {
        if self.left == 0 {
            return None;
        }
        let at = self.at;
        match session_length(at, self.bytes) {
            Ok(length) => {
                self.left -= 1;
                self.at += length;
                Some(SessionView {
                    at,
                    policies_at: at + 3,
                    bytes: bytes_at(self.bytes, at, length),
                })
            }
            Err(_) => {
                self.left = 0;
                None
            }
        }
    }
}
