// The call of a line that was read.
ghost use Rattle.std.specs.Prelude.{◌≡◌, option_map};
ghost use Rattle.plain.specs.Steps.{call_step};
ghost use Rattle.script.specs.Lines.{request};
ghost use Rattle.script.specs.Calls.{call_in, step_of, tables_of};

use crate::line::Line;
use crate::reading::ReadLine;
use plain::{Call, Head};
use profile::Profile;

// The call with its bytes. None for a line that asks for none, and for a close without a profile.
fn call_with<'b, P: Profile>(
    line: Line<'_>,
    bytes: &'b [u8],
    profile: Option<&'b P>,
) -> Option<Call<'b, P>>
    ensures { option_map (call_step P.Profile.tables) result
        ≡ step_of (tables_of P.Profile.tables profile.entry) bytes.now (request line.entry) }
{
    Some(match line {
        Line::Blank | Line::Begin(_) => return None,
        Line::Head {
            byte3,
            csb,
            cs,
            map_type,
            ..
        } => Call::Head(Head {
            byte3,
            csb,
            cs,
            map_type,
            map_info: bytes,
        }),
        Line::Add { position, code, .. } => Call::Add {
            position,
            code,
            body: bytes,
        },
        Line::Replace { position, code, .. } => Call::Replace {
            position,
            code,
            body: bytes,
        },
        Line::Remove { position } => Call::Remove { position },
        Line::Close {
            sign_type,
            length,
            ..
        } => Call::Close {
            profile: profile?,
            sign_type,
            length,
        },
        Line::Sign(_) => Call::Sign(bytes),
        Line::Withdraw => Call::Withdraw,
        Line::Release => Call::Release,
    })
}

impl ReadLine<'_> {
    /// The call that the line is, with its bytes in the scratch that it was read into, and at a
    /// close with the profile that it names, which the caller has found. None for a blank line and
    /// a begin, which are no calls on a draft; for a close without a profile; and for a scratch
    /// that is shorter than the line's bytes.
    pub fn call<'b, P: Profile>(
        &self,
        scratch: &'b [u8],
        profile: Option<&'b P>,
    ) -> Option<Call<'b, P>>
        ensures { option_map (call_step P.Profile.tables) result
            ≡ call_in (tables_of P.Profile.tables profile.entry) scratch.now
            self.now.length (request self.now.line) }
    {
        call_with(self.line, scratch.get(..self.length)?, profile)
    }
}
