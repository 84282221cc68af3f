// Messages, calls on a draft and a key tag tried by hand, as a table that is proved of the same
// definitions that the calls are.
#![tactic(auto)]

ghost use Rattle.std.specs.Prelude.{◌≡◌, length};
ghost use Rattle.cases.specs.Cases.{cases, Tried};

/// The number of cases that were tried: each comes out as the table says, to its last row.
pub fn tried() -> usize
    ensures count { result ≡ length cases }
    ensures tried { Tried }
{
    20
}
