// What an edit asks of a payload or a map that is offered. Its refusals tell no place.
ghost use Rattle.std.specs.Prelude.{◌≡◌};
ghost use Rattle.plain.specs.Offers.{without_place, check_answer, payload_offer, map_offer};

use layout::{body_length, info_length, map_fits};
use wire::{Kind, Refusal};

// A map that is offered has no place in a message: the two refusals of its sessions that tell one
// tell 0.
fn unplace(refusal: Refusal) -> Refusal
    ensures { result ≡ without_place refusal }
{
    match refusal {
        Refusal::SessionCut(_) => Refusal::SessionCut(0),
        Refusal::SessionRule(_) => Refusal::SessionRule(0),
        other => other,
    }
}

// A known code but not that of SIGN, and a body that is all there, keeps its rule and leaves no
// byte over.
pub(crate) fn check_payload(code: u8, body: &[u8]) -> Result<(), Refusal>
    ensures { result ≡ check_answer (payload_offer code body.now) }
{
    let kind = Kind::of(code)
        .filter(|kind| *kind != Kind::Sign)
        .ok_or(Refusal::UnknownCode(0))?;
    let length = body_length(kind, 0, body)?;
    if length < body.len() {
        return Err(Refusal::BytesLeft(0));
    }
    Ok(())
}

// #CS that goes with the map type, and map info that is so many sessions and nothing more.
pub(crate) fn check_map(cs: u8, map_type: u8, info: &[u8]) -> Result<(), Refusal>
    ensures { result ≡ check_answer (map_offer cs map_type info.now) }
{
    if !map_fits(cs, map_type) {
        return Err(Refusal::SessionMap(0));
    }
    let length = info_length(cs, info).map_err(unplace)?;
    if length < info.len() {
        return Err(Refusal::MapInfoLeft);
    }
    Ok(())
}
