// Moves and writes in the buffer of a draft. Each function is given the buffer and where its bytes
// in use end, and asks that its part lies within: a struct of the two would be borrowed from the
// draft's own fields at each call, and ask the same of its caller.
ghost use Rattle.std.specs.Prelude.{◌≡◌, ◌+◌, ◌-◌, ◌<◌, ◌≤◌, [], ◌∷◌, ◌++◌, length, take, drop, replicate, slice_set};
ghost use Rattle.wire.specs.Messages.{header_bytes};
ghost use Rattle.plain.specs.Steps.{header_of_head};
ghost use Rattle.drafter.specs.Buffers.{resize_of, IsSplice, IsPlaced, write_of};

use crate::location::Region;
use plain::Head;
use wire::{Kind, SAKKE_MESSAGE, VERSION};

// The first `counted` bytes become zeros.
pub(crate) fn clear(buffer: &mut [u8], counted: usize)
    requires { counted ≤ length buffer.old }
    ensures { buffer.new ≡ replicate counted 0 ++ drop counted buffer.old }
{
    buffer[..counted].fill(0);
}

// The first `old` bytes of a tail give way to `new` ones. What lies after them, up to `used`,
// moves once, and zeros take what it leaves.
fn resize(tail: &mut [u8], used: usize, old: usize, new: usize)
    requires { (old ≤ used) × ((used ≤ length tail.old) × (used - old + new ≤ length tail.old)) }
    ensures { drop new tail.new ≡ resize_of used old new tail.old }
{
    let last = used - old + new;
    tail.copy_within(old..used, new);
    tail[last..used.max(last)].fill(0);
}

// Two parts, one after the other.
fn put(gap: &mut [u8], front: &[u8], rest: &[u8])
    requires { length gap.old ≡ length front.now + length rest.now }
    ensures { gap.new ≡ front.now ++ rest.now }
{
    let (first, second) = gap.split_at_mut(front.len());
    first.copy_from_slice(front);
    second.copy_from_slice(rest);
}

// Two parts in the place of the `old` bytes at `at`. What lies after those, up to `end`, follows.
fn splice(buffer: &mut [u8], end: usize, at: usize, old: usize, front: &[u8], rest: &[u8])
    requires { (at + old ≤ end) × ((end ≤ length buffer.old)
        × (end - old + (length front.now + length rest.now) ≤ length buffer.old)) }
    ensures { IsSplice end at old (front.now ++ rest.now) buffer.old buffer.new }
{
    let new = front.len() + rest.len();
    resize(&mut buffer[at..], end - at, old, new);
    put(&mut buffer[at..at + new], front, rest);
}

// A payload in the place of a part.
pub(crate) fn place(buffer: &mut [u8], end: usize, region: Region, code: u8, body: &[u8])
    requires region { (region.location.at + region.size ≤ end)
        × (region.location.naming < length buffer.old) }
    requires room { (end ≤ length buffer.old)
        × (end - region.size + (1 + length body.now) ≤ length buffer.old) }
    ensures { IsPlaced end region.location region.size (region.next
        ∷ body.now) code buffer.old buffer.new }
{
    splice(
        buffer,
        end,
        region.location.at,
        region.size,
        &[region.next],
        body,
    );
    buffer[region.location.naming] = code;
}

// A part goes, and what follows it is named in its place.
pub(crate) fn delete(buffer: &mut [u8], end: usize, region: Region)
    requires region { (region.location.at + region.size ≤ end)
        × (region.location.naming < length buffer.old) }
    requires room { end ≤ length buffer.old }
    ensures { IsPlaced end region.location region.size [] region.next buffer.old buffer.new }
{
    splice(buffer, end, region.location.at, region.size, &[], &[]);
    buffer[region.location.naming] = region.next;
}

// The ten bytes of a header before its map info.
fn fixed(next: u8, head: &Head<'_>) -> [u8; 10]
    ensures { result ++ head.now.map_info.now ≡ header_bytes next (header_of_head head.now) }
{
    let [a, b, c, d] = head.csb.to_be_bytes();
    [
        VERSION,
        SAKKE_MESSAGE,
        next,
        head.byte3,
        a,
        b,
        c,
        d,
        head.cs,
        head.map_type,
    ]
}

// A header in the place of the `old` bytes at the front. `next` is the code of what follows it.
pub(crate) fn put_header(buffer: &mut [u8], end: usize, old: usize, next: u8, head: &Head<'_>)
    requires { (old ≤ end) × ((end ≤ length buffer.old)
        × (end - old + (10 + length head.now.map_info.now) ≤ length buffer.old)) }
    ensures { IsSplice end 0 old (header_bytes next (header_of_head head.now)) buffer.old buffer.new }
{
    splice(buffer, end, 0, old, &fixed(next, head), head.map_info);
}

// Bytes over those from `at` on.
pub(crate) fn write_at(buffer: &mut [u8], at: usize, bytes: &[u8])
    requires { at + length bytes.now ≤ length buffer.old }
    ensures { buffer.new ≡ write_of at bytes.now buffer.old }
{
    let end = at + bytes.len();
    buffer[at..end].copy_from_slice(bytes);
}

// The front of SIGN at `end`, and its code where it is named. The signature after it is as it was:
// zeros.
pub(crate) fn put_sign(buffer: &mut [u8], naming: usize, end: usize, front: [u8; 2])
    requires { (naming < end) × (end + 2 ≤ length buffer.old) }
    ensures { buffer.new ≡ slice_set (write_of end front buffer.old) naming 4 }
{
    write_at(buffer, end, &front);
    buffer[naming] = Kind::Sign.code();
}

// SIGN goes, from `end` up to `full`, and nothing is named.
pub(crate) fn clear_sign(buffer: &mut [u8], naming: usize, end: usize, full: usize)
    requires { (naming < end) × ((end ≤ full) × (full ≤ length buffer.old)) }
    ensures { buffer.new ≡ slice_set (write_of end (replicate (full - end) 0) buffer.old) naming 0 }
{
    buffer[end..full].fill(0);
    buffer[naming] = 0;
}
