//! The octets of what arrives.
ghost use Rattle.std.specs.Prelude.{◌≡◌, take, length};
ghost use Rattle.dialling.specs.Network.{spoiled_octets};

use type3::{LONGEST, OctetBuffer};

// The octet of which a bit is changed.
const THIRD: usize = 2;

// The first octets, as many as the longest type 3 packet has. (The audio packets here have ten.)
fn buffer(octets: &[u8]) -> [u8; LONGEST]
    ensures { take (length octets.now) result ≡ take LONGEST octets.now }
{
    let mut buffer = [0; LONGEST];
    let count = octets.len().min(LONGEST);
    buffer[..count].copy_from_slice(&octets[..count]);
    buffer
}

/// A copy, of at most so many octets.
pub fn copy_of(octets: &[u8]) -> OctetBuffer<LONGEST>
    ensures { result ≡ take LONGEST octets.now }
{
    OctetBuffer::new(buffer(octets), octets.len())
}

/// The same with the lowest bit of the third octet changed, if there is one.
pub fn spoiled_copy_of(octets: &[u8]) -> OctetBuffer<LONGEST>
    ensures { result ≡ spoiled_octets (take LONGEST octets.now) }
{
    let mut buffer = buffer(octets);
    buffer[THIRD] ^= 1;
    OctetBuffer::new(buffer, octets.len())
}
