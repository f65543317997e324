//! What devices in memory write to a buffer.
ghost use Rattle.std.specs.Prelude.{◌≡◌, ◌≤◌, length, take};

// Copies the octets to the start of the buffer, and answers how many they are.
pub(super) fn put_at_start(buf: &mut [u8], octets: &[u8]) -> usize
    requires room { length octets.now ≤ length buf.old }
    ensures count { result ≡ length octets.now }
    ensures start { take (length octets.now) buf.new ≡ octets.now }
    ensures length { length buf.new ≡ length buf.old }
{
    let (start, _) = buf.split_at_mut(octets.len());
    start.copy_from_slice(octets);
    octets.len()
}
