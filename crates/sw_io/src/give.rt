// What a read of a source in memory does.
ghost use Rattle.std.specs.Prelude.{◌≡◌, ◌≤◌, ◌<◌, [], take, length};

/// Copies the first bytes into `buf`, at most `most`, and as many as there are and fit.
pub fn give(bytes: &[u8], most: usize, buf: &mut [u8]) -> usize
    requires { 1 ≤ most }
    ensures most { result ≤ most }
    ensures fits { result ≤ length buf.new }
    ensures there { result ≤ length bytes.now }
    ensures front { take result buf.new ≡ take result bytes.now }
    ensures none { result ≡ 0 → 0 < length buf.new → bytes.now ≡ [] }
{
    let count = most.min(buf.len()).min(bytes.len());
    buf[..count].copy_from_slice(&bytes[..count]);
    count
}
