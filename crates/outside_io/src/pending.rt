// What is pending in an area of a disk in memory, and what a crash makes of it.
ghost use Rattle.outside_io.specs.Pending.{is_in};
ghost use Rattle.std.specs.List.{list_any};
ghost use Rattle.std.specs.Prelude.{◌≡◌, ℕ, ◌<◌, ◌≤◌, false, length, get_or};

/// A range of bytes that was written.
#[derive(Clone, Copy, Debug, PartialEq, Eq)]
pub struct Span {
    pub place: u64,
    pub count: u64,
}

impl Span {
    /// Whether the place is in the range.
    fn has(self, k: u64) -> bool
        ensures { result ≡ is_in k self }
    {
        self.place <= k && k - self.place < self.count
    }
}

/// Whether the place is in one of the ranges.
fn is_among(spans: &[Span], k: u64) -> bool
    ensures { result ≡ list_any (is_in k) spans.now }
{
    for span in spans {
        if span.has(k) {
            return true;
        }
    }
    false
}

/// A number that looks like chance, from two others.
pub fn mixed(seed: u64, k: u64) -> u64 {
    let sum = seed.wrapping_add(k.wrapping_mul(0x9e37_79b9_7f4a_7c15));
    let low = (sum ^ (sum >> 30)).wrapping_mul(0xbf58_476d_1ce4_e5b9);
    let high = (low ^ (low >> 27)).wrapping_mul(0x94d0_49bb_1331_11eb);
    high ^ (high >> 31)
}

/// A number between two others, which the seed chooses.
pub fn between(seed: u64, least: u64, greatest: u64) -> u64
    requires { least ≤ greatest }
    ensures least { least ≤ result }
    ensures greatest { result ≤ greatest }
{
    let more = greatest - least;
    least + seed % more.saturating_add(1)
}

/// One of the two bytes or any other, as the seed chooses.
fn torn(seed: u64, synced: u8, written: u8) -> u8 {
    match seed % 3 {
        0 => synced,
        1 => written,
        _ => (seed / 3 % 256) as u8,
    }
}

/// Tears the bytes in the ranges and from `end` on, as the seed chooses; elsewhere they stay.
pub fn tear(bytes: &mut [u8], written: &[u8], spans: &[Span], end: usize, seed: u64)
    ensures length { length bytes.new ≡ length bytes.old }
    ensures outside { (k : ℕ) → k < length bytes.old → k < end → list_any (is_in k) spans.now ≡ false → get_or bytes.new k 0 ≡ get_or bytes.old k 0 }
{
    for k in 0..bytes.len() {
        if k >= end || is_among(spans, k as u64) {
            let newer = written.get(k).copied().unwrap_or(0);
            bytes[k] = torn(mixed(seed, k as u64), bytes[k], newer);
        }
    }
}
