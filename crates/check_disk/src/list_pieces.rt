// The pieces of a small image, with which checkpoints are tried.
ghost use Rattle.std.specs.Prelude.{◌≡◌, ◌+◌, ◌<◌, ◌≤◌, ◌^◌, length, take, drop, get_or};
ghost use Rattle.check_disk.specs.Listed.{listed_image};
ghost use Rattle.check_disk.specs.ListedLaws.{listed};

use crate::pieces::Pieces;

/// The pieces of the image of a list of bytes: eight bytes 65, the turn, and the list.
#[derive(Drop)]
pub struct ListPieces<'a> {
    bytes: &'a [u8],
    given: usize,
    turn: u8,
    ghost fits: { given ≤ length bytes.now + 9 },
    ghost limit: { length bytes.now + 9 ≤ 2 ^ 29 },
}

impl<'a> ListPieces<'a> {
    /// All pieces of the image of these bytes.
    pub fn new(bytes: &'a [u8]) -> ListPieces<'a>
        requires { length bytes.now + 9 ≤ 2 ^ 29 }
        ensures bytes { result.bytes.now ≡ bytes.now }
        ensures given { result.given ≡ 0 }
    {
        ListPieces {
            bytes,
            given: 0,
            turn: 0,
        }
    }
}

/// One byte of the image.
fn byte_of(bytes: &[u8], turn: u8, k: usize) -> u8
    requires { k < length bytes.now + 9 }
    ensures { result ≡ get_or (listed_image bytes.now turn) k 0 }
{
    if k < 8 {
        return 65;
    }
    if k == 8 {
        return turn;
    }
    bytes[k - 9]
}

/// Writes the next bytes of the image to the front of the buffer, and answers how many.
fn fill(bytes: &[u8], turn: u8, given: usize, buf: &mut [u8]) -> usize
    requires given { given ≤ length bytes.now + 9 }
    requires limit { length bytes.now + 9 ≤ 2 ^ 29 }
    ensures within { result ≤ length buf.new }
    ensures bytes { take result buf.new ≡ take result (drop given (listed_image bytes.now turn)) }
    ensures size { given + result ≤ length bytes.now + 9 }
    ensures end { result ≡ 0 → 0 < length buf.old → given ≡ length bytes.now + 9 }
{
    let mut n = 0;
    while n < buf.len() && given + n < bytes.len() + 9 {
        buf[n] = byte_of(bytes, turn, given + n);
        n += 1;
    }
    n
}

impl<'a> Pieces for ListPieces<'a> {
    ghost format = { listed };

    ghost mesh = { λ p. p.bytes.now };

    ghost given = { λ p. p.given };

    ghost turn_was = { λ p. p.turn };

    fn next(&mut self, turn: u8, buf: &mut [u8]) -> u32 {
        let n = fill(self.bytes, turn, self.given, buf);
        self.given += n;
        self.turn = turn;
        n as u32
    }
}
