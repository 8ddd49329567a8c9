//! The bytes of an image, some at a time.
ghost use Rattle.std.specs.Prelude.{◌≡◌, ◌⊎◌, ◌↔◌, ℕ, ◌+◌, ◌≤◌, length, take, drop};
ghost use Rattle.check_disk.specs.Format.{Format};

/// The pieces of the image of one mesh.
pub trait Pieces {
    // How meshes are spelled.
    ghost format: { Format };

    // The mesh whose image it is.
    ghost mesh: { Self → format.Mesh };

    // How many bytes were given.
    ghost given: { Self → ℕ };

    // The turn of the calls before.
    ghost turn_was: { Self → ℕ };

    /// Writes the next bytes of the image with that turn to the front of `buf`, and answers how many; 0 at
    /// the end alone. The turn is 0 to 2, and that of the calls before; `buf` has at least 64 bytes.
    fn next(&mut self, turn: u8, buf: &mut [u8]) -> u32
        requires room { 64 ≤ length buf.old }
        requires few { turn ≤ 2 }
        requires same { (given self.old ≡ 0) ⊎ (turn_was self.old ≡ turn) }
        ensures within { result ≤ length buf.new }
        ensures bytes { take result buf.new ≡ take result (drop (given self.old) (format.image (mesh self.old) turn)) }
        ensures given { given self.new ≡ given self.old + result }
        ensures size { given self.new ≤ length (format.image (mesh self.old) turn) }
        ensures end { (result ≡ 0) ↔ (given self.old ≡ length (format.image (mesh self.old) turn)) }
        ensures mesh { mesh self.new ≡ mesh self.old }
        ensures turn { turn_was self.new ≡ turn };
}
