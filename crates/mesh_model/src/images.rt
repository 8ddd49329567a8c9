//! Images, that is meshes as bytes: their definitions stand in `specs/`, and the parts of an image here.

/// The parts of an image in the order in which they are looked at. The first one that fails tells why bytes are no
/// image.
#[derive(Clone, Copy, Debug, PartialEq, Eq)]
pub enum Part {
    /// The number of bytes: 62 to 2^29.
    Length,
    /// The last 32 bytes: the SHA-256 of those before.
    Digest,
    /// All up to the names of variables: the magic, the turn, the shape and the names.
    Header,
    /// The number of nodes, and their bytes.
    Tree,
    /// The numbers of cells, of what flowed out, of faces and of edges.
    Values,
    /// Nothing before the digest.
    Ending,
}

/// Why bytes are no image.
#[derive(Clone, Copy, Debug, PartialEq, Eq)]
pub struct BadImage {
    /// The first part that fails.
    pub part: Part,
    /// The digest that is kept: the last 32 bytes, or zeros where there are fewer.
    pub kept: [u8; 32],
    /// The digest that was found: that of the bytes before, or of all where there are fewer than 32.
    pub found: [u8; 32],
}
