/// What the bytes of less than a frame wait for.
#[derive(Clone, Copy, Debug)]
pub enum Awaited {
    /// The end of their line.
    LineEnd,
    /// The block that their line announced. It ends at this place, with CR LF behind it.
    Block(usize),
}
