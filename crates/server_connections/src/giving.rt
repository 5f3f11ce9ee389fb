/// Which connection gives way to a new one, by its key.
#[derive(Clone, Copy, Debug)]
pub enum GivesWay {
    /// One that lingers.
    Lingering(usize),
    /// One without an accepted CONNECT, which is to be ended.
    Fresh(usize),
}
