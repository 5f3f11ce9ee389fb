// How much is read and taken at a time.
ghost use Rattle.std.specs.Prelude.{◌≡◌};
ghost use Rattle.server_socket.specs.pacing.Awaited.{batch, fewer, many, mean, more, next_take};

/// How many deliveries are taken at a time at most.
const MOST: usize = 256;

/// How many bytes of messages are taken at a time, as far as their mean size tells.
const ROOM: usize = 65_536;

/// How many bytes are read at a time at most: some hundred events.
pub const PIECE: usize = 16_384;

/// For how many bytes of messages there is to be room in an outbox besides, before another piece is read.
const ROOM_LEFT: usize = 4096;

/// How many bytes the shortest message takes, a PUB with a subject of one byte and no payload.
const LEAST_MESSAGE: usize = 11;

/// What is known to wait for a connection in its outbox.
#[derive(Clone, Copy)]
pub struct Awaited {
    /// How many deliveries.
    pub count: usize,
    /// How many bytes their messages have.
    pub bytes: usize,
}

impl Awaited {
    /// Returns what waits once so many more have entered, with so many bytes.
    pub(crate) fn more(self, count: usize, bytes: usize) -> Awaited
        ensures { result ≡ more self count bytes }
    {
        Awaited {
            count: self.count.saturating_add(count),
            bytes: self.bytes.saturating_add(bytes),
        }
    }

    /// Returns the mean size of the messages that wait; 0 where none does.
    fn mean(self) -> usize
        ensures { result ≡ mean self }
    {
        if self.count == 0 {
            return 0;
        }
        self.bytes / self.count
    }

    /// Returns how many deliveries the next Take is to ask for: fewer where messages are large.
    pub(crate) fn next_take(self) -> usize
        ensures { result ≡ next_take self }
    {
        let each = self.mean();
        if each == 0 {
            return MOST;
        }
        (ROOM / each).max(1).min(MOST)
    }

    /// Returns what waits once a Take has asked for so many.
    pub(crate) fn fewer(self, most: usize) -> Awaited
        ensures { result ≡ fewer self most }
    {
        let each = self.mean();
        let count = self.count.min(most);
        Awaited {
            count: self.count.saturating_sub(count),
            bytes: self.bytes.saturating_sub(each.saturating_mul(count)),
        }
    }
}

/// Returns how many deliveries wait for a connection at least that is drained before another piece is read: with fewer, those of
/// another 4 KiB leave half an outbox free.
pub fn many(outbox: usize) -> usize
    ensures { result ≡ many outbox }
{
    (outbox / 2).saturating_sub(ROOM_LEFT / LEAST_MESSAGE)
}

/// Returns how many deliveries may have entered for a connection of another worker before that is told, while their publisher is
/// read further: those of all other workers together are not more than are many.
pub fn batch(outbox: usize, workers: usize) -> usize
    ensures { result ≡ batch outbox workers }
{
    many(outbox) / workers.saturating_sub(1).max(1)
}
