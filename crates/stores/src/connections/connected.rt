//! What has a connection, and a list of it whose connections are noted.
ghost use Rattle.std.specs.Prelude.{◌≡◌, ◌≢◌, ◌<◌, ◌≤◌, ◌+◌, ℕ, AllPairs, length, map, nat_eq};
ghost use Rattle.indexmap.specs.IndexSet.{insert_key, spare};

use indexmap::IndexSet;

/// What has a connection.
pub trait Connected {
    /// Its connection, for clauses.
    ghost connection: { Self → ℕ };

    /// Returns its connection.
    fn conn(&self) -> u64
        ensures { result ≡ connection self.now };
}

/// Notes one connection, for which there is memory.
fn note_conn(conns: &mut IndexSet<u64>, conn: u64)
    requires { 0 < spare conns.old }
    ensures keys { conns.new.keys ≡ insert_key nat_eq conns.old.keys conn }
    ensures room { spare conns.old ≤ spare conns.new + 1 }
{
    match conns.insert(conn) {
        Ok(_) => {}
        Err(_) => {}
    }
}

/// Notes the connections of this list in place of those that were noted. Those were no fewer, so their memory suffices.
pub(crate) fn note_conns<T: Connected>(conns: &mut IndexSet<u64>, list: &[T])
    requires room { length list.now ≤ length conns.old.keys }
    requires apart { AllPairs (λ y z. T.connection y ≢ T.connection z) list.now }
    ensures { conns.new.keys ≡ map T.connection list.now }
{
    conns.clear();
    for one in list {
        note_conn(conns, one.conn());
    }
}
