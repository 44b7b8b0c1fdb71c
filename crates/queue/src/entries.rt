ghost use Rattle.std.specs.Prelude.{◌≡◌};
ghost use Rattle.spec.specs.Fm.{above};
ghost use Rattle.queue.specs.Queues.{first};

/// What is known of a vertex: the key and the stamp of its last entry, and whether that one still waits. The next entry counts the stamp on, so it is kept when the
/// entry is taken off.
#[derive(Clone, Copy)]
// Stays: the stamp is read when no entry waits too, so key and stamp are no `Option` in the place of the flag.
pub struct Entry {
    pub key: f64,
    pub stamp: u64,
    pub waits: bool,
}

impl Entry {
    /// No entry yet.
    pub const NONE: Entry = Entry {
        key: 0.0,
        stamp: 0,
        waits: false,
    };

    /// Does this entry of vertex `v` come before `other` of vertex `u`: the larger key first, then the later stamp, then the higher vertex.
    // Stays: tried as the derived order of a struct of key, stamp and vertex, compared by `<`: it is proved, but a scan of 128 entries takes three times as long.
    pub(crate) fn is_above(&self, v: usize, other: &Entry, u: usize) -> bool
        ensures { result ≡ above (first self.now.key self.now.stamp v) (first other.now.key other.now.stamp u) }
    {
        if other.key < self.key {
            return true;
        }
        if self.key == other.key {
            if other.stamp < self.stamp {
                return true;
            }
            if self.stamp == other.stamp {
                return u < v;
            }
            return false;
        }
        false
    }
}
