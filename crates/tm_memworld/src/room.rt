//! Memory that is taken beforehand.
ghost use Rattle.std.specs.Prelude.{◌≡◌};
ghost use Rattle.tm_memworld.specs.Room.{spent, is_lacking};

/// For how many calls, block writes and said bytes memory is left.
#[derive(Clone, Copy)]
pub struct Room {
    pub calls: usize,
    pub writes: usize,
    pub said: usize,
}

impl Room {
    /// What is left after a call that needs so many writes and said bytes.
    pub fn spent(self, writes: usize, said: usize) -> Room
        ensures { result ≡ spent writes said self }
    {
        Room {
            calls: self.calls.saturating_sub(1),
            writes: self.writes.saturating_sub(writes),
            said: self.said.saturating_sub(said),
        }
    }

    /// Whether a call that needs so many writes and said bytes lacks room.
    pub fn lacks(self, writes: usize, said: usize) -> bool
        ensures { result ≡ is_lacking writes said self }
    {
        self.calls < 1 || self.writes < writes || self.said < said
    }
}
