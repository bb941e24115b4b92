// How often the name of each header has stood in a message, or in transfer data.
ghost use Rattle.std.specs.Prelude.{◌≡◌, ◌<◌};
ghost use Rattle.annex.specs.Promises.{Gives};
ghost use Rattle.annex.specs.Walk.{unseen, times_seen, counted};

use annex::Transfer;

// How often each name has stood.
#[derive(Drop)]
pub struct Seen([u8; Transfer::NAMES]);

impl Seen {
    // None has stood.
    pub fn none() -> Seen
        ensures { Gives unseen result.0 }
    {
        Seen([0; Transfer::NAMES])
    }

    // How often the name of this header has stood.
    pub fn times(&self, header: u8) -> u8
        ensures { Gives (times_seen self.now.0 header) result }
    {
        self.0[(header % 64) as usize]
    }

    // The name of this header stands once more. More than 255 times are not told apart.
    pub fn count(&mut self, header: u8)
        ensures { times_seen self.old.0 header < 255 → self.new.0 ≡ counted self.old.0 header }
    {
        let name = (header % 64) as usize;
        self.0[name] = self.0[name].saturating_add(1);
    }
}
