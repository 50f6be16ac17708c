//! How long a worker gives way.

ghost use Rattle.std.specs.Prelude.{◌≡◌, ◌-◌, ◌%◌, ◌&&◌, nat_eq, nat_lt, None, Some, if◌then◌else◌};
ghost use Rattle.ct_rehearse.specs.Pace.{is_held, waits};

/// How often a worker that is ahead gives way before one of its turns.
const PATIENCE: u32 = 1_000;

// The patience of one worker with the slowest. A worker outside its gate goes on as soon as it has a core, so each turn has
// patience with it. A gate may hold its worker until others have made many turns, so there is patience but once with a
// worker that does not move there.
#[derive(Clone, Copy)]
pub(crate) struct Patience {
    // How often it gives way yet before this turn.
    pub(crate) left: u32,
    // The slowest worker's mark, as it was seen last.
    pub(crate) seen: u64,
    // The slowest worker's mark when patience with its gate ended.
    pub(crate) held: Option<u64>,
}

impl Patience {
    // Before any turn.
    pub(crate) fn new() -> Patience
        ensures { result ≡ record { left = 0; seen = 0; held = None } }
    {
        Patience {
            left: 0,
            seen: 0,
            held: None,
        }
    }

    // Before the next turn.
    pub(crate) fn renewed(self) -> Patience
        ensures { result ≡ record self { left = 1000 } }
    {
        Patience {
            left: PATIENCE,
            ..self
        }
    }

    // Whether a worker with this mark gives way once more, where the slowest shows that one.
    pub(crate) fn gives_way(&mut self, made: u64, least: u64) -> bool
        ensures answer { result ≡ (waits self.old.held made least && nat_lt 0 self.old.left) }
        ensures seen { self.new.seen ≡ least }
        ensures left { self.new.left ≡ (if result then self.old.left - 1 else self.old.left) }
        ensures held { self.new.held ≡ (if waits self.old.held made least && nat_eq self.old.left 0 && nat_eq (least % 2) 1
            then Some least else self.old.held) }
    {
        self.seen = least;
        if !self.waits(made, least) {
            return false;
        }
        if self.left > 0 {
            self.left -= 1;
            return true;
        }
        if least % 2 == 1 {
            self.held = Some(least);
        }
        false
    }

    // Whether a worker with this mark waits for one that shows that mark.
    fn waits(&self, made: u64, least: u64) -> bool
        ensures { result ≡ waits self.now.held made least }
    {
        let is_held = match self.held {
            Some(held) => held == least,
            None => false,
        };
        least < made && !is_held
    }
}
