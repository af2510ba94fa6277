// Where counting the starts of a phrase on a page stands, how it goes on, and the pairs of pages and starts found.
#![tactic(auto)]

ghost use Rattle.std.specs.Prelude.{◌≡◌, ◌+◌, ◌^◌, ◌<◌};
ghost use Rattle.trial.specs.Tries.{tried_at, PairedBehind};

// Where counting the starts on a page stands: how many words are turned to it, the start that is tried, how many words
// stand there, and how many starts lie before it.
#[derive(Clone, Copy)]
pub struct Trial {
    pub turned: usize,
    pub start: usize,
    pub standing: usize,
    pub count: usize,
}

// Where counting stands when the next of k words is found to allow a start at `next`, and none before.
pub fn tried(at: Trial, next: usize, k: usize) -> Trial
    requires { (at.standing < 8) × (at.start < 2 ^ 32) × (at.count < 2 ^ 32) }
    ensures { result ≡ tried_at at next k }
{
    if next != at.start {
        return Trial {
            start: next,
            standing: 0,
            ..at
        };
    }
    if at.standing + 1 < k {
        return Trial {
            standing: at.standing + 1,
            ..at
        };
    }
    Trial {
        start: at.start + 1,
        standing: 0,
        count: at.count + 1,
        ..at
    }
}

// Puts a page and its starts behind what was found, if there are any and there is room; how many numbers are found
// then.
pub fn put_pair(room: &mut [u32], found: usize, page: u32, count: u32) -> usize
    requires { found < 2 ^ 32 }
    ensures { PairedBehind found room.old page count result room.new }
{
    if count == 0 {
        return found;
    }
    if found + 2 < room.len() {
        room[found + 1] = page;
        room[found + 2] = count;
    }
    found + 2
}
