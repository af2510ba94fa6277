// Whether a list is one that can be written.
#![tactic(auto)]

ghost use Rattle.std.specs.Prelude.{◌≡◌};
ghost use Rattle.rules.specs.List.{rising};

// Whether the list rises strictly and stays below u. No pair of neighbours ends the loop, so that it takes several at
// once; they go by number, as windows of two took a fifth longer.
pub fn rises(u: usize, list: &[u32]) -> bool
    ensures { result ≡ rising 0 u list.now }
{
    if list.len() == 0 {
        return true;
    }
    let mut falls = false;
    for i in 1..list.len() {
        if list[i] <= list[i - 1] {
            falls = true;
        }
    }
    if falls {
        return false;
    }
    (list[list.len() - 1] as usize) < u
}
