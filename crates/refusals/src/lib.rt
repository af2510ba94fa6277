// What a check tells, by document 01's numbers.
#![tactic(auto)]

ghost use Rattle.std.specs.Prelude.{◌≡◌};
ghost use Rattle.rules.specs.Refusal.{number};

use rules::Refusal;

// Document 01's number of a refusal, and 0 where nothing is refused.
pub fn number_of(verdict: Result<(), Refusal>) -> u32
    ensures { result ≡ number verdict }
{
    match verdict {
        Ok(()) => 0,
        Err(refusal) => u32::from(refusal),
    }
}
