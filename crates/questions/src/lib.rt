// Reading a run of questions: whether every one is well formed, and where the numbers of the one at a place lie.
#![tactic(auto)]

ghost use Rattle.std.specs.Prelude.{◌≡◌, true, ◌+◌, ◌≤◌, ◌<◌, length, drop};
ghost use Rattle.rules.specs.Questions.{all_below, pair_good, words_good, good_question, count_of};
ghost use Rattle.questions.specs.Formed.{formed};
ghost use Rattle.questions.specs.Kinds.{Stated};

use rules::PHRASE_LIMIT;

// What a question asks.
#[derive(Clone, Copy, PartialEq, Eq)]
pub enum Kind {
    ByRank,
    ByBound,
    Common,
    Phrase,
}

impl Kind {
    // The kind that a question states by this number, if there is one.
    pub fn from_number(number: u32) -> Option<Kind>
        ensures { Stated number result }
    {
        match number {
            1 => Some(Kind::ByRank),
            2 => Some(Kind::ByBound),
            3 => Some(Kind::Common),
            4 => Some(Kind::Phrase),
            _ => None,
        }
    }
}

// Whether every one of the numbers is below t.
fn all_below(args: &[u32], t: usize) -> bool
    ensures { result ≡ all_below t args.now }
{
    args.iter().all(|&a| (a as usize) < t)
}

// Whether a term below t and one more number may be asked for.
fn pair_good(args: &[u32], t: usize) -> bool
    ensures { result ≡ pair_good t args.now }
{
    if args.len() != 2 {
        return false;
    }
    (args[0] as usize) < t
}

// Whether one to eight terms below t may be asked for.
pub fn words_good(args: &[u32], t: usize) -> bool
    ensures { result ≡ words_good t args.now }
{
    if args.len() < 1 {
        return false;
    }
    if PHRASE_LIMIT < args.len() {
        return false;
    }
    all_below(args, t)
}

// Whether a question that states its kind by this number may be asked of t words with these numbers.
fn may_ask(kind: u32, args: &[u32], t: usize) -> bool
    ensures { result ≡ good_question t kind args.now }
{
    match Kind::from_number(kind) {
        Some(Kind::ByRank) => pair_good(args, t),
        Some(Kind::ByBound) => pair_good(args, t),
        Some(Kind::Common) => words_good(args, t),
        Some(Kind::Phrase) => offsets::phrase_good(args, t),
        None => false,
    }
}

// Where the question at a place ends, behind its kind, its count and so many numbers.
pub fn end_of(questions: &[u32], at: usize) -> usize
    requires { at + 2 ≤ length questions.now }
    ensures { (result ≡ at + (2 + count_of (drop at questions.now))) × (result ≤ at + 4294967297) }
{
    at + 2 + questions[at + 1] as usize
}

// Whether all of the questions may be asked of t words.
pub fn well_formed(questions: &[u32], t: usize) -> bool
    ensures { result ≡ formed t questions.now }
{
    // A step of its own length for each question: no iterator gives it.
    let mut at = 0;
    while at < questions.len() {
        if questions.len() - at < 2 {
            return false;
        }
        let to = end_of(questions, at);
        if questions.len() < to {
            return false;
        }
        let from = at + 2;
        if !may_ask(questions[at], &questions[from..to], t) {
            return false;
        }
        at = to;
    }
    true
}
