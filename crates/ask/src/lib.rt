// The call: a card, questions, and room for their answers.
#![tactic(auto)]

ghost use Rattle.std.specs.Prelude.{◌≡◌, true, length};
ghost use Rattle.rules.specs.Verdict.{Accepted};
ghost use Rattle.rules.specs.Index.{index_t, index_refusal};
ghost use Rattle.rules.specs.Ask.{asked, put, fitted};
ghost use Rattle.rules.specs.Promises.{Answered};
ghost use Rattle.questions.specs.Formed.{formed, answers_to};

use bytetable::Table;
use rules::{INDEX_T_AT, Outcome, Refusal};

// Answers well-formed questions in turn, each behind the answers before it.
fn answer_all(table: &Table, card: &[u8], questions: &[u32], room: &mut [u32]) -> Outcome
    requires { (index_refusal card.now ≡ Accepted) × (formed (index_t card.now) questions.now ≡ true) }
    ensures { asked result room.new
        ≡ put (fitted (length room.old) (answers_to card.now questions.now))
        room.old }
{
    let mut run = replies::started();
    // A step of its own length for each question: no iterator gives it.
    while run.at < questions.len() {
        let at = run.at;
        let from = at + 2;
        let to = questions::end_of(questions, at);
        let used = run.used;
        let answered = answer::answer_one(
            table,
            card,
            questions[at],
            &questions[from..to],
            &mut room[used..],
        );
        let Some(size) = answered else {
            return replies::stopped(run);
        };
        run = replies::further(run, to, size);
    }
    replies::ended(run)
}

// The call: the card is checked whole, then all questions, and then each is answered in turn.
pub fn ask(card: &[u8], questions: &[u32], room: &mut [u32]) -> Outcome
    ensures { Answered card.now questions.now room.old result room.new }
{
    let verdict = checkindex::check_index(card);
    if verdict.is_err() {
        return Outcome {
            verdict,
            answered: 0,
            used: 0,
        };
    }
    let t = numbers::read_u16(card, INDEX_T_AT) as usize;
    if !questions::well_formed(questions, t) {
        return Outcome {
            verdict: Err(Refusal::Question),
            answered: 0,
            used: 0,
        };
    }
    let table = bytetable::places();
    answer_all(&table, card, questions, room)
}
