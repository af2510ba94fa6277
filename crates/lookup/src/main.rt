// The program: a card file and a question file are its arguments, and what it prints for them goes to standard output.
#![tactic(auto)]

ghost use Rattle.std.specs.Prelude.{◌≡◌, ◌≤◌, length, IfSome};
ghost use Rattle.rules.specs.Verdict.{Question};
ghost use Rattle.rules.specs.Refusal.{and_then};
ghost use Rattle.rules.specs.Index.{index_refusal};
ghost use Rattle.rules.specs.Ask.{reply};
ghost use Rattle.rules.specs.Program.{file_limit, answer_room, printed_reply};
ghost use Rattle.rules.specs.Promises.{Printed};
ghost use Rattle.files.specs.Laid.{Put, words_of};

use files::FILE_LIMIT;
use rules::Refusal;
use std::fs::{File, OpenOptions};
use std::io::Read;
use std::rt::{Env, Files};

// The refusal where bytes are left behind the last whole number of the questions: the card's, if it has one.
fn refuse_rest(card: &[u8]) -> Result<(), Refusal>
    ensures { result ≡ and_then (index_refusal card.now) Question }
{
    checkindex::check_index(card)?;
    Err(Refusal::Question)
}

// Lays the answers of whole questions, and the refusal that ended them.
fn put_reply(card: &[u8], questions: &[u8], text: &mut [u8]) -> usize
    requires { (length questions.now ≤ file_limit) × (90200 ≤ length text.old) }
    ensures { Put (printed_reply (reply card.now (words_of questions.now) answer_room))
        0 result text.old text.new }
{
    let mut numbers = [0u32; 8192];
    let count = files::read_numbers(questions, &mut numbers);
    let mut room = [0u32; 8192];
    let outcome = ask::ask(card, &numbers[0..count], &mut room);
    let used = outcome.used;
    let next = text::put_lines(text, 0, &room[0..used]);
    let verdict = outcome.verdict;
    text::put_refused(text, next, verdict)
}

// Lays what the program prints at the front of the text, and gives its length; behind it nothing changes.
fn answer_text(card: &[u8], questions: &[u8], text: &mut [u8; 90200]) -> usize
    ensures { Printed card.now questions.now text.old result text.new }
{
    if files::over_limit(card, questions) {
        return text::put_refused(text, 0, Err(Refusal::Room));
    }
    if files::bytes_left(questions) {
        return text::put_refused(text, 0, refuse_rest(card));
    }
    put_reply(card, questions, text)
}

// Reads until the file ends or buf is full; none where a read fails, as of a file that cannot be read.
fn read_file(file: &mut File, buf: &mut [u8]) -> Option<usize>
    ensures { IfSome result (λ n. n ≤ length buf.new) }
{
    let mut done = 0;
    while done < buf.len() {
        let more = file.read(&mut buf[done..]).ok()?;
        if more == 0 {
            return Some(done);
        }
        done += more;
    }
    Some(done)
}

// Reads the file that argument i names; none where it is missing or cannot be opened, as by a name that is not UTF-8.
// It is opened by the runtime's own method: `fs::open` would rest the proof on every call that a file system has.
fn load(rt: &HostRuntime, i: usize, buf: &mut [u8]) -> Option<usize>
    ensures { IfSome result (λ n. n ≤ length buf.new) }
{
    let mut path = [0u8; 4096];
    let n = rt.arg(i, &mut path).ok()?;
    let name = str::from_utf8(&path[..n]).ok()?;
    let mut file = rt.open_file(OpenOptions::new().read(true), name).ok()?;
    read_file(&mut file, buf)
}

// Reads one byte more than a file may have, so that a longer one shows, and takes one that cannot be read as empty; writes
// what is printed, as far as it can be written.
fn main(rt: HostRuntime) {
    let mut card = [0u8; FILE_LIMIT + 1];
    let n = load(&rt, 1, &mut card).unwrap_or(0);
    let mut questions = [0u8; FILE_LIMIT + 1];
    let q = load(&rt, 2, &mut questions).unwrap_or(0);
    let mut text = [0u8; 90200];
    let size = answer_text(&card[..n], &questions[..q], &mut text);
    let _ = rt.write_all(&text[..size]);
}
