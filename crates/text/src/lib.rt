// What the program prints, laid into lent bytes.
#![tactic(auto)]

ghost use Rattle.std.specs.Prelude.{◌+◌, ◌≤◌, ◌<◌, length};
ghost use Rattle.rules.specs.Program.{digits, line, lines, refused_line};
ghost use Rattle.files.specs.Laid.{Put};
ghost use Rattle.text.specs.Answers.{answers_in, Counted};

use rules::Refusal;

// The eight bytes of `refused `.
const REFUSED: u64 = 0x7265667573656420;

// Lays the decimal digits of n, by hand: the library prints to writers alone, and lent bytes are none.
pub fn put_number(text: &mut [u8], at: usize, n: u32) -> usize
    requires { at + length (digits n) ≤ length text.old }
    ensures { Put (digits n) at result text.old text.new }
{
    if n < 10 {
        text[at] = 48 + n as u8;
        return at + 1;
    }
    let last = put_number(text, at, n / 10);
    text[last] = 48 + (n % 10) as u8;
    last + 1
}

// Lays the numbers of an answer, which has at least one, as a line.
pub fn put_line(text: &mut [u8], at: usize, numbers: &[u32]) -> usize
    requires { (0 < length numbers.now) × (at + length (line numbers.now) ≤ length text.old) }
    ensures { Put (line numbers.now) at result text.old text.new }
{
    let mut next = put_number(text, at, numbers[0]);
    for &n in &numbers[1..] {
        text[next] = b' ';
        next = put_number(text, next + 1, n);
    }
    text[next] = b'\n';
    next + 1
}

// Lays each answer of a run, in which an answer begins with how many numbers it has behind that, as a line.
pub fn put_lines(text: &mut [u8], at: usize, numbers: &[u32]) -> usize
    requires { Counted (answers_in numbers.now)
        × (at + length (lines (answers_in numbers.now)) ≤ length text.old) }
    ensures { Put (lines (answers_in numbers.now)) at result text.old text.new }
{
    // A step of its own length for each answer: no iterator gives it.
    let mut next = at;
    let mut from = 0;
    while from < numbers.len() {
        let to = from + 1 + numbers[from] as usize;
        next = put_line(text, next, &numbers[from..to]);
        from = to;
    }
    next
}

// Lays the line of a refusal, or nothing where nothing was refused.
pub fn put_refused(text: &mut [u8], at: usize, r: Result<(), Refusal>) -> usize
    requires { at + length (refused_line r) ≤ length text.old }
    ensures { Put (refused_line r) at result text.old text.new }
{
    let n = refusals::number_of(r);
    if n == 0 {
        return at;
    }
    numbers::write_u64(text, at, REFUSED);
    put_line(text, at + 8, &[n])
}
