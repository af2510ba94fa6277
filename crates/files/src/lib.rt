// The program's files: whether they are too long, whether bytes are left behind the last number, and the numbers read.
#![tactic(auto)]

ghost use Rattle.std.specs.Prelude.{◌||◌, ◌≡◌, ◌%◌, ◌≤◌, ltb, length};
ghost use Rattle.rules.specs.Program.{file_limit};
ghost use Rattle.files.specs.Laid.{Put, words_of};

// The bytes that a file may have.
pub const FILE_LIMIT: usize = 32768;

// Whether a file is too long.
pub fn over_limit(card: &[u8], questions: &[u8]) -> bool
    ensures { result ≡ (ltb file_limit (length card.now)
        || ltb file_limit (length questions.now)) }
{
    FILE_LIMIT < card.len() || FILE_LIMIT < questions.len()
}

// Whether bytes are left behind the last whole number of the questions.
pub fn bytes_left(questions: &[u8]) -> bool
    ensures { result ≡ ltb 0 (length questions.now % 4) }
{
    0 < questions.len() % 4
}

// Reads the whole four-byte numbers of a file that is not too long.
pub fn read_numbers(bytes: &[u8], numbers: &mut [u32; 8192]) -> usize
    requires { length bytes.now ≤ file_limit }
    ensures { Put (words_of bytes.now) 0 result numbers.old numbers.new }
{
    for (i, four) in bytes.chunks_exact(4).enumerate() {
        numbers[i] = numbers::read_u32(four, 0) as u32;
    }
    bytes.len() / 4
}
