// Texts that are put into a lent buffer one after the other: words, and numbers in plain decimal. No
// function refuses: a text that has no room is not put, and the offset stays.
#![tactic(auto)]

ghost use Rattle.texts.specs.Texts.{PutSays, PutNumberSays};

// Puts the words into the buffer from offset `at` on, and answers the offset after them. Where there is
// no room for all of them the buffer stays as it is, and the answer is `at`. No `Option`: `PutSays` promises
// an offset, from which the next text goes on.
pub fn put(buffer: &mut [u8], at: usize, words: &[u8]) -> usize
    ensures { PutSays buffer.old at words.now result buffer.new }
{
    if buffer.len() < at {
        return at;
    }
    if buffer.len() - at < words.len() {
        return at;
    }
    let end = at + words.len();
    buffer[at..end].copy_from_slice(words);
    end
}

// The same of a number's decimal digits.
pub fn put_number(buffer: &mut [u8], at: usize, n: u64) -> usize
    ensures { PutNumberSays buffer.old at n result buffer.new }
{
    let mut digits = [0u8; 20];
    let count = io::decimal(n, &mut digits);
    put(buffer, at, &digits[..count])
}
