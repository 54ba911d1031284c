// Decimal numbers in a text, white space between them, read a piece of the text at a time.
#![tactic(auto)]

ghost use Rattle.std.specs.Prelude.{◌≡◌, ◌<◌, ◌≤◌, length};
ghost use Rattle.decimal.specs.Decimal.{is_space, in_token, next_mark, ended, Putting, Taking};

// Where reading stands in a text.
#[derive(Clone, Copy)]
pub enum Mark {
    // Between two tokens.
    Between,
    // In a token, whose digits so far make this number.
    Within(u32),
    // At a token that is no number below 2^32. Reading goes no further. No `Err`: `next_mark` goes on from any mark, so
    // it would have to take a `Result` as well as give one; `console` answers with an error.
    Bad,
}

// Where reading stands, and how many numbers it has put at the start of the words. The words stand beside it: they are
// lent anew with each piece of the text, and a struct that held them would be made anew with them.
#[derive(Clone, Copy)]
pub struct Taken {
    pub mark: Mark,
    pub count: usize,
}

// Whether a byte is white space. `is_ascii_whitespace` leaves out the vertical tab, which is one here.
fn is_space(byte: u8) -> bool
    ensures { result ≡ is_space byte }
{
    byte == b' ' || (9..=13).contains(&byte)
}

// The mark after a byte of a token, whose digits so far make n.
fn in_token(n: u32, byte: u8) -> Mark
    ensures { result ≡ in_token n byte }
{
    if !byte.is_ascii_digit() {
        return Mark::Bad;
    }
    let digit = (byte - b'0') as u64;
    let value = 10 * (n as u64) + digit;
    match u32::try_from(value) {
        Ok(number) => Mark::Within(number),
        Err(_) => Mark::Bad,
    }
}

// The mark after one byte more.
fn next_mark(mark: Mark, byte: u8) -> Mark
    ensures { result ≡ next_mark mark byte }
{
    match mark {
        Mark::Bad => Mark::Bad,
        _ if is_space(byte) => Mark::Between,
        Mark::Between => in_token(0, byte),
        Mark::Within(n) => in_token(n, byte),
    }
}

impl Taken {
    // Puts the number that ends at a byte, if one does, behind those that `words` holds. Answers how many it then
    // holds.
    fn put_ended(self, byte: u8, words: &mut [u32]) -> usize
        requires { self.count < length words.old }
        ensures { Putting (ended self.mark byte) self.count words.old result words.new }
    {
        match self.mark {
            Mark::Within(n) if is_space(byte) => {
                words[self.count] = n;
                self.count + 1
            }
            _ => self.count,
        }
    }

    // Reads one piece of a text more: each number that ends in it is put behind those that `words` holds already, until
    // `words` is full, where reading stops. Internal, with a `requires`: `console` calls it.
    #[tactic(auto, using(crate::proofs::Reading::readings))]
    pub fn take_words(self, text: &[u8], words: &mut [u32]) -> Taken
        requires { self.count ≤ length words.old }
        ensures { Taking text.now self.mark self.count words.old result words.new }
    {
        let mut taken = self;
        for &byte in text {
            if taken.count == words.len() {
                return taken;
            }
            taken.count = taken.put_ended(byte, words);
            taken.mark = next_mark(taken.mark, byte);
        }
        taken
    }
}
