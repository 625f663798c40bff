// A line under way: words put one behind the other. Internal: a caller sees that there is room for each.
// Stays: words put one behind the other. The definitions `line_of` and `total_line`, of which `whole_listing` speaks, are
// bytes, which no contract of Display tells, and the bound of each word keeps a line within 64.
ghost use Rattle.std.specs.Prelude.{◌≡◌, ◌+◌, ◌≤◌, [], ◌∷◌, ◌++◌, length};
ghost use Rattle.model.specs.Answers.{outcome_word, verdict_word};
ghost use Rattle.listing.specs.Lines.{decimal, spaced, words_of, place_text, line_of, total_line};
ghost use Rattle.listing.specs.Parts.{Puts};

use model::{Answer, Done, Outcome};
use std::marker::Model;

// The bytes of a line, 64 at most.
#[derive(Drop)]
pub(crate) struct Line {
    bytes: [u8; 64],
    len: usize,
}

impl Model for Line {
    ghost use Rattle.std.specs.Prelude.{ℕ, ◌≤◌, List, take};

    ghost Value = { List ℕ };

    ghost view = { λ line. take line.len line.bytes };

    ghost invariant = { λ line. line.len ≤ 64 };
}

// The word of an outcome.
fn outcome_text(outcome: Outcome) -> &'static [u8]
    ensures { result.now ≡ outcome_word outcome }
{
    match outcome {
        Outcome::Wait => b"WAIT",
        Outcome::Commit => b"COMMIT",
        Outcome::Abort => b"ABORT",
    }
}

// The word of a verdict.
fn verdict_text(verdict: bool) -> &'static [u8]
    ensures { result.now ≡ verdict_word verdict }
{
    if verdict { b"YES" } else { b"NO" }
}

impl Line {
    // No bytes yet.
    fn new() -> Line
        ensures { result ≡ [] }
    {
        Line {
            bytes: [0; 64],
            len: 0,
        }
    }

    // Bytes as they are.
    fn text(&mut self, text: &[u8])
        requires { length self.old + length text.now ≤ 64 }
        ensures { self.new ≡ self.old ++ text.now }
    {
        let end = self.len + text.len();
        self.bytes[self.len..end].copy_from_slice(text);
        self.len = end;
    }

    // A space and a word.
    fn word(&mut self, word: &[u8])
        requires { length self.old + (length word.now + 1) ≤ 64 }
        ensures { self.new ≡ self.old ++ (32 ∷ word.now) }
    {
        self.text(b" ");
        self.text(word);
    }

    // A number in decimal.
    fn number(&mut self, n: u64)
        requires { length self.old + 20 ≤ 64 }
        ensures text { self.new ≡ self.old ++ decimal n }
        ensures within { length self.new ≤ length self.old + 20 }
    {
        let mut digits = [0u8; 20];
        let count = io::decimal(n, &mut digits);
        self.text(&digits[..count]);
    }

    // A space and a number of 8 bits.
    fn small(&mut self, n: u8)
        requires { length self.old + 21 ≤ 64 }
        ensures text { self.new ≡ self.old ++ (32 ∷ decimal n) }
        ensures within { length self.new ≤ length self.old + 4 }
    {
        self.text(b" ");
        self.number(u64::from(n));
    }

    // A space and the shard, or "-".
    fn place(&mut self, place: Option<u8>)
        requires { length self.old + 21 ≤ 64 }
        ensures text { self.new ≡ self.old ++ (32 ∷ place_text place) }
        ensures within { length self.new ≤ length self.old + 4 }
    {
        match place {
            Some(shard) => self.small(shard),
            None => self.word(b"-"),
        }
    }

    // Two words, each with a space in front.
    fn words(&mut self, first: &[u8], second: &[u8])
        requires { length self.old + (length first.now + 1) + (length second.now + 1) ≤ 64 }
        ensures { self.new ≡ self.old ++ spaced (first.now ∷ second.now ∷ []) }
    {
        self.word(first);
        self.word(second);
    }

    // The words of an answer, each with a space in front. A registration, and a vote that brought its transaction, have
    // the own verdict and an outcome.
    fn answer(&mut self, answer: Answer)
        requires { length self.old + 29 ≤ 64 }
        ensures text { self.new ≡ self.old ++ spaced (words_of answer) }
        ensures within { length self.new ≤ length self.old + 13 }
    {
        match answer {
            Err(refusal) => {
                self.word(b"REFUSED");
                self.small(u8::from(refusal));
            }
            Ok(Done::Minted) => self.word(b"OPENED"),
            Ok(Done::Registered(verdict, outcome)) | Ok(Done::Brought(verdict, outcome)) => {
                self.words(verdict_text(verdict), outcome_text(outcome))
            }
            Ok(Done::Heard(outcome)) => self.words(b"HEARD", outcome_text(outcome)),
            Ok(Done::Again(outcome)) => self.words(b"AGAIN", outcome_text(outcome)),
            Ok(Done::Turned) => self.word(b"TURNED"),
        }
    }

    // The line of a step: the step, the shard or "-", the words, byte 10.
    pub(crate) fn of_step(number: u64, place: Option<u8>, answer: Answer) -> Line
        ensures text { result ≡ line_of number (place_text place) answer }
        ensures within { length result ≤ 64 }
    {
        let mut line = Line::new();
        line.number(number);
        line.place(place);
        line.answer(answer);
        line.text(b"\n");
        line
    }

    // The last line: TOTAL and an amount.
    pub(crate) fn of_total(amount: u64) -> Line
        ensures text { result ≡ total_line amount }
        ensures within { length result ≤ 64 }
    {
        let mut line = Line::new();
        line.text(b"TOTAL ");
        line.number(amount);
        line.text(b"\n");
        line
    }

    // Stores the line from a place on: the place behind it.
    // Stays: a place in the lent bytes, and the place behind: the definition `Puts` has both.
    pub(crate) fn store(&self, out: &mut [u8], at: usize) -> usize
        requires within { length self.now ≤ 64 }
        requires room { at + 64 ≤ length out.old }
        ensures { Puts out.old at self.now 64 out.new result }
    {
        let end = at + self.len;
        out[at..end].copy_from_slice(&self.bytes[..self.len]);
        end
    }
}
