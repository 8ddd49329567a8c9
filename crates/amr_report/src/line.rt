//! A line of a report, made word by word, and the printing of it.

ghost use Rattle.amr_report.specs.Printing.{Prints, with_word};
ghost use Rattle.amr_report.specs.declared.line.TheConstants.{LINE_LENGTH};
ghost use Rattle.std.specs.Prelude.{◌≡◌, ℕ, ◌+◌, ◌≤◌, ◌++◌, length, codes};

use arrayvec::ArrayString;
use itoa::{Buffer, Integer};
use outside_io::Failed;
use outside_io::sink::{Sink, write_all};
use std::marker::Model;

/// The most bytes that a line of a report has.
pub const LINE_LENGTH: usize = 512;

/// The text of a line. It takes no memory.
#[derive(Drop)]
pub struct Line {
    text: ArrayString<LINE_LENGTH>,
}

impl Model for Line {
    ghost use Rattle.std.specs.Prelude.{ℕ, List};

    ghost Value = { List ℕ };

    ghost view = { λ line. line.text.bytes };
}

impl Line {
    /// A line that begins with a word.
    pub fn begin(word: &str) -> Line
        requires { length word.now ≤ LINE_LENGTH }
        ensures { result ≡ word.now }
    {
        let mut text = ArrayString::new();
        text.push_str(word);
        Line { text }
    }

    /// A line that begins with a number.
    pub fn begin_number<I: Integer>(number: I) -> Line
        ensures text { result ≡ I.text number }
        ensures short { length result ≤ I.MAX_STR_LEN }
    {
        let mut digits = Buffer::new();
        Line::begin(digits.format(number))
    }

    /// Adds a space and a word.
    pub fn push_word(&mut self, word: &str)
        requires { length self.old + (1 + length word.now) ≤ LINE_LENGTH }
        ensures { self.new ≡ with_word self.old word.now }
    {
        self.text.push_str(" ");
        self.text.push_str(word);
    }

    /// Adds text to the last word.
    pub fn push_text(&mut self, text: &str)
        requires { length self.old + length text.now ≤ LINE_LENGTH }
        ensures { self.new ≡ self.old ++ text.now }
    {
        self.text.push_str(text);
    }

    /// Adds a space and a number.
    pub fn push_number<I: Integer>(&mut self, number: I)
        requires { length self.old + 41 ≤ LINE_LENGTH }
        ensures text { self.new ≡ with_word self.old (I.text number) }
        ensures short { length self.new ≤ length self.old + (1 + I.MAX_STR_LEN) }
    {
        let mut digits = Buffer::new();
        self.push_word(digits.format(number));
    }

    /// Ends the line.
    pub fn end(&mut self)
        requires { length self.old + 1 ≤ LINE_LENGTH }
        ensures { self.new ≡ self.old ++ codes "\n" }
    {
        self.text.push_str("\n");
    }

    /// What stands in the line.
    pub fn as_bytes(&self) -> &[u8]
        ensures { result.now ≡ self.now }
    {
        self.text.as_str().as_bytes()
    }

    /// Prints the line.
    pub fn print<K: Sink>(&self, sink: &mut K) -> Result<(), Failed>
        ensures { Prints result (K.taken sink.old) self.now (K.taken sink.new) (K.faults sink.old) (K.faults sink.new) }
    {
        write_all(sink, self.as_bytes())
    }
}
