//! An answer with its text.

ghost use Rattle.std.specs.Prelude.{◌≡◌, ◌≤◌, ◌+◌, ◌++◌, [], length, IfOk, Ok, string_bytes};
ghost use Rattle.std.specs.Prelude.{string_len, string_capacity};
ghost use Rattle.commands.specs.declared.answer.Answer.TheVariants as answer;
ghost use Rattle.wire.specs.Spelled.{answer_text};
ghost use Rattle.wire.specs.ReadingAnswers.{answer_of, is_refusal, ReadsTexts};
ghost use Rattle.wire.specs.Rules.{IsAnswer};

use crate::reading::read_answer;
use crate::writing::write_answer;
use commands::Answer;
use json_fields::WireFault;
use std::alloc::{AllocError, Global};
use std::marker::Model;

/// An answer as its text, as `write_answer` writes it: the same bytes are kept of a command and
/// written to whoever asked it. Beside them it says whether it is a refusal.
///
/// Contracts see the answer that the text says.
// rule: http-unanswered
#[derive(Debug, Drop)]
pub struct WrittenAnswer {
    text: String,
    refused: bool,
}

impl Model for WrittenAnswer {
    ghost use Rattle.std.specs.Prelude.{◌≡◌, Ok, string_bytes};
    ghost use Rattle.commands.specs.declared.answer.Answer.{Answer};
    ghost use Rattle.wire.specs.Spelled.{answer_text};
    ghost use Rattle.wire.specs.ReadingAnswers.{answer_of, answer_said, is_refusal};

    ghost Value = { Answer };

    ghost view = { λ w. answer_said (string_bytes w.text) };

    ghost invariant = { λ w. (string_bytes w.text ≡ answer_text (answer_said (string_bytes w.text)))
        × (answer_of (string_bytes w.text) ≡ Ok (answer_said (string_bytes w.text)))
        × (w.refused ≡ is_refusal (answer_said (string_bytes w.text))) };
}

impl WrittenAnswer {
    /// An answer as its text.
    ///
    /// # Errors
    /// The growth of the text was refused.
    pub fn new(alloc: Global, answer: Answer) -> Result<WrittenAnswer, AllocError>
        ensures { IfOk result (λ written. written ≡ answer) }
    {
        let refused = is_refusal(&answer);
        let text = write_answer(alloc, &answer)?;
        Ok(WrittenAnswer { text, refused })
    }

    /// The answer whose text this is.
    ///
    /// # Errors
    /// `NotRequest` where the text is no answer's, `Memory` where memory ran out.
    pub fn read(alloc: Global, text: String) -> Result<WrittenAnswer, WireFault>
        ensures text { IfOk result (λ written. answer_text written ≡ string_bytes text) }
        ensures said { IfOk result (λ written. answer_of (string_bytes text) ≡ Ok written) }
        ensures texts { ReadsTexts (string_bytes text) result }
    {
        let answer = read_answer(alloc, text.as_bytes())?;
        let refused = is_refusal(&answer);
        Ok(WrittenAnswer { text, refused })
    }

    /// The same answer once more.
    ///
    /// # Errors
    /// Out of memory.
    pub fn copy(&self) -> Result<WrittenAnswer, AllocError>
        ensures { IfOk result (λ copy. copy ≡ self.now) }
    {
        let text = copy_text(&self.text)?;
        Ok(WrittenAnswer {
            text,
            refused: self.refused,
        })
    }

    /// Whether it is the refusal of an operator's command.
    pub fn is_refused(&self) -> bool
        ensures { result ≡ is_refusal self.now }
    {
        self.refused
    }

    /// Its text, which is read again as the same answer.
    pub fn text(&self) -> &str
        ensures value { result.now ≡ answer_text self.now }
        ensures said { answer_of result.now ≡ Ok self.now }
    {
        self.text.as_str()
    }

    /// Its text once more, to be kept or handed on.
    ///
    /// # Errors
    /// Out of memory.
    pub fn to_text(&self) -> Result<String, AllocError>
        ensures text { IfOk result (λ s. string_bytes s ≡ answer_text self.now) }
        ensures read_again { IfOk result (λ s. answer_of (string_bytes s) ≡ Ok self.now) }
    {
        let text = copy_text(&self.text)?;
        Ok(text)
    }
}

/// Whether an answer is the refusal of an operator's command.
fn is_refusal(answer: &Answer) -> bool
    ensures { result ≡ is_refusal answer.now }
{
    match answer {
        Answer::Request(_) => false,
        Answer::Done => false,
        Answer::Bucket(_) => false,
        Answer::Swept(_) => false,
        Answer::Balance(_) => false,
        Answer::Refused(_) => true,
    }
}

/// The same text once more.
fn copy_text(text: &String) -> Result<String, AllocError>
    ensures { IfOk result (λ copy. string_bytes copy ≡ string_bytes text.now) }
{
    text.clone()
}

/// Room for the text of an answer that is known only once its command was carried out: that of a
/// sweep, which counts accounts.
#[derive(Debug, Drop)]
pub struct AnswerRoom {
    text: String,
    ghost empty: { string_bytes text ≡ [] },
    ghost none: { string_len text ≡ 0 },
    ghost room: { 96 ≤ string_capacity text },
}

impl AnswerRoom {
    /// Room for it.
    ///
    /// # Errors
    /// Out of memory.
    pub fn new(alloc: Global) -> Result<AnswerRoom, AllocError> {
        let text = String::with_capacity(alloc, 96)?;
        Ok(AnswerRoom { text })
    }

    /// The answer to a sweep of so many accounts; this takes no memory.
    pub fn swept(self, accounts: u64) -> WrittenAnswer
        ensures { result ≡ answer.Swept accounts }
    {
        let mut text = self.text;
        put_swept(&mut text, accounts);
        WrittenAnswer {
            text,
            refused: false,
        }
    }
}

/// Puts a part into a text that has room for it.
fn put(text: &mut String, part: &str)
    requires { string_len text.old + length part.now ≤ string_capacity text.old }
    ensures bytes { string_bytes text.new ≡ string_bytes text.old ++ part.now }
    ensures len { string_len text.new ≡ string_len text.old + length part.now }
    ensures capacity { string_capacity text.old ≤ string_capacity text.new }
{
    let Ok(()) = text.push_str(part) else {
        unreachable!()
    };
}

/// Puts the text of the answer to a sweep into an empty text that has room for it.
fn put_swept(text: &mut String, accounts: u64)
    requires empty { string_bytes text.old ≡ [] }
    requires none { string_len text.old ≡ 0 }
    requires room { 96 ≤ string_capacity text.old }
    ensures text { string_bytes text.new ≡ answer_text (answer.Swept accounts) }
    ensures rule { IsAnswer (answer.Swept accounts) }
{
    let mut digits = itoa::Buffer::new();
    put(text, "{\"Accounts\":");
    put(text, digits.format(accounts));
    put(text, ",\"Result-Code\":2001}");
}
