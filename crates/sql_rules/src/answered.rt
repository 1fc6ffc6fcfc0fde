//! Whether an answer is one to a command.

ghost use Rattle.std.specs.Prelude.{◌≡◌};
ghost use Rattle.sql_rules.specs.Rules.{answers_request, has_bucket_number, is_answer_to};

use commands::{Answer, Content, Request, RequestAnswer};

/// Whether it has the session, the type and the number of a request.
fn has_same_key(request: &Request, answer: &RequestAnswer) -> bool
    ensures { result ≡ answers_request request.now (Answer.Request answer.now) }
{
    answer.session == request.session
        && answer.kind.number() == request.kind().number()
        && answer.number == request.number
}

/// Whether it is one to a request.
fn answers_request(request: &Request, answer: &Answer) -> bool
    ensures { result ≡ answers_request request.now answer.now }
{
    match answer {
        Answer::Request(answer) => has_same_key(request, answer),
        Answer::Done => false,
        Answer::Bucket(_) => false,
        Answer::Swept(_) => false,
        Answer::Balance(_) => false,
        Answer::Refused(_) => false,
    }
}

/// Whether it is the number of a bucket.
fn has_bucket_number(answer: &Answer) -> bool
    ensures { result ≡ has_bucket_number answer.now }
{
    match answer {
        Answer::Request(_) => false,
        Answer::Done => false,
        Answer::Bucket(_) => true,
        Answer::Swept(_) => false,
        Answer::Balance(_) => false,
        Answer::Refused(_) => false,
    }
}

/// Whether an answer is one to a command that is kept: to a request of its session, its type and
/// its number, and to an operator's command the number of a bucket.
// rule: rows-ruled.answered
pub fn is_answer_to(content: &Content, answer: &Answer) -> bool
    ensures { result ≡ is_answer_to content.now answer.now }
{
    match content {
        Content::Request(request) => answers_request(request, answer),
        Content::Credit(_) => has_bucket_number(answer),
        Content::Allow(_) => has_bucket_number(answer),
        Content::Redeem(_) => has_bucket_number(answer),
    }
}
