// The answers of the two asks as document 01's numbers, for whoever prints or compares them.
#![tactic(auto)]

ghost use Rattle.std.specs.Prelude.{◌≡◌};
ghost use Rattle.spec.specs.Answers.{refusal_says, plan_says, text_says};
ghost use Rattle.answers.specs.Numbers.{saying, said};

use spec::Refusal;

// A refusal's number, whether its place stands in a text, and its place; or 0 and the count that a plan or a text
// gives.
#[derive(Clone, Copy)]
pub struct Numbers {
    pub number: usize,
    pub text: bool,
    pub value: usize,
}

// The same for callers outside: where its place stands in a text, the number of the text and one more; 0 where its
// value is a number by itself.
#[repr(C)]
#[derive(Clone, Copy)]
pub struct Placed {
    pub number: usize,
    pub text: usize,
    pub value: usize,
}

fn told(number: usize, text: bool, value: usize) -> Numbers
    ensures { said result ≡ saying number text value }
{
    Numbers {
        number,
        text,
        value,
    }
}

pub fn of_refusal(r: Refusal) -> Numbers
    ensures { said result ≡ refusal_says r }
{
    match r {
        Refusal::ShortBuffer => told(1, false, 0),
        Refusal::LongManifest => told(2, false, 0),
        Refusal::BadByte(p) => told(3, true, p),
        Refusal::BadLine(p) => told(4, true, p),
        Refusal::BadDollar(p) => told(5, true, p),
        Refusal::NotYet(p) => told(6, true, p),
        Refusal::BadRule(p) => told(7, true, p),
        Refusal::BadPath(p) => told(8, true, p),
        Refusal::OverLimit(p) => told(9, true, p),
        Refusal::BadVersion(p) => told(10, true, p),
        Refusal::BadCard => told(11, false, 0),
        Refusal::BadTarget(p) => told(12, false, p),
        Refusal::NoRoot => told(13, false, 0),
        Refusal::Circle(n) => told(14, false, n),
        Refusal::MissingSource(f) => told(15, false, f),
        Refusal::EndlessText(s) => told(16, false, s),
        Refusal::LongText(s) => told(17, false, s),
        Refusal::NoCommand(s) => told(18, false, s),
        Refusal::BadBundle => told(19, false, 0),
        Refusal::BadOpen(p) => told(19, true, p),
        Refusal::BadHeaders(s) => told(20, false, s),
    }
}

// What a plan or a text is answered with.
pub fn of_reply(a: Result<usize, Refusal>) -> Numbers
    ensures plan { said result ≡ plan_says a }
    ensures text { said result ≡ text_says a }
{
    match a {
        Ok(n) => told(0, false, n),
        Err(r) => of_refusal(r),
    }
}
