// The two bytes of an answer: its code and its detail.
#![tactic(auto)]

ghost use Rattle.std.specs.Prelude.{◌≡◌, ◌+◌, ◌*◌, ◌≤◌, length};
ghost use Rattle.rules.specs.Sizes.{answer_size};
ghost use Rattle.rules.specs.Bytes.{le16};
ghost use Rattle.rules.specs.Answers.{code, detail, answer_bytes};
ghost use Rattle.bytes_fields.specs.Put.{put};

use bytes_fields::read::join16;
use bytes_fields::write::put16;
use rules::answer::Answer;
use rules::codes::{
    ARRIVED, EXITED, LIST_FULL, MOVED_ON, NO_WORK, NOTHING_TO_CUT, STARTED, TRAPPED, WAITING,
    WAS_CUT,
};
use rules::layout::ANSWER_SIZE;
use rules::sorts::lock_number;

// An answer as its code and its detail, both bytes as one number.
#[derive(Clone, Copy)]
pub struct AnswerBytes(u16);

#[tactic(auto, unfolding(rules::specs::Answers::code))]
pub fn code_of(a: Answer) -> u8
    ensures { result ≡ code a }
{
    match a {
        Answer::Taken => ARRIVED,
        Answer::ListFull => LIST_FULL,
        Answer::NoWork => NO_WORK,
        Answer::Waiting(_) => WAITING,
        Answer::Started => STARTED,
        Answer::Moved => MOVED_ON,
        Answer::Exited(_) => EXITED,
        Answer::Trapped(_) => TRAPPED,
        Answer::WasCut => WAS_CUT,
        Answer::NothingToCut => NOTHING_TO_CUT,
    }
}

#[tactic(auto, unfolding(rules::specs::Answers::detail))]
pub fn detail_of(a: Answer) -> u8
    ensures { result ≡ detail a }
{
    match a {
        Answer::Waiting(lock) => lock_number(lock),
        Answer::Exited(lost) => lost,
        Answer::Trapped(reason) => reason,
        _ => 0,
    }
}

impl From<Answer> for AnswerBytes {
    ghost from_gives = { λ a b. le16 b.0 ≡ answer_bytes a };

    // Most steps move on: that arm, a number known beforehand, spares them the others' tests.
    #[tactic(auto, unfolding(rules::specs::Answers::code, rules::specs::Answers::detail, rules::specs::Answers::answer_bytes))]
    fn from(a: Answer) -> Self {
        match a {
            Answer::Moved => Self(join16(MOVED_ON, 0)),
            _ => Self(join16(code_of(a), detail_of(a))),
        }
    }
}

// The answer to the event at an index.
pub fn write_answer(answers: &mut [u8], i: usize, a: Answer)
    requires { answer_size * i + answer_size ≤ length answers.old }
    ensures { answers.new ≡ put answers.old (answer_size * i) (answer_bytes a) }
{
    put16(answers, ANSWER_SIZE * i, AnswerBytes::from(a).0);
}
