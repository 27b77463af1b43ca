// Why a call is refused. C knows each cause by its number, which comes back as one number with the place: 65,536 × number + place.
#![tactic(auto)]

ghost use Rattle.std.specs.Prelude.{◌≡◌, cond};
ghost use Rattle.check_refusal.specs.Refusals.{refusal_number, number_of};

use rules::codes::{
    BAD_ANSWERS_LENGTH, BAD_EVENT, BAD_EVENTS_LENGTH, BAD_IMAGE_LENGTH, BAD_MET_LENGTH,
    BAD_OUTPUT_LENGTH, BAD_RECORD, BAD_STATE, BAD_STATE_LENGTH, BAD_TABLE_FIELD, BAD_TABLE_LENGTH,
    BAD_WALK_THREAD, BAD_WORDS_LENGTH, SHARED_BLOCK, TOO_MANY_RECORDS,
};
use rules::sorts::{Block, Label, block_number, label_number};

// With the place, where it has one: the block of a table field's row, a record's label, an event's index.
#[derive(Clone, Copy, PartialEq, Eq)]
pub enum Refusal {
    ImageLength,
    TableLength,
    TableField(Block),
    Record(Label),
    StateLength,
    State,
    EventsLength,
    Event(u16),
    AnswersLength,
    WordsLength,
    WalkThread,
    MetLength,
    SharedBlock,
    TooManyRecords,
    OutputLength,
}

impl From<Refusal> for u32 {
    ghost from_gives = { λ r n. n ≡ refusal_number r };

    // Cold and apart: only a refused call comes here, so the compiler lays out the accepted one's loops for speed.
    #[cold]
    #[inline(never)]
    fn from(refusal: Refusal) -> Self {
        let (number, place) = match refusal {
            Refusal::ImageLength => (BAD_IMAGE_LENGTH, 0),
            Refusal::TableLength => (BAD_TABLE_LENGTH, 0),
            Refusal::TableField(block) => (BAD_TABLE_FIELD, u16::from(block_number(block))),
            Refusal::Record(label) => (BAD_RECORD, label_number(label)),
            Refusal::StateLength => (BAD_STATE_LENGTH, 0),
            Refusal::State => (BAD_STATE, 0),
            Refusal::EventsLength => (BAD_EVENTS_LENGTH, 0),
            Refusal::Event(index) => (BAD_EVENT, index),
            Refusal::AnswersLength => (BAD_ANSWERS_LENGTH, 0),
            Refusal::WordsLength => (BAD_WORDS_LENGTH, 0),
            Refusal::WalkThread => (BAD_WALK_THREAD, 0),
            Refusal::MetLength => (BAD_MET_LENGTH, 0),
            Refusal::SharedBlock => (SHARED_BLOCK, 0),
            Refusal::TooManyRecords => (TOO_MANY_RECORDS, 0),
            Refusal::OutputLength => (BAD_OUTPUT_LENGTH, 0),
        };
        65536 * number + u32::from(place)
    }
}

// Refused for this reason unless the condition holds.
pub fn ensure(ok: bool, refusal: Refusal) -> Result<(), Refusal>
    ensures { number_of result ≡ cond ok 0 (refusal_number refusal) }
{
    if ok { Ok(()) } else { Err(refusal) }
}
