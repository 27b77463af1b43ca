// Two images linked: the second laid behind the first, its used labels higher by the first's record count.
#![tactic(auto)]

ghost use Rattle.std.specs.Prelude.{◌≡◌, true, cond, ◌+◌, ◌<◌, ◌≤◌, length};
ghost use Rattle.rules.specs.Sorts.{label};
ghost use Rattle.rules.specs.Sizes.{record_size};
ghost use Rattle.rules.specs.Bytes.{part};
ghost use Rattle.rules.specs.Image.{label_a, label_b};
ghost use Rattle.rules.specs.Check.{head_ok};
ghost use Rattle.rules.specs.Link.{shift_record, linked};
ghost use Rattle.bytes_fields.specs.Put.{put};
ghost use Rattle.image_link.specs.Linkable.{Linkable};

use bytes_fields::write::{copy, put16};
use image_labels::uses_of;
use image_record::record_fields::{label_a, label_b};
use image_record::records::count_labels;
use rules::layout::{LABEL_A_PLACE, LABEL_B_PLACE, RECORD_SIZE};
use rules::sorts::{Label, label_number};

// A label that is used, d higher; one that is not, as it is.
pub fn shifted(used: bool, at: Label, d: u16) -> Label
    requires { at.0 + d < 65536 }
    ensures { result ≡ label (cond used (at.0 + d) at.0) }
{
    if used {
        Label::from(label_number(at) + d)
    } else {
        at
    }
}

// A record that breaks no rule of its head and stands at a place of the output already: its labels are shifted there.
pub fn shift_record(out: &mut [u8], at: usize, r: &[u8], d: u16)
    requires { (at + record_size ≤ length out.old) × (length r.now ≡ record_size) × (part out.old at record_size ≡ r.now)
        × (label_a r.now + d < 65536) × (label_b r.now + d < 65536) × (head_ok r.now ≡ true) }
    ensures { out.new ≡ put out.old at (shift_record d r.now) }
{
    let uses = uses_of(r);
    let a = shifted(uses.a, label_a(r), d);
    let b = shifted(uses.b, label_b(r), d);
    put16(out, at + LABEL_A_PLACE, label_number(a));
    put16(out, at + LABEL_B_PLACE, label_number(b));
}

// The linked image goes to the output, which has exactly the room for it.
#[tactic(auto, using(crate::specs::Linkable::counting))]
pub fn link(out: &mut [u8], first: &[u8], second: &[u8])
    requires { Linkable first.now second.now out.old }
    ensures { out.new ≡ linked first.now second.now }
{
    let n = count_labels(first);
    let m = count_labels(second);
    let d = n as u16;
    let start = RECORD_SIZE * n;
    // Both images are copied, and then the labels of the second are shifted where they stand.
    copy(out, 0, first, 0, first.len());
    copy(out, start, second, 0, second.len());
    for l in 0..m {
        let at = RECORD_SIZE * l;
        shift_record(out, start + at, &second[at..at + RECORD_SIZE], d);
    }
}
