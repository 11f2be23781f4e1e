// The words of the open levels' labels, at the end of work memory: what an event makes of them.
//
// The words here are those alone. They are asked to be the words of d open levels (`LabelsIn`): 1 more than the label where a
// level is open, and else 0, as memory is laid out.
#![tactic(auto)]

ghost use Rattle.std.specs.Prelude.{◌≡◌, length};
ghost use Rattle.meaning.specs.Streams.{opened_by};
ghost use Rattle.places.specs.Memory.{labels_words, open_in, LabelsIn};
ghost use Rattle.rows.specs.Steps.{event_of};
ghost use Rattle.labels.specs.Fits.{Fits};

use rows::Step;

// An open writes the word of the level that it opens, a close clears that of the level that it closes.
pub fn take_label(words: &mut [u64], step: Step, d: usize)
    requires { LabelsIn d words.old × Fits (length words.old) d (event_of step) }
    ensures { words.new ≡ labels_words (length words.old) (opened_by (open_in words.old d) (event_of step)) }
{
    match step {
        Step::Open(a) => words[places::label_at(d + 1)] = a + 1,
        Step::Point(_) => {}
        Step::Close => words[places::label_at(d)] = 0,
    }
}
