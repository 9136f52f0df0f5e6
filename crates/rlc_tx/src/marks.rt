//! The marks of an SDU's bytes.

ghost use Rattle.std.specs.Prelude.{◌≡◌, map, count_by};
ghost use Rattle.rlc_tx.specs.Marks.{same, replaced};
ghost use Rattle.std.specs.List.{prefix_len};

/// What became of a byte of an SDU.
#[derive(Clone, Copy, PartialEq, Eq)]
pub(crate) enum Mark {
    Unsent,
    Sent,
    /// Sent, and to be sent again.
    Pending,
}

/// How many marks at the front are this one.
pub(crate) fn count_front(marks: &[Mark], wanted: Mark) -> usize
    ensures { result ≡ prefix_len (same wanted) marks.now }
{
    marks.iter().take_while(|mark| **mark == wanted).count()
}

/// Makes each mark that is `old` a `new` one; answers how many there were.
pub(crate) fn replace(marks: &mut [Mark], old: Mark, new: Mark) -> usize
    ensures after { marks.new ≡ map (replaced old new) marks.old }
    ensures changed { result ≡ count_by (same old) marks.old }
{
    // One walk counts and changes; a chain would walk the marks twice.
    let mut changed = 0;
    for mark in marks.iter_mut() {
        if *mark == old {
            *mark = new;
            changed += 1;
        }
    }
    changed
}
