//! The flags of an SDU's bytes, and bytes under such flags.

ghost use Rattle.std.specs.Prelude.{◌≡◌, ◌+◌, ◌-◌, ◌≤◌, length};
ghost use Rattle.protocol.specs.Searching.{seek};
ghost use Rattle.rlc_rx.specs.Flags.{NoneFrom, wears, Merged};

// Two numbers and no range: the definition takes a number and a width.
/// The first place in `from` to before `to` whose flag is `flag`, or else `to`.
pub(crate) fn find_flag(flags: &[bool], flag: bool, from: usize, to: usize) -> usize
    requires ordered { from ≤ to }
    requires room { to ≤ length flags.now }
    ensures { result ≡ seek (wears flag flags.now) (to - from) from }
{
    flags[from..to]
        .iter()
        .position(|f| *f == flag)
        .map_or(to, |steps| from + steps)
}

/// Writes those bytes of `data` that are not held, from byte `offset` on, and answers how many; nothing from byte `top`
/// on is held.
pub(crate) fn put(
    bytes: &mut [u8],
    held: &mut [bool],
    top: usize,
    offset: usize,
    data: &[u8],
) -> usize
    requires room { offset + length «data».now ≤ length bytes.old }
    requires sizes { length held.old ≡ length bytes.old }
    requires beyond { NoneFrom top held.old }
    ensures { Merged offset (length «data».now) «data».now bytes.old bytes.new held.old held.new result }
{
    // All that is held stands before the data.
    let is_behind = top <= offset;
    if is_behind {
        let end = offset + data.len();
        bytes[offset..end].copy_from_slice(data);
        held[offset..end].fill(true);
        return data.len();
    }
    let mut new = 0;
    // No `zip` of two `iter_mut`: once such a loan is over, the check knows a slice's length and not its elements.
    for (i, byte) in data.iter().enumerate() {
        if !held[offset + i] {
            bytes[offset + i] = *byte;
            held[offset + i] = true;
            new += 1;
        }
    }
    new
}
