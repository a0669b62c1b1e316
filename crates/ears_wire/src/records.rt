// Records that come in parts: the bytes of one that is not whole yet are kept for the next part, and the records that
// were whole are counted.
ghost use Rattle.std.specs.Prelude.{◌≡◌, take, drop};
ghost use Rattle.lists.specs.Placed.{placed};
ghost use Rattle.ears_wire.specs.Counting.{counted_on};

// Moves the bytes from `from` up to `to` to the start, as far as there are so many.
pub fn keep_rest(bytes: &mut [u8], from: usize, to: usize)
    ensures { bytes.new ≡ placed bytes.old 0 (drop from (take to bytes.old)) }
{
    let end = checks::min(to, bytes.len());
    if from < end {
        bytes.copy_within(from..end, 0);
    }
}

// A count and some more. No run counts to the largest number of 64 bits, at which it would stay.
pub fn count_on(count: u64, more: usize) -> u64
    ensures { result ≡ counted_on count more }
{
    count.saturating_add(more as u64)
}
