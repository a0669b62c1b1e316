// What lent lists are filled with before a call, so that a list which it should leave alone is seen to be as it was.
ghost use Rattle.std.specs.Prelude.{◌≡◌, ◌<◌, ◌≤◌, ℕ, length, cond};
ghost use Rattle.probe_bank.specs.Fillings.{angle_filling, tap_filling, byte_filling, filled_with, changed_at};
ghost use Rattle.probe_bank.specs.Fillings.{count_changed};

// What place i of a list is filled with, of which no more than `most` are lent.
pub(crate) trait Filling: Copy {
    ghost most: { ℕ };

    ghost filling: { ℕ → Self };

    fn filling(i: usize) -> Self
        requires { i < most }
        ensures { result ≡ filling i };
}

// Numbers in two bytes: 1000 + i.
impl Filling for i16 {
    ghost most = { 16 };

    ghost filling = { angle_filling };

    fn filling(i: usize) -> i16 {
        (1000 + i) as i16
    }
}

// f32: 1000 + i too.
impl Filling for f32 {
    ghost most = { 8200 };

    ghost filling = { tap_filling };

    #[tactic(auto, unfolding(crate::specs::Fillings::tap_filling))]
    fn filling(i: usize) -> f32 {
        ((1000 + i) as u16) as f32
    }
}

// The bytes of a file: the last byte of 7 i + 3.
impl Filling for u8 {
    ghost most = { 33000 };

    ghost filling = { byte_filling };

    fn filling(i: usize) -> u8 {
        ((7 * i + 3) % 256) as u8
    }
}

pub(crate) fn fill<T: Filling>(list: &mut [T])
    requires { length list.old ≤ T.most }
    ensures { list.new ≡ filled_with T.filling (length list.old) }
{
    for (i, place) in list.iter_mut().enumerate() {
        *place = T::filling(i);
    }
}

// 1 where place i of a list of f32 holds something else, 0 where it does not.
#[tactic(auto, unfolding(crate::specs::Fillings::changed_at))]
fn changed(x: f32, i: usize) -> u64
    requires { i < 8200 }
    ensures { result ≡ cond (changed_at i x) 1 0 }
{
    u64::from(x != f32::filling(i))
}

// How many places of such a list, from one on, hold something else than what they were filled with.
pub(crate) fn count_changed(list: &[f32], from: usize) -> u64
    requires { length list.now ≤ 8200 }
    ensures { result ≡ count_changed from list.now }
{
    let mut count: u64 = 0;
    for i in from..list.len() {
        count += changed(list[i], i);
    }
    count
}
