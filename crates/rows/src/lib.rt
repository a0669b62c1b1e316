// Puts a row of weights, each times one factor, into a lent matrix; the decoder matrix and the binaural rows
// are made of such rows.
//
// Document 01, 'Gains': "harmonics at the speaker times 1/root(n)", "the literals of 002 .. times
// 1.0/root(2.0)". `put_row` puts the row at its place in the lent list of weights.
//
// It takes any input and promises the list by an equation (specs/Rows.antt): what falls behind the end of the
// list is left out.
#![tactic(auto)]

ghost use Rattle.std.specs.Prelude.{◌≡◌};
ghost use Rattle.std.proofs.lemmas.List.Edits.{sets};
ghost use Rattle.rows.specs.Rows.{scaled};

// Puts each number of a row, times `scale`, into the weights from `at` on.
pub fn put_row(row: &[f64], scale: f64, weights: &mut [f64], at: usize)
    ensures { weights.new ≡ sets weights.old at (scaled scale row.now) }
{
    let mut to = at;
    for x in row {
        if to < weights.len() {
            weights[to] = *x * scale;
            to += 1;
        }
    }
}
