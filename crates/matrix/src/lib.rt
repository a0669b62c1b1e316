// Gives the binaural rows: the weights by which ambisonic channels are heard at the left and at the right ear
// without filters (document 01, item 6 and 'Gains', from matrix.rs).
//
// They are the literals of 002 for orders 1 to 3, times 1.0/root(2.0). The right ear's row is the left ear's
// with channels 1, 4, 5, 9, 10 and 11 negated, so that a scene swapped left for right swaps the ears
// (document 02, E7); 002 misses these signs on 5 and 11, and has one on 14.
// `compute_matrix` puts the rows into a lent list, the left ear's and then the right ear's, bit for bit. They
// are applied as a decoder matrix of two rows, by the decoder's own `process`: no sum stands here.
//
// It takes any input; its promise (specs/Promise.antt) is one equation for the refusal and the list. That the
// ears swap is specs/Ears.antt.
#![tactic(auto)]

ghost use Rattle.std.specs.Prelude.{◌≡◌};
ghost use Rattle.refusals.specs.Numbers.{number_in};
ghost use Rattle.matrix.specs.Promise.{BinauralRowsPromise};
ghost use Rattle.matrix.specs.Computed.{rows_put};

use refusals::Refusal;

const FOA_LEFT: [f64; 4] = [0.5, 0.5, 0.1, 0.35];

const FOA_RIGHT: [f64; 4] = [0.5, -0.5, 0.1, 0.35];

const SOA_LEFT: [f64; 9] = [0.45, 0.45, 0.09, 0.32, 0.25, 0.08, 0.05, 0.08, 0.15];

const SOA_RIGHT: [f64; 9] = [0.45, -0.45, 0.09, 0.32, -0.25, -0.08, 0.05, 0.08, 0.15];

const TOA_LEFT: [f64; 16] = [
    0.42, 0.42, 0.08, 0.30, 0.22, 0.07, 0.04, 0.07, 0.13, 0.15, 0.10, 0.05, 0.03, 0.05, 0.10, 0.10,
];

const TOA_RIGHT: [f64; 16] = [
    0.42, -0.42, 0.08, 0.30, -0.22, -0.07, 0.04, 0.07, 0.13, -0.15, -0.10, -0.05, 0.03, 0.05, 0.10,
    0.10,
];

// Puts the left ear's row and then the right ear's, times 1.0/root(2.0).
fn put_ears(left: &[f64], right: &[f64], weights: &mut [f64]) -> Result<(), Refusal>
    ensures { record { refusal = number_in result; weights = weights.new } ≡ rows_put left.now
        right.now weights.old }
{
    if weights.len() != left.len() + right.len() {
        return Err(Refusal::Misfit);
    }
    let scale = numbers::inverse_root(2).unwrap();
    rows::put_row(left, scale, weights, 0);
    rows::put_row(right, scale, weights, left.len());
    Ok(())
}

// The binaural rows of an order.
pub fn compute_matrix(order: usize, weights: &mut [f64]) -> Result<(), Refusal>
    ensures { BinauralRowsPromise order weights.old
        (record { refusal = number_in result; weights = weights.new }) }
{
    if channel::refuses_order(order) {
        return Err(Refusal::Order);
    }
    if order == 1 {
        return put_ears(&FOA_LEFT, &FOA_RIGHT, weights);
    }
    if order == 2 {
        return put_ears(&SOA_LEFT, &SOA_RIGHT, weights);
    }
    put_ears(&TOA_LEFT, &TOA_RIGHT, weights)
}
