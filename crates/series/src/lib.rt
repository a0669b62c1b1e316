// Says what the sine and the cosine are, as sums over fractions, and proves their laws (document 01,
// 'Angles').
//
// Definitions and laws alone: no function stands here. What a reader has to believe are specs/Sums.antt, the
// two sums at a fraction of radians, and specs/Angles.antt, the defined values at a fraction of degrees. Both
// are said of any fraction, so that a crate above can speak of the sine of an angle that is no float, as 3a
// or the way to a speaker. What it may then use is in proofs/Laws.antt (a program that computes the sums has
// proofs/Nested.antt and proofs/Reduction.antt too); no law there asks on which side of 180 an angle lies, or
// whether it is a multiple of 90:
//
//   |S|, |C| ≤ 1 + 2^-50                          S² + C² = 1, up to 2^-50
//   two angles t degrees apart                    values t / 4 + 2^-52 apart at most
//   whole turns, the opposite angle               exact
//   a quarter turn more                           up to 2^-51
//   90 times a whole number                       exactly 0, 1 or -1
//   the cosine from 0 to 90                       not below 0, up to 2^-50
//   the cosine from 0 to 80                       its square 3/100 at least
//
// The sizes behind them, exactly computed: the sine's sum at 180 degrees is -2^-54.95 and the cosine's -1 +
// 2^-58.18; at 90 they are 1 - 2^-83.91 and 2^-61.91; the coefficients of S² + C² - 1, all taken as positive,
// make 2^-50.52 at half a turn.
#![tactic(auto)]
