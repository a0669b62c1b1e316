// Keeps the two numbers that the convolver remembers beside its rings: the cell that the next frame goes
// into, and how many more frames count as unsettled.
//
// Document 01, 'Sums': "The desk's ring position and frames-to-go are one small record, changed where it
// stands after each frame; a form by value comes first". The position is the same in every ring; damage
// leaves L-1 frames to go. `stepped` is the form by value, and `step` changes a lent record where it stands:
// the convolver's block lends it its own after each frame. They take any record, and promise the record one
// frame on by an equation.
#![tactic(auto)]

ghost use Rattle.std.specs.Prelude.{◌≡◌, ◌<◌};
ghost use Rattle.hrtf_desk.specs.Numbers.{to_go_next, stepped_of};

#[derive(Clone, Copy)]
pub struct Desk {
    pub position: usize,
    pub to_go: usize,
}

// How many frames are to go after a frame.
fn left_to_go(to_go: usize, length: usize, damaged: bool) -> usize
    requires { 0 < length }
    ensures { result ≡ to_go_next length damaged to_go }
{
    if damaged {
        return length - 1;
    }
    to_go.saturating_sub(1)
}

// One frame on. Where the position is not below the length, the record is as it was.
fn stepped(desk: Desk, length: usize, damaged: bool) -> Desk
    ensures { result ≡ stepped_of length damaged desk }
{
    let position = desk.position;
    let to_go = desk.to_go;
    if length <= position {
        return desk;
    }
    Desk {
        position: (position + 1) % length,
        to_go: left_to_go(to_go, length, damaged),
    }
}

// The same where it stands.
pub fn step(desk: &mut Desk, length: usize, damaged: bool)
    ensures { desk.new ≡ stepped_of length damaged desk.old }
{
    *desk = stepped(*desk, length, damaged);
}
