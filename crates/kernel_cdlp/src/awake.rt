//! The places that a round looks at.
//!
//! 1. A place keeps its label where none that it meets has changed. To see that, it looks at its arcs up to the first
//!    label that has.
//! 2. Where few labels have changed, the places that meet them are woken instead, and no other place looks at an arc.

ghost use Rattle.std.specs.Prelude.{◌≡◌, length};
ghost use Rattle.graph_image.specs.Images.{AreWithin};
ghost use Rattle.kernel_cdlp.specs.Rounds.{IsRoused, IsWoken};

use graph_image::{Arc, Image};

/// Few are at most one place in so many.
const FEW: usize = 16;

/// Wakes the places that meet a label that has changed, and all where more than a few have.
pub fn wake(image: &Image, changed: &[bool], awake: &mut Vec<bool>)
    requires changed { length changed.now ≡ length image.now.vertices }
    requires awake { length awake.old.items ≡ length image.now.vertices }
    ensures { IsRoused image.now changed.now awake.new.items }
{
    let count = changed.iter().filter(|mark| **mark).count();
    if count > image.len() / FEW {
        awake.as_mut_slice().fill(true);
        return;
    }
    awake.as_mut_slice().fill(false);
    'places: for place in 0..image.len() {
        if changed[place] {
            wake_ends(image.out(place), awake);
            wake_ends(image.into(place), awake);
        }
    }
}

/// Wakes the other end of each arc.
fn wake_ends(arcs: &[Arc], awake: &mut Vec<bool>)
    requires { AreWithin (length awake.old.items) arcs.now }
    ensures { IsWoken awake.old.items arcs.now (length arcs.now) awake.new.items }
{
    'arcs: for i in 0..arcs.len() {
        awake[arcs[i].other as usize] = true;
    }
}
