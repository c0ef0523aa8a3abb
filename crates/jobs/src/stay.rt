//! A place that a job takes, with its hold there.
use crate::place::Place;
use holds::Hold;

#[derive(Clone, Copy)]
pub(crate) struct Stay {
    pub(crate) place: Place,
    // none where the numbers are no hold's
    pub(crate) hold: Option<Hold>,
}

// An `ArrayVec` fills its unused places with the default; none of these is read. By hand, since no place is the default of all.
impl Default for Stay {
    fn default() -> Stay {
        Stay {
            place: Place::core(0),
            hold: None,
        }
    }
}
