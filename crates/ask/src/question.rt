//! What is asked, and through which layers.

use periodicity::Fragment;

/// A question about the strip that it sees.
#[derive(Clone, Copy)]
pub enum Question {
    /// The places of a pattern in a field.
    Places {
        pattern: Fragment,
        field: Fragment,
    },
    /// The overlaps of two fragments, of lengths from `least` on and below twice `least`.
    Overlaps {
        first: Fragment,
        second: Fragment,
        least: usize,
    },
    /// The periods of a fragment.
    Periods {
        fragment: Fragment,
    },
}

/// How a question sees the strip: through a window, if there is one, and then reversed, if so.
#[derive(Clone, Copy)]
pub struct Layers {
    /// The part that is seen, in places and codes of what the layers stand on; without a window all of it is.
    pub window: Option<Fragment>,
    /// Whether that part is seen from its last code to its first.
    pub reversed: bool,
}
