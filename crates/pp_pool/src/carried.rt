//! What a note is.

ghost use Rattle.std.specs.Prelude.{◌≡◌, []};

use atomic_table::Seat;
use pp_rule::Shape;
use pp_rule::views::SeatView;

/// What a pass had seen. It is no pass: who has it can make no step with it.
#[derive(Drop)]
pub struct Note<S: Shape> {
    /// A seat that stands for no pass. Its view has the order that the pass had seen.
    pub seat: Seat<(), SeatView<S::Entry, S::Said, S::Own>>,
    ghost bare: { seat.me.1 ≡ [] },
}
