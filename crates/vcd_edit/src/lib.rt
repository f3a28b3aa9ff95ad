//! Edits of a capture: the fault of an edit, its effect, and the record that undoes it.
//!
//! An [`Edit`] is refused with its first fault, or applied as a whole. The answer is then a record
//! that undoes the edit and stores touched changes only.
#![tactic(auto)]

mod applying;
mod checking;
mod edit;
mod exchange;
mod fault;
mod fitting;
mod laws;
mod plans;
mod record;
mod reverting;

pub use applying::apply;
pub use checking::check;
pub use edit::{Edit, Formula, Rule};
pub use exchange::Kept;
pub use fault::EditError;
pub use laws::{
    bit_of_one_bit, cut_keeps_other_ticks, cuts_commute, deglitch_takes_short_runs_out,
    derived_beside_first_operand, effect_is_sound, force_is_local, invert_twice, last_force_counts,
    operators_have_their_tables, remove_and_back, rename_and_back, shift_and_back,
    shift_fills_gaps,
};
pub use plans::{inverse_of, inverse_of_block};
pub use record::Record;
pub use reverting::revert;
