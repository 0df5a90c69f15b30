//! A transaction in slices: a control is what is left of a transaction, and a slice runs it on the one
//! actor where it stands, up to the first moment at which it calls or returns to another actor, or ends.
//! Controls hold no reference, so they can be sent from actor to actor, and all the memory that they will
//! ever need. Contracts see one as the rest of its transaction (`specs/Controls.antt`); how it begins and
//! what a slice makes of it are functions (`specs/Slicing.antt`), and what these mean are laws
//! (`specs/Wholes.antt`, `specs/Moments.antt`; of transactions that only read, `specs/Readers.antt`).
#![tactic(auto)]

mod allowances;
mod controls;
mod frames;
mod laws;
mod running;
mod saved;
mod slices;
mod starts;

pub use aml_check::Checked;
pub use controls::Control;
pub use laws::{
    each_slice, one_moment, readers_leave, slices_add_up, slices_finish, transactions_begin,
};
pub use slices::slice;
