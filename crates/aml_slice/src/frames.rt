//! An open call.

use aml_resume::Activation;

/// A call that is open: the actor on which its method runs, and where the method stands.
#[derive(Drop)]
pub(crate) struct Frame {
    pub(crate) actor: u16,
    pub(crate) method: u16,
    pub(crate) activation: Activation,
}
