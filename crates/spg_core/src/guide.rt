use spg_opclass::{Chosen, OpClass, Parted};

/// What decides the next section of an insert.
#[derive(Drop)]
pub(crate) enum Guide<'a, O: OpClass> {
    /// The class, which is asked where the insert stands.
    Class(&'a O),
    /// What the class chose for a copy of the inner tuple where the insert stands.
    Chosen(&'a Chosen<O>),
    /// How the class divided a copy of the values that are divided there. None where the class has no
    /// say.
    Parted(Option<&'a Parted<O>>),
}
