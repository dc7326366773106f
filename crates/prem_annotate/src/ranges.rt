//! The ranges of parameters, inferred from the arguments of all calls: a caller stands behind those that it calls, so
//! functions are looked at from the last to the first.
mod inferring;
mod outlook;
mod slots;

pub use inferring::infer;
pub use outlook::{Outlook, known_parameters, regard};
pub use slots::{ParameterRange, add_all, empty_rows, least_around};
