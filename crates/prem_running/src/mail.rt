//! The answer to `mail SET RUN MAIL`: a set is compiled and run with words that its devices put, and the lists of input words are told with the
//! report.
mod answer;
mod files;
mod laws;
mod text;

pub use answer::mail_answer;
pub use laws::deliveries_are_read_back;
