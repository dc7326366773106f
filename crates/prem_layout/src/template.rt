//! The code of each construct of the language, as pieces.
