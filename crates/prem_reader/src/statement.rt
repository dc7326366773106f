//! The reader of statements: one token after the other, without recursion over the text.
mod change;
mod inside;
mod nesting;
mod point;
mod reader;
mod row;
mod slot;

pub use inside::{behind, go_on};
pub use nesting::is_past;
pub use point::{Around, Going, Header, Point, Purpose, Reading, Row, Turn, boxed};
pub use reader::turn;
pub use row::{name_at, place_at, value_at};
pub use slot::{
    Slot, fits, is_comma, is_equal, is_left_brace, is_left_bracket, is_left_parenthesis,
    is_right_brace, is_right_parenthesis, is_semicolon,
};
