// The table of ranges, on ranges as the analysis keeps them.
ghost use Rattle.std.specs.Prelude.{◌≡◌, ◌≤ℤ◌, pos, negsuc};
ghost use Rattle.prem_word.specs.Ranges.{IsRange, whole, converted, range_of_op};
ghost use Rattle.prem_ranges.specs.RangeOf.{type_range, unary_range};
ghost use Rattle.prem_analysis.specs.Ranging.View.{span_of, row_span};

use crate::ranging::range::Range;
use prem_syntax::{Ty, UnOp};
use prem_word::{
    BinOp, Kind, Range as Row, flip, range_add, range_and, range_div, range_mul, range_or,
    range_rem, range_shl, range_shr, range_sub, range_xor,
};

/// The range as the table of ranges has it.
pub fn table_range(r: Range) -> Row
    ensures { row_span result ≡ span_of r }
{
    Row { lo: r.lo, hi: r.hi }
}

fn bounded(r: Row) -> Range
    requires least { negsuc 2147483647 ≤ℤ r.lo }
    requires greatest { r.hi ≤ℤ pos 4294967295 }
    ensures { span_of result ≡ row_span r }
{
    Range { lo: r.lo, hi: r.hi }
}

/// The numbers of a kind.
pub fn whole_range(k: Kind) -> Range
    ensures { span_of result ≡ whole k }
{
    match k {
        Kind::Int => Range {
            lo: -2147483648,
            hi: 2147483647,
        },
        Kind::Unsigned => Range {
            lo: 0,
            hi: 4294967295,
        },
    }
}

/// The range of the values in a kind.
pub fn convert(k: Kind, r: Range) -> Range
    ensures span { span_of result ≡ converted k (span_of r) }
    ensures kept { IsRange k (span_of result) }
{
    bounded(prem_word::convert(table_range(r), k))
}

fn row(op: BinOp, k: Kind, a: Row, b: Row) -> Row
    ensures { row_span result ≡ range_of_op op k (row_span a) (row_span b) }
{
    match op {
        BinOp::Add => range_add(a, b, k),
        BinOp::Sub => range_sub(a, b, k),
        BinOp::Mul => range_mul(a, b, k),
        BinOp::Div => range_div(a, b, k),
        BinOp::Rem => range_rem(a, b, k),
        BinOp::Shl => range_shl(a, b, k),
        BinOp::Shr => range_shr(a, b, k),
        BinOp::And => range_and(a, b, k),
        BinOp::Xor => range_xor(a, b, k),
        BinOp::Or => range_or(a, b, k),
        _ => Row { lo: 0, hi: 1 },
    }
}

/// The range of an operator in a kind.
pub fn operator(op: BinOp, k: Kind, a: Range, b: Range) -> Range
    requires left { IsRange k (span_of a) }
    requires right { IsRange k (span_of b) }
    ensures { span_of result ≡ range_of_op op k (span_of a) (span_of b) }
{
    bounded(row(op, k, table_range(a), table_range(b)))
}

fn unary_row(op: UnOp, k: Kind, a: Row) -> Row
    requires { IsRange k (row_span a) }
    ensures { row_span result ≡ unary_range op k (row_span a) }
{
    match op {
        UnOp::Neg => range_sub(Row { lo: 0, hi: 0 }, a, k),
        UnOp::Flip => flip(a, k),
        UnOp::Not => Row { lo: 0, hi: 1 },
    }
}

/// The range of a prefix in a kind.
pub fn unary(op: UnOp, k: Kind, a: Range) -> Range
    requires { IsRange k (span_of a) }
    ensures { span_of result ≡ unary_range op k (span_of a) }
{
    bounded(unary_row(op, k, table_range(a)))
}

/// The numbers of a type.
pub fn range_of_type(ty: Ty) -> Range
    ensures { span_of result ≡ type_range ty }
{
    match ty {
        Ty::Void | Ty::Int => whole_range(Kind::Int),
        Ty::Unsigned => whole_range(Kind::Unsigned),
        Ty::Short => Range {
            lo: -32768,
            hi: 32767,
        },
        Ty::Ushort => Range { lo: 0, hi: 65535 },
        Ty::Schar => Range { lo: -128, hi: 127 },
        Ty::Uchar => Range { lo: 0, hi: 255 },
    }
}
