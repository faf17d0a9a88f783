//! Expressions.

use crate::ident::Ident;
use crate::kinds::{BinaryOperator, Builtin, UnaryOperator};

/// An expression. Each offset is that of the token's first byte; brackets aren't kept.
#[derive(Drop)]
pub enum Expr {
    /// A number, 0 to 9223372036854775807.
    Number {
        at: u32,
        value: i64,
    },
    /// A name.
    Name(Ident),
    /// `self`, `code` or `mask`.
    Builtin {
        at: u32,
        builtin: Builtin,
    },
    /// An operator before its operand; the offset is the operator's.
    Unary {
        at: u32,
        operator: UnaryOperator,
        operand: Box<Expr>,
    },
    /// An operator between its operands.
    Binary {
        operator: BinaryOperator,
        left: Box<Expr>,
        right: Box<Expr>,
    },
}
