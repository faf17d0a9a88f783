//! The kinds of values, and the operators and orders of the language.

/// What a variable or a parameter can hold.
#[derive(Clone, Copy)]
pub enum Kind {
    /// A number.
    Int,
    /// A thread.
    Thread,
}

/// A value that a thread has without naming it.
#[derive(Clone, Copy)]
pub enum Builtin {
    /// `self`: the thread itself.
    Itself,
    /// `code`: how the last wait ended.
    Code,
    /// `mask`: which events the last `select` found.
    Mask,
}

/// An operator with one operand.
#[derive(Clone, Copy)]
pub enum UnaryOperator {
    /// `-`
    Minus,
    /// `!`
    Not,
}

/// An operator with two operands.
#[derive(Clone, Copy)]
pub enum BinaryOperator {
    /// `||`
    Or,
    /// `&&`
    And,
    /// `==`
    Equal,
    /// `!=`
    Unequal,
    /// `<`
    Less,
    /// `<=`
    LessOrEqual,
    /// `>`
    Greater,
    /// `>=`
    GreaterOrEqual,
    /// `+`
    Plus,
    /// `-`
    Minus,
    /// `*`
    Times,
    /// `/`
    Divide,
    /// `%`
    Remainder,
}

/// What one thread can order of another.
#[derive(Clone, Copy)]
pub enum Control {
    /// `stop`: it ends.
    Stop,
    /// `suspend`: it doesn't go on until it is resumed.
    Suspend,
    /// `resume`: it may go on again.
    Resume,
}
