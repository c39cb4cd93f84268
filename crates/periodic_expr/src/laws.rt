//! Laws of the texts of expressions.
ghost use Rattle.periodic_expr.specs.Laws.{ExprsAreRead, PrintedIsRead};

/// Reading by the scan is reading by the grammar: a text says just the expression that the grammar
/// makes of it, its syntax fault stands at the length of its longest front that can be continued,
/// and every other fault is the one of the least place in its tree.
pub fn exprs_are_read()
    ensures { ExprsAreRead }
{}

/// The canonical text of an expression is read as the expression.
pub fn printed_is_read()
    ensures { PrintedIsRead }
{}
