// Laws of the definitions in specs/.
ghost use Rattle.nt_typed_stmts.specs.Laws.{NoStatementFault, OneStatement, StatementsFit};

/// A statement is bound to at most one typed statement.
pub fn one_statement()
    ensures { OneStatement }
{}

/// A statement that is bound to one has no fault.
pub fn no_statement_fault()
    ensures { NoStatementFault }
{}

/// A typed statement meets what a well-formed design asks of statements in its place.
pub fn statements_fit()
    ensures { StatementsFit }
{}
