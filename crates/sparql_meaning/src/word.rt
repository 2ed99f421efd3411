//! The words of a query, and what each one that is left out belongs to.

/// What is left out of the fragment, by name.
#[derive(Clone, Copy, Debug, PartialEq, Eq)]
pub enum Feature {
    Graph,
    Dataset,
    Service,
    Describe,
    SubSelect,
    Exists,
    Bind,
    Values,
    Minus,
    Reduced,
    Having,
    GroupBy,
    SelectExpression,
    Base,
    Ask,
    Construct,
    Update,
    Aggregate,
    Function,
    Brackets,
    BlankNode,
    Double,
    LongText,
    Operator,
    Path,
    Not,
    TruthOperand,
}

/// A word of SPARQL, whose case doesn't count, save for `a`.
#[derive(Clone, Copy, Debug, PartialEq, Eq)]
pub enum Word {
    Prefix,
    Select,
    Distinct,
    Where,
    Optional,
    Union,
    Filter,
    /// `a` in lower case, which stands for rdf:type.
    A,
    True,
    False,
    Not,
    In,
    Str,
    Lang,
    Datatype,
    Bound,
    SameTerm,
    IsIri,
    IsBlank,
    IsLiteral,
    Order,
    By,
    Asc,
    Desc,
    Limit,
    Offset,
    /// A word of something that is left out.
    LeftOut(Feature),
    /// Any other word: no query of the fragment has it.
    Unknown,
}
