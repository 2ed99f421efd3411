//! The words of a query and of what is left out, in capitals.

ghost use Rattle.std.specs.Prelude.{◌≡◌, ◌∷◌, [], map};
ghost use Rattle.std.specs.Char.{to_ascii_uppercase};
ghost use Rattle.std.specs.Str.{bytes_eq};
ghost use Rattle.sparql_meaning.specs.Words.{word_in, word_of, words};
ghost use Rattle.sparql_tokens.specs.Table.{view};

use sparql_meaning::{Feature, Word};

pub(crate) struct Row {
    capitals: &'static str,
    word: Word,
}

static WORDS: [Row; 103] = [
    Row {
        capitals: "PREFIX",
        word: Word::Prefix,
    },
    Row {
        capitals: "SELECT",
        word: Word::Select,
    },
    Row {
        capitals: "DISTINCT",
        word: Word::Distinct,
    },
    Row {
        capitals: "WHERE",
        word: Word::Where,
    },
    Row {
        capitals: "OPTIONAL",
        word: Word::Optional,
    },
    Row {
        capitals: "UNION",
        word: Word::Union,
    },
    Row {
        capitals: "FILTER",
        word: Word::Filter,
    },
    Row {
        capitals: "TRUE",
        word: Word::True,
    },
    Row {
        capitals: "FALSE",
        word: Word::False,
    },
    Row {
        capitals: "NOT",
        word: Word::Not,
    },
    Row {
        capitals: "IN",
        word: Word::In,
    },
    Row {
        capitals: "STR",
        word: Word::Str,
    },
    Row {
        capitals: "LANG",
        word: Word::Lang,
    },
    Row {
        capitals: "DATATYPE",
        word: Word::Datatype,
    },
    Row {
        capitals: "BOUND",
        word: Word::Bound,
    },
    Row {
        capitals: "SAMETERM",
        word: Word::SameTerm,
    },
    Row {
        capitals: "ISIRI",
        word: Word::IsIri,
    },
    Row {
        capitals: "ISURI",
        word: Word::IsIri,
    },
    Row {
        capitals: "ISBLANK",
        word: Word::IsBlank,
    },
    Row {
        capitals: "ISLITERAL",
        word: Word::IsLiteral,
    },
    Row {
        capitals: "ORDER",
        word: Word::Order,
    },
    Row {
        capitals: "BY",
        word: Word::By,
    },
    Row {
        capitals: "ASC",
        word: Word::Asc,
    },
    Row {
        capitals: "DESC",
        word: Word::Desc,
    },
    Row {
        capitals: "LIMIT",
        word: Word::Limit,
    },
    Row {
        capitals: "OFFSET",
        word: Word::Offset,
    },
    Row {
        capitals: "GRAPH",
        word: Word::LeftOut(Feature::Graph),
    },
    Row {
        capitals: "FROM",
        word: Word::LeftOut(Feature::Dataset),
    },
    Row {
        capitals: "NAMED",
        word: Word::LeftOut(Feature::Dataset),
    },
    Row {
        capitals: "SERVICE",
        word: Word::LeftOut(Feature::Service),
    },
    Row {
        capitals: "DESCRIBE",
        word: Word::LeftOut(Feature::Describe),
    },
    Row {
        capitals: "EXISTS",
        word: Word::LeftOut(Feature::Exists),
    },
    Row {
        capitals: "BIND",
        word: Word::LeftOut(Feature::Bind),
    },
    Row {
        capitals: "VALUES",
        word: Word::LeftOut(Feature::Values),
    },
    Row {
        capitals: "UNDEF",
        word: Word::LeftOut(Feature::Values),
    },
    Row {
        capitals: "MINUS",
        word: Word::LeftOut(Feature::Minus),
    },
    Row {
        capitals: "REDUCED",
        word: Word::LeftOut(Feature::Reduced),
    },
    Row {
        capitals: "HAVING",
        word: Word::LeftOut(Feature::Having),
    },
    Row {
        capitals: "GROUP",
        word: Word::LeftOut(Feature::GroupBy),
    },
    Row {
        capitals: "AS",
        word: Word::LeftOut(Feature::SelectExpression),
    },
    Row {
        capitals: "BASE",
        word: Word::LeftOut(Feature::Base),
    },
    Row {
        capitals: "ASK",
        word: Word::LeftOut(Feature::Ask),
    },
    Row {
        capitals: "CONSTRUCT",
        word: Word::LeftOut(Feature::Construct),
    },
    Row {
        capitals: "INSERT",
        word: Word::LeftOut(Feature::Update),
    },
    Row {
        capitals: "DELETE",
        word: Word::LeftOut(Feature::Update),
    },
    Row {
        capitals: "LOAD",
        word: Word::LeftOut(Feature::Update),
    },
    Row {
        capitals: "CLEAR",
        word: Word::LeftOut(Feature::Update),
    },
    Row {
        capitals: "DROP",
        word: Word::LeftOut(Feature::Update),
    },
    Row {
        capitals: "CREATE",
        word: Word::LeftOut(Feature::Update),
    },
    Row {
        capitals: "ADD",
        word: Word::LeftOut(Feature::Update),
    },
    Row {
        capitals: "MOVE",
        word: Word::LeftOut(Feature::Update),
    },
    Row {
        capitals: "COPY",
        word: Word::LeftOut(Feature::Update),
    },
    Row {
        capitals: "WITH",
        word: Word::LeftOut(Feature::Update),
    },
    Row {
        capitals: "COUNT",
        word: Word::LeftOut(Feature::Aggregate),
    },
    Row {
        capitals: "SUM",
        word: Word::LeftOut(Feature::Aggregate),
    },
    Row {
        capitals: "MIN",
        word: Word::LeftOut(Feature::Aggregate),
    },
    Row {
        capitals: "MAX",
        word: Word::LeftOut(Feature::Aggregate),
    },
    Row {
        capitals: "AVG",
        word: Word::LeftOut(Feature::Aggregate),
    },
    Row {
        capitals: "SAMPLE",
        word: Word::LeftOut(Feature::Aggregate),
    },
    Row {
        capitals: "GROUP_CONCAT",
        word: Word::LeftOut(Feature::Aggregate),
    },
    Row {
        capitals: "LANGMATCHES",
        word: Word::LeftOut(Feature::Function),
    },
    Row {
        capitals: "IRI",
        word: Word::LeftOut(Feature::Function),
    },
    Row {
        capitals: "URI",
        word: Word::LeftOut(Feature::Function),
    },
    Row {
        capitals: "BNODE",
        word: Word::LeftOut(Feature::Function),
    },
    Row {
        capitals: "RAND",
        word: Word::LeftOut(Feature::Function),
    },
    Row {
        capitals: "ABS",
        word: Word::LeftOut(Feature::Function),
    },
    Row {
        capitals: "CEIL",
        word: Word::LeftOut(Feature::Function),
    },
    Row {
        capitals: "FLOOR",
        word: Word::LeftOut(Feature::Function),
    },
    Row {
        capitals: "ROUND",
        word: Word::LeftOut(Feature::Function),
    },
    Row {
        capitals: "CONCAT",
        word: Word::LeftOut(Feature::Function),
    },
    Row {
        capitals: "STRLEN",
        word: Word::LeftOut(Feature::Function),
    },
    Row {
        capitals: "UCASE",
        word: Word::LeftOut(Feature::Function),
    },
    Row {
        capitals: "LCASE",
        word: Word::LeftOut(Feature::Function),
    },
    Row {
        capitals: "ENCODE_FOR_URI",
        word: Word::LeftOut(Feature::Function),
    },
    Row {
        capitals: "CONTAINS",
        word: Word::LeftOut(Feature::Function),
    },
    Row {
        capitals: "STRSTARTS",
        word: Word::LeftOut(Feature::Function),
    },
    Row {
        capitals: "STRENDS",
        word: Word::LeftOut(Feature::Function),
    },
    Row {
        capitals: "STRBEFORE",
        word: Word::LeftOut(Feature::Function),
    },
    Row {
        capitals: "STRAFTER",
        word: Word::LeftOut(Feature::Function),
    },
    Row {
        capitals: "YEAR",
        word: Word::LeftOut(Feature::Function),
    },
    Row {
        capitals: "MONTH",
        word: Word::LeftOut(Feature::Function),
    },
    Row {
        capitals: "DAY",
        word: Word::LeftOut(Feature::Function),
    },
    Row {
        capitals: "HOURS",
        word: Word::LeftOut(Feature::Function),
    },
    Row {
        capitals: "MINUTES",
        word: Word::LeftOut(Feature::Function),
    },
    Row {
        capitals: "SECONDS",
        word: Word::LeftOut(Feature::Function),
    },
    Row {
        capitals: "TIMEZONE",
        word: Word::LeftOut(Feature::Function),
    },
    Row {
        capitals: "TZ",
        word: Word::LeftOut(Feature::Function),
    },
    Row {
        capitals: "NOW",
        word: Word::LeftOut(Feature::Function),
    },
    Row {
        capitals: "UUID",
        word: Word::LeftOut(Feature::Function),
    },
    Row {
        capitals: "STRUUID",
        word: Word::LeftOut(Feature::Function),
    },
    Row {
        capitals: "MD5",
        word: Word::LeftOut(Feature::Function),
    },
    Row {
        capitals: "SHA1",
        word: Word::LeftOut(Feature::Function),
    },
    Row {
        capitals: "SHA256",
        word: Word::LeftOut(Feature::Function),
    },
    Row {
        capitals: "SHA384",
        word: Word::LeftOut(Feature::Function),
    },
    Row {
        capitals: "SHA512",
        word: Word::LeftOut(Feature::Function),
    },
    Row {
        capitals: "COALESCE",
        word: Word::LeftOut(Feature::Function),
    },
    Row {
        capitals: "IF",
        word: Word::LeftOut(Feature::Function),
    },
    Row {
        capitals: "STRLANG",
        word: Word::LeftOut(Feature::Function),
    },
    Row {
        capitals: "STRDT",
        word: Word::LeftOut(Feature::Function),
    },
    Row {
        capitals: "ISNUMERIC",
        word: Word::LeftOut(Feature::Function),
    },
    Row {
        capitals: "REGEX",
        word: Word::LeftOut(Feature::Function),
    },
    Row {
        capitals: "SUBSTR",
        word: Word::LeftOut(Feature::Function),
    },
    Row {
        capitals: "REPLACE",
        word: Word::LeftOut(Feature::Function),
    },
];

fn words() -> &'static [Row]
    ensures { map view result.now ≡ words }
{
    &WORDS
}

// Whether the characters are these capitals, without regard to case.
fn is_spelled(capitals: &[u8], chars: &[char]) -> bool
    ensures { result ≡ bytes_eq capitals.now (map to_ascii_uppercase chars.now) }
{
    let Some((a, capitals)) = capitals.split_first() else {
        return chars.is_empty()
    };
    let Some((c, chars)) = chars.split_first() else {
        return false
    };
    *a as u32 == c.to_ascii_uppercase() as u32 && is_spelled(capitals, chars)
}

fn word_in(rows: &[Row], chars: &[char]) -> Word
    ensures { result ≡ word_in (map view rows.now) (map to_ascii_uppercase chars.now) }
{
    for row in rows {
        if is_spelled(row.capitals.as_bytes(), chars) {
            return row.word;
        }
    }
    Word::Unknown
}

fn is_lower_a(chars: &[char]) -> bool
    ensures { result ≡ bytes_eq chars.now (97 ∷ []) }
{
    let Some((c, chars)) = chars.split_first() else {
        return false
    };
    *c == 'a' && chars.is_empty()
}

/// Which word these characters are, without regard to case but for `a`.
#[tactic(auto, unfolding(sparql_meaning::specs::Words::word_of))]
pub(crate) fn word_of(chars: &[char]) -> Word
    ensures { result ≡ word_of chars.now }
{
    if is_lower_a(chars) {
        Word::A
    } else {
        word_in(words(), chars)
    }
}
